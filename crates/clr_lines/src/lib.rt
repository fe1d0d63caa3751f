//! Lines of replies, reports and verdicts.
//!
//! - `reply_line`, `rows_lines`, `changes_lines`, `conflicts_lines`, `audit_lines`,
//!   `unheld_line`, `verdict_line`, `verdict_line_in_turn` and `unfit_line` each give the exact bytes, memory aside. `verdict_line` is for the
//!   verdict of a plan; it has the names of members and cells. `verdict_line_in_turn` is for the verdict on a certificate, and has
//!   the names of its precedences as well. `unfit_line` is for
//!   members that fail a test. `row_fault_word` is the name of a row's fault.
//! - `add_cell`, `add_need` and `add_workspace` [`ok`, `begun`], and `add_count` [`ok`, `err`],
//!   add their bytes to a line or to lines. If memory runs out, what stood there still stands there, and behind it at
//!   most a beginning of these bytes; of a count, nothing.
//! - `add_cell_fields` and `add_row_fields` [`added`, `whole`, `begun`] add just the fields of a cell and of a row to a record. If memory runs
//!   out, the record has at most a beginning of them beside its own.
#![tactic(auto)]

mod needs;
mod pieces;
mod reply_lines;
mod report_lines;
mod row_fields;
mod row_lines;
mod verdict_lines;

pub use pieces::{add_cell, add_count, add_need};
pub use reply_lines::{reply_line, row_fault_word};
pub use report_lines::{
    add_workspace, audit_lines, changes_lines, conflicts_lines, count_line, unheld_line,
};
pub use row_fields::{add_cell_fields, add_row_fields};
pub use row_lines::rows_lines;
pub use verdict_lines::{unfit_line, verdict_line, verdict_line_in_turn};
