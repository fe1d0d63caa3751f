//! Office texts read and written, edits and scripts read, and the lines of what an office is
//! asked for.
//!
//! Each call is that of a crate below, and its contract stands there.
#![tactic(auto)]

pub use clr_independence::independence_lines;
pub use clr_lines::{
    audit_lines, changes_lines, conflicts_lines, reply_line, rows_lines, verdict_line,
};
pub use clr_office_reports::workspaces_lines;
pub use clr_office_texts::{TextFault, read_office, write_office};
pub use clr_plan::plan_lines;
pub use clr_scripts::{RecordFault, Step, Word, read_edits, read_script};
