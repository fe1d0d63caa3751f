//! What is printed of an office by reports and replies. Where a text is no office, or a rule doesn't hold in it, other lines stand in the
//! place of these.
//!
//! - `Output`: lines, whether something was refused, whether something found no memory; `append`,
//!   `status`. `reply_output` [`lines`, `refused`, `lost`] is the line of a reply.
//! - Reports on LIVE or a workspace, by its name: `rows_output`, `changes_output`, `conflicts_output`
//!   and `audit_output`; on all of an office: `workspaces_output`, `dump_output`, `dump_text`,
//!   `workspaces_lines`. Each is exactly the outcome that its definition says (`clr_office_reports: Outcomes`), memory
//!   aside. What `dump_text` gives is also read as the same office [`again`].
//! - `open_office` [`meant`, `answer`] gives the office of a text whose broken needs are known, or what is answered in its
//!   place; `draft_of` [`draft`, `known`, `fault`] a draft and its known needs, and `unheld_output` the line of a need that is
//!   broken and isn't known.
#![tactic(auto)]

mod offices;
mod outputs;
mod replies;
mod reports;
mod workspaces;

pub use offices::{draft_of, open_office, unheld_output};
pub use outputs::Output;
pub use replies::reply_output;
pub use reports::{
    audit_output, changes_output, conflicts_output, dump_output, dump_text, rows_output,
    workspaces_output,
};
pub use workspaces::workspaces_lines;
