//! The answers of the second program that lead back into a database: the edits that take LIVE of one office text to LIVE of another, as SQL or as CSV.
//!
//! - `answer_edits`: the edits as CSV, each with the row as it was before it (`IsEditsAnswer`).
//! - `answer_sql_edits`: the same as a transaction of PostGIS or of SpatiaLite, in which each edit is guarded by the row as it was (`IsSqlEditsAnswer`).
//! - `answer_cut`: an office text with the rows of layers put in, marked as a cut (`IsCutAnswer`).
//! - `answer_proposal`: SQL that proposes a cut around the designs of an office text (`IsProposalAnswer`).
#![tactic(auto)]

mod cuts;
mod edits;
mod forms;
mod proposals;
mod refusals;

pub use cuts::answer_cut;
pub use edits::{answer_edits, answer_sql_edits};
pub use forms::EditsForm;
pub use proposals::answer_proposal;
