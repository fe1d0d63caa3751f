//! A plan in sentences: what it answers, the cause of a no with its rows, where they meet and what serves there, what each member changes,
//! and what serves each need until when.
//!
//! Each text is exactly the one that a definition prescribes, memory aside:
//!
//! - `plan_sentences`: all sentences of what `plan` answers, each a line.
//! - `Setting::cause_words`: the cause of a no; each row that it tells is the version that the cause names, and stands where that stands.
//! - `Setting::old_words`: that a need is an old error, broken in the root too, with who changes which row of it. `Setting::old_errors`: the needs that
//!   the root breaks.
//! - `Setting::reason`: why members are blocked, without the rows; no member's changes are looked at.
//! - `Setting::need_words`: a need of a certificate, with the rows that serve it.
//! - `add_label`, `Setting::cell_label`: a cell, as `main 20`.
//! - `Setting` tells what an office and members are about.
#![tactic(auto)]

mod cause_sentences;
mod labels;
mod need_causes;
mod old_errors;
mod sentences;
mod served_needs;
mod server_words;
mod settings;
mod told_rows;

pub use labels::add_label;
pub use sentences::{MOST_NEEDS, plan_sentences};
pub use served_needs::NeedWords;
pub use settings::Setting;
pub use told_rows::{CauseWords, RowWords};
