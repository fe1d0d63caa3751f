//! Texts of edits and scripts, read from CSV records.
//!
//! - `read_script` and `read_edits` give the steps and edits that the records mean, or the first
//!   fault with its record's number, memory aside.
#![tactic(auto)]

mod edits;
mod faults;
mod plain_steps;
mod record_names;
mod records;
mod script;
mod steps;

pub use edits::read_edits;
pub use faults::RecordFault;
pub use script::read_script;
pub use steps::{Step, Word};
