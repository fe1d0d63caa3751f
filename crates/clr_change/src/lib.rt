//! Edits of a content, and what changes between two contents.
//!
//! - `ChangeSet::between` gives exactly the cells where two contents differ, with both rows. `get`,
//!   `len`, `cell_at`, `iter` and `rows_after` show them, in the order of cells. `set` [`ok`,
//!   `err`] sets the change of one cell, from the row before to the row after; there is none where
//!   they are the same.
//! - `stage` [`passed`, `changes`, `refused`] gives what edits change, each made over what the one
//!   before left; or the number of the first that can't be made, and why. `first_conflict` gives
//!   the least cell in conflict and the count, without memory.
#![tactic(auto)]

mod change_sets;
mod conflicts;
mod edits;
mod staging;

pub use change_sets::{ChangeSet, are_same, copy_row};
pub use conflicts::first_conflict;
pub use edits::{Edit, EditFault, Edits};
pub use staging::stage;
