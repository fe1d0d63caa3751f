//! The smallest sets of the members of a merge set that can't be merged together.
//!
//! - `merge_clashes` [`found`, `exact`]: each member that can't be merged even alone, with the cause of its
//!   plan; of the others each two that change one cell, with the least such cell; and of those that
//!   change no cell which an earlier one changes the smallest clashes of their scene, as
//!   `AreSmallestClashes` has them. No set holds another; the members of a set can't be merged
//!   together, and without one or more of them they can. Where a test of names fails, that is the
//!   answer. Otherwise want of memory is the only refusal.
//! - `merge_clashes_of` says the same, with the same clauses, of members whose changes were read before.
//! - `sets_decide_plans`, which `merge_clashes` [`exact`] says of its own answer: a plan of some members isn't
//!   cleared where they hold a set, and is where they hold none and all of them were looked at.
//! - `all_are_looked_at`: where no cell is changed by two members, all are looked at.
//! - `clashes_decide_plans`: of members without conflicts and shared cells, the plan of some is cleared
//!   exactly where they hold none of the smallest clashes of their scene.
//! - `sets_at`: the change sets at some positions. `members_beside`: the members that weren't looked at with the others.
#![tactic(auto)]

mod beside;
mod clash_sets;
mod clashes;
mod laws;
mod lone;
mod looked;
mod needs;
mod pairs;
mod places;
mod shared_cells;

pub use beside::members_beside;
pub use clash_sets::{MergeClash, MergeClashes};
pub use clashes::{merge_clashes, merge_clashes_of};
pub use laws::{all_are_looked_at, clashes_decide_plans, sets_decide_plans};
pub use places::sets_at;
