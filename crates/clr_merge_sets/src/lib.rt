//! What checks and plans read of a merge set, a root and its members, in an office; and what a plan is.
//!
//! - `read_changes`, `read_member_changes` [`members`, `names`]: what each member changed, in their order. They refuse no name: one that no
//!   workspace has changes nothing. `row_of_version` is the row of a version of a merge set whose changes were read.
//! - `name_fault` [`fault`, `admitted`]: the first test of names that fails, or none. Each test is
//!   made over the whole list before the next: the root stands and is kept, no name stands twice,
//!   each is that of a workspace, and each is a child of the root. The answer is never want of
//!   memory.
//! - `read_merge_set` [`parts`, `fault`, `admitted`]: over the changes of the members, which aren't copied, where no test of names and no
//!   test for conflicts fails, the rows of the root, which aren't copied either; else the first test that fails, or want of memory where no
//!   test of names does. `read_merge_set_of` does so of changes that stand in different places. `fault_without_memory` is the answer where
//!   no memory was found for the changes.
//! - `MergeSetParts::scene` [`scene`, `shared`]: the scene of those rows and changes, or the least cell
//!   that two members change, or want of memory. `verdict_of` gives such a fault as a verdict.
//! - `certificate_fault` [`fault`, `admitted`]: the first test of names that a certificate fails, or none: those of `name_fault`, and behind
//!   the second that of each precedence the earlier name stands before the later one in the list of members. `position_pairs`: who goes before
//!   whom among the members of a certificate, by position; `goes_before` asks it.
//! - `rows_of_root`: the rows of a root. `texts_of_names`: the texts of names; `owned_names`: names of texts. `names_at`, `add_names_at`: the names of members
//!   at positions of their list. `is_child`: whether a name is that of a child of a root.
//! - `Plan` is what a planner says: a certificate, a verdict with an order of members, or a test of names that fails. `is_cleared` and
//!   `is_out_of_memory` tell which of its answers a plan is.
#![tactic(auto)]

mod certificate_faults;
mod member_changes;
mod member_names;
mod merge_set_parts;
mod merge_sets;
mod name_lists;
mod name_tests;
mod plans;
mod precedence_pairs;
mod repeats;
mod scene_faults;

pub use certificate_faults::certificate_fault;
pub use member_changes::{read_changes, read_member_changes, row_of_version, rows_of_root};
pub use member_names::{add_names_at, names_at, owned_names, texts_of_names};
pub use merge_set_parts::MergeSetParts;
pub use merge_sets::{read_merge_set, read_merge_set_of};
pub use name_lists::NameList;
pub use name_tests::{fault_without_memory, is_child, name_fault};
pub use plans::Plan;
pub use precedence_pairs::{PositionPair, goes_before, position_pairs};
pub use scene_faults::verdict_of;
