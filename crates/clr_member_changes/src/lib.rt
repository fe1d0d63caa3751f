//! A root and its members by name, with what each member changes: what is planned, told and drawn of a merge set. No office is named.
//!
//! - `MemberChanges`: the root, the members and their change sets. `changer_of`, `row_after`, `row_before` and `new_row` look into the
//!   change sets, and `standing` says where a version of a row stands.
//! - `count_rows`: exactly how many rows a change set adds, changes and removes.
//! - `member_name`: the name of the member at a position, or no bytes past the end.
#![tactic(auto)]

mod counts;
mod member_changes;
mod names;
mod standings;

pub use counts::{Counts, count_rows};
pub use member_changes::MemberChanges;
pub use names::member_name;
pub use standings::Standing;
