//! Which needs some changes touch, what covers one, and who breaks one that nothing covers, in
//! terms of settings and not of how rows are found.
//!
//! A setting is rules, the rows of a root, and what each member has where it changes a cell. A
//! member is anything that can be told from others: a change set by its position, or a name.
//!
//! - `Settings`, `Needs` and `Covers` in specs/: versions and their lives, possible and touched
//!   needs, and the witnesses that cover one. `Picks`: the witnesses that a planner names, and the
//!   members that break a need. `Independence`: members that no possible need ties. `Members` and
//!   `Parts`: change sets as members, and some of them.
//! - `covered_members_break_no_more`: where no cell is changed by two members and each touched need is
//!   covered, the root with the changes of more members over it breaks no need but those that it
//!   breaks with fewer, whatever it broke at first. `covered_members_keep_rules`: where every rule
//!   holds in the root, it holds then with the changes of any of the members over it.
//! - `uncovered_needs_are_broken`: a touched need that nothing covers is newly broken where the
//!   changes of its blockers are over the root.
//! - `positions_stand_for_names`: members by position and by name have the same versions, with the
//!   lives of the same members, and the same possible, touched and uncovered needs, servers and
//!   covering entries. The same witnesses are picked, the same members block a need, each for
//!   itself and as a list in their order, and the same pairs are dependent.
//! - `first_broken_is_listed_first`: the least need that one change set breaks is what an audit of
//!   the changed content lists first.
#![tactic(auto)]

mod faults;
mod laws;
mod limits;
mod needs;
mod shared_cells;

pub use faults::SceneFault;
pub use laws::{
    covered_members_break_no_more, covered_members_keep_rules, first_broken_is_listed_first,
    positions_stand_for_names, uncovered_needs_are_broken,
};
pub use limits::{MOST_MEMBERS, limit_of_members};
pub use needs::{Life, Need, VersionId};
pub use shared_cells::SharedCell;
