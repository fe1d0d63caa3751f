//! The foot, short for footprint, of some changes: the needs that they touch, found among the versions of rows over a root and its members' changes.
//!
//! Which needs are touched, what covers one, and the laws of both stand in `clr_needs`; its types and laws are handed on. Members are sets of changes
//! over a root's rows. The program uses `Scene::new` and `first_broken` for the one member that a command is, `Scene::new`, `life`, `touched_needs`
//! and `servers` for checks, and `Scene::new`, `ties`, `part`, `pick` and `blockers` for plans; smallest clashes take `touched_needs`, `pick` and
//! `blockers`. Which members are independent it tells by the needs that involve each, and not pair by pair by `independent`.
//!
//! - `Scene::new` [`model`, `apart`] takes the members, or refuses exactly a cell that two of them change, naming the least one and its first two
//!   members; it files the rows that they bring by their spots. `life`: whether the version of a name stands always, with a member or without one.
//! - `touched_needs`: all needs that the changes touch, and only those, ascending, each once. `servers`: just the versions that serve a possible
//!   need, ascending. Neither copies a row or goes over the root: rows are found by a finder. `is_server`: whether one version serves it. `blockers`:
//!   just the members that bring a subject of a possible need or take a version away that serves it.
//! - `pick`, of a possible need: the least version that covers it alone; else, of the first member that takes a serving version away and brings
//!   another, the least that goes and the least that comes; none exactly where nothing covers the need. The servers are looked at cell by cell, and
//!   are all listed only where no witness stands among the first.
//! - `independent`, of two members: whether no possible need, touched or not, involves both by the life of a subject or of a version that serves;
//!   exact both ways, memory aside. `needs_involving`, of one member: just the possible needs that involve it, ascending, each once. `ties`, of one
//!   member: needs that involve it, among them all by which it touches something. `changer`: the first member that changes a cell.
//! - `part`: the scene of the members at some positions, over the same rules, rows and finder, memory aside. `len`: how many members there are, at
//!   most `MOST_MEMBERS`.
//! - `first_broken`, for one member whose changes differ from the root's rows: none exactly where no need is broken after its changes but those that
//!   were broken before, with the same rows, and else the least need that they break anew. Under a rule by which no row serves,
//!   needs that stand behind one of two new rows are left out. By `first_broken_is_listed_first` that is the first of the newly
//!   broken needs of the changed content.
#![tactic(auto)]

mod asks;
mod blockers;
mod breaks;
mod first_servers;
mod independence;
mod near;
mod new_rows;
mod parts;
mod picks;
mod scene_versions;
mod scenes;
mod servers;
mod serving;
mod ties;
mod touches;

pub use clr_needs::{
    Life, MOST_MEMBERS, Need, SceneFault, VersionId, covered_members_keep_rules,
    first_broken_is_listed_first, positions_stand_for_names, uncovered_needs_are_broken,
};
pub use scenes::Scene;
pub use ties::Ties;
