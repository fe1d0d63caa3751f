//! What the answers of the second program share: prints, answers over the office of a text, the members that names ask for, and their plan.
//!
//! - `Print`: a text for standard output, notes for standard error, and an ending, which gives the exit status. A print that
//!   found no memory shows no text. `refused_for`: a refusal has a status of its own if a name was asked for that nothing has.
//! - `notes_of`: the line of an office text in which a need is broken that isn't known, as notes, with a status of its own.
//! - `has_unknown`: whether no workspace has one of the names that are asked for.
//! - `answer_over_office`, `answer_over_members`: what a call prints of the office of a text, and of the members that names ask for. Behind its notes are
//!   hints at names that no workspace has, each at the workspace whose name is most like it, if one is like enough, and no others; with such a name a
//!   refusal has a status of its own (`IsHinted`).
//! - `members_asked`: the members that names ask for, which are all children of the root if there is no name (`members_or_children`).
//! - `system_of` [`named`, `no_other`]: the number of a system of coordinates that a text names; `print_of_no_system` says that one names none.
//!   `IsInSystem`: what is printed in a system, if one is given.
//! - `plan_members`: the plan of members, with what it promises (`IsPlanned`).
#![tactic(auto)]

mod openings;
mod plans;
mod prints;
mod systems;
mod unknown_names;

pub use clr_asked_members::members_asked;
pub use clr_office::{RunFault, Words, hint_lines};
pub use openings::{answer_over_members, answer_over_office};
pub use plans::plan_members;
pub use prints::{Ending, Print, notes_of};
pub use systems::{print_of_no_system, system_of};
pub use unknown_names::has_unknown;
