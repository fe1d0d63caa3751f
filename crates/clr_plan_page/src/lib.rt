//! The report of a plan: one page of hypertext for a reader who has no shell.
//!
//! - `plan_report` [`report`]: all that is read on the page is exactly what a definition prescribes, memory aside; only colours of names, and which
//!   texts are bold, are left open. The page begins with the word for what the plan says, in the tone of the plan, with who is to be merged into what,
//!   and with the map of the plan. Then it says why: what serves each need; or the cause, with exactly the rows that it names, and one trial of each
//!   remedy that can be tried. Then come the designs with what each changes, and their smallest clashes, each with its reason; and, if the root breaks
//!   needs already, how many of each rule. It ends with the command that prints the lines of the plan, and with these lines. No picture but the map is
//!   on the page; each other text is escaped.
//! - [`back`]: the office is as it was; what is told of a remedy was tried on it.
//! - `commands_of_reports`: the commands of `clr_office` that a report tells.
#![tactic(auto)]

mod clashes;
mod designs;
mod feet;
mod heads;
mod needs;
mod remedies;
mod reports;

pub use clr_plan_map::plan_map;
pub use feet::commands_of_reports;
pub use reports::plan_report;
