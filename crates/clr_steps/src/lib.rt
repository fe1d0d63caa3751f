//! Commands over workspaces: what each is answered, and what it leaves.
//!
//! Definitions of commands, replies, steps, runs and quiet commands, and the laws that stand on
//! them.
//!
//! - `steps_by_position`: for all twelve commands, a command by name is the operation of the tree
//!   by position.
//! - `steps_keep_offices_sound`: every rule goes on holding in LIVE and in each kept workspace, if
//!   it held there; what LIVE breaks after a step it broke before, with the same rows, and what any
//!   kept content breaks, one of them broke before; rows go on fitting.
//! - `quiet_commands_leave_the_merge_set`: a quiet command that is no merge or refresh of a member
//!   leaves the root and the members.
//! - `answers_make_a_run`, `none_is_unheld_where_rules_hold`, `changes_after_commands` and
//!   `replies_of_examples`: runs that find no memory, the search for a workspace that breaks a
//!   rule, the changes of one workspace, and runs that are computed.
#![tactic(auto)]

mod commands;
mod laws;

pub use clr_change::{Edit, EditFault, Edits};
pub use clr_rules::Broken;
pub use clr_workspaces::Keep;
pub use commands::{Command, Reply};
pub use laws::{
    answers_make_a_run, changes_after_commands, none_is_unheld_where_rules_hold,
    quiet_commands_leave_the_merge_set, replies_of_examples, steps_by_position,
    steps_keep_offices_sound,
};
