//! The steps of a script: commands and reports.

use clr_rows::Names;
use clr_steps::Command;

/// What a report shows, and which names it is asked for.
#[derive(Clone, Copy, Debug, PartialEq, Eq)]
pub enum Word {
    /// The rows of a workspace, its one name.
    Show,
    /// The changes of a workspace, its one name, against its base.
    Changes,
    /// The cells of a workspace, its one name, that are in conflict with its parent.
    Conflicts,
    /// The rules that the rows of a workspace, its one name, break.
    Audit,
    /// All workspaces under LIVE, for no name.
    Workspaces,
    /// The text of the whole office, for no name.
    Dump,
    /// Whether children of LIVE can be merged in every order: the members, which are its names, none
    /// or more.
    Plan,
    /// Whether children of another workspace can be merged in every order: the first of the names
    /// is the root, and those behind it, none or more, are the members.
    PlanUnder,
    /// Whether children of LIVE can be merged in the order in which they are named: the members,
    /// which are its names, none or more.
    PlanInOrder,
    /// Whether children of another workspace can be merged in the order in which they are named: the
    /// first of the names is the root, and those behind it, none or more, are the members.
    PlanInOrderUnder,
    /// Which children of LIVE are independent, pair by pair: the members, which are its names, none or
    /// more.
    Independence,
    /// Which children of another workspace are independent, pair by pair: the first of the names is
    /// the root, and those behind it, none or more, are the members.
    IndependenceUnder,
}

/// A step of a script: a command to perform, or a report to print with the names that it is asked
/// for. `Word` says how many names each kind of report has.
#[derive(Debug, Drop)]
pub enum Step {
    Act(Command),
    Report(Word, Names),
}
