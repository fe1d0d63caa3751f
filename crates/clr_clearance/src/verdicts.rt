//! Verdicts on members that are to be merged.

use clr_needs::Need;
use clr_rows::CellId;

/// What a check says of a root, of members that are to be merged into it, and of the entries of a
/// certificate: clear, or the first test that fails. Each test is made over the whole list before
/// the next. Members and precedences are named by position.
#[derive(Clone, Copy, Debug, PartialEq, Eq)]
pub enum Verdict {
    /// In every order in which no member is merged before one that is to be merged before it, between
    /// other work, no merge of a member meets a conflict or breaks a rule, until a command is given
    /// that isn't quiet.
    Clear,
    /// No memory was found. This verdict may come in place of any from `Conflict` on, or of a clear
    /// one.
    OutOfMemory,
    /// The root doesn't stand, or isn't kept.
    NotKept,
    /// The first member whose name stands earlier in the list.
    RepeatedMember(usize),
    /// The first precedence of the certificate, by position, whose earlier name doesn't stand before
    /// its later one in the list of members: one of them is no member's, they are one name, or they
    /// stand the other way round.
    NotBefore(usize),
    /// The first member whose name is that of no workspace.
    NoWorkspace(usize),
    /// The first member that isn't a child of the root.
    NotUnderRoot(usize),
    /// The first member in conflict with the root, its least cell in conflict, and how many there
    /// are.
    Conflict {
        member: usize,
        cell: CellId,
        count: usize,
    },
    /// The least cell that two members change, with the first two that do.
    SharedCell {
        cell: CellId,
        first: usize,
        second: usize,
    },
    /// The least touched need that no entry covers.
    Uncovered(Need),
}
