//! Parts of a tree: workspaces handed in or out with whole contents.

ghost use Rattle.std.specs.Prelude.{◌≡◌};
ghost use Rattle.clr_workspace_parts.specs.Faults.{part_fault_number};

use clr_rows::{Sheet, Words};

/// A mark of a part: a savepoint with the content that it saved, or the mark of a child.
#[derive(Drop)]
pub enum MarkPart {
    Saved(Words, Sheet),
    ChildMark(Words),
}

/// A workspace other than LIVE with whole contents, outside a tree: its name and that of its
/// parent, what it took over from its parent, what it sees now, its marks in order, and whether
/// every rule is to hold in it.
#[derive(Drop)]
pub struct Part {
    pub name: Words,
    pub parent: Words,
    pub base: Sheet,
    pub current: Sheet,
    pub marks: Vec<MarkPart>,
    pub kept: bool,
}

/// Why parts make no tree: the first reason that applies.
#[derive(Clone, Copy, Debug, PartialEq, Eq)]
pub enum PartFault {
    /// No memory was found.
    OutOfMemory = 0,
    /// A name that isn't good.
    BadName = 1,
    /// The name of an earlier part, or `LIVE`.
    NameTaken = 2,
    /// The parent is neither LIVE nor an earlier part.
    NoParent = 3,
    /// More than 256 workspaces with LIVE, or more than 8 workspaces above this one.
    TooMany = 4,
    /// The marks of children aren't exactly the children, each once; or the name of a savepoint
    /// isn't good or stands twice; or there are more than 64 savepoints.
    BadMarks = 5,
}

impl PartFault {
    /// Returns the number of a fault.
    pub fn number(self) -> u8
        ensures { result ≡ part_fault_number self }
    {
        self as u8
    }
}
