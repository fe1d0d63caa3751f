//! Commands, and the replies to them.

use clr_change::{EditFault, Edits};
use clr_rows::{CellId, Words};
use clr_rules::Broken;
use clr_workspaces::Keep;

/// A command of the user of one workspace. It is performed whole or not at all.
#[derive(Debug, Drop)]
pub enum Command {
    /// Makes a workspace of this name under a parent, with the parent's content.
    Create { name: Words, parent: Words },
    /// Takes a workspace without children away.
    Remove { ws: Words },
    /// Makes edits in a workspace, one after another.
    Apply { ws: Words, edits: Edits },
    /// Sets a savepoint of this name, which holds the whole content of the workspace.
    Mark { ws: Words, name: Words },
    /// Takes a savepoint away.
    Unmark { ws: Words, name: Words },
    /// Sets the content back to that of a savepoint. The later savepoints go.
    RollTo { ws: Words, name: Words },
    /// Sets the content back to the base. All savepoints go.
    RollAll { ws: Words },
    /// Takes the parent's content over, under the workspace's changes.
    Refresh { ws: Words },
    /// Writes a workspace's changes to its parent, and takes the workspace away where `remove` says
    /// so.
    Merge { ws: Words, remove: bool },
    /// Decides which row stands at one cell in conflict.
    Resolve { ws: Words, cell: CellId, keep: Keep },
    /// Keeps the workspace: from now on every rule is to hold in it.
    Hold { ws: Words },
    /// Keeps the workspace no longer: from now on no rule need hold in it.
    Release { ws: Words },
}

/// The reply to a command: it is done, or it is refused for the first reason that applies.
#[derive(Clone, Copy, Debug, PartialEq, Eq)]
pub enum Reply {
    Done,
    /// No memory was found. This reply may come in place of any other.
    OutOfMemory,
    /// No workspace has the name.
    NoWorkspace,
    /// The name of the new workspace or savepoint is taken.
    NameTaken,
    /// The name of the new workspace or savepoint isn't good.
    BadName,
    /// The command isn't for LIVE, which is never removed, given savepoints, rolled back,
    /// refreshed, merged, resolved, held or released.
    LiveIsFixed,
    /// The workspace has children.
    NotLeaf,
    /// There would be too many workspaces, too deep a tree, or too many savepoints.
    TooMany,
    /// The workspace has no savepoint of the name.
    NoSavepoint,
    /// The mark of a child stands behind the savepoint.
    SavepointHeld,
    /// An edit can't be made: the number of the first such edit, counted from 1, and why.
    BadEdit(usize, EditFault),
    /// Cells are in conflict: the least of them, and how many there are.
    Conflict(CellId, usize),
    /// The cell isn't in conflict.
    NotInConflict,
    /// The content that would stand breaks a rule: its least broken need.
    RuleBroken(Broken),
}
