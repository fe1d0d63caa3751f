//! The ways in which the base of a workspace moves.

use clr_rows::CellId;

/// Whose row a workspace has at a cell from now on.
#[derive(Clone, Copy, Debug, PartialEq, Eq)]
pub enum Keep {
    /// The parent's row.
    Parent,
    /// Its own row.
    Child,
    /// The row of its old base.
    Base,
}

/// How the base of a workspace moves.
#[derive(Clone, Copy, Debug, PartialEq, Eq)]
pub enum Rebase {
    /// The base becomes the parent's current content, and the own changes stay over it.
    Refresh,
    /// The own changes are taken over by the parent's current content and by the base.
    Merge,
    /// The base takes over the parent's row at one cell.
    OneRow(CellId, Keep),
}
