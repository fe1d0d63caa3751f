//! The items of an office text at which a fault can stand.

/// An item of a list of an office text, by its place from 0 in each list that it stands in; or the
/// whole text, where the fault is of no item.
#[derive(Clone, Copy, Debug, PartialEq, Eq)]
pub enum FaultyItem {
    /// The whole text.
    Whole,
    /// A table.
    Table(usize),
    /// A rule.
    Rule(usize),
    /// A row of LIVE.
    Live(usize),
    /// A workspace.
    Workspace(usize),
    /// A workspace, and a cell of its base.
    Base(usize, usize),
    /// A workspace, and a cell of its rows.
    Row(usize, usize),
    /// A workspace, and one of its marks.
    Mark(usize, usize),
    /// A workspace, one of its marks, and a cell of that savepoint.
    Saved(usize, usize, usize),
}
