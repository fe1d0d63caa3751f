//! Edits of single rows, and why one can't be made.

use clr_rows::{CellId, List, Row, RowFault};

/// An edit of a content.
#[derive(Debug, Drop)]
pub enum Edit {
    /// A new row at a cell that has none.
    Insert(CellId, Row),
    /// Another row at a cell that has one.
    Update(CellId, Row),
    /// No row at a cell that has one.
    Delete(CellId),
}

/// Edits in the order in which they are made.
pub type Edits = List<Edit>;

/// Why an edit can't be made.
#[derive(Clone, Copy, Debug, PartialEq, Eq)]
pub enum EditFault {
    /// No memory was found.
    OutOfMemory,
    /// The row doesn't fit the schema, or the cell of a deletion names no row.
    Row(RowFault),
    /// An insertion at a cell that has a row.
    KeyTaken,
    /// An update or a deletion at a cell that has none.
    NoRow,
}
