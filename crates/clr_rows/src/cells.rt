//! Cells, the rows that stand at them, and what changes at one of them.

use crate::rows::Row;

/// A cell: the number of a table and a primary key in it. Cells are ordered by table, then by key.
#[derive(Clone, Copy, Debug, PartialEq, Eq, PartialOrd, Ord)]
pub struct CellId {
    pub table: u16,
    pub key: i64,
}

/// A row beside the cell that it stands at.
#[derive(Clone, Copy, Debug)]
pub struct Held<'a> {
    pub cell: CellId,
    pub row: &'a Row,
}

/// A change at a cell: the row that stood there, or none, and the row that stands there, or none.
#[derive(Debug, Drop)]
pub struct Change {
    pub before: Option<Row>,
    pub after: Option<Row>,
}
