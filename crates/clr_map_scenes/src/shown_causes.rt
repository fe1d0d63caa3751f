//! What a map shows of a cause: its rows, how its place is marked, and a few words.

use clr_rows::{CellId, Place, Row};

/// A row that a cause names, and the design that lays, changes or removes it, if one does.
#[derive(Drop)]
pub struct CauseRow {
    pub cell: CellId,
    pub owner: Option<usize>,
    pub row: Row,
}

/// Where a cause is.
#[derive(Clone, Copy)]
pub struct CausePlace {
    pub place: Place,
    /// Whether a row could stand just there; else the place is near where the rows meet.
    pub is_whole: bool,
}

/// How the place of a cause is marked.
#[derive(Clone, Copy)]
pub enum Mark {
    /// By a ring round the place.
    Ring(CausePlace),
    /// By a dotted line between the two rows.
    Link,
    /// By a line between the two points, and a circle of this many millimetres round each.
    Near(i64),
    /// By nothing.
    Nothing,
}

/// A cause: the rows that it names, the rows beside them that served and go, how its place is marked, and the few words that say why.
#[derive(Drop)]
pub struct Cause {
    pub rows: Vec<CauseRow>,
    pub goers: Vec<CauseRow>,
    pub mark: Mark,
    pub says: String,
}
