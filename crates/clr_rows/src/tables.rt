//! What a table is: its name, its columns and the form of its rows.

use crate::lists::List;
use crate::texts::Words;

/// The kind of a column: whole numbers of 64 bits, or texts.
#[derive(Clone, Copy, Debug, PartialEq, Eq)]
pub enum Kind {
    Int,
    Words,
}

/// The shape that each row of a table has.
#[derive(Clone, Copy, Debug, PartialEq, Eq)]
pub enum Form {
    Bare,
    Point,
    Segment,
    Path,
}

/// The columns of a table, each with its name and kind.
pub type Columns = List<(Words, Kind)>;

/// A table: its name, its columns and the shape of its rows.
#[derive(Debug, Drop)]
pub struct TableDef {
    pub name: Words,
    pub columns: Columns,
    pub shape: Form,
}
