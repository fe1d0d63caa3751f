//! Why tables make no schema, and why a row can't stand at a cell.

ghost use Rattle.std.specs.Prelude.{◌≡◌};
ghost use Rattle.clr_rows.specs.Faults.{schema_fault_number, row_fault_number};

/// Why tables make no schema. Each test is made over all tables before the next.
#[derive(Clone, Copy, Debug, PartialEq, Eq)]
pub enum SchemaFault {
    /// More than 32 tables, or a table of more than 16 columns.
    TooMany = 1,
    /// A table's or a column's name that isn't good, or a column named `KEY`.
    BadName = 2,
    /// A table's name that stands twice, or a column's name that stands twice in one table.
    NameTaken = 3,
}

impl SchemaFault {
    /// Returns the number of a fault.
    pub fn number(self) -> u8
        ensures { result ≡ schema_fault_number self }
    {
        self as u8
    }
}

/// Why a row can't stand at a cell, or why a cell names no row: the first reason that applies.
#[derive(Clone, Copy, Debug, PartialEq, Eq)]
pub enum RowFault {
    /// No table has this number.
    NoTable = 1,
    /// The row has another number of values than the table has columns.
    WrongCount = 2,
    /// A value is of another kind than its column.
    WrongKind = 3,
    /// A text of more than 200 bytes.
    WordsTooLong = 4,
    /// The row's shape isn't the table's.
    WrongShape = 5,
    /// A key outside 1 to 999,999,999,999,999, or a coordinate outside -1,000,000,000 to 1,000,000,000 millimetres.
    OutOfRange = 6,
    /// A segment whose ends are one point, or a path in which a vertex equals the next one.
    ZeroSegment = 7,
    /// A path of fewer than 2 or more than 32 vertices.
    BadPath = 8,
}

impl RowFault {
    /// Returns the number of a fault.
    pub fn number(self) -> u8
        ensures { result ≡ row_fault_number self }
    {
        self as u8
    }
}
