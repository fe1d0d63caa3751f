//! Columns as rules name them.

use clr_rows::List;

/// A column of a rule: the column of a number, counted from 0, or the primary key.
#[derive(Clone, Copy, Debug, PartialEq, Eq)]
pub enum Col {
    At(u16),
    Key,
}

/// Columns in an order.
pub type ColumnList = List<Col>;
