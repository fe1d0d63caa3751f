//! Cells and rows, as tests write them.

use crate::fields::{number, ordinal, values};
use crate::shapes::shape;
use clr_rows::{CellId, Row};
use std::alloc::Global;

/// Returns the number of a table and a key, with a dot between them.
pub fn cell(text: &str) -> Option<CellId> {
    let (table, key) = text.split_once('.')?;
    Some(CellId {
        table: ordinal(table)?,
        key: number(key)?,
    })
}

/// Returns a row: its values, and its shape.
pub fn row(alloc: Global, text: &str) -> Option<Row> {
    let (fields, rest) = text.split_once(' ')?;
    Some(Row {
        values: values(alloc, fields)?,
        shape: shape(alloc, rest)?,
    })
}
