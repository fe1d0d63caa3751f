//! Rows at their cells, of texts. A text that can't be read is none.

use clr_row_test_kit::{cell, row};
use clr_rows::{CellId, Row};
use std::alloc::Global;

/// A row with its cell.
#[derive(Drop)]
pub(crate) struct RowAt {
    pub cell: CellId,
    pub row: Row,
}

/// Returns a row with its cell before it.
pub(crate) fn row_at(alloc: Global, text: &str) -> Option<RowAt> {
    let (at, rest) = text.split_once(' ')?;
    Some(RowAt {
        cell: cell(at)?,
        row: row(alloc, rest)?,
    })
}

/// Returns rows that are parted by bars.
pub(crate) fn rows(alloc: Global, text: &str) -> Option<Vec<RowAt>> {
    let mut list = Vec::new(alloc);
    for part in text.split('|') {
        list.push(row_at(alloc, part.trim())?).ok()?;
    }
    Some(list)
}
