//! The rows of a root that a small map shows.

use clr_drawing::Viewport;
use clr_rows::{CellId, Row, Sheet};
use std::alloc::{AllocError, Global};

/// How many rows of a root a small map shows at most.
const MOST_ROWS: usize = 1000;

/// Adds a copy of a row.
fn add_row(near: &mut Sheet, cell: CellId, row: &Row) -> Result<(), AllocError> {
    let copy = row.copy()?;
    let _before = near.put(cell, copy)?;
    Ok(())
}

/// Returns copies of the rows that are seen, and none where there are more than `MOST_ROWS`.
pub(crate) fn rows_near(alloc: Global, rows: &Sheet, view: &Viewport) -> Result<Sheet, AllocError> {
    let mut near = Sheet::new(alloc);
    for (cell, row) in rows.iter() {
        if view.sees(&row.shape) {
            if near.len() >= MOST_ROWS {
                return Ok(Sheet::new(alloc));
            }
            add_row(&mut near, *cell, row)?;
        }
    }
    Ok(near)
}
