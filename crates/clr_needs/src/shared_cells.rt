//! Cells that two members change.

use clr_rows::CellId;

/// A cell with the first two members that change it.
#[derive(Clone, Copy, Debug)]
pub struct SharedCell {
    pub cell: CellId,
    pub first: u16,
    pub second: u16,
}
