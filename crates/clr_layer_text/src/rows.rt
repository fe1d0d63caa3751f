//! A row of a layer.

use clr_rows::Row;

/// A row of a layer: its key, or none where it has no key yet, and the row.
#[derive(Debug, Drop)]
pub struct LayerRow {
    pub key: Option<i64>,
    pub row: Row,
}
