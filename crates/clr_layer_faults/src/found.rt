//! A fault that is found in a layer.

use clr_layer_changes::LayersFault;

/// A fault of a layer, and where it is.
#[derive(Clone, Copy, Debug, PartialEq, Eq)]
pub struct FoundFault {
    /// The number of the record that has it, counted from 1. The header is record 1.
    pub number: usize,
    /// The column that has it, where it is one of a single column: `KEY` is column 0, those of the table follow, and `WKT` stands behind them.
    pub column: Option<usize>,
    pub fault: LayersFault,
}
