//! Why the rows of layers can't be put into an office.

use clr_layer_text::LayerFault;

/// What is wrong with a layer.
#[derive(Clone, Copy, Debug, PartialEq, Eq)]
pub enum LayersFault {
    /// No table has the name.
    NoTable,
    /// A layer before it has the same table.
    TableTwice,
    /// The text can't be read.
    Unread(LayerFault),
    /// A row has the key of a row before it.
    KeyTwice,
    /// A row has no key, and none is left for it.
    NoKey,
}

/// The first layer with a fault.
#[derive(Clone, Copy, Debug, PartialEq, Eq)]
pub struct FaultyLayer {
    /// The position of the layer, counted from 0.
    pub layer: usize,
    /// The number of the record that has the fault, counted from 1; or 0, where it is one of the whole layer.
    pub number: usize,
    pub fault: LayersFault,
}
