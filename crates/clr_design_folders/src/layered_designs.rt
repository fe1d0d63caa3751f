//! Designs that are given with their layers.

use clr_layer_changes::GivenLayer;
use clr_rows::Words;

/// A design: its name, and its layers.
#[derive(Debug, Drop)]
pub struct LayeredDesign {
    pub name: Words,
    pub layers: Vec<GivenLayer>,
}
