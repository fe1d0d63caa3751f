//! Layers that are given, and how they are read.

use clr_rows::Words;

/// A layer: the name of its table, and its text.
#[derive(Debug, Drop)]
pub struct GivenLayer {
    pub table: Words,
    pub text: Vec<u8>,
}

/// How layers are read.
#[derive(Clone, Copy, Debug)]
pub struct LayerOptions {
    /// The least key that a row without one gets, 1 where this is 0.
    pub first_key: u64,
    /// Whether coordinates that are finer than a millimetre are rounded, and not refused.
    pub rounded: bool,
}
