//! What a quick audit leaves to a whole one.

/// The most cells at which a quick audit looks for a server of one need.
pub(crate) const MOST_TRIED: usize = 64;

/// The most cells near a row that a quick audit holds against the row.
pub(crate) const MOST_NEAR: usize = 256;

/// The most parts of a row that a quick audit holds against those of another one.
pub(crate) const MOST_PARTS: u16 = 8;
