//! The three ways in which two segments can meet.

/// How two segments meet, their ends included.
#[derive(Clone, Copy, Debug, PartialEq, Eq)]
pub enum Meet {
    /// No point is on both.
    Apart,
    /// One point is on both, of whole coordinates or not.
    Once,
    /// More than one point is on both.
    Overlap,
}
