//! What is done with an office once the answer is known.

use std::mem;

/// What is done with an office once the answer is known: it is dropped, or its memory is leaked. A program
/// that ends with the answer leaks it, since the system takes all memory back at once.
#[derive(Clone, Copy, Debug, PartialEq, Eq)]
pub enum Disposal {
    Drop,
    Leak,
}

impl Disposal {
    /// Drops a value, or leaks its memory.
    pub(crate) fn dispose<T: Drop>(self, value: T) {
        match self {
            Disposal::Drop => mem::drop(value),
            Disposal::Leak => mem::forget(value),
        }
    }
}
