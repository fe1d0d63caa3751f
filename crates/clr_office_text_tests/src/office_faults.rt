//! Where the fault of an office text is.

mod cases;
mod many_rows;
pub(crate) mod spots;
