//! Lengths in whole millimetres, written as metres with three decimals.
//!
//! - `add_metres`: the text of a length is exactly `metres_text` of it, also where the decimals are zeros.
#![tactic(auto)]

mod metres;

pub use metres::add_metres;
