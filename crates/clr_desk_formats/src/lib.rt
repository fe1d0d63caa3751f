//! The answer of the second program that writes an office text a row a line.
//!
//! - `answer_format`: the text of the same office with each object of a list on a line of its own, which is read as that office (`IsFormatPrint`).
#![tactic(auto)]

mod formats;
mod line_ends;

pub use formats::answer_format;
