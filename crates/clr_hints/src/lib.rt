//! Hints at common slips, and how a sentence shows values and names.
//!
//! - `encoding_fault` [`fault`]: a text that isn't UTF-8 has its fault behind its longest front that is.
//! - `json_fault` [`fault`]: the offset, the sentence and the hint are exactly those of a byte order mark, of bytes that
//!   aren't UTF-8, or of the byte at a line and a column, by what stands there and before it; and where a text in quotes begins there,
//!   of the first byte that can't stand in that text.
//! - `nearest` [`nearest`]: the first of the names that are most alike, where one is alike enough; none else.
//! - `metres_hint`: a hint at exactly the texts that are decimal numbers of metres with at most three decimals, with their millimetres.
//! - `GOOD_NAME`: what a good name has. `name_hint`: where a name may be meant the hint is at the nearest, and else at all names,
//!   where there are some and not too many.
//! - `table_names`, `column_names`, `join_names`, `table_of`: the names of a schema in their order, names with commas between them, and
//!   the table of a name.
//! - `blank_lines_hint`: a hint at exactly the texts in which nothing but carriage returns stands before a line end, behind the one before.
//! - `shorten`, `kind_of`: a text up to its most characters, with two full stops where it goes on; and the word for a kind of JSON value.
//! - `shorten_value`: the same of a text that is read as the value again, where it isn't nested too deep, and in exactly one way where
//!   no number in it is a float.
#![tactic(auto)]

mod blank_lines;
mod encodings;
mod json_faults;
mod laws;
mod metres;
mod names;
mod quoted_texts;
mod schema_names;
mod values;

pub use blank_lines::blank_lines_hint;
pub use encodings::{encoding_fault, has_byte_order_mark};
pub use json_faults::json_fault;
pub use laws::limits_of_hints;
pub use metres::metres_hint;
pub use names::{GOOD_NAME, name_hint, nearest};
pub use schema_names::{column_names, join_names, table_names, table_of};
pub use values::{kind_of, shorten, shorten_value};
