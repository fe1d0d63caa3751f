//! Rows, rules and places in words: what a work order says of them.
//!
//! Lengths and places are told in metres with three decimals, which is whole millimetres. Each text is
//! exactly the one that a definition prescribes, memory aside:
//!
//! - `add_names` adds the `names_text` of names behind a text, and `article` returns the `article_of` a name.
//! - `Metres` is shown as the `metres_text` of `clr_metres`, and `At` as the `place_text` of its place.
//! - `row_words` returns the text of the same name, `side_words` the `side_text` of a side, and
//!   `field_words` the `fields_text` of what a row has in columns.
//! - `rule_title` and `rule_sentence` return the texts of the same names.
//! - `meet_parts` [`told`] tells where two parts meet: a place that is told lies on both, and two parts that are told to meet between
//!   whole millimetres have one common point, and no common place.
#![tactic(auto)]

mod crossings;
mod lists;
mod measures;
mod meetings;
mod rows;
mod rules;

pub use lists::{add_names, article};
pub use measures::{At, Metres};
pub use meetings::{Meeting, meet_parts};
pub use rows::row_words;
pub use rules::{field_words, rule_sentence, rule_title, side_words};
