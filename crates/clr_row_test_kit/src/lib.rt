//! Values, shapes, rows and schemas of texts, as tests write them in their cases, and rows as texts. A text that can't be read is none, and so
//! is one for which memory is wanting.
#![tactic(auto)]

mod fields;
mod row_texts;
mod rows;
mod schemas;
mod shapes;

pub use fields::{add_word, number, ordinal, value, values, words};
pub use row_texts::{add_part, cell_text, change_text, coordinates, sheet_text};
pub use rows::{cell, row};
pub use schemas::{columns, schema, tables};
pub use shapes::{place, places, shape};
