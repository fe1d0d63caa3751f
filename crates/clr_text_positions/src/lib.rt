//! Places in texts: lines and columns, the values of a JSON text by their paths, and the fields of
//! the records of a CSV text; and the lines of a fault, by its place.
//!
//! - `place_of` [`line`, `column`]: the line and the column of a byte, exactly; `line_around`
//!   [`start`, `end`]: the line that it stands in; `first_line_end` and `first_line_length` [`value`]:
//!   where the first line of a text ends.
//! - `Key::as_str`: the key as it is written (`key_text`).
//! - `value_at` and `field_at`: where the value at a path, or a field of a record, begins. That the
//!   offset is within the text is proved; that the value stands there is tested.
//! - `fault_lines` [`lines`]: the name of a fault, the line and the column of its byte, what else is
//!   said of its place, the sentence and the hint are exactly these, in this order. Which characters
//!   of the text are shown between them is tested.
//! - `short_line` [`line`]: one line with the name of the file, the line, the column and the
//!   sentence, exactly.
#![tactic(auto)]

mod csv_fields;
mod fault_writing;
mod json_values;
mod marked_lines;
mod paths;
mod places;
mod remarks;

pub use csv_fields::field_at;
pub use fault_writing::{fault_lines, short_line};
pub use json_values::value_at;
pub use paths::{Key, PathStep};
pub use places::{TextPlace, first_line_end, first_line_length, line_around, place_of};
pub use remarks::Remark;
