//! What a map draws of rows: those of the root, what designs add, change and remove of them, and what a cause names. A scene says which rows
//! these are and how much detail there is room for; each call adds elements to a sketch.
//!
//! - A row that a design adds is a full line or a filled sign, one that it changes a double line or a hollow sign, and one that it removes
//!   dashes with a cross. So each is told apart without colours too. `add_line_marks` draws exactly these lines: of each design those of its
//!   kinds, in its colour, and the designs that a cause names over the others. For signs this is proved by `ink_of`, `small_ink_of` and
//!   `add_mark`: in which ink each kind is drawn.
//! - `sign_of_table`: exactly the sign of a table's points. `mark_radius`: exactly how large the signs of designs are. `marks_at`: exactly how
//!   many points at a place designs change.
//! - Each call is safe and ends, and no call fails while there is memory. At which place of several a mark is drawn, and all else of what it
//!   looks like, is tested.
#![tactic(auto)]

mod grounds;
mod haloes;
mod line_marks;
mod point_marks;

pub use grounds::{add_lines, add_signs, sign_of_table};
pub use haloes::{Marked, add_haloes, add_mark, marked_spot};
pub use line_marks::add_line_marks;
pub use point_marks::{add_point_marks, mark_radius, marks_at};
