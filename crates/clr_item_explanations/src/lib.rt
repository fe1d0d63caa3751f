//! What is wrong with an item of an office text that can't be read: the steps to the value, a sentence and a hint.
//!
//! - `explain_row`, `explain_rule`, `explain_table`, `explain_workspace`, `explain_mark`, `explain_field` and `explain_fields`: exactly what is
//!   wrong with the first field with which anything is (`wrong_row` and its like), and none where nothing is.
//! - `explain_part`: the name of the fault that a workspace has among all of them, and exactly what it means (`wrong_part`).
//!
//! A `Wrong` has the steps to a value and what is told of it; `IsTold` says in which sentence and with which hint. A value stands in a
//! sentence as JSON writes it. Of a number with a fraction it isn't said which of its texts that is.
#![tactic(auto)]

mod fields;
mod known_needs;
mod rows;
mod rules;
mod slips;
mod tables;
mod workspaces;

pub use fields::{
    Wanted, count_at, explain_field, explain_fields, items_at, stands_among, text_at,
};
pub use rows::{Within, coordinates_of, explain_row};
pub use rules::explain_rule;
pub use slips::{Slip, or_words};
pub use tables::explain_table;
pub use workspaces::{explain_mark, explain_part, explain_workspace};
