//! The JSON of an office text: tables, rules, rows, and workspaces by what they differ in from their
//! parents; what is written so, and the laws that it is read back.
//!
//! - `office_text_is_read_back` and `office_text_is_plain`: what is written of a text whose rows
//!   and rules fit, whose known needs ascend and are some that its rules can have, and whose workspaces stand behind
//!   their parents, is read as the same; it nests at most 127 levels and has no floats.
//! - `JsonText`: a text that is written token by token, with no value beside it; its bytes are read
//!   as the same tokens.
//! - `with_tables`, `with_rules`, `with_live` and `with_workspace`: exactly the tokens of the
//!   definitions, memory aside. `format_number`: format 4 is written where needs are known to be broken, else format 3.
#![tactic(auto)]

mod cells;
mod json_texts;
mod known_needs;
mod laws;
mod lists;
mod names;
mod rules;
mod tables;
mod workspaces;

pub use cells::with_live;
pub use json_texts::JsonText;
pub use known_needs::format_number;
pub use laws::{office_text_is_plain, office_text_is_read_back};
pub use rules::with_rules;
pub use tables::with_tables;
pub use workspaces::with_workspace;
