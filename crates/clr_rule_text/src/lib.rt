//! Rules of an office text, and the fields of its values.
//!
//! - `TextFault`: why an office text can't be read.
//! - `JsonValue`: a JSON value that can be looked into; `serde_json`'s, which owns its texts, and one
//!   whose texts stand in the text that it was read from.
//! - `read_value`: the value of a text, over that text, as `serde_json` reads it, or NotJson.
//! - `fields`, `values`: what stands at a key of a JSON value, or `BadField`.
//! - `lists`: what a call reads of each element of a list, or its first fault.
//! - `named_rules`, `named_sides`, `need_names`, `stated_rules`: rules as they are written, with names of tables and columns,
//!   and with the keys of the rows whose needs are known to be broken.
//! - `read_rules` [`value`, `fits`]: the book of the rules over a schema and their known needs, or the first fault. Each
//!   rule is read for BadField before any is looked up in the schema.
#![tactic(auto)]

pub mod borrowed;
mod faults;
pub mod fields;
pub mod formats;
pub mod json_values;
pub mod known_needs;
pub mod lists;
pub mod named_rules;
pub mod named_sides;
pub mod need_names;
mod numbers;
pub mod rules;
pub mod stated_rules;
pub mod values;

pub use faults::TextFault;
pub use formats::Format;
