//! The records of a CSV text, and whole numbers in decimal.
//!
//! - `records_of` gives every record of a text as `csv` reads it, without headers and with any
//!   number of fields, or none where the bytes aren't UTF-8, memory aside. `field` gives a field by
//!   its position, empty where there is none. `read_number` reads a decimal in its one form, and
//!   `read_value` the value of a column.
//! - `add_field`, `add_number` [`added`, `whole`, `err`] and `add_values` [`texts`, `added`, `whole`, `begun`] add the fields of a text, of a
//!   number and of values to a record. If memory runs out, the record has at most a beginning of them beside its own.
#![tactic(auto)]

mod fields;
mod numbers;
mod records;
mod values;

pub use fields::{add_field, add_number, add_values};
pub use numbers::read_number;
pub use records::{field, records_of};
pub use values::read_value;
