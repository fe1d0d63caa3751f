//! Why a layer is refused: all its faults, where they are, and the line of the first.
//!
//! - `faults_in`: all faults of the records of a layer (`faults_in`), each with the number of its record and the column that has it: those of the header,
//!   which are the columns that it lacks or has twice, and else of each record the first that `clr_layer_text: read_row` answers, or that a row before it
//!   has its key. `header_names`: the names of the header.
//! - `faults_tell_refusals`: the law that no fault is found exactly where the layer can be read, but for a row that gets no key.
//! - `column_count`, `column_name`, `place_in`, `field_under`: how many columns the layers of a table have, their names, where a header has a name, and the
//!   field of a record below it.
//! - `record_starts`, `field_place` [`place`, `within`], `without_mark`: the offsets at which records and their fields begin, exactly as the machine of
//!   `csv` comes to them, in a text without its byte order mark.
//! - `table_fault_line`: the line of a layer that can't be read, by its table, its first fault and the record that has it, memory aside.
//! - `unfit_line`: the line that says why there is no layer, by a number and a word and the name that the word speaks of; `no_table_line` is that of
//!   a table that isn't there.
#![tactic(auto)]

mod columns;
mod fault_lines;
mod field_places;
mod found;
mod header_faults;
mod laws;
mod record_faults;
mod text_faults;
mod unfit_lines;

pub use columns::{column_count, column_name, field_under, place_in};
pub use fault_lines::table_fault_line;
pub use field_places::{field_place, record_starts, without_mark};
pub use found::FoundFault;
pub use laws::faults_tell_refusals;
pub use text_faults::{faults_in, header_names};
pub use unfit_lines::{no_table_line, unfit_line};
