//! Layers whose records with faults are skipped: what is taken of them, and what isn't.
//!
//! - `split_layer` [`split`]: a layer of just those records that have no fault (`sound_records`), which is read as these records; and the others, each as
//!   its fields with what is wrong with it behind them (`skipped_text`), byte for byte and in their order; and how many these are. A layer is split
//!   where its table is there, it is UTF-8, and its header has the table's columns; no other is.
//! - `sound_records_stay_sound` [`records`, `texts`]: the law that records which have no fault have none by themselves either, so that a text of them alone
//!   is read as rows, unless no key is left for one that has none.
#![tactic(auto)]

mod laws;
mod record_writing;
mod skipped_records;
mod sound_records;
mod splits;

pub use laws::sound_records_stay_sound;
pub use splits::{SplitLayer, split_layer};
