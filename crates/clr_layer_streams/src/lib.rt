//! Layers that are read one record at a time, in the memory of one record and a buffer.
//!
//! - `LayerSource`: what records are read from. It knows whether a read has failed.
//! - `LayerStream::open` [`begun`, `source`, `fault`] reads the header of a layer from a source. `next_row` [`row`, `source`,
//!   `fault`] reads the next record: its row, or its first fault with its number, or that a read of the source failed. Where
//!   the source tells its bytes, the rows up to the end are those that `clr_layer_text: read_layer` reads in its records.
#![tactic(auto)]

mod faults;
mod sources;
mod streams;

pub use faults::StreamFault;
pub use sources::LayerSource;
pub use streams::LayerStream;
