//! What layers change: the content that they ask for, and the edits that lead to it.
//!
//! - `wanted_content` [`content`, `fit`] reads layers, each the text of a table, and gives a base content with their rows in place of those of
//!   their tables, or the first fault, with its layer and its record. A row without a key gets the least one that is free, from a first key on.
//!   The content fits the schema. `united_content` gives the rows of two contents.
//! - `wanted_edits` gives the edits that lead to that content, or the same fault, and goes over the tables of the layers alone.
//! - `edits_between` [`edits`, `leads`] gives an edit for each cell at which two contents differ; made one after another over the
//!   first content they give the second.
//! - `layers_of_live_change_nothing`: the law that layers of LIVE, each of another table, ask for LIVE's own content, and that no edit leads to it.
//! - `records_of_layers`: the first row of a layer is its record 2.
#![tactic(auto)]

mod changes;
mod faults;
mod keys;
mod laws;
mod layer_edits;
mod layer_rows;
mod limits;
mod options;
mod wanted;

pub use changes::edits_between;
pub use clr_layer_text::LayerFault;
pub use faults::{FaultyLayer, LayersFault};
pub use laws::layers_of_live_change_nothing;
pub use layer_edits::wanted_edits;
pub use limits::records_of_layers;
pub use options::{GivenLayer, LayerOptions};
pub use wanted::{united_content, wanted_content};
