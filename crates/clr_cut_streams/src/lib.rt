//! Passes of layers, read one record at a time, over a cut.
//!
//! - `pass_over`: goes over the rows of a layer, writes those that the cut lacks, and notes those that it has
//!   otherwise. Where the source tells its bytes, it was over all rows of the layer, and the counts are those
//!   of these rows (`clr_cut_passes`). It fails as unreadable exactly where a read of the source did [`source`].
//! - `CutText`: a cut, and the cells that its text lists.
//! - `put_line`: writes a line to a sink, if it isn't empty.
//! - `passes_show_a_cut` [`tables`, `parts`]: where passes over all rows of a whole, each once, print none and find none
//!   otherwise, and each row of the cut is one of them, the rows of the cut are one of that whole. What passes over parts
//!   of a table told is together what one over all its rows tells.
#![tactic(auto)]

mod faults;
mod laws;
mod passes;
mod told;

pub use faults::PassFault;
pub use laws::passes_show_a_cut;
pub use passes::pass_over;
pub use told::{CutText, Told, put_line};
