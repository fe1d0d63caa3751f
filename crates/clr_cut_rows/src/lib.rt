//! What a cut says of each row of the whole root: that it has it, has another one at its cell, lacks
//! it, or needs it not.
//!
//! - `CutRows`: the rows of a cut with what members change there; `new` [`aim`, `model`] makes it.
//! - `CutRows::standing`: what the cut says of a row, exactly. It compares rows, not keys alone. A row
//!   belongs to the cut if a member changes its cell, or if it is found by its spots from the versions of
//!   the cut, as `clr_reach` says.
//! - `standings_show_a_cut` [`rows`, `change`]: where all rows of a root are gone over, each row of the
//!   cut is among them, and none is lacked or another one, the rows are a cut of that root. Where that
//!   root changes, it is enough to go over its new rows, as long as it still has those of the cut.
#![tactic(auto)]

mod cut_rows;
mod cut_versions;
mod finding;
mod laws;
mod near;
mod new_rows;
mod standings;
mod touched;
mod touching;

pub use cut_rows::CutRows;
pub use laws::standings_show_a_cut;
pub use standings::Standing;
