//! Passes over the rows of a whole root, held against a cut one after another.
//!
//! - `PassCounts`: how many rows a pass has read, and how many of them the cut has, has otherwise and
//!   lacks. `note_row` [`standing`, `counts`, `error`] counts one more row and says how it
//!   stands, so that a row that is lacked can be shown at once, and no row is kept. `plus`: the counts of
//!   two passes, which went over different rows, as those of one.
//! - `is_clean`: whether the cut has as many of the rows as it has rows at all, and none of them is lacked
//!   or otherwise.
//! - `counts_show_cuts` [`clean`, `parts`, `office`]: where no two rows of a pass are of one cell, it is
//!   clean just where the cut has each of them or needs none there, and each row of the cut is among them.
//!   Passes over parts of the rows make one over all. So an office of some cells is cut out of the whole by
//!   a clean pass over all rows of the whole's root.
#![tactic(auto)]

mod counts;
mod laws;
mod noting;

pub use counts::PassCounts;
pub use laws::counts_show_cuts;
