//! Where the rows of a need are: where they meet, near which place if no whole millimetre lies there, and how far apart points are that are too near.
//!
//! - `need_whereabouts`: all of this, of a need over a merge set.
//! - `gap_between`: how far apart two points are that are nearer than a distance, and how much is missing. The distance is rounded down and what is missing
//!   is rounded up, exactly; none is told only of points that aren't too near.
//! - `crossing_near`: near which place two parts meet whose common point is no whole millimetre. The place is less than a millimetre from that point in each
//!   coordinate.
//! - `add_gap`, `add_near`: the same in words, exactly as defined.
#![tactic(auto)]

mod crossings;
mod gaps;
mod needs;
mod ranges;
mod words;

pub use crossings::crossing_near;
pub use gaps::{Gap, gap_between};
pub use needs::{Whereabouts, need_whereabouts};
pub use words::{add_gap, add_near};
