//! Rows in reach of a cut, found by their spots from the versions of the cut alone.
//!
//! - `Aim`: what a cut is made for, plans or groups too.
//! - `rows_in_reach_are_found` [`plans`, `groups`]: each row in reach of a cut shares a spot, under some
//!   rule, with a version of it that may touch needs; or it is of the side that serves and shares one
//!   with a version that may be touched. For groups this is so of each row of a member's tie. So what a
//!   cut lacks can be looked up by spots; that finds more rows than are in reach, and a cut may have
//!   more.
//! - `passes_by_spots_make_cuts` [`test`, `groups`]: passes by any test that takes each row which is
//!   found so are passes as `clr_cuts` has them.
#![tactic(auto)]

mod aims;
mod laws;

pub use aims::Aim;
pub use laws::{passes_by_spots_make_cuts, rows_in_reach_are_found};
