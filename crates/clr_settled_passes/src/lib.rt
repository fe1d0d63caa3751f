//! When passes over the rows of a root end that put in what a cut lacks by its spots.
//!
//! - `passes_settle` [`three`, `two`]: three passes over all rows of a root, from whatever rows of it, lead to rows of which a fourth pass lacks none; from
//!   rows with each cell that a member changes, two do.
#![tactic(auto)]

mod laws;

pub use laws::passes_settle;
