//! What can be said of the orders of members, where some needs are open: an order that works with the
//! pairs of it that matter, a need that no member helps, or that no order works.
//!
//! - `answer_of` [`IsAnswer`] names the first need that no member helps, if there is one. Else it gives
//!   the members that wait for one another, if there are any; then no order works. Else it takes away
//!   members that may go first or last with their needs, and searches in each knot that is left. It
//!   gives an order of all members that works with pairs of which the first goes before the second:
//!   each need has a pair of a helper and a blocker, each pair stands so in the order, and without any
//!   of the pairs some need would have none. Or it gives a knot that has no order, so that no order of
//!   all works; or a knot of more members than `MOST_SEARCHED`. It fails only if memory runs out.
//! - `kept_pairs_work`: each order of all members in which each pair stands so works.
//! - `unhelped_needs_break`: where no member helps a need that members block, no order works.
#![tactic(auto)]

mod answers;
mod laws;
mod pairs;
mod renumbering;

pub use answers::{OrderAnswer, answer_of};
pub use laws::{kept_pairs_work, unhelped_needs_break};
pub use pairs::{Pair, pairs_of};
