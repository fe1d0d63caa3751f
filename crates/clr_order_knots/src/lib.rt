//! What open needs leave of the orders of members without a search: members that wait for one another,
//! members that may go first or last, and the knots that are left.
//!
//! - `waiting_members` [`IsWaitingSet`] gives the greatest set of members each of whom alone blocks a
//!   need that only others of them help. Whoever of them comes first breaks its need.
//! - `peel` [`IsPeeled`, `AreLeft`] puts members first that block none of the needs that are left, and
//!   members last that help none of them, until each member blocks one of them exactly where it helps
//!   one. What is left is the greatest such set of needs, whichever members are taken first.
//! - `first_knot` [`IsKnotOf`] gives members whom the needs that are left join, and no others.
//! - `whole_order` gives an order of all members, once nothing is left: those that go first, those that
//!   no need holds, and those that go last.
//! - `large_knot` gives a knot of more than `MOST_SEARCHED` members, if there is one.
//!
//! Each fails only if memory runs out, and goes over the needs at most once more than there are members.
#![tactic(auto)]

mod ends;
mod knots;
mod peeling;
mod sides;
mod waiting;

pub use ends::whole_order;
pub use knots::{Knot, first_knot, large_knot};
pub use peeling::{Peeled, peel};
pub use sides::NeedSide;
pub use waiting::waiting_members;
