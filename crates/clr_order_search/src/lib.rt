//! The search for an order in which members can be merged one after another, where some needs are
//! open: broken where all their blockers are merged and none of their helpers is.
//!
//! Whether some order works is a hard question (it is NP-complete), so the search is for few members.
//!
//! - `OpenNeeds` and `Orders` in specs/: where open needs are broken, and which orders work.
//! - `first_order` gives the first order that works, or says that each order breaks a need on the way;
//!   where there are more than `MOST_SEARCHED` members it says just this. It fails only if memory runs
//!   out.
//! - `working_orders_help_in_time`: an order works exactly where each need that only members block has
//!   a helper in it that comes before one of its blockers, or is one.
//! - `circles_of_members_have_no_order`: no order works where each of some members waits for others
//!   of them, or where each of some members has others of them wait for it alone.
#![tactic(auto)]

mod laws;
mod limits;
mod open_needs;
mod orders;
mod searches;
mod sets;

pub use laws::{circles_of_members_have_no_order, working_orders_help_in_time};
pub use limits::{MOST_SEARCHED, limit_of_searches};
pub use open_needs::OpenNeed;
pub use orders::first_order;
pub use searches::OrderSearch;
