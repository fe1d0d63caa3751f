//! The planner of orders: in which order children of a kept workspace can be merged into it one after
//! another, where they can't be merged in every order.
//!
//! - `merge_order` [`IsFoundOrder`] says what `plan` does exactly where a test of names fails, a member is in
//!   conflict or two members change one cell. Else it says of the members, as `order_scene` does of a scene,
//!   an order with its pairs, a need that no member helps, or that there is no order, with members that show
//!   it, or a knot of too many members.
//! - What it promises (`Promises`): where it gives an order, some entries cover the members under the
//!   pairs; so the headline holds for every list of quiet commands in which the merges come in turn, and
//!   the merges of the members in this order are all done.
//!   Where it names a need that no member helps, some merge is refused in each order of members that has
//!   all of those which block it; where it says that there is no order, in each order of all members.
//! - `merge_order` [`lost`] fails only for want of memory, and never where a test of names fails.
//! - `merge_order_lines` gives exactly the bytes of the lines of it, with the names of members, memory
//!   aside.
//! - `found_orders_are_cleared`: memory aside, the plan of the members in an order that was found is cleared.
//! - `order_of_changes` says the same, with the same clauses, of members whose changes were read before.
#![tactic(auto)]

mod laws;
mod lines;
mod merge_orders;

pub use laws::found_orders_are_cleared;
pub use lines::merge_order_lines;
pub use merge_orders::{MergeOrder, merge_order, order_of_changes};
