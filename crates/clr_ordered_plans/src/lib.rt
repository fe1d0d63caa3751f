//! The planner of members that are to be merged in the order in which they are named: either a
//! certificate with who goes before whom, or a beginning of the list in which some merge is refused.
//! Nothing is searched.
//!
//! - `plan_in_order` [`plan`, `unfit`, `promises`, `exact`, `readable`, `without_pairs`]. It is what
//!   `plan` gives where a test of names fails, a member is in conflict or two change one cell, and
//!   where the members are cleared in every order. Otherwise it is Cleared where each touched need is
//!   covered if each member goes before those behind it: the certificate has the members as they
//!   were given, pairs of which the first stands before the second in the list and without any of
//!   which some need has no cover, and entries under which the verdict is Clear. Or it is Blocked by
//!   the least touched need that nothing covers in this order: its order is the beginning of the list
//!   up to the last member that blocks the need, and of these merges one is refused. Memory aside,
//!   it is Cleared *exactly* where none of the merges of the members is refused in this order.
//! - `plan_changes_in_order` says the same, with the same clauses, of members whose changes were read
//!   before.
//! - `certificate_of_order` is the plan of members that are named in another order, as one that was
//!   found by a search. `names_in_order` gives their names.
//! - `precedences_of_pairs`: exactly the names of pairs of members, as a certificate has them.
#![tactic(auto)]

mod certificates;
mod found_orders;
mod listed_plans;
mod ordered_plans;

pub use certificates::precedences_of_pairs;
pub use found_orders::{certificate_of_order, names_in_order};
pub use ordered_plans::{plan_changes_in_order, plan_in_order};
