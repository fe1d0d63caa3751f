//! Which members go before which, where a plan for every order is blocked.
//!
//! - `precedences_of_plan` [`ArePrecedencesOfPlan`]: of a plan that is blocked, exactly the pairs of the order that the planner of orders
//!   finds, by their names and in the order of the pairs; none where it finds no order, and none of any other plan.
#![tactic(auto)]

mod precedences;

pub use precedences::precedences_of_plan;
