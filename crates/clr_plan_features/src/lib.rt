//! The features of a plan, for systems of maps: the rows of the root, what the designs change, and where a cause is.
//!
//! - `plan_features`: exactly one feature for each row of the root that no design changes, one for each change of each design, with its
//!   kind, its table, its key and its values, and one for the place of the cause, if the plan is blocked and the cause has a place.
//! - Whether the cause names a row is told of each by its cell. Where the place is, and what is said of it, is what `cause_of` of
//!   `clr_plan_causes` tells: the place of its ring, or the middle between points that are too near (`place_of_mark`).
//!   `place_to_look` is this, or else the middle of the first row of the cause.
//! - If the plan is blocked and an order is found, each feature of a design tells which designs go before it (`ArePrecedencesOfPlan` of
//!   `clr_plan_precedences`); otherwise none does.
#![tactic(auto)]

mod cause_cells;
mod cause_features;
mod changes;
mod places_to_look;
mod plans;
mod row_features;
mod standing;
mod turns;

pub use cause_features::place_of_mark;
pub use places_to_look::place_to_look;
pub use plans::plan_features;
