//! The map of a plan: a page of vector graphics that shows the rows of the root, what the designs change, and where a cause is.
//!
//! - `plan_map` [`map`]: the page's title is the word for what the plan says, with the names of the designs. Its last layer shows that word alone, in
//!   the colour of what the plan says. Its description is the plan in a sentence or two, exactly as defined, with one more where the cause is an old
//!   error, and then the lines of the plan, byte for byte. Where the plan is blocked and an order is found, its last layer but one says which designs
//!   go before which, exactly; else it says nothing.
//! - `plan_word`: the word for what a plan says, exactly; `plan_title`: the title that begins with it.
//! - No label covers another (`Labels::put` of `clr_drawing`), and the words of labels beside rows are exact. Everything else that is seen is a value of
//!   the office or of the plan and adds no fact; that it is drawn well is tested.
#![tactic(auto)]

mod anchors;
mod busy_spots;
mod cause_labels;
mod chips;
mod design_labels;
mod labels;
mod maps;
mod sentences;
mod titles;
mod turns;
mod witness_labels;

pub use clr_plan_causes::leaders_of;
pub use maps::plan_map;
pub use titles::{plan_title, plan_word};
