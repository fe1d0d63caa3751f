//! A plan as a work order: who is merged into what, which rule stands in the way, each row of the cause
//! with its design and its values, where they meet, what was tried, and the lines of the plan.
//!
//! - `work_order` [`order`, `back`]: its sentences are those of what `plan` answers, byte for byte; it tells one trial of each
//!   remedy that can be tried, in their order, in the words of the remedy and with what `plan` answers, of the designs of the cause alone,
//!   over the office that it leaves; of each member that helps these, and no other, with what `plan_in_order` answers if it goes first;
//!   behind each no stands its own cause; its last lines are those of the plan, and so is its answer; and the office is as before.
//! - `try_remedies` [`tried`, `back`]: the trials alone, of a plan that is given. `among_words`: among whom they are made.
//! - `limits_of_orders`: the limit of what is told and the savepoint's name, as literals.
#![tactic(auto)]

mod actions;
mod among;
mod answers;
mod bringing;
mod laws;
mod remedies;
mod split_trials;
mod trial_lines;
mod trials;
mod undoings;
mod work_orders;

pub use actions::Action;
pub use among::among_words;
pub use answers::Answer;
pub use laws::limits_of_orders;
pub use trials::{Trial, try_remedies};
pub use work_orders::{WorkOrder, work_order};
