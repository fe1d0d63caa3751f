//! What tests of calls share at every level: want of memory, budgets of it, cases in texts, and dice.
#![tactic(auto)]

mod budgets;
mod cases;
mod dice;
mod hoards;
mod memories;
mod scarcity;

pub use budgets::{is_last, refusals};
pub use cases::first_wrong;
pub use dice::Dice;
pub use hoards::Hoard;
pub use memories::Memory;
pub use scarcity::{Scarce, first_with_memory, first_wrong_while_scarce};
