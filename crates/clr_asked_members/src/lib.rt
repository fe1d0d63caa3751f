//! The members that names ask for.
//!
//! - `members_asked`: these names, or where there are none those of all children of the root (`members_or_children`).
#![tactic(auto)]

mod children;

pub use children::members_asked;
