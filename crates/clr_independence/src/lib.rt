//! Which members of a root are independent, pair by pair: those of which no possible need involves both.
//!
//! - `independence_of` gives the first test of members that fails (the root, names, conflicts, shared cells), or
//!   each pair of an office's members once, in the order of the list, and whether no possible need, touched or not,
//!   involves both (`IsIndependenceOf`).
//! - `independence_lines` gives exactly the lines of that, and `independence_output` what is printed of it, which is a refusal
//!   where two members are dependent or unfit (`IsIndependenceOutcome`). All fail only if memory runs out.
#![tactic(auto)]

mod independences;
mod independent_members;
mod lines_of_pairs;
mod member_needs;
mod member_pairs;

pub use independences::independence_output;
pub use independent_members::{Independence, independence_of};
pub use lines_of_pairs::independence_lines;
pub use member_pairs::MemberPair;
