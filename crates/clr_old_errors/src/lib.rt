//! Lists of broken needs: how many of some are of each rule, in words, and which of some aren't among others.
//!
//! - `count_of_rule`, `add_rule_count`, `add_rule_counts`: exactly how many of some needs are of a rule, as a line for each rule that has one.
//! - `is_among`, `needs_beside` [`ascending`, `exactly`]: whether a need is among others, and the needs that aren't, ascending, each once.
#![tactic(auto)]

mod other_needs;
mod rule_counts;

pub use other_needs::{is_among, needs_beside};
pub use rule_counts::{add_rule_count, add_rule_counts, count_of_rule};
