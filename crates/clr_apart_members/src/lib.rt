//! Members that no need ties to those of a cut, by a pass over the rows of the others.
//!
//! - `others_found_by_no_test_are_independent`: a cut for some members has all rows that are tied to them, and a test that takes each row which is found
//!   for groups takes no row of another member, as it is or as it is to be; then none of these members depends on one of the others.
#![tactic(auto)]

mod laws;

pub use laws::others_found_by_no_test_are_independent;
