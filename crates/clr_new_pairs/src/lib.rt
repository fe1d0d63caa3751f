//! The needs of two rows that members bring.
//!
//! - `NewPairs`: a root's rows and what members change there. `add_of_new_pairs`: adds the needs of two
//!   of some versions to a list. Their parts are filed by their spots, so that each is held against
//!   those alone that share one with it. Where it is asked to, it may leave needs out that stand
//!   behind one of two new versions in the list, under a rule by which no row serves.
#![tactic(auto)]

mod new_pairs;
mod unserved;

pub use new_pairs::NewPairs;
