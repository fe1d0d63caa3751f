//! The answer of the second program that shows all designs of an office at once.
//!
//! - `answer_board`: over the office of a text, the board of the members that names ask for, with their smallest clashes (`IsBoardPrint`). Where no memory is
//!   found, it answers OutOfMemory.
#![tactic(auto)]

mod boards;

pub use boards::answer_board;
