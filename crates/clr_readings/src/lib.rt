//! What calls that read something answer, for faults of any type: definitions and lemmas, and no code.
//!
//! - `Gives`, `Fails` in specs/: a call gives what is read, or fails as it does, unless memory ran out. `GivesAt`, `FailsAt`: the same
//!   of faults beside the numbers of their records, and `numbered_fault`.
//! - `◌>>=◌`: one reading after another, up to the first fault. `or_fault`: a value that is there, or a fault in its place.
#![tactic(auto)]
