//! Covers of a scene's touched needs where its members are merged in the order of their positions.
//!
//! - `cover_as_listed` [`IsListedCover`] gives pairs of members, of which the first stands before the
//!   second, and entries that cover every touched need in each order that keeps the pairs; without
//!   any of the pairs one isn't covered. Or it names the least touched need that nothing covers where
//!   each member goes before those behind it: the first members, up to the last that blocks it, break
//!   it. It fails only if memory runs out. Nothing is searched.
#![tactic(auto)]

mod covers;
mod entries;
mod late;
mod listed_covers;
mod listed_pairs;
mod lives;

pub use listed_covers::{ListedCover, cover_as_listed};
