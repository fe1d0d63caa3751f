//! Tips: the keys and the rows that a work order tells designs to bring, and how lines that cross at no whole millimetre are split at a place near.
//!
//! - `tip_key`: the key of a row that a design is told to bring; `tips_differ`, `tips_are_free`: no two workspaces are told one key, and each such key is
//!   free.
//! - `serving_row`: a row that serves under a rule, at a place.
//! - `splits_of`: how the lines of a need are split, by the designs that bring them, and which of these bring a node. A segment ends at the place, and
//!   another row with its values goes on from there; a path has one more vertex.
//! - `Split::copy`, `copy_edit`, `copy_edits`: copies, exactly.
#![tactic(auto)]

mod copies;
mod keys;
mod laws;
mod lines;
mod rows;
mod splits;
mod splitting;

pub use copies::{copy_edit, copy_edits};
pub use keys::tip_key;
pub use laws::{tips_are_free, tips_differ};
pub use rows::serving_row;
pub use splits::{Piece, Split};
pub use splitting::splits_of;
