//! What finders of rows promise: the cells of the rows that share a spot with a row under a rule; and
//! the spots of rows by cell, from which a finder is made.
//!
//! - `RowFinder` is the contract of every finder; `clr_grid` has two bodies of it. `without_rows`
//!   [`settled`, `pending`] makes one without rows. `sharing` answers which rows share a spot with a
//!   row under a rule, and `sharing_servers` those alone of the side that serves: exactly,
//!   ascending and each once. `next_server` goes over those of `sharing_servers` cell by cell,
//!   without memory, and may answer other cells between them. `note` [`settled`, `ok`, `err`] adds
//!   a change before it is made, or nothing; `settle` takes the noted changes over and `forget`
//!   drops them, both without memory.
//! - `RuleSpots` and `RowSpots` are what a finder keeps of a row under one rule and under each:
//!   `RuleSpots::new`, `RowSpots::new` and `row_spots_at` make them. `may_serve`: whether a row is of
//!   the side that serves.
//!   `lesser_cell`: the lesser of two cells, or the one that there is.
//! - `finders_find_what_shares` and `finders_find_servers` say what is found where a finder has the
//!   rows of a content.
//! - `RowMap` keeps the spots of rows by cell, for one book of rules: those that are settled, and
//!   pending changes. `new` makes one without rows. `put` [`ok`, `err`] adds a settled row; `note`
//!   [`ok`, `err`] adds a pending change, or nothing, and makes room for its row. So `settle` and
//!   `settle_at` [`before`, `after`], which take changes over, and `forget` and `forget_at` [`before`,
//!   `after`], which drop them, take no memory. `settled_row`, `pending_row` and `first_pending` read.
//!   `find_all` answers the cells whose rows share with a row under a rule, ascending and each once;
//!   `find_among` looks for them among cells that are given. `next_cell` goes over the cells with
//!   rows one by one, without memory; `bound_behind` is where such a search goes on.
#![tactic(auto)]

mod bounds;
mod finders;
mod laws;
mod meetings;
mod next_cells;
mod row_maps;
mod row_spots;
mod sides;

pub use bounds::bound_behind;
pub use finders::RowFinder;
pub use laws::{finders_find_servers, finders_find_what_shares};
pub use next_cells::lesser_cell;
pub use row_maps::RowMap;
pub use row_spots::{RowSpots, RuleSpots, row_spots_at};
pub use sides::may_serve;
