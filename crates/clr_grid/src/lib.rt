//! An index of rows: finders, which tell the cells of the rows that share a spot with a row under a rule; and the finders of an office, one for
//! each content in which rules are to hold.
//!
//! - `ListFinder` and `SpotIndex` are two bodies of `RowFinder`, whose contract stands in `clr_finders`, which is handed on. `new` makes either
//!   without rows. `ListFinder` goes over all rows, `SpotIndex` keeps them by rule, side and the number of each spot: the rows that are settled or
//!   noted, and nothing else. So what it keeps goes by the rows that there are, and not by how many have come and gone; only a hash map keeps the
//!   room that it once took.
//! - `Finders` are those of an office, by position: one of the rows of LIVE and of each workspace that is kept. `finder_of` makes the finder of just
//!   the rows of a content. `Finders::note` [`ok`, `err`] adds changes to the finder at a position, all of them or none; `Finders::settle` takes them
//!   over and `Finders::forget` drops them. `put`, `push`, `drop_last` and `remove` do to the positions what their names say; nothing else changes.
#![tactic(auto)]

mod cell_lists;
mod cell_sets;
mod finders;
mod list_finder;
mod next_cells;
mod rule_index;
mod side_index;
mod spot_cells;
mod spot_index;
mod spot_numbers;

pub use clr_finders::RowFinder;
pub use finders::{Finders, finder_of};
pub use list_finder::ListFinder;
pub use spot_index::SpotIndex;
