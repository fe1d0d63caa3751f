//! What workspaces see: their contents read by cell or whole, the differences that keep them as they
//! are before another content changes, and the sweep of neutral differences after it.
//!
//! - `row_of`, `base_row_of`, `whole_rows`, `base_rows`, `saved_rows` and `changes_of` read the
//!   rows of a workspace, by cell or whole, as the differences above one another mean them.
//! - `changes_to_base`, `changes_to_saved` and `changes_to_refreshed` tell what would change in the
//!   current content of a workspace, were it rolled back or refreshed; no whole content is made.
//! - `store_rows_of_children`, `store_current_rows` and `store_seen_row` store differences before a content below
//!   changes [`seen`]: no content changes by them, also where memory runs out.
#![tactic(auto)]

mod comparisons;
mod reads;
mod seen_rows;
mod sweeps;
mod views;
mod wholes;

pub use comparisons::{changes_to_base, changes_to_refreshed, changes_to_saved};
pub use reads::{base_row_of, depth_at, parent_of, row_of, saved_row_of};
pub use seen_rows::{store_current_rows, store_rows_of_children, store_seen_row};
pub use sweeps::{sweep, sweep_at};
pub use views::{BaseView, ChangedView, SavedView, View};
pub use wholes::{base_rows, cells_of, changes_of, saved_at, saved_rows, whole_rows};
