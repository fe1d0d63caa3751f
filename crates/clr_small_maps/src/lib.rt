//! A small map of what designs change: their lines and points, and the rows of the root round them. It knows no office and no plan.
//!
//! - `small_map` [`map`]: nothing where no change stands anywhere; else the text of a page with exactly this title and this description, of which a
//!   layer draws exactly the lines of the changes, as `add_line_marks` of `clr_map_marks` does. Each text is escaped.
//! - Of the root at most `MOST_ROWS` rows are drawn, and none where more are seen. So the length of a map doesn't grow with the office. It goes over
//!   the rows of the root once.
//! - All else of what it looks like is tested.
#![tactic(auto)]

mod maps;
mod near_rows;
mod scenes;
mod somewhere;

pub use maps::small_map;
