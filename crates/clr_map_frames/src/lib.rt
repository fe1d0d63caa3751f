//! What a map has round its rows: lines and numbers of the axes, the scale, frames round what designs change, the legend, a small plan of
//! everything, and the heading. A scene says what the map shows; each call adds elements to a sketch.
//!
//! - `names_text`: exactly which designs a heading names, in which order, and how many there are besides. `has_frames`: exactly whether what
//!   designs change has frames.
//! - `add_heading` [`says`]: the names and the sentence, the latter on one line or on two, and nothing of them left out but behind `..`.
//!   `add_inset` [`drawn`]: nothing, or a box beside the map of which no frame juts out.
//! - Each call is safe and ends, and no call fails while there is memory. All else of what it looks like is tested.
#![tactic(auto)]

mod axes;
mod frames;
mod headings;
mod insets;
mod legends;

pub use axes::{add_axes, add_grid, area_of_scale};
pub use frames::{add_grounds, add_outlines, frames_of, has_frames, largest};
pub use headings::{VERDICT_SIZE, add_heading, names_text};
pub use insets::add_inset;
pub use legends::legend_of;
