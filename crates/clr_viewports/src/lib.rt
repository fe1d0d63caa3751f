//! Which part of the world a picture shows, where a place stands on its page, and how much detail there is room for. Numbers are whole:
//! millimetres of the world, and tenths of a pixel of the page. What would leave 64 bits stops at their limit.
//!
//! - `Area`: a rectangle of a page. Which other area or spot it holds, what it has in common with another one, and how it grows and joins.
//! - `extent_of`, `joined`, `grown`, `longer_side`: boxes of the world about shapes.
//! - `Viewport`: the part of the world that a frame of the page shows, where a place stands in it, and whether a shape is seen.
//! - `Detail`: for how much there is room in an area.
//! - Each call gives exactly what its definition says, is safe and ends, and takes no memory but for what it is handed.
#![tactic(auto)]

mod areas;
mod details;
mod extents;
mod viewports;

pub use areas::Area;
pub use details::Detail;
pub use extents::{extent_of, grow_box, join_boxes, longer_side};
pub use viewports::Viewport;
