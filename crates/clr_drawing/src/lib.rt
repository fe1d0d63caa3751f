//! What pictures of a network are drawn with: lines of shapes, ticks and scales, signs, colours and places for labels. Numbers are whole:
//! millimetres of the world, and tenths of a pixel of the page. What would leave 64 bits stops at their limit.
//!
//! - `Area`, `Viewport`, `Detail`, `extent_of`, `joined`, `grown` and `longer_side` are those of `clr_viewports`, handed on.
//! - `ticks`, `round_metres`: exactly which multiples of a step are marked along an axis, and how a length is read in metres. `round_step` is at
//!   least 1; that it is the greatest round number is tested.
//! - `Sketch`, `add_line`, `add_shape`, `add_sign`, `add_cross`: exactly which element or which steps are drawn over those so far. `middle_of`,
//!   `sign_at`, `design_colours`: exactly the middle of a shape, and the sign and the colours of a number.
//! - `Labels::put` [`free`]: the area of a label that is placed overlaps none of those that were taken, and is taken itself; so no label
//!   covers another. Which of the free places it gets is tested.
//! - Each call is safe and ends, and no call fails while there is memory. How wide words are, which spots along a line labels leave free, and
//!   what else a picture looks like, is tested.
#![tactic(auto)]

mod labels;
mod metres;
mod palette;
mod paths;
mod round_numbers;
mod signs;
mod sketches;
mod widths;

pub use clr_viewports::{Area, Detail, Viewport, extent_of, grow_box, join_boxes, longer_side};
pub use labels::{Labels, Placed};
pub use metres::round_metres;
pub use palette::{
    ALARM, CAUTION, CLEAR, DesignColours, FAINT, GRID, GROUND, HALO, INK, PAPER, PLAIN, SIGN, SOFT,
    design_colours,
};
pub use paths::{add_line, add_shape, middle_of, samples};
pub use round_numbers::{round_step, ticks};
pub use signs::{Sign, add_cross, add_sign, sign_at};
pub use sketches::Sketch;
pub use widths::words_width;
