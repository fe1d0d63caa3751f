//! Parts and boxes of shapes.

use crate::places::bounds_text;
use clr_row_test_kit::{ordinal, shape};
use clr_segments::{box_of_shape, part, parts};
use std::alloc::Global;

/// Returns how many parts a shape has.
pub(crate) fn parts_text(alloc: Global, text: &str) -> Option<String> {
    let count = parts(&shape(alloc, text)?);
    format!(in alloc; "{count}").ok()
}

/// Returns the ends of the part of a number.
pub(crate) fn part_text(alloc: Global, text: &str) -> Option<String> {
    let (number, rest) = text.split_once(' ')?;
    let shape = shape(alloc, rest)?;
    match part(&shape, ordinal(number)?) {
        Some((a, b)) => format!(in alloc; "{},{} {},{}", a.x, a.y, b.x, b.y).ok(),
        None => String::from_str(alloc, "none").ok(),
    }
}

/// Returns the least and most place of a shape's box.
pub(crate) fn box_text(alloc: Global, text: &str) -> Option<String> {
    let shape = shape(alloc, text)?;
    match box_of_shape(&shape) {
        Some(bounds) => bounds_text(alloc, &bounds),
        None => String::from_str(alloc, "none").ok(),
    }
}
