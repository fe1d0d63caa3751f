//! Boxes of the world, in millimetres.

ghost use Rattle.std.specs.Prelude.{◌≡◌};
ghost use Rattle.clr_viewports.specs.Extents.{box_about, box_with_box, end_about, extent_with, greater_place, height_of_box, lesser_place};
ghost use Rattle.clr_viewports.specs.Extents.{length_between, longer_side, scaled, scaled_box, start_about, width_of_box};

use clr_rows::{Place, Shape};
use clr_segments::{Bounds, box_of_shape};

/// Returns the least box that holds a box, if there is one, and a shape, if it has vertices.
pub fn extent_of(extent: Option<Bounds>, shape: &Shape) -> Option<Bounds>
    ensures { result ≡ extent_with extent shape.now }
{
    match box_of_shape(shape) {
        Some(bounds) => Some(join_boxes(extent, bounds)),
        None => extent,
    }
}

/// Returns the least box that holds a box, if there is one, and another box.
pub fn join_boxes(extent: Option<Bounds>, bounds: Bounds) -> Bounds
    ensures { result ≡ box_with_box extent bounds }
{
    let Some(extent) = extent else {
        return bounds;
    };
    Bounds {
        least: lesser_place(extent.least, bounds.least),
        most: greater_place(extent.most, bounds.most),
    }
}

fn lesser_place(a: Place, b: Place) -> Place
    ensures { result ≡ lesser_place a b }
{
    Place {
        x: a.x.min(b.x),
        y: a.y.min(b.y),
    }
}

fn greater_place(a: Place, b: Place) -> Place
    ensures { result ≡ greater_place a b }
{
    Place {
        x: a.x.max(b.x),
        y: a.y.max(b.y),
    }
}

#[tactic(auto, unfolding(crate::specs::Extents::length_between))]
pub(crate) fn length_between(low: i64, high: i64) -> i64
    ensures { result ≡ length_between low high }
{
    high.saturating_sub(low)
}

/// Returns the range of this length round the middle of a range.
#[tactic(auto, unfolding(crate::specs::Extents::start_about, crate::specs::Extents::end_about))]
fn range_about(low: i64, high: i64, length: i64) -> (i64, i64)
    ensures { result ≡ (start_about low high length, end_about low high length) }
{
    let middle = low.saturating_add(length_between(low, high) / 2);
    let start = middle.saturating_sub(length / 2);
    (start, start.saturating_add(length))
}

/// Returns the box of these sides round the middle of another.
#[tactic(auto, unfolding(crate::specs::Extents::box_about))]
pub(crate) fn box_about(bounds: Bounds, width: i64, height: i64) -> Bounds
    ensures { result ≡ box_about bounds width height }
{
    let (left, right) = range_about(bounds.least.x, bounds.most.x, width);
    let (low, high) = range_about(bounds.least.y, bounds.most.y, height);
    Bounds {
        least: Place { x: left, y: low },
        most: Place { x: right, y: high },
    }
}

/// Returns a percentage of a length, and at least another length.
#[tactic(auto, unfolding(crate::specs::Extents::scaled))]
fn scale_length(length: i64, percent: i64, least: i64) -> i64
    ensures { result ≡ scaled length percent least }
{
    (length.saturating_mul(percent) / 100).max(least)
}

pub(crate) fn width_of_box(bounds: Bounds) -> i64
    ensures { result ≡ width_of_box bounds }
{
    length_between(bounds.least.x, bounds.most.x)
}

pub(crate) fn height_of_box(bounds: Bounds) -> i64
    ensures { result ≡ height_of_box bounds }
{
    length_between(bounds.least.y, bounds.most.y)
}

/// Returns the box round the middle of another whose sides are a percentage of its sides, and at least this many millimetres.
#[tactic(auto, unfolding(crate::specs::Extents::scaled_box))]
pub fn grow_box(bounds: Bounds, percent: i64, least: i64) -> Bounds
    ensures { result ≡ scaled_box bounds percent least }
{
    let width = scale_length(width_of_box(bounds), percent, least);
    let height = scale_length(height_of_box(bounds), percent, least);
    box_about(bounds, width, height)
}

/// Returns the length of the longer side of a box, in millimetres.
pub fn longer_side(bounds: Bounds) -> i64
    ensures { result ≡ longer_side bounds }
{
    width_of_box(bounds).max(height_of_box(bounds))
}
