//! Boxes with sides along the axes: those of segments and shapes, and whether two of them touch.

ghost use Rattle.std.specs.Prelude.{◌≡◌, ◌↔◌, ℤ, IsTrue};
ghost use Rattle.clr_segments.specs.Bounding.{Between, InBox, BoxesTouch, IsLeastBox, box_between, box_with, box_of_path, box_of_shape};

use clr_rows::{Place, Shape};

/// A box with sides along the axes, in millimetres: all places from the least to the most in both
/// coordinates, its edges included.
#[derive(Clone, Copy, Debug, PartialEq, Eq)]
pub struct Bounds {
    pub least: Place,
    pub most: Place,
}

/// Returns the least box that holds the segment from a to b. Where a and b are one place, it is the
/// box of that place.
/// For example, the box of the segment from (4, -1) to (-2, 7) has the corners (-2, -1) and (4, 7).
pub fn box_of(a: Place, b: Place) -> Bounds
    ensures value { result ≡ box_between a b }
    ensures least { IsLeastBox a b result }
{
    Bounds {
        least: Place {
            x: a.x.min(b.x),
            y: a.y.min(b.y),
        },
        most: Place {
            x: a.x.max(b.x),
            y: a.y.max(b.y),
        },
    }
}

// The least box that holds a box and a place.
fn widen(bounds: Bounds, place: Place) -> Bounds
    ensures { result ≡ box_with bounds place }
{
    Bounds {
        least: box_of(bounds.least, place).least,
        most: box_of(bounds.most, place).most,
    }
}

// The least box of a path's vertices, or none where there are none.
fn box_of_path(vertices: &[Place]) -> Option<Bounds>
    ensures { result ≡ box_of_path vertices.now }
{
    let first = *vertices.first()?;
    let mut bounds = box_of(first, first);
    for vertex in &vertices[1..] {
        bounds = widen(bounds, *vertex);
    }
    Some(bounds)
}

/// Returns the least box that holds every vertex of a shape, and so each of its parts. Returns none
/// for a shape without vertices.
pub fn box_of_shape(shape: &Shape) -> Option<Bounds>
    ensures { result ≡ box_of_shape shape.now }
{
    match shape {
        Shape::Bare => None,
        Shape::At(place) => Some(box_of(*place, *place)),
        Shape::Line(first, second) => Some(box_of(*first, *second)),
        Shape::Chain(vertices) => box_of_path(vertices.as_slice()),
    }
}

// Whether x is from low to high.
fn is_between(low: i64, x: i64, high: i64) -> bool
    ensures { IsTrue result ↔ Between low x high }
{
    low <= x && x <= high
}

// Whether p is in the box.
pub(crate) fn is_in_box(p: Place, bounds: Bounds) -> bool
    ensures { IsTrue result ↔ InBox p bounds }
{
    is_between(bounds.least.x, p.x, bounds.most.x) && is_between(bounds.least.y, p.y, bounds.most.y)
}

// Whether some number is from low to high and from other_low to other_high.
fn ranges_touch(low: i64, high: i64, other_low: i64, other_high: i64) -> bool
    ensures { IsTrue result ↔ ((x : ℤ) × Between low x high × Between other_low x other_high) }
{
    low.max(other_low) <= high.min(other_high)
}

/// Returns whether two boxes have a common point, their edges included.
/// For example, the box from (0, 0) to (1, 2) touches the one from (1, 2) to (2, 4), since they share a corner.
pub fn boxes_touch(b: Bounds, c: Bounds) -> bool
    ensures { IsTrue result ↔ BoxesTouch b c }
{
    ranges_touch(b.least.x, b.most.x, c.least.x, c.most.x)
        && ranges_touch(b.least.y, b.most.y, c.least.y, c.most.y)
}
