//! The parts of a shape: how many it has, and the ends of each.

ghost use Rattle.std.specs.Prelude.{◌≡◌, length, min, slice_get};
ghost use Rattle.clr_rows.specs.Parts.{path_parts, parts_of, part_of};

use clr_rows::{Place, Shape};

/// Returns how many parts a shape has: a path has one from each vertex to the next, a segment is
/// one part, and another shape has none. A path with more than 65,535 parts, which fits no schema,
/// is said to have 65,535.
pub fn parts(shape: &Shape) -> u16
    ensures { result ≡ min (length (parts_of shape.now)) u16.MAX }
{
    match shape {
        Shape::Bare => 0,
        Shape::At(_) => 0,
        Shape::Line(_, _) => 1,
        Shape::Chain(vertices) => {
            let parts = vertices.as_slice().len().saturating_sub(1);
            parts.min(u16::MAX as usize) as u16
        }
    }
}

// The vertex at a position and the next, or none where either isn't there.
fn part_from(vertices: &[Place], at: u16) -> Option<(Place, Place)>
    ensures { result ≡ slice_get (path_parts vertices.now) at }
{
    let at = at as usize;
    if at + 1 < vertices.len() {
        Some((vertices[at], vertices[at + 1]))
    } else {
        None
    }
}

/// Returns the ends of a part of a shape, or none where the shape has no part of this number. Part
/// n of a path goes from its vertex n to its vertex n + 1, counted from 1. A segment is its own
/// part 1.
/// For example, part 3 of the path (100, 0), (110, 0), (110, 10), (100, 10) goes from (110, 10) to (100, 10), and
/// there is no part 4.
pub fn part(shape: &Shape, number: u16) -> Option<(Place, Place)>
    ensures { result ≡ part_of shape.now number }
{
    if number == 0 {
        return None;
    }
    match shape {
        Shape::Line(first, second) if number == 1 => Some((*first, *second)),
        Shape::Chain(vertices) => part_from(vertices.as_slice(), number - 1),
        _ => None,
    }
}
