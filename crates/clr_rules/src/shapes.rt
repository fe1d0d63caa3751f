//! Points and ends of shapes.

ghost use Rattle.std.specs.Prelude.{◌≡◌, true, IfSome};
ghost use Rattle.clr_rows.specs.Places.{InRange};
ghost use Rattle.clr_rows.specs.Schemas.{has_coordinates};
ghost use Rattle.clr_rules.specs.Sides.{point_in, end_in};

use crate::rules::Tip;
use clr_rows::{Place, Shape};

/// Returns the point that a shape is, if it is one. Its coordinates are within range.
pub fn point_in(shape: &Shape) -> Option<Place>
    requires { has_coordinates shape.now ≡ true }
    ensures value { result ≡ point_in shape.now }
    ensures range { IfSome result InRange }
{
    match shape {
        Shape::At(point) => Some(*point),
        Shape::Bare | Shape::Line(_, _) | Shape::Chain(_) => None,
    }
}

/// Returns an end of the segment or path that a shape is, if it is one. Its coordinates are within
/// range.
pub fn end_in(tip: Tip, shape: &Shape) -> Option<Place>
    requires { has_coordinates shape.now ≡ true }
    ensures value { result ≡ end_in tip shape.now }
    ensures range { IfSome result InRange }
{
    match (tip, shape) {
        (Tip::First, Shape::Line(first, _)) => Some(*first),
        (Tip::Second, Shape::Line(_, second)) => Some(*second),
        (Tip::First, Shape::Chain(vertices)) => vertices.as_slice().first().copied(),
        (Tip::Second, Shape::Chain(vertices)) => vertices.as_slice().last().copied(),
        _ => None,
    }
}
