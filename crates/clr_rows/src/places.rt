//! Points of the plane, and the shapes of rows.

ghost use Rattle.std.specs.Prelude.{◌≡◌, ◌↔◌, IfOk, IsTrue};
ghost use Rattle.clr_rows.specs.Same.{same_place};

use crate::vertices::Vertices;
use std::alloc::AllocError;

/// A point of the plane, in whole millimetres.
#[derive(Clone, Copy, Debug, PartialEq, Eq)]
pub struct Place {
    pub x: i64,
    pub y: i64,
}

impl Place {
    /// Returns whether both places are the same.
    pub fn same(&self, other: &Place) -> bool
        ensures value { result ≡ same_place self.now other.now }
        ensures equal { IsTrue result ↔ (self.now ≡ other.now) }
    {
        self.x == other.x && self.y == other.y
    }
}

/// The shape of a row: none, a point, a segment with its two ends, or a path.
#[derive(Debug, Drop)]
pub enum Shape {
    Bare,
    At(Place),
    Line(Place, Place),
    Chain(Vertices),
}

impl Shape {
    /// Returns a copy of the shape.
    pub fn copy(&self) -> Result<Shape, AllocError>
        ensures { IfOk result (λ shape. shape ≡ self.now) }
    {
        match self {
            Shape::Bare => Ok(Shape::Bare),
            Shape::At(place) => Ok(Shape::At(*place)),
            Shape::Line(first, second) => Ok(Shape::Line(*first, *second)),
            Shape::Chain(vertices) => Ok(Shape::Chain(vertices.copy()?)),
        }
    }

    /// Returns whether both shapes are the same. The ends of a segment and the vertices of a path are compared in their order.
    /// For example, the segment from (0, 0) to (10, 10) isn't the same as the one from (10, 10) to (0, 0).
    pub fn same(&self, other: &Shape) -> bool
        ensures { IsTrue result ↔ (self.now ≡ other.now) }
    {
        match (self, other) {
            (Shape::Bare, Shape::Bare) => true,
            (Shape::At(a), Shape::At(b)) => a.same(b),
            (Shape::Line(a, b), Shape::Line(c, d)) => a.same(c) && b.same(d),
            (Shape::Chain(a), Shape::Chain(b)) => a.same(b),
            _ => false,
        }
    }
}
