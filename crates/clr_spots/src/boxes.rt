//! Boxes of parts and points, and boxes grown by a distance.

ghost use Rattle.std.specs.Prelude.{◌≡◌, ◌≤◌, ◌≤ℤ◌, ◌+ℤ◌, ◌-ℤ◌, unsigned_abs};
ghost use Rattle.clr_rows.specs.declared.limits.TheConstants.{GREATEST_COORDINATE};
ghost use Rattle.clr_rows.specs.Places.{InRange};
ghost use Rattle.clr_rules.specs.declared.limits.TheConstants.{LEAST_DISTANCE};
ghost use Rattle.clr_segments.specs.declared.limits.TheConstants.{GREATEST_DISTANCE};
ghost use Rattle.clr_segments.specs.Bounding.{box_between, grown_box};
ghost use Rattle.clr_spots.specs.Reach.{IsNear, IsInRange};
ghost use Rattle.clr_spots.specs.declared.limits.TheConstants.{GREATEST_REACH};

use clr_rows::Place;
use clr_segments::{Bounds, box_of};

/// Returns the box between two places.
pub(crate) fn box_between(first: Place, second: Place) -> Bounds
    requires first { InRange first }
    requires second { InRange second }
    ensures value { result ≡ box_between first second }
    ensures range { IsInRange result }
{
    box_of(first, second)
}

/// Returns a coordinate less d millimetres.
fn subtract_distance(x: i64, d: i64) -> i64
    requires in_range { unsigned_abs x ≤ GREATEST_COORDINATE }
    requires d_least { LEAST_DISTANCE ≤ℤ d }
    requires d_most { d ≤ℤ GREATEST_DISTANCE }
    ensures value { result ≡ x -ℤ d }
    ensures bound { unsigned_abs result ≤ GREATEST_REACH }
{
    x - d
}

/// Returns a coordinate and d millimetres more.
fn add_distance(x: i64, d: i64) -> i64
    requires in_range { unsigned_abs x ≤ GREATEST_COORDINATE }
    requires d_least { LEAST_DISTANCE ≤ℤ d }
    requires d_most { d ≤ℤ GREATEST_DISTANCE }
    ensures value { result ≡ x +ℤ d }
    ensures bound { unsigned_abs result ≤ GREATEST_REACH }
{
    x + d
}

/// Returns a box grown by d millimetres on each side.
pub(crate) fn grown_box(bounds: Bounds, d: i64) -> Bounds
    requires in_range { IsInRange bounds }
    requires d_least { LEAST_DISTANCE ≤ℤ d }
    requires d_most { d ≤ℤ GREATEST_DISTANCE }
    ensures value { result ≡ grown_box bounds d }
    ensures near { IsNear result }
{
    Bounds {
        least: Place {
            x: subtract_distance(bounds.least.x, d),
            y: subtract_distance(bounds.least.y, d),
        },
        most: Place {
            x: add_distance(bounds.most.x, d),
            y: add_distance(bounds.most.y, d),
        },
    }
}
