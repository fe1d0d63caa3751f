//! The place at which the lines through two parts cross.

ghost use Rattle.std.specs.Prelude.{◌≡◌, ◌≢◌, ℤ, pos, ◌-ℤ◌, ◌*ℤ◌, ◌*◌, ◌≤◌, unsigned_abs};
ghost use Rattle.clr_rows.specs.declared.limits.TheConstants.{GREATEST_COORDINATE};
ghost use Rattle.clr_rows.specs.declared.places.Place.{Place};
ghost use Rattle.clr_rows.specs.Places.{InRange};
ghost use Rattle.clr_segments.specs.Segments.{LiesOn};
ghost use Rattle.clr_segments.specs.Sizes.{greatest_difference, greatest_product};
ghost use Rattle.clr_phrases.specs.Crossings.{IsCoordinateAt, product_of_ways};

use clr_rows::Place;

/// Returns the way from one coordinate to another.
fn way(from: i64, to: i64) -> i128
    requires from_in { unsigned_abs from ≤ GREATEST_COORDINATE }
    requires to_in { unsigned_abs to ≤ GREATEST_COORDINATE }
    ensures value { result ≡ to -ℤ from }
    ensures bound { unsigned_abs result ≤ greatest_difference }
{
    i128::from(to) - i128::from(from)
}

/// Returns the product of two ways.
fn product(one: i128, other: i128) -> i128
    requires one_in { unsigned_abs one ≤ greatest_difference }
    requires other_in { unsigned_abs other ≤ greatest_difference }
    ensures value { result ≡ one *ℤ other }
    ensures bound { unsigned_abs result ≤ greatest_product }
{
    one * other
}

/// Returns the cross product of the way from a to b and the way from c to d.
fn product_of_ways(a: Place, b: Place, c: Place, d: Place) -> i128
    requires a_in { InRange a }
    requires b_in { InRange b }
    requires c_in { InRange c }
    requires d_in { InRange d }
    ensures value { result ≡ product_of_ways a b c d }
    ensures bound { unsigned_abs result ≤ 2 * greatest_product }
{
    product(way(a.x, b.x), way(c.y, d.y)) - product(way(a.y, b.y), way(c.x, d.x))
}

/// Returns the coordinate that is this far from another, or the other one if an `i64` holds no such
/// number.
fn moved(from: i64, shift: i128) -> i64
    requires { unsigned_abs from ≤ GREATEST_COORDINATE }
    ensures { (x : ℤ) → unsigned_abs x ≤ GREATEST_COORDINATE → shift ≡ x -ℤ from → result ≡ x }
{
    match i128::from(from).checked_add(shift) {
        Some(sum) => i64::try_from(sum).unwrap_or(from),
        None => from,
    }
}

/// Returns the coordinate that is reached after this share of the way from one to another, rounded
/// towards the first.
fn coordinate_at(from: i64, to: i64, numerator: i128, denominator: i128) -> i64
    requires from_in { unsigned_abs from ≤ GREATEST_COORDINATE }
    requires to_in { unsigned_abs to ≤ GREATEST_COORDINATE }
    requires numerator_in { unsigned_abs numerator ≤ 2 * greatest_product }
    ensures { (x : ℤ) → IsCoordinateAt from to numerator denominator x → result ≡ x }
{
    let scaled = way(from, to) * numerator;
    match scaled.checked_div(denominator) {
        Some(shift) => moved(from, shift),
        None => from,
    }
}

/// Returns the place at which the lines through two parts cross, with each coordinate rounded
/// towards the first end of the first part. If the lines are parallel, it returns this end.
pub(crate) fn crossing_of_lines(first: (Place, Place), second: (Place, Place)) -> Place
    requires a_in { InRange first.0 }
    requires b_in { InRange first.1 }
    requires c_in { InRange second.0 }
    requires d_in { InRange second.1 }
    ensures { (p : Place) → LiesOn p first.0 first.1 → LiesOn p second.0 second.1
        → product_of_ways first.0 first.1 second.0 second.1 ≢ pos 0 → result ≡ p }
{
    let (a, b) = first;
    let (c, d) = second;
    let numerator = product_of_ways(a, c, c, d);
    let denominator = product_of_ways(a, b, c, d);
    Place {
        x: coordinate_at(a.x, b.x, numerator, denominator),
        y: coordinate_at(a.y, b.y, numerator, denominator),
    }
}
