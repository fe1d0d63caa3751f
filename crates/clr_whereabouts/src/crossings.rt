//! Near which place two parts meet whose common point is no whole millimetre.

ghost use Rattle.std.specs.Prelude.{◌≡◌, ℕ, ℤ, ◌-ℤ◌, ◌*ℤ◌, ◌*◌, ◌≤◌, unsigned_abs};
ghost use Rattle.clr_rows.specs.declared.limits.TheConstants.{GREATEST_COORDINATE};
ghost use Rattle.clr_rows.specs.Places.{InRange};
ghost use Rattle.clr_segments.specs.Sizes.{greatest_difference, greatest_product};
ghost use Rattle.clr_phrases.specs.Crossings.{product_of_ways};
ghost use Rattle.clr_phrases.specs.Meetings.{IsPart};
ghost use Rattle.clr_whereabouts.specs.Crossings.{IsCommonNear, IsNearMeeting, IsReached, IsShare, MeetBetween, greatest_reach};

use crate::ranges::is_part;
use clr_rows::Place;

/// Returns the way from one coordinate to another.
fn way(from: i64, to: i64) -> i128
    requires from_in { unsigned_abs from ≤ GREATEST_COORDINATE }
    requires to_in { unsigned_abs to ≤ GREATEST_COORDINATE }
    ensures value { result ≡ to -ℤ from }
    ensures bound { unsigned_abs result ≤ greatest_difference }
{
    i128::from(to) - i128::from(from)
}

/// Returns the product of two ways.
fn product(one: i128, other: i128) -> i128
    requires one_in { unsigned_abs one ≤ greatest_difference }
    requires other_in { unsigned_abs other ≤ greatest_difference }
    ensures value { result ≡ one *ℤ other }
    ensures bound { unsigned_abs result ≤ greatest_product }
{
    one * other
}

/// Returns the cross product of the way from a to b and the way from c to d.
fn product_of_ways(a: Place, b: Place, c: Place, d: Place) -> i128
    requires a_in { InRange a }
    requires b_in { InRange b }
    requires c_in { InRange c }
    requires d_in { InRange d }
    ensures value { result ≡ product_of_ways a b c d }
    ensures bound { unsigned_abs result ≤ 2 * greatest_product }
{
    product(way(a.x, b.x), way(c.y, d.y)) - product(way(a.y, b.y), way(c.x, d.x))
}

/// Returns the coordinate that is this far from another, or the other one if an `i64` holds no such
/// number.
fn moved(from: i64, shift: i128) -> i64
    requires { unsigned_abs from ≤ GREATEST_COORDINATE }
    ensures { (x : ℤ) → unsigned_abs x ≤ greatest_reach → shift ≡ x -ℤ from → result ≡ x }
{
    match i128::from(from).checked_add(shift) {
        Some(sum) => i64::try_from(sum).unwrap_or(from),
        None => from,
    }
}

/// Returns the coordinate that is reached after this share of the way from one to another, rounded
/// towards the first.
fn coordinate_near(from: i64, to: i64, numerator: i128, denominator: i128) -> i64
    requires from_in { unsigned_abs from ≤ GREATEST_COORDINATE }
    requires to_in { unsigned_abs to ≤ GREATEST_COORDINATE }
    requires numerator_in { unsigned_abs numerator ≤ 2 * greatest_product }
    ensures { (d s : ℕ) → IsShare d s numerator denominator → IsReached d s from to result }
{
    let scaled = way(from, to) * numerator;
    match scaled.checked_div(denominator) {
        Some(shift) => moved(from, shift),
        None => from,
    }
}

/// Returns a place near where two parts meet that meet between whole millimetres.
fn place_near(first: (Place, Place), second: (Place, Place)) -> Place
    requires first_part { IsPart first.0 first.1 }
    requires second_part { IsPart second.0 second.1 }
    ensures { MeetBetween first second → IsCommonNear first second result }
{
    let (a, b) = first;
    let (c, d) = second;
    let numerator = product_of_ways(a, c, c, d);
    let denominator = product_of_ways(a, b, c, d);
    Place {
        x: coordinate_near(a.x, b.x, numerator, denominator),
        y: coordinate_near(a.y, b.y, numerator, denominator),
    }
}

/// Returns a place near the common point of two parts that have one between whole millimetres: each coordinate is rounded towards the first end of the
/// first part. It returns none where the ends of a part are the same, or a coordinate is out of range; of other parts the place says nothing.
/// Coordinates are millimetres of at most 1,000,000,000 in size.
/// For example, the parts from (0, 0) to (3, 3) and from (0, 3) to (3, 0) meet near (1, 1).
pub fn crossing_near(first: (Place, Place), second: (Place, Place)) -> Option<Place>
    ensures { MeetBetween first second → IsNearMeeting first second result }
{
    if !is_part(first) || !is_part(second) {
        return None;
    }
    Some(place_near(first, second))
}
