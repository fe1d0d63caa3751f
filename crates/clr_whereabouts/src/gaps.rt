//! How far apart two points are that are too near.

ghost use Rattle.std.specs.Prelude.{◌≡◌, ◌≤◌, ◌*◌, ◌-ℤ◌, pos, unsigned_abs};
ghost use Rattle.clr_rows.specs.declared.limits.TheConstants.{GREATEST_COORDINATE};
ghost use Rattle.clr_rows.specs.Places.{InRange};
ghost use Rattle.clr_segments.specs.Sizes.{greatest_difference, greatest_product};
ghost use Rattle.clr_segments.specs.Turns.{squared_distance};
ghost use Rattle.clr_whereabouts.specs.Gaps.{IsGapBetween, IsGapOfSquare};

use crate::ranges::is_in_range;
use clr_rows::Place;

/// How far apart two points are that are too near, in whole millimetres.
#[derive(Clone, Copy, Debug)]
pub struct Gap {
    /// Their distance, rounded down.
    pub distance: i64,
    /// How much is missing, rounded up: a point that is moved away by so much is far enough.
    pub missing: i64,
    /// Whether the distance is whole, so that nothing is rounded.
    pub is_whole: bool,
}

/// Returns how far two coordinates are apart.
fn distance_on_axis(from: i64, to: i64) -> u64
    requires from_in { unsigned_abs from ≤ GREATEST_COORDINATE }
    requires to_in { unsigned_abs to ≤ GREATEST_COORDINATE }
    ensures value { result ≡ unsigned_abs (to -ℤ from) }
    ensures bound { result ≤ greatest_difference }
{
    to.abs_diff(from)
}

/// Returns the square of a length.
fn squared(length: u64) -> u64
    requires { length ≤ greatest_difference }
    ensures value { result ≡ length * length }
    ensures bound { result ≤ greatest_product }
{
    length * length
}

/// Returns the square of the distance of two places.
fn square_between(p: Place, q: Place) -> u64
    requires p_in { InRange p }
    requires q_in { InRange q }
    ensures { pos result ≡ squared_distance p q }
{
    squared(distance_on_axis(p.x, q.x)) + squared(distance_on_axis(p.y, q.y))
}

/// Returns what is told of two points, of whose distance this is the square, if it is less than d.
fn gap_of_square(square: u64, d: i64) -> Option<Gap>
    ensures { IsGapOfSquare square d result }
{
    let root = square.isqrt();
    let distance = root as i64;
    if d <= distance {
        return None;
    }
    Some(Gap {
        distance,
        missing: d - distance,
        is_whole: root * root == square,
    })
}

/// Returns how far apart two points are that are nearer than d millimetres, and how much is missing. It returns none of points that aren't, and where a
/// coordinate is out of range. The distance d is at least 1, and coordinates are millimetres of at most 1,000,000,000 in size.
/// For example, (0, 0) and (3, 3) are 4 millimetres apart, rounded down, so that 2 are missing of 6.
pub fn gap_between(p: Place, q: Place, d: i64) -> Option<Gap>
    ensures { IsGapBetween p q d result }
{
    if !is_in_range(p) || !is_in_range(q) {
        return None;
    }
    gap_of_square(square_between(p, q), d)
}
