//! On which side of a line a place is.

ghost use Rattle.std.specs.Prelude.{◌≡◌, ◌↔◌, ◌≤◌, ◌-ℤ◌, ◌*ℤ◌, IsTrue, pos, unsigned_abs};
ghost use Rattle.std.specs.Int.{int_signum};
ghost use Rattle.clr_rows.specs.declared.limits.TheConstants.{GREATEST_COORDINATE};
ghost use Rattle.clr_rows.specs.Places.{InRange};
ghost use Rattle.clr_segments.specs.Sizes.{greatest_difference, greatest_product};
ghost use Rattle.clr_segments.specs.Turns.{cross_product};

use clr_rows::Place;

// How far the coordinate `to` is above `from`.
pub(crate) fn difference(to: i64, from: i64) -> i64
    requires to_in { unsigned_abs to ≤ GREATEST_COORDINATE }
    requires from_in { unsigned_abs from ≤ GREATEST_COORDINATE }
    ensures value { result ≡ to -ℤ from }
    ensures bound { unsigned_abs result ≤ greatest_difference }
{
    to - from
}

// The product of two differences.
pub(crate) fn product(m: i64, n: i64) -> i64
    requires m_in { unsigned_abs m ≤ greatest_difference }
    requires n_in { unsigned_abs n ≤ greatest_difference }
    ensures value { result ≡ m *ℤ n }
    ensures bound { unsigned_abs result ≤ greatest_product }
{
    m * n
}

// Twice the area of the triangle a b c in square millimetres, negative where c is to the right: at
// most 8 * 10^18 in size, so an `i64` holds it.
fn doubled_area(a: Place, b: Place, c: Place) -> i64
    requires a_in { InRange a }
    requires b_in { InRange b }
    requires c_in { InRange c }
    ensures { result ≡ cross_product a b c }
{
    product(difference(b.x, a.x), difference(c.y, a.y))
        - product(difference(b.y, a.y), difference(c.x, a.x))
}

/// Returns the side of the line from a to b on which the place c is: 1 to the left, -1 to the
/// right, 0 on the line, and 0 where a and b are one place. Coordinates are millimetres of at most
/// 1,000,000,000 in size.
/// For example, (5, 3) is to the left of the line from (0, 0) to (10, 0), so the answer is 1.
pub fn turn(a: Place, b: Place, c: Place) -> i64
    requires a_in { InRange a }
    requires b_in { InRange b }
    requires c_in { InRange c }
    ensures { result ≡ int_signum (cross_product a b c) }
{
    doubled_area(a, b, c).signum()
}

// Whether the place c is on the line from a to b, or a and b are one place.
pub(crate) fn is_on_line(a: Place, b: Place, c: Place) -> bool
    requires a_in { InRange a }
    requires b_in { InRange b }
    requires c_in { InRange c }
    ensures { IsTrue result ↔ (cross_product a b c ≡ pos 0) }
{
    turn(a, b, c) == 0
}
