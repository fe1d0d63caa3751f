//! How two segments meet.

ghost use Rattle.std.specs.Prelude.{◌↔◌, IsTrue};
ghost use Rattle.clr_rows.specs.Places.{InRange, Differ};
ghost use Rattle.clr_segments.specs.Segments.{MeetIs};
ghost use Rattle.clr_segments.specs.Turns.{SameSign, OnOneSide, AreParted, AreCollinear};

use crate::axis::meet_on_axis;
use crate::meeting::Meet;
use crate::sides::{is_on_line, turn};
use clr_rows::Place;

// Whether both numbers are positive, or both negative.
fn same_sign(m: i64, n: i64) -> bool
    ensures { IsTrue result ↔ SameSign m n }
{
    if m > 0 {
        n > 0
    } else if m < 0 {
        n < 0
    } else {
        false
    }
}

// Whether c and d are strictly on one side of the line from a to b.
fn on_one_side(a: Place, b: Place, c: Place, d: Place) -> bool
    requires a_in { InRange a }
    requires b_in { InRange b }
    requires c_in { InRange c }
    requires d_in { InRange d }
    ensures { IsTrue result ↔ OnOneSide a b c d }
{
    same_sign(turn(a, b, c), turn(a, b, d))
}

// Whether one of the segments has both ends of the other strictly on one side.
fn are_parted(a: Place, b: Place, c: Place, d: Place) -> bool
    requires a_in { InRange a }
    requires b_in { InRange b }
    requires c_in { InRange c }
    requires d_in { InRange d }
    ensures { IsTrue result ↔ AreParted a b c d }
{
    on_one_side(a, b, c, d) || on_one_side(c, d, a, b)
}

// Whether c and d are both on the line from a to b.
fn are_collinear(a: Place, b: Place, c: Place, d: Place) -> bool
    requires a_in { InRange a }
    requires b_in { InRange b }
    requires c_in { InRange c }
    requires d_in { InRange d }
    ensures { IsTrue result ↔ AreCollinear a b c d }
{
    is_on_line(a, b, c) && is_on_line(a, b, d)
}

/// Returns how the segments from a to b and from c to d meet, their ends included. Where they meet
/// once, that point may have coordinates that aren't whole. The ends of each segment differ, and
/// coordinates are millimetres of at most 1,000,000,000 in size.
/// For example, the answer is `Overlap` for the segments from (0, 0) to (6, 0) and from (4, 0) to (9, 0). It is
/// `Once` for those from (0, 0) to (1, 1) and from (0, 1) to (1, 0), which meet between whole millimetres.
pub fn meet(a: Place, b: Place, c: Place, d: Place) -> Meet
    requires a_in { InRange a }
    requires b_in { InRange b }
    requires c_in { InRange c }
    requires d_in { InRange d }
    requires first_ends { Differ a b }
    requires second_ends { Differ c d }
    ensures { MeetIs result a b c d }
{
    if are_parted(a, b, c, d) {
        Meet::Apart
    } else if !are_collinear(a, b, c, d) {
        Meet::Once
    } else if a.x != b.x {
        meet_on_axis(a.x, b.x, c.x, d.x)
    } else {
        meet_on_axis(a.y, b.y, c.y, d.y)
    }
}
