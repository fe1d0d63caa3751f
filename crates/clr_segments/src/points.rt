//! Whether a place is on a segment, and whether two places are near.

ghost use Rattle.std.specs.Prelude.{◌↔◌, ◌≤ℤ◌, ◌<ℤ◌, ◌*ℤ◌, pos, IsTrue};
ghost use Rattle.clr_rows.specs.Places.{InRange, Differ};
ghost use Rattle.clr_segments.specs.Segments.{LiesOn};
ghost use Rattle.clr_segments.specs.Turns.{squared_distance};

use crate::boxes::{box_of, is_in_box};
use crate::limits::GREATEST_DISTANCE;
use crate::sides::{difference, is_on_line, product};
use clr_rows::Place;

/// Returns whether p is a point of the segment from a to b, its ends included. The ends differ, and
/// coordinates are millimetres of at most 1,000,000,000 in size.
/// For example, (2, 2) is a point of the segment from (0, 0) to (3, 3), and (4, 4) isn't.
pub fn lies_on(p: Place, a: Place, b: Place) -> bool
    requires p_in { InRange p }
    requires a_in { InRange a }
    requires b_in { InRange b }
    requires ends { Differ a b }
    ensures { IsTrue result ↔ LiesOn p a b }
{
    is_on_line(a, b, p) && is_in_box(p, box_of(a, b))
}

/// Returns whether p and q are nearer than d millimetres. Two places exactly d apart are not. The
/// distance d is 1 to 1,000,000, and coordinates are millimetres of at most 1,000,000,000 in size.
/// For example, (0, 0) and (3, 4) are nearer than 6 millimetres, and not nearer than 5.
pub fn near(p: Place, q: Place, d: i64) -> bool
    requires p_in { InRange p }
    requires q_in { InRange q }
    requires d_least { pos 1 ≤ℤ d }
    requires d_most { d ≤ℤ GREATEST_DISTANCE }
    ensures { IsTrue result ↔ (squared_distance p q <ℤ (d *ℤ d)) }
{
    let x = difference(q.x, p.x);
    let y = difference(q.y, p.y);
    product(x, x) + product(y, y) < product(d, d)
}
