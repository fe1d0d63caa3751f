//! Places within the limits of the plane.

ghost use Rattle.std.specs.Prelude.{◌↔◌, IsTrue};
ghost use Rattle.clr_rows.specs.Places.{InRange};
ghost use Rattle.clr_phrases.specs.Meetings.{IsPart};

use clr_rows::{GREATEST_COORDINATE, Place};

/// Returns whether a place has coordinates in range.
pub(crate) fn is_in_range(p: Place) -> bool
    ensures { IsTrue result ↔ InRange p }
{
    p.x.unsigned_abs() <= GREATEST_COORDINATE && p.y.unsigned_abs() <= GREATEST_COORDINATE
}

/// Returns whether the ends of a part differ and have coordinates in range.
pub(crate) fn is_part(part: (Place, Place)) -> bool
    ensures { IsTrue result ↔ IsPart part.0 part.1 }
{
    let (a, b) = part;
    is_in_range(a) && is_in_range(b) && !a.same(&b)
}
