//! Where two parts meet.

ghost use Rattle.std.specs.Prelude.{◌↔◌, IfNone, IfSome, IsTrue};
ghost use Rattle.clr_rows.specs.Places.{InRange};
ghost use Rattle.clr_segments.specs.Segments.{LiesOn, OneCommonPoint, SomeCommonPoint};
ghost use Rattle.clr_phrases.specs.Meetings.{IsMeetingOfParts, IsPart, NoCommonPlace};

use crate::crossings::crossing_of_lines;
use clr_rows::{GREATEST_COORDINATE, Place};
use clr_segments::{Meet, lies_on, meet};

/// Where two parts meet.
#[derive(Clone, Copy, Debug)]
pub enum Meeting {
    /// At this one place.
    Whole(Place),
    /// At one point, which lies between whole millimetres, so that no row can stand there.
    Between,
    /// At more than one point.
    Overlap,
    /// Nowhere.
    Apart,
    /// No parts of a shape: a coordinate is out of range, or the ends of one are the same.
    NoParts,
}

/// Returns whether a place has coordinates in range.
fn is_in_range(p: Place) -> bool
    ensures { IsTrue result ↔ InRange p }
{
    p.x.unsigned_abs() <= GREATEST_COORDINATE && p.y.unsigned_abs() <= GREATEST_COORDINATE
}

/// Returns whether the ends of a part differ and have coordinates in range.
fn is_part(part: (Place, Place)) -> bool
    ensures { IsTrue result ↔ IsPart part.0 part.1 }
{
    let (a, b) = part;
    is_in_range(a) && is_in_range(b) && !a.same(&b)
}

/// Returns whether a place lies on a part, its ends counted in.
fn is_on(p: Place, part: (Place, Place)) -> bool
    requires { IsPart part.0 part.1 }
    ensures { IsTrue result ↔ LiesOn p part.0 part.1 }
{
    is_in_range(p) && lies_on(p, part.0, part.1)
}

/// Returns whether a place lies on both parts.
fn is_on_both(p: Place, first: (Place, Place), second: (Place, Place)) -> bool
    requires first_part { IsPart first.0 first.1 }
    requires second_part { IsPart second.0 second.1 }
    ensures { IsTrue result ↔ (LiesOn p first.0 first.1 × LiesOn p second.0 second.1) }
{
    is_on(p, first) && is_on(p, second)
}

/// Returns the place of whole millimetres at which two parts with one common point meet, if that
/// point is one. Parallel parts meet at an end of the first.
fn common_place(first: (Place, Place), second: (Place, Place)) -> Option<Place>
    requires first_part { IsPart first.0 first.1 }
    requires second_part { IsPart second.0 second.1 }
    requires some { SomeCommonPoint first.0 first.1 second.0 second.1 }
    requires one { OneCommonPoint first.0 first.1 second.0 second.1 }
    ensures on_both { IfSome result (λ p. LiesOn p first.0 first.1 × LiesOn p second.0 second.1) }
    ensures none { IfNone result (NoCommonPlace first.0 first.1 second.0 second.1) }
{
    let place = crossing_of_lines(first, second);
    if is_on_both(place, first, second) {
        Some(place)
    } else if is_on_both(first.0, first, second) {
        Some(first.0)
    } else if is_on_both(first.1, first, second) {
        Some(first.1)
    } else {
        None
    }
}

/// Returns where two parts meet. Coordinates are millimetres of at most 1,000,000,000 in size, and the
/// ends of each part differ; of any other parts nothing is told.
/// For example, the parts from (0, 0) to (1, 1) and from (0, 1) to (1, 0) meet between whole millimetres.
pub fn meet_parts(first: (Place, Place), second: (Place, Place)) -> Meeting
    ensures told { IsMeetingOfParts first.0 first.1 second.0 second.1 result }
{
    if !is_part(first) || !is_part(second) {
        return Meeting::NoParts;
    }
    match meet(first.0, first.1, second.0, second.1) {
        Meet::Apart => Meeting::Apart,
        Meet::Overlap => Meeting::Overlap,
        Meet::Once => match common_place(first, second) {
            Some(place) => Meeting::Whole(place),
            None => Meeting::Between,
        },
    }
}
