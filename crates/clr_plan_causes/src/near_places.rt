//! A place near where two parts meet, at which no row can stand.

ghost use Rattle.std.specs.Prelude.{ℤ};
ghost use Rattle.clr_segments.specs.Bounding.{Between, BoxesTouch, box_between};
ghost use Rattle.clr_plan_causes.specs.CauseMarks.{IsInBothBoxes};

use clr_phrases::Meeting;
use clr_rows::Place;
use clr_segments::box_of;
use clr_whereabouts::crossing_near;

/// Returns the number between two others that is nearer to the middle, where ranges overlap.
fn middle_of_common(a: i64, b: i64, c: i64, d: i64) -> i64 {
    let low = a.min(b).max(c.min(d));
    let high = a.max(b).min(c.max(d));
    low.saturating_add(high.saturating_sub(low) / 2)
}

/// Returns a place in the middle of what two parts of one line share.
fn middle_of_overlap(first: (Place, Place), second: (Place, Place)) -> Place {
    Place {
        x: middle_of_common(first.0.x, first.1.x, second.0.x, second.1.x),
        y: middle_of_common(first.0.y, first.1.y, second.0.y, second.1.y),
    }
}

/// Returns the number nearest to another that is in two ranges, which share one.
fn number_within(number: i64, low: i64, high: i64, other_low: i64, other_high: i64) -> i64
    ensures { (x : ℤ) → Between low x high → Between other_low x other_high → Between low result high × Between other_low result other_high }
{
    number.max(low).max(other_low).min(high).min(other_high)
}

/// Returns the place nearest to another that is in the boxes of two parts, which touch.
fn place_within(place: Place, first: (Place, Place), second: (Place, Place)) -> Place
    ensures { BoxesTouch (box_between first.0 first.1) (box_between second.0 second.1) → IsInBothBoxes first second result }
{
    let one = box_of(first.0, first.1);
    let two = box_of(second.0, second.1);
    Place {
        x: number_within(place.x, one.least.x, one.most.x, two.least.x, two.most.x),
        y: number_within(place.y, one.least.y, one.most.y, two.least.y, two.most.y),
    }
}

/// Returns a place near where two parts meet, in the boxes of both.
pub(crate) fn place_near(meeting: Meeting, first: (Place, Place), second: (Place, Place)) -> Place
    ensures { BoxesTouch (box_between first.0 first.1) (box_between second.0 second.1) → IsInBothBoxes first second result }
{
    let place = match meeting {
        Meeting::Overlap => middle_of_overlap(first, second),
        _ => crossing_near(first, second).unwrap_or(first.0),
    };
    place_within(place, first, second)
}
