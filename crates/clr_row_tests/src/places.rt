//! Places in range, and what is answered of them: how segments meet, and the like.
ghost use Rattle.std.specs.Prelude.{IfSome};
ghost use Rattle.clr_rows.specs.Places.{InRange};

use clr_row_test_kit::{number, places};
use clr_rows::Place;
use clr_segments::{Bounds, Meet, box_of, boxes_touch, lies_on, meet, near, turn};
use std::alloc::Global;

/// The greatest size of a coordinate.
const LIMIT: i64 = 1_000_000_000;

fn in_range(place: &Place) -> Option<Place>
    ensures { IfSome result InRange }
{
    let (x, y) = (place.x, place.y);
    if -LIMIT <= x && x <= LIMIT && -LIMIT <= y && y <= LIMIT {
        Some(Place { x, y })
    } else {
        None
    }
}

/// Returns how segments meet, which is the same in either order and with the ends of each in either order.
fn meeting(a: Place, b: Place, c: Place, d: Place) -> Option<Meet>
    requires a_in { InRange a }
    requires b_in { InRange b }
    requires c_in { InRange c }
    requires d_in { InRange d }
{
    if (a.x == b.x && a.y == b.y) || (c.x == d.x && c.y == d.y) {
        return None;
    }
    let first = meet(a, b, c, d);
    let is_same = meet(b, a, c, d) == first
        && meet(a, b, d, c) == first
        && meet(c, d, a, b) == first
        && meet(d, c, b, a) == first;
    if is_same { Some(first) } else { None }
}

fn meeting_text(alloc: Global, ends: [&Place; 4]) -> Option<String> {
    let (a, b) = (in_range(ends[0])?, in_range(ends[1])?);
    let (c, d) = (in_range(ends[2])?, in_range(ends[3])?);
    let how = meeting(a, b, c, d)?;
    format!(in alloc; "{how:?}").ok()
}

/// Returns whether a place is on a segment.
fn is_on(p: &Place, a: &Place, b: &Place) -> Option<bool> {
    let (p, a, b) = (in_range(p)?, in_range(a)?, in_range(b)?);
    if a.x == b.x && a.y == b.y {
        return None;
    }
    Some(lies_on(p, a, b))
}

/// Returns to which side of the way from the first place to the second the third is.
fn side(a: &Place, b: &Place, c: &Place) -> Option<i64> {
    Some(turn(in_range(a)?, in_range(b)?, in_range(c)?))
}

/// Returns whether two boxes touch, which is the same in either order, by the least and most place of each.
fn touch(corners: [&Place; 4]) -> Option<bool> {
    let [a, b, c, d] = corners;
    let one = Bounds {
        least: *a,
        most: *b,
    };
    let other = Bounds {
        least: *c,
        most: *d,
    };
    let is_so = boxes_touch(one, other);
    if boxes_touch(other, one) == is_so {
        Some(is_so)
    } else {
        None
    }
}

pub(crate) fn bounds_text(alloc: Global, bounds: &Bounds) -> Option<String> {
    let (least, most) = (bounds.least, bounds.most);
    format!(in alloc; "{},{} {},{}", least.x, least.y, most.x, most.y).ok()
}

/// Returns what is asked of places.
fn places_text(alloc: Global, word: &str, places: &[Place]) -> Option<String> {
    match (word, places) {
        ("meet", [a, b, c, d]) => meeting_text(alloc, [a, b, c, d]),
        ("lies", [p, a, b]) => format!(in alloc; "{}", is_on(p, a, b)?).ok(),
        ("turn", [a, b, c]) => format!(in alloc; "{}", side(a, b, c)?).ok(),
        ("touch", [a, b, c, d]) => format!(in alloc; "{}", touch([a, b, c, d])?).ok(),
        ("box", [a, b]) => bounds_text(alloc, &box_of(*a, *b)),
        _ => None,
    }
}

/// Returns whether two places are nearer than a distance, which stands first.
fn near_text(alloc: Global, d: i64, places: &[Place]) -> Option<String> {
    if !(1 <= d && d <= 1_000_000) {
        return None;
    }
    match places {
        [p, q] => format!(in alloc; "{}", near(in_range(p)?, in_range(q)?, d)).ok(),
        _ => None,
    }
}

/// Returns what is asked of places, or of a distance and places.
pub(crate) fn answer(alloc: Global, word: &str, text: &str) -> Option<String> {
    if word == "near" {
        let (d, rest) = text.split_once(' ')?;
        near_text(alloc, number(d)?, places(alloc, rest)?.as_slice())
    } else {
        places_text(alloc, word, places(alloc, text)?.as_slice())
    }
}

/// Returns whether no whole place around them is on both (0,0)-(1,1) and (0,1)-(1,0), which cross between.
fn none_is_on_both() -> Option<bool> {
    let (a, b) = (Place { x: 0, y: 0 }, Place { x: 1, y: 1 });
    let (c, d) = (Place { x: 0, y: 1 }, Place { x: 1, y: 0 });
    let mut none = true;
    for x in -1..3 {
        for y in -1..3 {
            let p = Place { x, y };
            none = !(is_on(&p, &a, &b)? && is_on(&p, &c, &d)?) && none;
        }
    }
    Some(none)
}

#[test]
fn no_place_is_on_both(rt: HostRuntime) {
    assert!(rt; none_is_on_both() == Some(true));
}
