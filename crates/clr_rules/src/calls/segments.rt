//! Tests of common points of segments that may not be there.

ghost use Rattle.std.specs.Prelude.{◌≡◌, ◌&&◌, IfSome};
ghost use Rattle.clr_segments.specs.Searches.{lies_on, have_common_point, have_two_common_points};
ghost use Rattle.clr_rows.specs.Places.{InRange};
ghost use Rattle.clr_rules.specs.Calls.{have_meeting, is_crossing_at};
ghost use Rattle.clr_rules.specs.Fitting.{IsSoundSegment};

use clr_rows::Place;
use clr_segments::{Meet, lies_on, meet};

/// Returns whether two segments have a common point.
fn have_common_point(one: (Place, Place), other: (Place, Place)) -> bool
    requires one { IsSoundSegment one }
    requires other { IsSoundSegment other }
    ensures { result ≡ have_common_point one.0 one.1 other.0 other.1 }
{
    match meet(one.0, one.1, other.0, other.1) {
        Meet::Apart => false,
        Meet::Once | Meet::Overlap => true,
    }
}

/// Returns whether two segments have more than one common point.
fn overlap(one: (Place, Place), other: (Place, Place)) -> bool
    requires one { IsSoundSegment one }
    requires other { IsSoundSegment other }
    ensures { result ≡ have_two_common_points one.0 one.1 other.0 other.1 }
{
    match meet(one.0, one.1, other.0, other.1) {
        Meet::Apart | Meet::Once => false,
        Meet::Overlap => true,
    }
}

/// Returns whether a place is a point of a segment.
fn is_on(place: Place, segment: (Place, Place)) -> bool
    requires place { InRange place }
    requires segment { IsSoundSegment segment }
    ensures { result ≡ lies_on place segment.0 segment.1 }
{
    lies_on(place, segment.0, segment.1)
}

/// Returns whether a place is a point of two segments.
fn is_on_both(place: Place, one: (Place, Place), other: (Place, Place)) -> bool
    requires place { InRange place }
    requires one { IsSoundSegment one }
    requires other { IsSoundSegment other }
    ensures { result ≡ (lies_on place one.0 one.1 && lies_on place other.0 other.1) }
{
    is_on(place, one) && is_on(place, other)
}

/// Returns whether both segments are there and have a common point.
pub(super) fn have_meeting(one: Option<(Place, Place)>, other: Option<(Place, Place)>) -> bool
    requires one { IfSome one IsSoundSegment }
    requires other { IfSome other IsSoundSegment }
    ensures { result ≡ have_meeting one other }
{
    match (one, other) {
        (Some(one), Some(other)) => have_common_point(one, other),
        _ => false,
    }
}

/// Returns whether a place is a point of two segments that are there and don't overlap.
pub(super) fn is_crossing_at(
    one: Option<(Place, Place)>,
    other: Option<(Place, Place)>,
    place: Option<Place>,
) -> bool
    requires one { IfSome one IsSoundSegment }
    requires other { IfSome other IsSoundSegment }
    requires place { IfSome place InRange }
    ensures { result ≡ is_crossing_at one other place }
{
    match (one, other, place) {
        (Some(one), Some(other), Some(place)) => {
            !overlap(one, other) && is_on_both(place, one, other)
        }
        _ => false,
    }
}
