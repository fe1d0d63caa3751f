//! Which rows may serve a part of another row, whatever stands beside it.

ghost use Rattle.std.specs.Prelude.{◌≡◌, IfSome};
ghost use Rattle.clr_rows.specs.Held.{held_of};
ghost use Rattle.clr_rows.specs.Places.{InRange};
ghost use Rattle.clr_segments.specs.Searches.{lies_on};
ghost use Rattle.clr_rules.specs.Fitting.{IsSoundShape, IsSoundSegment};
ghost use Rattle.clr_audit.specs.PartServers.{is_on, may_serve_part};

use clr_rows::{Held, Place};
use clr_rules::{Rule, point_in};
use clr_segments::{lies_on, part};

/// Returns whether a place is a point of a segment.
fn is_on_segment(place: Place, segment: (Place, Place)) -> bool
    requires place { InRange place }
    requires segment { IsSoundSegment segment }
    ensures { result ≡ lies_on place segment.0 segment.1 }
{
    lies_on(place, segment.0, segment.1)
}

/// Returns whether a place and a segment are there, and the place is a point of the segment.
fn is_on(place: Option<Place>, segment: Option<(Place, Place)>) -> bool
    requires place { IfSome place InRange }
    requires segment { IfSome segment IsSoundSegment }
    ensures { result ≡ is_on place segment }
{
    match (place, segment) {
        (Some(place), Some(segment)) => is_on_segment(place, segment),
        _ => false,
    }
}

/// Returns whether a row may serve a part of another one beside some other subject: under a
/// crossing it is a point of that part.
#[tactic(auto, unfolding(crate::specs::PartServers::may_serve_part))]
pub(crate) fn may_serve_part(rule: &Rule, number: u16, first: Held, server: Held) -> bool
    requires first { IsSoundShape first.row.now.shape }
    requires server { IsSoundShape server.row.now.shape }
    ensures { result ≡ may_serve_part rule.now number (held_of first.entry) (held_of server.entry) }
{
    match rule {
        Rule::Crossing { .. } => is_on(point_in(&server.row.shape), part(&first.row.shape, number)),
        _ => true,
    }
}
