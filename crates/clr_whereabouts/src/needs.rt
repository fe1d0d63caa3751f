//! Where the rows of a need are.

ghost use Rattle.std.specs.Option.{option_and_then, option_copied};
ghost use Rattle.std.specs.Prelude.{◌≡◌, Option};
ghost use Rattle.clr_rules.specs.declared.rules.Rule.{Rule as NeedRule};
ghost use Rattle.clr_rules.specs.Sides.{point_in};
ghost use Rattle.clr_steps.specs.Quiet.{MergeSet};
ghost use Rattle.clr_merge_sets.specs.MemberChanges.{AreMembers, row_in};
ghost use Rattle.clr_phrases.specs.declared.meetings.Meeting.TheVariants as met;
ghost use Rattle.clr_serving_rows.specs.NeedPlaces.{IsCrossingPlace, IsServingPlace};
ghost use Rattle.clr_whereabouts.specs.Whereabouts.{IsGapOfPoints, IsGapOfRows, IsNearParts, IsNearPlace, IsNearRows, IsWhereabouts};

use crate::crossings::crossing_near;
use crate::gaps::{Gap, gap_between};
use clr_engine::Office;
use clr_member_changes::MemberChanges;
use clr_merge_sets::row_of_version;
use clr_needs::Need;
use clr_phrases::Meeting;
use clr_rows::{Place, Row, Shape};
use clr_rules::Rule;
use clr_segments::part;
use clr_serving_rows::{need_place, rule_of};

/// Where the rows of a need are.
#[derive(Clone, Copy, Debug)]
pub struct Whereabouts {
    /// Where they meet, or where the end of the one row is.
    pub meeting: Meeting,
    /// A place near where they meet, if they meet between whole millimetres.
    pub near: Option<Place>,
    /// How far apart they are, if they are points that are too near.
    pub gap: Option<Gap>,
}

/// Returns a place near where two parts meet that meet between whole millimetres, if both are there.
fn near_parts(first: Option<(Place, Place)>, second: Option<(Place, Place)>) -> Option<Place>
    ensures { IsCrossingPlace first second met.Between → IsNearParts first second result }
{
    match (first, second) {
        (Some(first), Some(second)) => crossing_near(first, second),
        _ => None,
    }
}

/// Returns a place near where the rows of a need meet that meet between whole millimetres, if both stand.
fn near_rows(need: &Need, first: Option<&Row>, second: Option<&Row>) -> Option<Place>
    ensures { (r : Option NeedRule) → IsServingPlace r need.now (option_copied first.entry) (option_copied second.entry) met.Between
        → IsNearRows need.now (option_copied first.entry) (option_copied second.entry) result }
{
    match (first, second) {
        (Some(first), Some(second)) => near_parts(
            part(&first.shape, need.first_part),
            part(&second.shape, need.second_part),
        ),
        _ => None,
    }
}

/// Returns a place near where the rows of a need meet that are told to meet so; none where they don't meet between whole millimetres.
fn near_place(
    need: &Need,
    first: Option<&Row>,
    second: Option<&Row>,
    place: Meeting,
) -> Option<Place>
    ensures { (r : Option NeedRule) → IsServingPlace r need.now (option_copied first.entry) (option_copied second.entry) place
        → IsNearPlace need.now (option_copied first.entry) (option_copied second.entry) place result }
{
    match place {
        Meeting::Between => near_rows(need, first, second),
        Meeting::Whole(_) | Meeting::Overlap | Meeting::Apart | Meeting::NoParts => None,
    }
}

/// Returns the point that a shape is, if it is one.
fn point_in(shape: &Shape) -> Option<Place>
    ensures { result ≡ point_in shape.now }
{
    match shape {
        Shape::At(place) => Some(*place),
        Shape::Bare | Shape::Line(_, _) | Shape::Chain(_) => None,
    }
}

/// Returns how far apart two points are that are nearer than d, if both are there.
fn gap_of_points(first: Option<Place>, second: Option<Place>, d: i64) -> Option<Gap>
    ensures { IsGapOfPoints first second d result }
{
    match (first, second) {
        (Some(p), Some(q)) => gap_between(p, q, d),
        _ => None,
    }
}

/// Returns how far apart two rows are that a rule wants farther apart, if both stand.
fn gap_of_rows(rule: Option<&Rule>, first: Option<&Row>, second: Option<&Row>) -> Option<Gap>
    ensures { IsGapOfRows (option_copied rule.entry) (option_copied first.entry) (option_copied second.entry) result }
{
    match (rule, first, second) {
        (Some(Rule::Near { d, .. }), Some(first), Some(second)) => {
            gap_of_points(point_in(&first.shape), point_in(&second.shape), *d)
        }
        _ => None,
    }
}

/// Returns the row of the second version of a need, if there is one.
fn second_row<'a>(
    office: &'a Office,
    members: &'a MemberChanges<'_>,
    need: &Need,
) -> Option<&'a Row>
    ensures { (s : MergeSet) → AreMembers office.entry.now s members.entry.now
        → option_copied result ≡ option_and_then (row_in office.entry.now s) need.now.second }
{
    match need.second {
        Some(version) => row_of_version(office, members, version),
        None => None,
    }
}

/// Returns where the rows of a need are: where they meet or where the end of the one row is, near which place they meet if no whole millimetre lies there,
/// and how far apart they are if they are points that are too near. Nothing is told of a row that doesn't stand.
pub fn need_whereabouts(office: &Office, members: &MemberChanges<'_>, need: &Need) -> Whereabouts
    ensures { (s : MergeSet) → AreMembers office.now s members.now → IsWhereabouts office.now s need.now result }
{
    let meeting = need_place(office, members, need);
    let first = row_of_version(office, members, need.first);
    let second = second_row(office, members, need);
    Whereabouts {
        meeting,
        near: near_place(need, first, second, meeting),
        gap: gap_of_rows(rule_of(office, need), first, second),
    }
}
