//! The place that the rows of a need have in common.

ghost use Rattle.std.specs.Option.{option_copied};
ghost use Rattle.std.specs.Prelude.{◌≡◌};
ghost use Rattle.clr_rows.specs.Parts.{part_of};
ghost use Rattle.clr_rules.specs.Sides.{end_in, sides};
ghost use Rattle.clr_steps.specs.Quiet.{MergeSet};
ghost use Rattle.clr_serving_rows.specs.NeedPlaces.{IsCrossingPlace, IsPlaceIn, end_place, rule_in};
ghost use Rattle.clr_merge_sets.specs.MemberChanges.{AreMembers};

use clr_engine::Office;
use clr_member_changes::MemberChanges;
use clr_merge_sets::row_of_version;
use clr_needs::Need;
use clr_phrases::{Meeting, meet_parts};
use clr_rows::{Place, Row, Shape};
use clr_rules::{Rule, Side, Tip};
use clr_segments::part;

/// Returns the first or the last vertex of a segment or a path.
fn end_of(tip: Tip, shape: &Shape) -> Option<Place>
    ensures { result ≡ end_in tip shape.now }
{
    match (tip, shape) {
        (Tip::First, Shape::Line(place, _)) => Some(*place),
        (Tip::Second, Shape::Line(_, place)) => Some(*place),
        (Tip::First, Shape::Chain(vertices)) => vertices.as_slice().first().copied(),
        (Tip::Second, Shape::Chain(vertices)) => vertices.as_slice().last().copied(),
        _ => None,
    }
}

/// Returns where two rows meet, by the parts of a need.
fn crossing_place(need: &Need, first: &Row, second: &Row) -> Meeting
    ensures { IsCrossingPlace (part_of first.now.shape need.now.first_part) (part_of second.now.shape need.now.second_part) result }
{
    let one = part(&first.shape, need.first_part);
    let two = part(&second.shape, need.second_part);
    match (one, two) {
        (Some(one), Some(two)) => meet_parts(one, two),
        _ => Meeting::NoParts,
    }
}

/// Returns the end of a row as a place where a row that serves it would have to stand.
fn end_place(tip: Tip, row: &Row) -> Meeting
    ensures { result ≡ end_place (end_in tip row.now.shape) }
{
    match end_of(tip, &row.shape) {
        Some(place) => Meeting::Whole(place),
        None => Meeting::NoParts,
    }
}

/// Returns the rule of a need, or none where the book has none of its number.
pub fn rule_of<'a>(office: &'a Office, need: &Need) -> Option<&'a Rule>
    ensures { option_copied result ≡ rule_in office.entry.now need.now }
{
    office.book().rules().get(need.rule as usize)
}

/// Returns where a row that serves a need would have to stand: the place where its rows meet, or the
/// end of the one row. No place is told where the rule asks for none.
pub fn need_place(office: &Office, members: &MemberChanges<'_>, need: &Need) -> Meeting
    ensures { (s : MergeSet) → AreMembers office.now s members.now → IsPlaceIn office.now s need.now result }
{
    let Some(first) = row_of_version(office, members, need.first) else {
        return Meeting::NoParts;
    };
    let second = match need.second {
        Some(version) => row_of_version(office, members, version),
        None => None,
    };
    match (rule_of(office, need), second) {
        (Some(Rule::EndNode { tip, .. }), _) => end_place(*tip, first),
        (Some(Rule::Crossing { .. }), Some(second)) => crossing_place(need, first, second),
        _ => Meeting::NoParts,
    }
}

/// Returns the side whose rows serve under a rule, if any can.
pub fn server_side(rule: &Rule) -> Option<&Side>
    ensures { option_copied result ≡ (sides rule.now).server }
{
    rule.sides().server
}
