//! How the place of a cause is marked.

ghost use Rattle.std.specs.Prelude.{◌≡◌};
ghost use Rattle.clr_steps.specs.Quiet.{MergeSet};
ghost use Rattle.clr_merge_sets.specs.MemberChanges.{AreMembers};
ghost use Rattle.clr_plan_causes.specs.CauseMarks.{IsMark, IsRing, ring_at};
ghost use Rattle.clr_plan_causes.specs.CauseRows.{subject_rows};

use crate::cause_places::place_of_need;
use clr_engine::Office;
use clr_map_scenes::{CausePlace, CauseRow, Mark};
use clr_member_changes::MemberChanges;
use clr_needs::Need;
use clr_rules::Rule;

/// Returns a ring round a place, if there is one.
pub(crate) fn ring_at(place: Option<CausePlace>) -> Mark
    ensures { result ≡ ring_at place }
{
    match place {
        Some(ring) => Mark::Ring(ring),
        None => Mark::Nothing,
    }
}

/// Returns a ring round the place of a need, if it has one.
fn ring_of_need(
    office: &Office,
    members: &MemberChanges<'_>,
    need: &Need,
    rows: &[CauseRow],
) -> Mark
    ensures { (s : MergeSet) → AreMembers office.now s members.now
        → rows.now ≡ subject_rows office.now s need.now → IsRing office.now s need.now rows.now result }
{
    ring_at(place_of_need(office, members, need, rows))
}

/// Returns how the place of a need under a rule is marked.
pub(crate) fn mark_of(
    office: &Office,
    members: &MemberChanges<'_>,
    rule: &Rule,
    need: &Need,
    rows: &[CauseRow],
) -> Mark
    ensures { (s : MergeSet) → AreMembers office.now s members.now
        → rows.now ≡ subject_rows office.now s need.now → IsMark office.now s need.now rule.now rows.now result }
{
    match rule {
        Rule::Unique { .. } => Mark::Link,
        Rule::Near { d, .. } => Mark::Near(*d),
        Rule::Partner { .. } | Rule::EndNode { .. } | Rule::Crossing { .. } => {
            ring_of_need(office, members, need, rows)
        }
    }
}
