//! What the cause of a plan is about.

ghost use Rattle.std.specs.Prelude.{◌≡◌, ◌∷◌, [], IfOk, string_bytes};
ghost use Rattle.clr_steps.specs.Quiet.{MergeSet};
ghost use Rattle.clr_serving_rows.specs.NeedPlaces.{rule_in};
ghost use Rattle.clr_merge_sets.specs.MemberChanges.{AreMembers};
ghost use Rattle.clr_plan_causes.specs.Badges.{conflict_words, shared_words};
ghost use Rattle.clr_plan_causes.specs.PlanCauses.{Finds, IsCauseOf, IsCauseUnder, IsCellCause, IsVerdictCause, leaders_of};

use crate::badges::{badge_of_need, conflict_words, shared_words};
use crate::cause_marks::{mark_of, ring_at};
use crate::cause_places::middle_of_first;
use crate::cause_rows::{contested_rows, goers_of, subjects_of};
use clr_clearance::Verdict;
use clr_engine::Office;
use clr_map_scenes::Cause;
use clr_member_changes::MemberChanges;
use clr_merge_sets::Plan;
use clr_needs::Need;
use clr_rows::{CellId, Schema};
use clr_serving_rows::rule_of;
use std::alloc::{AllocError, Global};

/// Returns what a need that nothing covers is about, as `cause_of` does, or none where the book has no rule of its number.
pub fn cause_of_need(
    alloc: Global,
    office: &Office,
    members: &MemberChanges<'_>,
    need: &Need,
) -> Result<Option<Cause>, AllocError>
    ensures { IfOk result (λ found. (s : MergeSet) → AreMembers office.now s members.now
        → IsCauseUnder office.now s need.now (rule_in office.now need.now) found) }
{
    let Some(rule) = rule_of(office, need) else {
        return Ok(None);
    };
    let rows = subjects_of(alloc, office, members, need)?;
    let goers = goers_of(alloc, office, members, need)?;
    let mark = mark_of(office, members, rule, need, rows.as_slice());
    let says = badge_of_need(alloc, office.schema(), rule, mark, goers.len())?;
    Ok(Some(Cause {
        rows,
        goers,
        mark,
        says,
    }))
}

/// Returns a cell at which designs meet one another or the root.
fn cause_at_cell(
    alloc: Global,
    members: &MemberChanges<'_>,
    cell: CellId,
    positions: &[usize],
    says: String,
) -> Result<Option<Cause>, AllocError>
    ensures { IfOk result (Finds (IsCellCause members.now.changes.items cell positions.now (string_bytes says))) }
{
    let rows = contested_rows(alloc, members, cell, positions)?;
    let mark = ring_at(middle_of_first(rows.as_slice()));
    Ok(Some(Cause {
        rows,
        goers: Vec::new(alloc),
        mark,
        says,
    }))
}

/// Returns a cell that a design and the root both change.
fn conflict_cause(
    alloc: Global,
    members: &MemberChanges<'_>,
    member: usize,
    cell: CellId,
) -> Result<Option<Cause>, AllocError>
    ensures { IfOk result (Finds (IsCellCause members.now.changes.items cell (member ∷ []) (conflict_words members.now.root.now))) }
{
    let says = conflict_words(alloc, members.root)?;
    let found = cause_at_cell(alloc, members, cell, &[member], says)?;
    Ok(found)
}

/// Returns a cell that two designs change.
fn shared_cause(
    alloc: Global,
    schema: &Schema,
    members: &MemberChanges<'_>,
    cell: CellId,
    first: usize,
    second: usize,
) -> Result<Option<Cause>, AllocError>
    ensures { IfOk result (Finds (IsCellCause members.now.changes.items cell (first ∷ second ∷ []) (shared_words schema.now cell))) }
{
    let says = shared_words(alloc, schema, cell)?;
    let found = cause_at_cell(alloc, members, cell, &[first, second], says)?;
    Ok(found)
}

/// Returns what the cause of a no is about, or none of a verdict that blocks nothing.
fn cause_of_verdict(
    alloc: Global,
    office: &Office,
    members: &MemberChanges<'_>,
    cause: &Verdict,
) -> Result<Option<Cause>, AllocError>
    ensures { IfOk result (λ found. (s : MergeSet) → AreMembers office.now s members.now
        → IsVerdictCause office.now s cause.now found) }
{
    match cause {
        Verdict::Uncovered(need) => cause_of_need(alloc, office, members, need),
        Verdict::Conflict { member, cell, .. } => conflict_cause(alloc, members, *member, *cell),
        Verdict::SharedCell {
            cell,
            first,
            second,
        } => shared_cause(alloc, office.schema(), members, *cell, *first, *second),
        _ => Ok(None),
    }
}

/// Returns what the cause of a plan is about, or none where the plan has no cause: the rows that it names, those that served a need and go, how
/// its place is marked, and the few words that say why.
pub fn cause_of(
    alloc: Global,
    office: &Office,
    members: &MemberChanges<'_>,
    plan: &Plan,
) -> Result<Option<Cause>, AllocError>
    ensures { IfOk result (λ found. (s : MergeSet) → AreMembers office.now s members.now
        → IsCauseOf office.now s plan.now found) }
{
    match plan {
        Plan::Blocked { cause, .. } => cause_of_verdict(alloc, office, members, cause),
        Plan::Unfit(_) | Plan::Cleared(_) | Plan::OutOfMemory => Ok(None),
    }
}

/// Returns the positions of the members that the cause of a plan names, in the order in which a merge of them is refused: none where the plan isn't
/// blocked.
pub fn leaders_of(plan: &Plan) -> &[usize]
    ensures { result.now ≡ leaders_of plan.entry.now }
{
    match plan {
        Plan::Blocked { order, .. } => order.as_slice(),
        Plan::Unfit(_) | Plan::Cleared(_) | Plan::OutOfMemory => &[],
    }
}
