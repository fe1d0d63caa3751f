//! The broken needs of LIVE, one by one.

ghost use Rattle.std.specs.Prelude.{◌≡◌, [], All, map, option_map, string_bytes, IfOk};
ghost use Rattle.std.specs.List.Sorted.{IsStrictlySortedBy};
ghost use Rattle.std.specs.Option.{option_and_then, option_map_or};
ghost use Rattle.clr_audit.specs.Unknown.{is_known};
ghost use Rattle.clr_merge_sets.specs.MemberChanges.{AreMembers};
ghost use Rattle.clr_rules.specs.Needs.{broken_cmp};
ghost use Rattle.clr_plan_features.specs.CausePlaces.{place_to_look};
ghost use Rattle.clr_listed_errors.specs.ListedErrors.{AreListed, IsListed, is_any_unknown, live_alone, need_in_live, old_version};

use clr_audit::audit;
use clr_engine::{Broken, Office};
use clr_map_scenes::Cause;
use clr_member_changes::MemberChanges;
use clr_merge_sets::read_member_changes;
use clr_needs::{Need, VersionId};
use clr_old_errors::is_among;
use clr_plan_causes::cause_of_need;
use clr_plan_features::place_to_look;
use clr_rows::{CellId, LIVE, Place, Words};
use clr_rules::Ask;
use clr_spots::put_in_order;
use std::alloc::{AllocError, Global};

/// A need that is broken in LIVE: whether it is known, where it is, if that is told, and the few words that a map would say there.
#[derive(Drop)]
pub struct ListedError {
    pub need: Broken,
    pub is_known: bool,
    pub place: Option<Place>,
    pub says: Words,
}

/// Returns the row that stands at a cell.
fn old_version(cell: CellId) -> VersionId
    ensures { result ≡ old_version cell }
{
    VersionId { cell, fresh: false }
}

/// Returns the row that stands at a second cell, if there is one.
fn second_version(cell: Option<CellId>) -> Option<VersionId>
    ensures { result ≡ option_map old_version cell }
{
    match cell {
        Some(cell) => Some(old_version(cell)),
        None => None,
    }
}

/// Returns a need of rows that stand.
fn need_in_live(need: &Broken) -> Need
    ensures { result ≡ need_in_live need.now }
{
    let ask = Ask {
        rule: need.rule,
        first_part: need.first_part,
        second_part: need.second_part,
    };
    Need::new(ask, old_version(need.first), second_version(need.second))
}

/// Returns where a cause is, if that is told, and the few words that a map would say there; where there is no cause, no place and no words.
fn told_at(alloc: Global, cause: Option<Cause>) -> (Option<Place>, String)
    ensures place { result.0 ≡ option_and_then place_to_look cause }
    ensures says { string_bytes result.1 ≡ option_map_or (λ c. string_bytes c.says) cause [] }
{
    match cause {
        Some(cause) => (place_to_look(&cause), cause.says),
        None => (None, String::new(alloc)),
    }
}

/// Returns a broken need of LIVE as it is listed, beside needs that are known, which are in order.
fn listed_error(
    alloc: Global,
    office: &Office,
    live: &MemberChanges<'_>,
    known: &[Broken],
    need: &Broken,
) -> Result<ListedError, AllocError>
    requires ascending { IsStrictlySortedBy broken_cmp known.now }
    requires live { AreMembers office.now live_alone live.now }
    ensures need { IfOk result (λ e. e.need ≡ need.now) }
    ensures listed { IfOk result (IsListed office.now known.now) }
{
    let is_known = is_among(known, need);
    let cause = cause_of_need(alloc, office, live, &need_in_live(need))?;
    let (place, says) = told_at(alloc, cause);
    Ok(ListedError {
        need: *need,
        is_known,
        place,
        says: Words::new(says),
    })
}

/// Returns the broken needs of LIVE as they are listed, beside needs that are known, which are in order.
fn list_beside(
    alloc: Global,
    office: &Office,
    known: &[Broken],
    needs: &[Broken],
) -> Result<Vec<ListedError>, AllocError>
    requires { IsStrictlySortedBy broken_cmp known.now }
    ensures needs { IfOk result (λ errors. map (λ e. e.need) errors.items ≡ needs.now) }
    ensures told { IfOk result (λ errors. All (IsListed office.now known.now) errors.items) }
{
    let live = read_member_changes(alloc, office, LIVE, &[])?;
    let mut errors = Vec::with_capacity(alloc, needs.len())?;
    for need in needs {
        errors.push(listed_error(alloc, office, &live, known, need)?)?;
    }
    Ok(errors)
}

/// Returns the broken needs of LIVE as they are listed, beside needs that are known: in the order of an audit, each with whether it is known,
/// its place, if it has one, and the few words that a map would say there. The known needs may be in any order. It fails only for want of
/// memory.
pub fn list_errors(
    alloc: Global,
    office: &Office,
    known: &[Broken],
) -> Result<Vec<ListedError>, AllocError>
    ensures { IfOk result (λ errors. AreListed office.now known.now errors.items) }
{
    let mut in_order = Vec::from_slice(alloc, known)?;
    put_in_order(&mut in_order);
    let needs = audit(alloc, office.book(), office.live())?;
    let errors = list_beside(alloc, office, in_order.as_slice(), needs.as_slice())?;
    Ok(errors)
}

/// Returns whether one of some errors isn't known.
pub fn is_any_unknown(errors: &[ListedError]) -> bool
    ensures { result ≡ is_any_unknown errors.now }
{
    errors.iter().any(|error| !error.is_known)
}
