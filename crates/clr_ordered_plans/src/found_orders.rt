//! The plan of members that are named in an order that was found.

ghost use Rattle.std.specs.Prelude.{◌≡◌, IfOk, false, map, slice_get};
ghost use Rattle.std.specs.List.{filter_map};
ghost use Rattle.clr_clearance.specs.Plans.{members_at};
ghost use Rattle.clr_merge_sets.specs.MergeSetNames.{merge_set};
ghost use Rattle.clr_merge_sets.specs.Plans.{is_out_of_memory};
ghost use Rattle.clr_plan.specs.Certificates.{IsReadableWhereCleared};
ghost use Rattle.clr_plan.specs.OrderedPlans.{IsExactInOrder, IsPlanInOrder, PromisesInOrder};
ghost use Rattle.clr_ordered_plans.specs.Plans.{IsPlanWithoutPairs};

use crate::ordered_plans::plan_in_order;
use clr_engine::Office;
use clr_merge_sets::{Plan, names_at};
use std::alloc::{AllocError, Global};

/// Returns positions as indices.
fn indices(alloc: Global, positions: &[u16]) -> Result<Vec<usize>, AllocError>
    ensures { IfOk result (λ list. list.items ≡ positions.now) }
{
    let mut list = Vec::with_capacity(alloc, positions.len())?;
    for position in positions {
        list.push(*position as usize)?;
    }
    Ok(list)
}

/// Returns the names of members in an order of positions. A position past the end has none.
pub fn names_in_order<'a>(
    alloc: Global,
    members: &[&'a str],
    order: &[u16],
) -> Result<Vec<&'a str>, AllocError>
    ensures { IfOk result (λ names. map (λ name. name.now) names.items
        ≡ filter_map (slice_get (map (λ name. name.now) members.now)) order.now) }
{
    let list = indices(alloc, order)?;
    let names = names_at(alloc, members, list.as_slice())?;
    Ok(names)
}

/// Returns what `plan_in_order` does of the members as they stand in an order of positions, as one that
/// a search has found. The positions of a plan that is blocked are those in this order. `OutOfMemory`
/// may come in place of any answer.
pub fn certificate_of_order(
    alloc: Global,
    office: &Office,
    root: &str,
    members: &[&str],
    order: &[u16],
) -> Plan
    ensures plan { is_out_of_memory result ≡ false
        → IsPlanInOrder office.now (merge_set root.now (members_at (merge_set root.now (map (λ name. name.now) members.now)) order.now)) result }
    ensures promises { PromisesInOrder office.now
        (merge_set root.now (members_at (merge_set root.now (map (λ name. name.now) members.now)) order.now)) result }
    ensures exact { IsExactInOrder office.now
        (merge_set root.now (members_at (merge_set root.now (map (λ name. name.now) members.now)) order.now)) result }
    ensures readable { IsReadableWhereCleared office.now result }
    ensures without_pairs { IsPlanWithoutPairs office.now
        (merge_set root.now (members_at (merge_set root.now (map (λ name. name.now) members.now)) order.now)) result }
{
    match names_in_order(alloc, members, order) {
        Ok(names) => plan_in_order(alloc, office, root, names.as_slice()),
        Err(_) => Plan::OutOfMemory,
    }
}
