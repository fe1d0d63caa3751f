//! The planner of members in the order in which they are named.

ghost use Rattle.std.specs.Prelude.{◌≡◌, None, false, map};
ghost use Rattle.clr_clearance.specs.MergeSets.{change_sets};
ghost use Rattle.clr_clearance.specs.Verdicts.{names_fault};
ghost use Rattle.clr_merge_sets.specs.MergeSetNames.{merge_set};
ghost use Rattle.clr_merge_sets.specs.MergeSets.{AreParts};
ghost use Rattle.clr_plan.specs.Certificates.{IsReadableWhereCleared};
ghost use Rattle.clr_plan.specs.OrderedPlans.{IsExactInOrder, IsPlanInOrder, PromisesInOrder};
ghost use Rattle.clr_plan.specs.Plans.{IsPlan};
ghost use Rattle.clr_plan.specs.Promises.{IsUnfitWhere};
ghost use Rattle.clr_ordered_plans.specs.Plans.{IsListedPlan, IsPlanWithoutPairs, is_of_need};

use crate::listed_plans::plan_of_listed;
use clr_change::ChangeSet;
use clr_clearance::Verdict;
use clr_engine::Office;
use clr_listed_covers::cover_as_listed;
use clr_merge_sets::{MergeSetParts, Plan, name_fault, read_changes, read_merge_set};
use clr_plan::plan_changes;
use std::alloc::Global;

/// Returns whether a plan is blocked by a need that nothing covers in every order.
fn is_of_need(plan: &Plan) -> bool
    ensures { result ≡ is_of_need plan.now }
{
    matches!(
        plan,
        Plan::Blocked {
            cause: Verdict::Uncovered(_),
            ..
        }
    )
}

/// Returns the plan that the parts of a merge set decide in the order of its members.
fn plan_parts_in_order(
    alloc: Global,
    office: &Office,
    parts: &MergeSetParts<'_>,
    root: &str,
    members: &[&str],
) -> Plan
    requires { AreParts office.now (merge_set root.now (map (λ name. name.now) members.now)) parts.now }
    ensures { IsListedPlan office.now (merge_set root.now (map (λ name. name.now) members.now)) result }
{
    let Ok(scene) = parts.scene(alloc, office) else {
        return Plan::OutOfMemory;
    };
    let Ok(listed) = cover_as_listed(alloc, &scene) else {
        return Plan::OutOfMemory;
    };
    match plan_of_listed(alloc, root, members, listed) {
        Ok(plan) => plan,
        Err(_) => Plan::OutOfMemory,
    }
}

/// Returns the plan in the order of members where a need blocks them that nothing covers in every order.
fn plan_need_in_order(
    alloc: Global,
    office: &Office,
    root: &str,
    members: &[&str],
    changes: &[ChangeSet],
) -> Plan
    requires changes { changes.now ≡ change_sets office.now (merge_set root.now (map (λ name. name.now) members.now)) }
    requires named { names_fault office.now (merge_set root.now (map (λ name. name.now) members.now)) ≡ None }
    ensures { IsListedPlan office.now (merge_set root.now (map (λ name. name.now) members.now)) result }
{
    match read_merge_set(alloc, office, root, &members, changes) {
        Ok(parts) => plan_parts_in_order(alloc, office, &parts, root, members),
        Err(_) => Plan::OutOfMemory,
    }
}

/// Returns the plan where no memory was found for what the members changed: `Unfit` where a test of names
/// fails, with the first that does, and `OutOfMemory` otherwise.
fn plan_without_changes(alloc: Global, office: &Office, root: &str, members: &[&str]) -> Plan
    ensures plan { IsPlan office.now (merge_set root.now (map (λ name. name.now) members.now)) result }
    ensures unblocked { is_of_need result ≡ false }
{
    match name_fault(alloc, office, root, &members) {
        Some(fault) => Plan::Unfit(fault),
        None => Plan::OutOfMemory,
    }
}

/// Returns what `plan_in_order` does, of members whose changes were read of this office.
pub fn plan_changes_in_order(
    alloc: Global,
    office: &Office,
    root: &str,
    members: &[&str],
    changes: &[ChangeSet],
) -> Plan
    requires { changes.now ≡ change_sets office.now (merge_set root.now (map (λ name. name.now) members.now)) }
    ensures plan { IsPlanInOrder office.now (merge_set root.now (map (λ name. name.now) members.now)) result }
    ensures unfit { IsUnfitWhere office.now (merge_set root.now (map (λ name. name.now) members.now)) result }
    ensures promises { PromisesInOrder office.now (merge_set root.now (map (λ name. name.now) members.now)) result }
    ensures exact { IsExactInOrder office.now (merge_set root.now (map (λ name. name.now) members.now)) result }
    ensures readable { IsReadableWhereCleared office.now result }
    ensures without_pairs { IsPlanWithoutPairs office.now (merge_set root.now (map (λ name. name.now) members.now)) result }
{
    let _rules = office.book();
    let _tables = office.schema().tables();
    let _tree = office.len();
    let plan = plan_changes(alloc, office, root, members, changes);
    if is_of_need(&plan) {
        return plan_need_in_order(alloc, office, root, members, changes);
    }
    plan
}

/// Returns what is planned for members that are to be merged into a root in the order in which they are
/// named. `Unfit` comes wherever a test of names fails, with the first that does. `Cleared` comes with
/// a certificate that names the root and the members as they are given, and who goes before whom: the
/// members are safe where merges come in turn, and none of the pairs can be left out. Where no pair is
/// needed, it is the plan that `plan` gives. `Blocked` comes with the first test that fails: with a
/// member in conflict, the first two that change a cell, or the beginning of the list up to the last
/// member that blocks the least need that nothing covers in this order. Of the merges in that order,
/// one meets a conflict or breaks a rule. There is no other answer but `OutOfMemory`, in place of
/// `Cleared` and `Blocked`.
///
/// For example, where no two mains may have one code, `W1` gives main 1 another code, and `W2` inserts main 30 with the
/// code that main 1 had, the plan of `W1` and `W2` is `Cleared`, and `W1` goes before `W2`. The plan of `W2` and
/// `W1` is `Blocked`: its order is the position 0 alone, and its cause is `Uncovered`.
pub fn plan_in_order(alloc: Global, office: &Office, root: &str, members: &[&str]) -> Plan
    ensures plan { IsPlanInOrder office.now (merge_set root.now (map (λ name. name.now) members.now)) result }
    ensures unfit { IsUnfitWhere office.now (merge_set root.now (map (λ name. name.now) members.now)) result }
    ensures promises { PromisesInOrder office.now (merge_set root.now (map (λ name. name.now) members.now)) result }
    ensures exact { IsExactInOrder office.now (merge_set root.now (map (λ name. name.now) members.now)) result }
    ensures readable { IsReadableWhereCleared office.now result }
    ensures without_pairs { IsPlanWithoutPairs office.now (merge_set root.now (map (λ name. name.now) members.now)) result }
{
    let _rules = office.book();
    let _tables = office.schema().tables();
    let _tree = office.len();
    match read_changes(alloc, office, &members) {
        Ok(changes) => plan_changes_in_order(alloc, office, root, members, changes.as_slice()),
        Err(_) => plan_without_changes(alloc, office, root, members),
    }
}
