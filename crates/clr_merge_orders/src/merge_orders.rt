//! The planner of orders: what is said for a root and members in an office.

ghost use Rattle.std.specs.Prelude.{◌≡◌, None, map, IfErr, IfOk};
ghost use Rattle.clr_needs.specs.Members.{AreApart};
ghost use Rattle.clr_clearance.specs.MergeSets.{change_sets};
ghost use Rattle.clr_clearance.specs.Verdicts.{member_fault, names_fault};
ghost use Rattle.clr_merge_sets.specs.MergeSetNames.{merge_set};
ghost use Rattle.clr_merge_sets.specs.MergeSets.{AreParts};
ghost use Rattle.clr_merge_orders.specs.MergeOrders.{IsFoundOrder};

use clr_change::ChangeSet;
use clr_clearance::Verdict;
use clr_engine::Office;
use clr_merge_sets::{MergeSetParts, Plan, name_fault, read_changes, read_merge_set};
use clr_needs::SceneFault;
use clr_plan::plan_changes;
use clr_scene_orders::{SceneOrder, order_scene};
use std::alloc::{AllocError, Global};

/// What a planner says of the orders in which members of a root can be merged one after another.
#[derive(Debug, Drop)]
pub enum MergeOrder {
    /// What is planned, where a test of names fails, a member is in conflict or two change one cell.
    Planned(Plan),
    /// What is said of their orders, by position.
    Ordered(SceneOrder),
}

/// Returns the plan of members whose orders aren't looked at.
fn plan_without_orders(
    alloc: Global,
    office: &Office,
    root: &str,
    members: &[&str],
    changes: &[ChangeSet],
) -> Result<MergeOrder, AllocError>
    requires changes { changes.now ≡ change_sets office.now (merge_set root.now (map (λ name. name.now) members.now)) }
    requires barred { ¬ ((member_fault office.now (merge_set root.now (map (λ name. name.now) members.now)) ≡ None)
        × AreApart (change_sets office.now (merge_set root.now (map (λ name. name.now) members.now)))) }
    ensures found { IfOk result (IsFoundOrder office.now (merge_set root.now (map (λ name. name.now) members.now))) }
    ensures lost { IfErr result (λ e. names_fault office.now (merge_set root.now (map (λ name. name.now) members.now)) ≡ None) }
{
    match plan_changes(alloc, office, root, members, changes) {
        Plan::OutOfMemory => Err(AllocError),
        plan => Ok(MergeOrder::Planned(plan)),
    }
}

/// Returns what is said of the orders of the parts of a merge set.
fn order_of_parts(
    alloc: Global,
    office: &Office,
    parts: &MergeSetParts<'_>,
    root: &str,
    members: &[&str],
    changes: &[ChangeSet],
) -> Result<MergeOrder, AllocError>
    requires parts { AreParts office.now (merge_set root.now (map (λ name. name.now) members.now)) parts.now }
    requires changes { changes.now ≡ change_sets office.now (merge_set root.now (map (λ name. name.now) members.now)) }
    ensures found { IfOk result (IsFoundOrder office.now (merge_set root.now (map (λ name. name.now) members.now))) }
    ensures lost { IfErr result (λ e. names_fault office.now (merge_set root.now (map (λ name. name.now) members.now)) ≡ None) }
{
    match parts.scene(alloc, office) {
        Ok(scene) => {
            let order = order_scene(alloc, &scene)?;
            Ok(MergeOrder::Ordered(order))
        }
        Err(SceneFault::SharedCell { .. }) => {
            plan_without_orders(alloc, office, root, members, changes)
        }
        Err(SceneFault::OutOfMemory) => Err(AllocError),
    }
}

/// Returns what `merge_order` does, of members whose changes were read of this office.
pub fn order_of_changes(
    alloc: Global,
    office: &Office,
    root: &str,
    members: &[&str],
    changes: &[ChangeSet],
) -> Result<MergeOrder, AllocError>
    requires { changes.now ≡ change_sets office.now (merge_set root.now (map (λ name. name.now) members.now)) }
    ensures found { IfOk result (IsFoundOrder office.now (merge_set root.now (map (λ name. name.now) members.now))) }
    ensures lost { IfErr result (λ e. names_fault office.now (merge_set root.now (map (λ name. name.now) members.now)) ≡ None) }
{
    match read_merge_set(alloc, office, root, &members, changes) {
        Ok(parts) => order_of_parts(alloc, office, &parts, root, members, changes),
        Err(Verdict::OutOfMemory) => Err(AllocError),
        Err(_) => plan_without_orders(alloc, office, root, members, changes),
    }
}

/// Returns in which order members of a root can be merged one after another, by position: an order of
/// all with pairs of which the first goes before the second; or a need that is broken whenever all of
/// the members are merged that block it; or that no order works, with members that show it; or a knot of
/// too many members. Exactly where a test of names fails, a member is in conflict or two change one cell, it returns
/// what `plan` does. Fails for want of memory, but never where a test of names fails.
///
/// For example, where no two mains may have one code, `W1` inserts main 30 with the code of main 1, and `W2` gives main 1
/// another code, the order is 1 and then 0, and the pair says so. Under it every list of quiet commands is cleared in
/// which `W2` is merged before `W1`.
pub fn merge_order(
    alloc: Global,
    office: &Office,
    root: &str,
    members: &[&str],
) -> Result<MergeOrder, AllocError>
    ensures found { IfOk result (IsFoundOrder office.now (merge_set root.now (map (λ name. name.now) members.now))) }
    ensures lost { IfErr result (λ e. names_fault office.now (merge_set root.now (map (λ name. name.now) members.now)) ≡ None) }
{
    if let Some(fault) = name_fault(alloc, office, root, &members) {
        return Ok(MergeOrder::Planned(Plan::Unfit(fault)));
    }
    let changes = read_changes(alloc, office, &members)?;
    order_of_changes(alloc, office, root, members, changes.as_slice())
}
