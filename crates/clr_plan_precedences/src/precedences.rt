//! Which members go before which.

ghost use Rattle.std.specs.Prelude.{◌≡◌, IfOk, map};
ghost use Rattle.clr_merge_sets.specs.MemberChanges.{AreMembers, set_of};
ghost use Rattle.clr_merge_orders.specs.MergeOrders.{IsFoundOrder};
ghost use Rattle.clr_plan_precedences.specs.PlanPrecedences.{ArePrecedencesOfPlan, precedences_in, precedences_in_scene};

use clr_cert::Precedences;
use clr_engine::Office;
use clr_member_changes::MemberChanges;
use clr_merge_orders::{MergeOrder, order_of_changes};
use clr_merge_sets::Plan;
use clr_ordered_plans::precedences_of_pairs;
use clr_scene_orders::SceneOrder;
use std::alloc::{AllocError, Global};

/// Returns who goes before whom in the order of a scene, if one was found.
fn precedences_in_scene(
    alloc: Global,
    members: &[&str],
    order: &SceneOrder,
) -> Result<Option<Precedences>, AllocError>
    ensures { IfOk result (λ found. found ≡ precedences_in_scene (map (λ name. name.now) members.now) order.now) }
{
    match order {
        SceneOrder::Order { pairs, .. } => {
            let before = precedences_of_pairs(alloc, members, pairs.as_slice())?;
            Ok(Some(before))
        }
        SceneOrder::Final { .. } | SceneOrder::Stuck(_) | SceneOrder::TooMany(_) => Ok(None),
    }
}

/// Returns who goes before whom in the order of members, if one was found.
fn precedences_in(
    alloc: Global,
    members: &[&str],
    order: &MergeOrder,
) -> Result<Option<Precedences>, AllocError>
    ensures { IfOk result (λ found. found ≡ precedences_in (map (λ name. name.now) members.now) order.now) }
{
    match order {
        MergeOrder::Ordered(order) => precedences_in_scene(alloc, members, order),
        MergeOrder::Planned(_) => Ok(None),
    }
}

/// Returns which members go before which in the order that is found of them.
fn precedences_found(
    alloc: Global,
    office: &Office,
    members: &MemberChanges<'_>,
) -> Result<Option<Precedences>, AllocError>
    requires { AreMembers office.now (set_of members.now) members.now }
    ensures { IfOk result (λ found. (order : MergeOrder) × IsFoundOrder office.now (set_of members.now) order
        × (found ≡ precedences_in (set_of members.now).members order)) }
{
    let (root, names) = (members.root, members.names);
    let order = order_of_changes(alloc, office, root, names, members.changes.as_slice())?;
    precedences_in(alloc, members.names, &order)
}

/// Returns which members go before which, where a plan of them is blocked and an order is found in which they can be merged: the names of
/// each pair of that order, of which the first goes before the second, in the order of the pairs. Returns none where no order is found, and
/// where the plan isn't blocked. The changes are to be those that the members make in the office. It fails only for want of memory.
///
/// For example, where no two mains may have one code, `W1` inserts main 30 with the code of main 1, and `W2` gives main 1 another code, `W2`
/// goes before `W1`.
pub fn precedences_of_plan(
    alloc: Global,
    office: &Office,
    members: &MemberChanges<'_>,
    plan: &Plan,
) -> Result<Option<Precedences>, AllocError>
    requires { AreMembers office.now (set_of members.now) members.now }
    ensures { IfOk result (ArePrecedencesOfPlan office.now (set_of members.now) plan.now) }
{
    match plan {
        Plan::Blocked { .. } => precedences_found(alloc, office, members),
        Plan::Cleared(_) | Plan::Unfit(_) | Plan::OutOfMemory => Ok(None),
    }
}
