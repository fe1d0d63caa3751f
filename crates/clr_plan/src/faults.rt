//! The plans that faults found before the tests of needs decide.

ghost use Rattle.std.specs.Prelude.{◌≡◌, None};
ghost use Rattle.clr_needs.specs.Members.{IsSceneFault};
ghost use Rattle.clr_steps.specs.Offices.{Office};
ghost use Rattle.clr_steps.specs.Quiet.{MergeSet};
ghost use Rattle.clr_clearance.specs.MergeSets.{change_sets};
ghost use Rattle.clr_clearance.specs.Verdicts.{member_fault};
ghost use Rattle.clr_merge_sets.specs.Faults.{IsMergeSetFault};
ghost use Rattle.clr_plan.specs.Plans.{IsBlockedIn, IsPlan};

use clr_clearance::Verdict;
use clr_merge_sets::{Plan, verdict_of};
use clr_needs::SceneFault;
use std::alloc::Global;

/// Returns a blocked plan, or `OutOfMemory` where no memory is found for its order.
fn blocked_plan(alloc: Global, order: &[usize], cause: Verdict) -> Plan
    ensures { IsBlockedIn order.now cause result }
{
    match Vec::from_slice(alloc, order) {
        Ok(order) => Plan::Blocked { order, cause },
        Err(_) => Plan::OutOfMemory,
    }
}

/// Returns the plan where a test of names or the test for conflicts fails: the member in conflict is
/// an order of its own.
pub(crate) fn plan_fault(alloc: Global, fault: Verdict) -> Plan
    ensures { (o : Office) (s : MergeSet) → IsMergeSetFault o s fault → IsPlan o s result }
{
    match fault {
        Verdict::OutOfMemory => Plan::OutOfMemory,
        Verdict::Conflict {
            member,
            cell,
            count,
        } => blocked_plan(
            alloc,
            &[member],
            Verdict::Conflict {
                member,
                cell,
                count,
            },
        ),
        fault => Plan::Unfit(fault),
    }
}

/// Returns the plan where there is no scene: the first two members that change a cell are an order.
#[tactic(auto, using(crate::proofs::FaultLaws::shared_plan))]
pub(crate) fn plan_shared(alloc: Global, fault: SceneFault) -> Plan
    ensures { (o : Office) (s : MergeSet) → member_fault o s ≡ None → IsSceneFault (change_sets o s) fault → IsPlan o s result }
{
    match fault {
        SceneFault::OutOfMemory => Plan::OutOfMemory,
        SceneFault::SharedCell { first, second, .. } => blocked_plan(
            alloc,
            &[first as usize, second as usize],
            verdict_of(fault),
        ),
    }
}
