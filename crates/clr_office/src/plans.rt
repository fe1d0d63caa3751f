//! Plans of members, which are given by their names.
ghost use Rattle.std.specs.Prelude.{◌≡◌, IfOk, map};
ghost use Rattle.clr_merge_sets.specs.MergeSetNames.{merge_set};
ghost use Rattle.clr_office.specs.Outcomes.{IsPlanOutcome, IsPlannedFor, plan_outcome};
ghost use Rattle.clr_office_reports.specs.Outcomes.{outcome_of};

use clr_command_line::Orders;
use clr_engine::Office;
use clr_merge_sets::texts_of_names;
use clr_office_reports::Output;
use clr_ordered_plans::plan_in_order;
use clr_plan::{Plan, plan, plan_lines};
use clr_rows::Words;
use std::alloc::{AllocError, Global};

/// Returns the plan of members of a root that are to be merged in some orders.
fn plan_for(alloc: Global, office: &Office, orders: Orders, root: &str, members: &[&str]) -> Plan
    ensures { IsPlannedFor orders office.now (merge_set root.now (map (λ name. name.now) members.now)) result }
{
    match orders {
        Orders::Every => plan(alloc, office, root, members),
        Orders::AsNamed => plan_in_order(alloc, office, root, members),
    }
}

/// Returns the lines of a plan of members of a root.
fn output_of_plan(
    alloc: Global,
    office: &Office,
    root: &str,
    members: &[&str],
    plan: &Plan,
) -> Result<Output, AllocError>
    ensures { IfOk result (λ o. outcome_of o office.now
        ≡ plan_outcome office.now (merge_set root.now (map (λ name. name.now) members.now)) plan.now) }
{
    let lines = plan_lines(alloc, office.schema(), members, root, plan)?;
    Ok(Output {
        lines,
        refused: !plan.is_cleared(),
        lost: plan.is_out_of_memory(),
    })
}

/// Returns the lines of the plan of members that are to be merged into a root in some orders. A plan
/// that finds no memory has its line too. It fails only if no memory is found for the lines.
pub fn plan_output(
    alloc: Global,
    office: &Office,
    orders: Orders,
    root: &str,
    names: &[Words],
) -> Result<Output, AllocError>
    ensures { IfOk result (λ o. IsPlanOutcome orders office.now (merge_set root.now names.now) (outcome_of o office.now)) }
{
    let members = texts_of_names(alloc, names)?;
    let plan = plan_for(alloc, office, orders, root, members.as_slice());
    output_of_plan(alloc, office, root, members.as_slice(), &plan)
}
