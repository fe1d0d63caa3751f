//! What is printed of plans.
ghost use Rattle.std.specs.Prelude.{◌≡◌, false, map, IfOk};
ghost use Rattle.clr_merge_sets.specs.MergeSetNames.{merge_set};
ghost use Rattle.clr_merge_sets.specs.Plans.{is_cleared as is_cleared_plan};
ghost use Rattle.clr_desk_orders.specs.PlanPrints.{plan_print};
ghost use Rattle.clr_desk_prints.specs.Printing.{printed};

use clr_cert::write_certificate;
use clr_desk_prints::Print;
use clr_engine::Office;
use clr_plan::{Plan, plan_lines};
use std::alloc::{AllocError, Global};

/// Returns the lines of a plan that isn't cleared, as notes.
fn refusal_print(
    alloc: Global,
    office: &Office,
    root: &str,
    members: &[&str],
    plan: &Plan,
) -> Result<Print, AllocError>
    requires { is_cleared_plan plan.now ≡ false }
    ensures { IfOk result (λ p. printed p
        ≡ plan_print office.now (merge_set root.now (map (λ name. name.now) members.now)) plan.now) }
{
    let notes = plan_lines(alloc, office.schema(), members, root, plan)?;
    Ok(Print::new(Vec::new(alloc), notes, true, plan.is_out_of_memory()))
}

/// Returns the certificate of a cleared plan alone, or the lines of another plan as notes, which counts as a refusal.
pub fn plan_print(
    alloc: Global,
    office: &Office,
    root: &str,
    members: &[&str],
    plan: &Plan,
) -> Result<Print, AllocError>
    ensures { IfOk result (λ p. printed p
        ≡ plan_print office.now (merge_set root.now (map (λ name. name.now) members.now)) plan.now) }
{
    match plan {
        Plan::Cleared(certificate) => {
            let text = write_certificate(alloc, office.schema(), certificate)?;
            Ok(Print::of_text(alloc, text))
        }
        _ => refusal_print(alloc, office, root, members, plan),
    }
}
