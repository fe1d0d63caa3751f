//! Certificates of members in the order of their names.
ghost use Rattle.std.specs.Prelude.{◌≡◌, ◌∷◌, map, IfOk};
ghost use Rattle.clr_merge_sets.specs.MergeSetNames.{merge_set};
ghost use Rattle.clr_office_texts.specs.Drafts.{opened_in};
ghost use Rattle.clr_desk_orders.specs.PlanPrints.{plan_print};
ghost use Rattle.clr_desk_orders.specs.PlansInOrder.{IsCertificateInOrderPrint, IsPlanInOrderPrint, IsPlannedInOrder};
ghost use Rattle.clr_desk_prints.specs.NameHints.{IsHinted};
ghost use Rattle.clr_desk_prints.specs.Printing.{IsMadePrintout, IsPrintoutIn, printed};

use crate::plan_prints::plan_print;
use clr_desk_prints::{Print, RunFault, Words, answer_over_members};
use clr_engine::Office;
use clr_ordered_plans::plan_in_order;
use clr_plan::Plan;
use std::alloc::{AllocError, Global};

/// Returns the plan of members in the order of their names, with what it promises.
pub(crate) fn planned_in_order(alloc: Global, office: &Office, root: &str, members: &[&str]) -> Plan
    ensures { IsPlannedInOrder office.now (merge_set root.now (map (λ name. name.now) members.now)) result }
{
    plan_in_order(alloc, office, root, members)
}

/// Returns the certificate of members in the order of their names, or as notes why there is none.
pub(crate) fn print_in_order(
    alloc: Global,
    office: &Office,
    root: &str,
    members: &[&str],
) -> Result<Print, AllocError>
    ensures { IfOk result (λ p. IsPlanInOrderPrint office.now (merge_set root.now (map (λ name. name.now) members.now)) (printed p)) }
{
    let plan = planned_in_order(alloc, office, root, members);
    plan_print(alloc, office, root, members, &plan)
}

/// Returns the certificate of members in the order of their names over the office of a text, or as notes the lines of the plan that says why there is none,
/// which count as a refusal; and behind the notes hints at names that no workspace has. Without names the members are all children of the root in order of
/// creation. If a rule doesn't hold, the line that says so is the only note, and there is no text. Fails with `BadOffice` if the text is no office, and with
/// `OutOfMemory` for want of memory, which may come in place of any other answer.
pub fn answer_certificate_in_order(
    alloc: Global,
    office: &[u8],
    root: &str,
    names: &[Words],
) -> Result<Print, RunFault>
    ensures { IsMadePrintout (IsPrintoutIn (IsHinted (IsCertificateInOrderPrint root.now names.now) (root.now ∷ names.now)) (opened_in office.now)) result }
{
    answer_over_members(alloc, office, root, names, |office, members| {
        print_in_order(alloc, office, root, members)
    })
}
