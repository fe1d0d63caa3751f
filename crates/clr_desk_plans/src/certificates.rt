//! Certificates alone.
ghost use Rattle.std.specs.Prelude.{◌∷◌, map, IfOk};
ghost use Rattle.clr_merge_sets.specs.MergeSetNames.{merge_set};
ghost use Rattle.clr_office_texts.specs.Drafts.{opened_in};
ghost use Rattle.clr_desk_plans.specs.Certificates.{IsCertificatePrint, IsPlanPrint};
ghost use Rattle.clr_desk_prints.specs.NameHints.{IsHinted};
ghost use Rattle.clr_desk_prints.specs.Printing.{IsMadePrintout, IsPrintoutIn, printed};

use clr_desk_orders::plan_print;
use clr_desk_prints::{Print, answer_over_members, plan_members};
use clr_engine::Office;
use clr_office::{RunFault, Words};
use std::alloc::{AllocError, Global};

/// Returns what is printed of the plan of members.
fn print_of_set(
    alloc: Global,
    office: &Office,
    root: &str,
    members: &[&str],
) -> Result<Print, AllocError>
    ensures { IfOk result (λ p. IsPlanPrint office.now (merge_set root.now (map (λ name. name.now) members.now)) (printed p)) }
{
    let plan = plan_members(alloc, office, root, members);
    plan_print(alloc, office, root, members, &plan)
}

/// Returns the certificate of members over the office of a text; without names, of all children of the root.
pub fn answer_certificate(
    alloc: Global,
    office: &[u8],
    root: &str,
    names: &[Words],
) -> Result<Print, RunFault>
    ensures { IsMadePrintout (IsPrintoutIn (IsHinted (IsCertificatePrint root.now names.now) (root.now ∷ names.now)) (opened_in office.now)) result }
{
    answer_over_members(alloc, office, root, names, |office, members| {
        print_of_set(alloc, office, root, members)
    })
}
