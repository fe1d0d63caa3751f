//! What is printed of names that are tried one after another, of which some are taken.
ghost use Rattle.std.specs.Prelude.{◌≡◌, ◌∷◌, ◌++◌, [], codes, false, IfOk};
ghost use Rattle.clr_cert.specs.Texts.{certificate_text};
ghost use Rattle.clr_merge_sets.specs.MergeSetNames.{merge_set};
ghost use Rattle.clr_merge_sets.specs.declared.plans.Plan.TheVariants as plan;
ghost use Rattle.clr_office_texts.specs.Drafts.{opened_in};
ghost use Rattle.clr_desk_orders.specs.ChoicePrints.{names_line};
ghost use Rattle.clr_desk_orders.specs.ChoicesInOrder.{IsChoiceInOrderPrint};
ghost use Rattle.clr_desk_orders.specs.PlansInOrder.{IsPlannedInOrder};
ghost use Rattle.clr_desk_prints.specs.NameHints.{IsHinted};
ghost use Rattle.clr_desk_prints.specs.Printing.{IsMadePrintout, IsPrintoutIn, printed, printout_of};

use crate::certificates::planned_in_order;
use crate::choices::choose_in_order;
use crate::names_lines::names_line;
use crate::plan_prints::plan_print;
use clr_cert::{Certificate, write_certificate};
use clr_choices::Choice;
use clr_desk_prints::{Print, RunFault, Words, answer_over_office, members_asked};
use clr_engine::Office;
use clr_merge_sets::texts_of_names;
use clr_plan::Plan;
use clr_rows::Schema;
use std::alloc::{AllocError, Global};

/// Returns the certificate of the members taken, and as notes who they are and why the others are left.
pub fn choice_print(alloc: Global, schema: &Schema, choice: &Choice) -> Result<Print, AllocError>
    ensures { IfOk result (λ p. printed p ≡ printout_of (certificate_text schema.now choice.now.certificate)
        (names_line (codes "kept") choice.now.taken.items ++ choice.now.left.items) choice.now.is_any_left false) }
{
    let taken = texts_of_names(alloc, choice.taken.as_slice())?;
    let mut notes = names_line(alloc, "kept", taken.as_slice())?;
    notes.extend_from_slice(choice.left.as_slice())?;
    let text = write_certificate(alloc, schema, &choice.certificate)?;
    Ok(Print::new(text, notes, choice.is_any_left, false))
}

/// Returns the members taken of those that names ask for, where nobody is cleared by this certificate.
fn print_of_choice(
    alloc: Global,
    office: &Office,
    root: &str,
    names: &[Words],
    nobody: Certificate,
) -> Result<Print, AllocError>
    requires { IsPlannedInOrder office.now (merge_set root.now []) (plan.Cleared nobody) }
    ensures { IfOk result (λ p. IsChoiceInOrderPrint root.now names.now office.now (printed p)) }
{
    let members = members_asked(alloc, office, root, names)?;
    let choice = choose_in_order(alloc, office, root, members.as_slice(), nobody)?;
    choice_print(alloc, office.schema(), &choice)
}

/// Goes through the members that names ask for in their order, and takes each that can be merged next behind those taken before it; where not even nobody is
/// cleared, what is planned for nobody.
fn print_of_names(
    alloc: Global,
    office: &Office,
    root: &str,
    names: &[Words],
) -> Result<Print, AllocError>
    ensures { IfOk result (λ p. IsChoiceInOrderPrint root.now names.now office.now (printed p)) }
{
    let nobody = texts_of_names(alloc, &[])?;
    match planned_in_order(alloc, office, root, nobody.as_slice()) {
        Plan::Cleared(certificate) => print_of_choice(alloc, office, root, names, certificate),
        plan => plan_print(alloc, office, root, nobody.as_slice(), &plan),
    }
}

/// Returns which members over the office of a text are taken, where each is that can be merged next behind those taken before it: their certificate, and as
/// notes who they are, and why each other is left, which counts as a refusal. Behind the notes are hints at names that no workspace has. Without names the
/// members are all children of the root. If a rule doesn't hold, the line that says so is the only note, and there is no text. Fails with `BadOffice` if the
/// text is no office, and with `OutOfMemory` for want of memory, which may come in place of any other answer.
pub fn answer_keep_in_order(
    alloc: Global,
    office: &[u8],
    root: &str,
    names: &[Words],
) -> Result<Print, RunFault>
    ensures { IsMadePrintout (IsPrintoutIn (IsHinted (IsChoiceInOrderPrint root.now names.now) (root.now ∷ names.now)) (opened_in office.now)) result }
{
    answer_over_office(alloc, office, root, names, |office| {
        print_of_names(alloc, office, root, names)
    })
}
