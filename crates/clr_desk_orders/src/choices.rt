//! Names that are gone through in their order, each taken where it can be merged next behind those taken.
ghost use Rattle.std.specs.Prelude.{◌≡◌, ◌∷◌, ◌++◌, [], List, map, IfOk, OnOk};
ghost use Rattle.clr_workspaces.specs.Marks.{Name};
ghost use Rattle.clr_merge_sets.specs.MergeSetNames.{merge_set};
ghost use Rattle.clr_merge_sets.specs.declared.plans.Plan.TheVariants as plan;
ghost use Rattle.clr_desk_orders.specs.ChoicesInOrder.{IsAddedTo, IsChosenInOrder, IsTriedInOrder};
ghost use Rattle.clr_desk_orders.specs.PlansInOrder.{IsPlannedInOrder};

use crate::certificates::planned_in_order;
use clr_cert::Certificate;
use clr_choices::{Choice, TriedName, refusal_lines};
use clr_desk_prints::Words;
use clr_engine::Office;
use clr_merge_sets::texts_of_names;
use clr_plan::Plan;
use std::alloc::{AllocError, Global};

/// Returns names and one more.
fn members_with<'a>(
    alloc: Global,
    taken: &'a [Words],
    name: &'a Words,
) -> Result<Vec<&'a str>, AllocError>
    ensures { IfOk result (λ texts. map (λ text. text.now) texts.items ≡ taken.entry.now ++ name.entry.now ∷ []) }
{
    let mut members = texts_of_names(alloc, taken)?;
    members.push(name.as_str())?;
    Ok(members)
}

/// Tries members in this order, of which the last is a name that is tried. Where the plan finds no memory, this call fails too.
fn try_members(
    alloc: Global,
    office: &Office,
    root: &str,
    members: &[&str],
    name: &str,
) -> Result<TriedName, AllocError>
    ensures { IfOk result (IsTriedInOrder office.now root.now (map (λ name. name.now) members.now) name.now) }
{
    match planned_in_order(alloc, office, root, members) {
        Plan::Cleared(certificate) => Ok(TriedName::Taken(certificate)),
        Plan::OutOfMemory => Err(AllocError),
        plan => {
            let lines = refusal_lines(alloc, office.schema(), root, members, name, &plan)?;
            Ok(TriedName::Left(lines))
        }
    }
}

/// Tries one more name behind those taken.
fn try_name(
    alloc: Global,
    office: &Office,
    root: &str,
    taken: &[Words],
    name: &Words,
) -> Result<TriedName, AllocError>
    ensures { IfOk result (IsTriedInOrder office.now root.now (taken.now ++ name.now ∷ []) name.now) }
{
    let members = members_with(alloc, taken, name)?;
    try_members(alloc, office, root, members.as_slice(), name.as_str())
}

/// Takes a name that was tried, or leaves it.
fn add(choice: &mut Choice, name: &Words, trial: TriedName) -> Result<(), AllocError>
    ensures { OnOk result (IsAddedTo choice.old name.now trial choice.new) }
{
    match trial {
        TriedName::Taken(certificate) => {
            choice.taken.push(name.copy()?)?;
            choice.certificate = certificate;
        }
        TriedName::Left(lines) => {
            choice.left.extend_from_slice(lines.as_slice())?;
            choice.is_any_left = true;
        }
    }
    Ok(())
}

/// Goes on by one more name, which is taken where it can be merged next.
fn go_on(
    alloc: Global,
    office: &Office,
    root: &str,
    choice: &mut Choice,
    name: &Words,
) -> Result<(), AllocError>
    ensures { OnOk result ((names : List Name) → IsChosenInOrder office.now root.now names choice.old
        → IsChosenInOrder office.now root.now (names ++ name.now ∷ []) choice.new) }
{
    let trial = try_name(alloc, office, root, choice.taken.as_slice(), name)?;
    add(choice, name, trial)
}

/// Goes through names in their order where none is tried yet.
fn go_through(
    alloc: Global,
    office: &Office,
    root: &str,
    names: &[Words],
    begun: Choice,
) -> Result<Choice, AllocError>
    requires { IsChosenInOrder office.now root.now [] begun }
    ensures { IfOk result (IsChosenInOrder office.now root.now names.now) }
{
    let mut choice = begun;
    for name in names {
        go_on(alloc, office, root, &mut choice, name)?;
    }
    Ok(choice)
}

/// Returns that nobody is taken yet, who is cleared by this certificate.
fn none_taken(alloc: Global, office: &Office, root: &str, nobody: Certificate) -> Choice
    requires { IsPlannedInOrder office.now (merge_set root.now []) (plan.Cleared nobody) }
    ensures { IsChosenInOrder office.now root.now [] result }
{
    Choice {
        taken: Vec::new(alloc),
        certificate: nobody,
        left: Vec::new(alloc),
        is_any_left: false,
    }
}

/// Goes through names in their order, and takes each that can be merged next behind those taken before it; of each other the lines say `left` and its
/// name, and then why: the plan of those taken before it and of it, in this order. Nobody is to be cleared, by this certificate. It fails only for want of
/// memory.
pub(crate) fn choose_in_order(
    alloc: Global,
    office: &Office,
    root: &str,
    names: &[Words],
    nobody: Certificate,
) -> Result<Choice, AllocError>
    requires { IsPlannedInOrder office.now (merge_set root.now []) (plan.Cleared nobody) }
    ensures { IfOk result (IsChosenInOrder office.now root.now names.now) }
{
    let begun = none_taken(alloc, office, root, nobody);
    go_through(alloc, office, root, names, begun)
}
