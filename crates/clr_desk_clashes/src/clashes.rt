//! The smallest sets of members that can't be merged together.
ghost use Rattle.std.specs.Prelude.{◌≡◌, ◌∷◌, map, IfOk};
ghost use Rattle.clr_merge_sets.specs.MergeSetNames.{merge_set};
ghost use Rattle.clr_office_texts.specs.Drafts.{opened_in};
ghost use Rattle.clr_merge_clashes.specs.MergeClashes.{IsFaultOfNames};
ghost use Rattle.clr_desk_clashes.specs.Clashes.{IsClashesPrint, IsFoundPrint, IsMergeSetPrint};
ghost use Rattle.clr_desk_prints.specs.NameHints.{IsHinted};
ghost use Rattle.clr_desk_prints.specs.Printing.{IsMadePrintout, IsPrintoutIn, printed};

use crate::clash_lines::clashes_lines;
use clr_clash_helpers::helped_clashes;
use clr_clearance::Verdict;
use clr_desk_orders::plan_print;
use clr_desk_prints::{Print, RunFault, Words, answer_over_members};
use clr_engine::Office;
use clr_merge_clashes::{MergeClashes, merge_clashes};
use clr_merge_sets::read_member_changes;
use clr_plan::Plan;
use std::alloc::{AllocError, Global};

/// Returns all sets, each with those that help it, as a text.
fn found_print(
    alloc: Global,
    office: &Office,
    root: &str,
    members: &[&str],
    found: &MergeClashes,
) -> Result<Print, AllocError>
    ensures { IfOk result (λ p. IsFoundPrint office.now (merge_set root.now (map (λ name. name.now) members.now)) found.now (printed p)) }
{
    let changes = read_member_changes(alloc, office, root, members)?;
    let helped = helped_clashes(alloc, office, &changes, found.clashes.as_slice())?;
    let helped = helped.as_slice();
    let text = clashes_lines(alloc, office.schema(), root, members, found, helped)?;
    let is_any = found.clashes.as_slice().len() > 0;
    Ok(Print::new(text, Vec::new(alloc), is_any, false))
}

/// Returns the test of names that fails, as the line of a plan that is unfit. Where there was no memory for the sets, this call fails too.
fn fault_print(
    alloc: Global,
    office: &Office,
    root: &str,
    members: &[&str],
    fault: Verdict,
) -> Result<Print, AllocError>
    requires { IsFaultOfNames office.now (merge_set root.now (map (λ name. name.now) members.now)) fault }
    ensures { IfOk result (λ p. IsMergeSetPrint (merge_set root.now (map (λ name. name.now) members.now)) office.now (printed p)) }
{
    match fault {
        Verdict::OutOfMemory => Err(AllocError),
        fault => plan_print(alloc, office, root, members, &Plan::Unfit(fault)),
    }
}

/// Returns the sets of members, as a text, or the test of names that fails.
fn print_of_merge_set(
    alloc: Global,
    office: &Office,
    root: &str,
    members: &[&str],
) -> Result<Print, AllocError>
    ensures { IfOk result (λ p. IsMergeSetPrint (merge_set root.now (map (λ name. name.now) members.now)) office.now (printed p)) }
{
    match merge_clashes(alloc, office, root, members) {
        Ok(found) => found_print(alloc, office, root, members, &found),
        Err(fault) => fault_print(alloc, office, root, members, fault),
    }
}

/// Returns the smallest sets of members over the office of a text that can't be merged in every order.
pub fn answer_clashes(
    alloc: Global,
    office: &[u8],
    root: &str,
    names: &[Words],
) -> Result<Print, RunFault>
    ensures { IsMadePrintout (IsPrintoutIn (IsHinted (IsClashesPrint root.now names.now) (root.now ∷ names.now)) (opened_in office.now)) result }
{
    answer_over_members(alloc, office, root, names, |office, members| {
        print_of_merge_set(alloc, office, root, members)
    })
}
