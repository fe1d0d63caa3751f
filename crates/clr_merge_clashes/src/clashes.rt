//! The smallest sets of the members of a merge set that can't be merged together.
ghost use Rattle.std.specs.Prelude.{◌≡◌, None, map, IfOk};
ghost use Rattle.clr_merge_sets.specs.MergeSetNames.{merge_set};
ghost use Rattle.clr_clearance.specs.MergeSets.{change_sets};
ghost use Rattle.clr_clearance.specs.Verdicts.{names_fault};
ghost use Rattle.clr_merge_clashes.specs.Laws.{AreSmallestSets};
ghost use Rattle.clr_merge_clashes.specs.MergeClashes.{AreFound, FindsClashes};

use crate::clash_sets::MergeClashes;
use crate::laws::sets_decide_plans;
use crate::lone::{causes_alone, lone_of};
use crate::looked::looked_of;
use crate::needs::need_clashes;
use crate::pairs::pairs_of;
use crate::places::sets_at;
use clr_change::ChangeSet;
use clr_clearance::Verdict;
use clr_engine::Office;
use clr_merge_sets::{name_fault, names_at, read_changes};
use std::alloc::{AllocError, Global};

/// Returns the sets where no test of names fails.
fn clashes_of_children(
    alloc: Global,
    office: &Office,
    root: &str,
    members: &[&str],
    changes: &[ChangeSet],
) -> Result<MergeClashes, AllocError>
    requires named { names_fault office.now (merge_set root.now (map (λ name. name.now) members.now)) ≡ None }
    requires changed { changes.now ≡ change_sets office.now (merge_set root.now (map (λ name. name.now) members.now)) }
    ensures { IfOk result (FindsClashes office.now (merge_set root.now (map (λ name. name.now) members.now))) }
{
    let causes = causes_alone(alloc, office, root, members, changes)?;
    let (mut clashes, free) = lone_of(alloc, causes.as_slice())?;
    let (mut pairs, together) = pairs_of(alloc, changes, free.as_slice())?;
    let names = names_at(alloc, members, together.as_slice())?;
    let sets = sets_at(alloc, changes, together.as_slice())?;
    let mut needs = need_clashes(
        alloc,
        office,
        root,
        names.as_slice(),
        sets,
        together.as_slice(),
    )?;
    let looked = looked_of(alloc, causes.as_slice(), together.as_slice())?;
    clashes.append(&mut pairs)?;
    clashes.append(&mut needs)?;
    Ok(MergeClashes { clashes, looked })
}

/// Returns what `merge_clashes` does, of members whose changes were read of this office.
pub fn merge_clashes_of(
    alloc: Global,
    office: &Office,
    root: &str,
    members: &[&str],
    changes: &[ChangeSet],
) -> Result<MergeClashes, Verdict>
    requires { changes.now ≡ change_sets office.now (merge_set root.now (map (λ name. name.now) members.now)) }
    ensures found { AreFound office.now (merge_set root.now (map (λ name. name.now) members.now)) result }
    ensures exact { IfOk result (AreSmallestSets office.now (merge_set root.now (map (λ name. name.now) members.now))) }
{
    sets_decide_plans();
    if let Some(fault) = name_fault(alloc, office, root, &members) {
        return Err(fault);
    }
    match clashes_of_children(alloc, office, root, members, changes) {
        Ok(found) => Ok(found),
        Err(_) => Err(Verdict::OutOfMemory),
    }
}

/// Returns the smallest sets of members of a root that can't be merged together: each member that can't be merged even
/// alone, with the cause of its plan; of the others each two that change one cell, with the least such cell; and of those
/// that change no cell which an earlier one changes the smallest sets that break a need which nothing covers, each with
/// the least need that just these break, in the order of these needs. No set holds another, and what a set holds but for
/// one of its members can be merged together. Fails with the first test of names that fails, and otherwise with
/// `OutOfMemory` for want of memory.
pub fn merge_clashes(
    alloc: Global,
    office: &Office,
    root: &str,
    members: &[&str],
) -> Result<MergeClashes, Verdict>
    ensures found { AreFound office.now (merge_set root.now (map (λ name. name.now) members.now)) result }
    ensures exact { IfOk result (AreSmallestSets office.now (merge_set root.now (map (λ name. name.now) members.now))) }
{
    match read_changes(alloc, office, &members) {
        Ok(changes) => merge_clashes_of(alloc, office, root, members, changes.as_slice()),
        Err(_) => match name_fault(alloc, office, root, &members) {
            Some(fault) => Err(fault),
            None => Err(Verdict::OutOfMemory),
        },
    }
}
