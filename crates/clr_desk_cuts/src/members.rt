//! The designs of a cut: whether they can stand in one merge, and the rows that they are held against.

ghost use Rattle.std.specs.Prelude.{◌≡◌, map, IfOk};
ghost use Rattle.clr_clearance.specs.MergeSets.{change_sets};
ghost use Rattle.clr_merge_sets.specs.MergeSets.{AreParts};
ghost use Rattle.clr_desk_cuts.specs.Members.{IsMemberAnswer, live_set};

use clr_change::ChangeSet;
use clr_clearance::Verdict;
use clr_engine::Office;
use clr_merge_sets::{MergeSetParts, read_merge_set, verdict_of};
use clr_rows::LIVE;
use std::alloc::{AllocError, Global};

/// Returns why the designs of a merge set of LIVE, which passes the tests of names and of conflicts, can't be merged
/// together, or none: the least cell that two of them change, or want of memory.
fn scene_fault(
    alloc: Global,
    office: &Office,
    names: &[&str],
    parts: &MergeSetParts<'_>,
) -> Option<Verdict>
    requires { AreParts office.now (live_set (map (λ name. name.now) names.now)) parts.now }
    ensures { IsMemberAnswer office.now (live_set (map (λ name. name.now) names.now)) result }
{
    let _names = names;
    let fault = match parts.scene(alloc, office) {
        Ok(_) => return None,
        Err(fault) => fault,
    };
    Some(verdict_of(fault))
}

/// Returns why designs can't be merged into LIVE together, before any rule is looked at, or none: the first test of
/// names or of conflicts that fails, or the least cell that two of them change, or want of memory.
pub(crate) fn member_fault(
    alloc: Global,
    office: &Office,
    names: &[&str],
    changes: &[ChangeSet],
) -> Option<Verdict>
    requires { changes.now ≡ change_sets office.now (live_set (map (λ name. name.now) names.now)) }
    ensures { IsMemberAnswer office.now (live_set (map (λ name. name.now) names.now)) result }
{
    match read_merge_set(alloc, office, LIVE, &names, changes) {
        Ok(parts) => scene_fault(alloc, office, names, &parts),
        Err(fault) => Some(fault),
    }
}

/// References to change sets, in their order.
pub(crate) fn references(alloc: Global, sets: &[ChangeSet]) -> Result<Vec<&ChangeSet>, AllocError>
    ensures { IfOk result (λ list. map (λ set. set.now) list.items ≡ sets.entry.now) }
{
    let mut list = Vec::with_capacity(alloc, sets.len())?;
    for set in sets {
        list.push(set)?;
    }
    Ok(list)
}
