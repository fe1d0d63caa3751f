//! Members that break needs which nothing covers.
ghost use Rattle.std.specs.Prelude.{◌≡◌, map, IfOk};
ghost use Rattle.clr_clearance.specs.MergeSets.{change_sets};
ghost use Rattle.clr_merge_sets.specs.MergeSetNames.{merge_set};
ghost use Rattle.clr_clashes.specs.ListedClashes.{listed_clash_of};
ghost use Rattle.clr_merge_clashes.specs.MergeClashes.{AreNeedClashes, need_clash};
ghost use Rattle.clr_merge_clashes.specs.ClashSets.{stored_clash};

use crate::clash_sets::MergeClash;
use crate::places::numbers_at;
use clr_change::ChangeSet;
use clr_clashes::{Clash, clashes};
use clr_clearance::Verdict;
use clr_engine::Office;
use clr_merge_sets::read_merge_set_of;
use std::alloc::{AllocError, Global};

/// Returns a set of those looked at, by positions among all.
fn need_clash(alloc: Global, looked: &[usize], clash: &Clash) -> Result<MergeClash, AllocError>
    ensures { IfOk result (λ set. stored_clash set ≡ need_clash looked.now (listed_clash_of clash.now)) }
{
    let members = numbers_at(alloc, looked, clash.members.as_slice())?;
    let cause = Verdict::Uncovered(clash.need);
    Ok(MergeClash { members, cause })
}

/// Sets of those looked at, by positions among all.
fn clashes_among(
    alloc: Global,
    looked: &[usize],
    listed: &[Clash],
) -> Result<Vec<MergeClash>, AllocError>
    ensures { IfOk result (λ list. map stored_clash list.items ≡ map (need_clash looked.now) (map listed_clash_of listed.now)) }
{
    let mut list = Vec::with_capacity(alloc, listed.len())?;
    for clash in listed {
        list.push(need_clash(alloc, looked, clash)?)?;
    }
    Ok(list)
}

/// Returns the smallest sets of members with these changes that break a need which nothing covers, where no test of these
/// members fails and no cell is changed by two.
pub(crate) fn need_clashes(
    alloc: Global,
    office: &Office,
    root: &str,
    names: &[&str],
    sets: Vec<&ChangeSet>,
    looked: &[usize],
) -> Result<Vec<MergeClash>, AllocError>
    requires { map (λ set. set.now) sets.items ≡ change_sets office.now (merge_set root.now (map (λ name. name.now) names.now)) }
    ensures { IfOk result (λ list. AreNeedClashes office.now (merge_set root.now (map (λ name. name.now) names.now)) looked.now (map stored_clash list.items)) }
{
    let Ok(parts) = read_merge_set_of(alloc, office, root, &names, sets) else {
        return Err(AllocError);
    };
    let Ok(scene) = parts.scene(alloc, office) else {
        return Err(AllocError);
    };
    let listed = clashes(alloc, &scene)?;
    clashes_among(alloc, looked, listed.as_slice())
}
