//! Members that can't be merged even alone.
ghost use Rattle.std.specs.Prelude.{◌≡◌, ◌++◌, ◌∷◌, [], filter, map, option_map, option_to_list, IfOk, OnOk};
ghost use Rattle.clr_steps.specs.Readings.{changes_in};
ghost use Rattle.clr_merge_clashes.specs.Lone.{AreCauses, IsCause, alone, cause_at, free_positions, is_free, lone_clash, lone_clashes};
ghost use Rattle.clr_merge_clashes.specs.ClashSets.{stored_clash};

use crate::clash_sets::MergeClash;
use clr_change::ChangeSet;
use clr_clearance::Verdict;
use clr_engine::Office;
use clr_plan::{Plan, plan_changes};
use std::alloc::{AllocError, Global};
use std::slice;

/// Returns why a member with these changes can't be merged even alone, if it can't. Where a test of names fails, it fails as it does for
/// want of memory.
fn cause_alone(
    alloc: Global,
    office: &Office,
    root: &str,
    name: &str,
    set: &ChangeSet,
) -> Result<Option<Verdict>, AllocError>
    requires { set.now ≡ changes_in office.now name.now }
    ensures { IfOk result (IsCause office.now (alone root.now name.now)) }
{
    let names = [name];
    match plan_changes(alloc, office, root, &names, slice::from_ref(set)) {
        Plan::Cleared(_) => Ok(None),
        Plan::Blocked { order: _, cause } => Ok(Some(cause)),
        Plan::Unfit(_) => Err(AllocError),
        Plan::OutOfMemory => Err(AllocError),
    }
}

/// Returns of each member why it can't be merged even alone, if it can't.
pub(crate) fn causes_alone(
    alloc: Global,
    office: &Office,
    root: &str,
    names: &[&str],
    sets: &[ChangeSet],
) -> Result<Vec<Option<Verdict>>, AllocError>
    requires { sets.now ≡ map (changes_in office.now) (map (λ name. name.now) names.now) }
    ensures { IfOk result (λ causes. AreCauses office.now root.now (map (λ name. name.now) names.now) causes.items) }
{
    let mut causes = Vec::new(alloc);
    for at in 0..names.len() {
        causes.push(cause_alone(alloc, office, root, names[at], &sets[at])?)?;
    }
    Ok(causes)
}

/// Returns why the member at a position can't be merged even alone, if it can't.
fn cause_at(causes: &[Option<Verdict>], at: usize) -> Option<Verdict>
    ensures { result ≡ cause_at causes.now at }
{
    match causes.get(at) {
        Some(cause) => *cause,
        None => None,
    }
}

/// Returns the member at a position alone, where it can't be merged.
fn lone_clash(
    alloc: Global,
    causes: &[Option<Verdict>],
    at: usize,
) -> Result<Option<MergeClash>, AllocError>
    ensures { IfOk result (λ clash. option_map stored_clash clash ≡ lone_clash causes.now at) }
{
    let Some(cause) = cause_at(causes, at) else {
        return Ok(None);
    };
    let members = vec![in alloc; at]?;
    Ok(Some(MergeClash { members, cause }))
}

/// Adds the member at a position to those that can't be merged even alone, or to the others.
fn add_member(
    alloc: Global,
    causes: &[Option<Verdict>],
    at: usize,
    clashes: &mut Vec<MergeClash>,
    free: &mut Vec<usize>,
) -> Result<(), AllocError>
    ensures clashes { OnOk result (map stored_clash clashes.new.items ≡ map stored_clash clashes.old.items ++ option_to_list (lone_clash causes.now at)) }
    ensures free { OnOk result (free.new.items ≡ free.old.items ++ filter (is_free causes.now) (at ∷ [])) }
{
    match lone_clash(alloc, causes, at)? {
        Some(clash) => {
            clashes.push(clash)?;
            Ok(())
        }
        None => {
            free.push(at)?;
            Ok(())
        }
    }
}

/// Returns the members that can't be merged even alone, and the positions of the others.
pub(crate) fn lone_of(
    alloc: Global,
    causes: &[Option<Verdict>],
) -> Result<(Vec<MergeClash>, Vec<usize>), AllocError>
    ensures clashes { IfOk result (λ r. map stored_clash r.0.items ≡ lone_clashes causes.now) }
    ensures free { IfOk result (λ r. r.1.items ≡ free_positions causes.now) }
{
    let mut clashes = Vec::new(alloc);
    let mut free = Vec::new(alloc);
    for at in 0..causes.len() {
        add_member(alloc, causes, at, &mut clashes, &mut free)?;
    }
    Ok((clashes, free))
}
