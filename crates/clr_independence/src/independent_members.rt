//! Which members of a merge set are independent.

ghost use Rattle.std.specs.Prelude.{◌≡◌, None, map, IfOk};
ghost use Rattle.clr_needs.specs.Members.{IsSceneFault};
ghost use Rattle.clr_steps.specs.Offices.{Office};
ghost use Rattle.clr_steps.specs.Quiet.{MergeSet};
ghost use Rattle.clr_clearance.specs.MergeSets.{change_sets};
ghost use Rattle.clr_clearance.specs.Verdicts.{member_fault};
ghost use Rattle.clr_merge_sets.specs.Faults.{IsMergeSetFault};
ghost use Rattle.clr_merge_sets.specs.MergeSetNames.{merge_set};
ghost use Rattle.clr_merge_sets.specs.MergeSets.{AreParts};
ghost use Rattle.clr_independence.specs.Independences.{IsIndependenceOf};

use crate::member_pairs::{MemberPair, pairs};
use clr_change::ChangeSet;
use clr_clearance::Verdict;
use clr_engine::Office;
use clr_merge_sets::{
    MergeSetParts, fault_without_memory, read_changes, read_merge_set, verdict_of,
};
use clr_needs::SceneFault;
use std::alloc::{AllocError, Global};

/// Which members of a root are independent, or why it can't be said.
#[derive(Debug, Drop)]
pub enum Independence {
    /// The first test of the members that fails: of names, of conflicts with the root, of shared cells.
    Unfit(Verdict),
    /// Each pair of members, in the order of the list.
    Pairs(Vec<MemberPair>),
}

/// Returns the answer where a test of members fails.
fn of_fault(fault: Verdict) -> Result<Independence, AllocError>
    ensures { IfOk result (λ said. (o : Office) (s : MergeSet) → IsMergeSetFault o s fault → IsIndependenceOf o s said) }
{
    match fault {
        Verdict::OutOfMemory => Err(AllocError),
        fault => Ok(Independence::Unfit(fault)),
    }
}

/// Returns the answer where two members change a cell.
fn of_shared(fault: SceneFault) -> Result<Independence, AllocError>
    ensures { IfOk result (λ said. (o : Office) (s : MergeSet) → member_fault o s ≡ None → IsSceneFault (change_sets o s) fault
        → IsIndependenceOf o s said) }
{
    match fault {
        SceneFault::OutOfMemory => Err(AllocError),
        fault => Ok(Independence::Unfit(verdict_of(fault))),
    }
}

/// Returns the answer that the parts of a merge set give.
fn of_parts(
    alloc: Global,
    office: &Office,
    parts: &MergeSetParts<'_>,
    root: &str,
    members: &[&str],
) -> Result<Independence, AllocError>
    requires { AreParts office.now (merge_set root.now (map (λ name. name.now) members.now)) parts.now }
    ensures { IfOk result (IsIndependenceOf office.now (merge_set root.now (map (λ name. name.now) members.now))) }
{
    let _root = root;
    let _members = members;
    match parts.scene(alloc, office) {
        Ok(scene) => {
            let list = pairs(alloc, &scene)?;
            Ok(Independence::Pairs(list))
        }
        Err(fault) => of_shared(fault),
    }
}

/// Returns the answer for members whose changes were read.
fn of_changes(
    alloc: Global,
    office: &Office,
    root: &str,
    members: &[&str],
    changes: &[ChangeSet],
) -> Result<Independence, AllocError>
    requires { changes.now ≡ change_sets office.now (merge_set root.now (map (λ name. name.now) members.now)) }
    ensures { IfOk result (IsIndependenceOf office.now (merge_set root.now (map (λ name. name.now) members.now))) }
{
    match read_merge_set(alloc, office, root, &members, changes) {
        Ok(parts) => of_parts(alloc, office, &parts, root, members),
        Err(fault) => of_fault(fault),
    }
}

/// Returns which members of a root are independent. Two members are so where no possible need, touched or not, involves both:
/// where none has, among its subjects and the versions that serve it, one whose life depends on the first member and one whose
/// life depends on the second. Where the root isn't kept, a name is wrong, a member is in conflict or two change one cell, the
/// answer is the first test that fails.
/// For example, two members that each delete one of three nodes at the crossing of two mains are dependent.
pub fn independence_of(
    alloc: Global,
    office: &Office,
    root: &str,
    members: &[&str],
) -> Result<Independence, AllocError>
    ensures { IfOk result (IsIndependenceOf office.now (merge_set root.now (map (λ name. name.now) members.now))) }
{
    match read_changes(alloc, office, &members) {
        Ok(changes) => of_changes(alloc, office, root, members, changes.as_slice()),
        Err(_) => of_fault(fault_without_memory(alloc, office, root, &members)),
    }
}
