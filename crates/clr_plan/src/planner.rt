//! The planner: what is planned for a root and members in an office.

ghost use Rattle.std.specs.Prelude.{◌≡◌, map};
ghost use Rattle.clr_clearance.specs.MergeSets.{change_sets};
ghost use Rattle.clr_merge_sets.specs.MergeSetNames.{merge_set};
ghost use Rattle.clr_merge_sets.specs.MergeSets.{AreParts};
ghost use Rattle.clr_plan.specs.Certificates.{IsReadableWhereCleared};
ghost use Rattle.clr_plan.specs.Plans.{IsPlan};
ghost use Rattle.clr_plan.specs.Promises.{IsExact, IsUnfitWhere, Promises, StaysCleared};

use crate::faults::{plan_fault, plan_shared};
use crate::scene_plans::plan_scene;
use clr_change::ChangeSet;
use clr_engine::Office;
use clr_merge_sets::{MergeSetParts, Plan, fault_without_memory, read_changes, read_merge_set};
use std::alloc::Global;

/// Returns the plan that the parts of a merge set decide.
fn plan_parts(
    alloc: Global,
    office: &Office,
    parts: &MergeSetParts<'_>,
    root: &str,
    members: &[&str],
) -> Plan
    requires { AreParts office.now (merge_set root.now (map (λ name. name.now) members.now)) parts.now }
    ensures { IsPlan office.now (merge_set root.now (map (λ name. name.now) members.now)) result }
{
    match parts.scene(alloc, office) {
        Ok(scene) => match plan_scene(alloc, &scene, root, members) {
            Ok(plan) => plan,
            Err(_) => Plan::OutOfMemory,
        },
        Err(fault) => plan_shared(alloc, fault),
    }
}

/// Returns what `plan` does, of members whose changes were read of this office.
pub fn plan_changes(
    alloc: Global,
    office: &Office,
    root: &str,
    members: &[&str],
    changes: &[ChangeSet],
) -> Plan
    requires { changes.now ≡ change_sets office.now (merge_set root.now (map (λ name. name.now) members.now)) }
    ensures plan { IsPlan office.now (merge_set root.now (map (λ name. name.now) members.now)) result }
    ensures unfit { IsUnfitWhere office.now (merge_set root.now (map (λ name. name.now) members.now)) result }
    ensures promises { Promises office.now (merge_set root.now (map (λ name. name.now) members.now)) result }
    ensures exact { IsExact office.now (merge_set root.now (map (λ name. name.now) members.now)) result }
    ensures lasts { StaysCleared office.now (merge_set root.now (map (λ name. name.now) members.now)) result }
    ensures readable { IsReadableWhereCleared office.now result }
{
    let _rules = office.book();
    let _tables = office.schema().tables();
    let _tree = office.len();
    match read_merge_set(alloc, office, root, &members, changes) {
        Ok(parts) => plan_parts(alloc, office, &parts, root, members),
        Err(fault) => plan_fault(alloc, fault),
    }
}

/// Returns what is planned for members that are to be merged into a root. `Unfit` comes wherever a
/// test of names fails, with the first that does. `Cleared` comes with a certificate that names the
/// root and the members as they are given, with one entry for each touched need, ascending: the
/// members are safe, and the text of the certificate is read as the certificate. `Blocked` comes with an order of members, by position, and the first test that
/// fails: of the merges in that order, from this office and with no workspace removed, one meets a
/// conflict or breaks a rule. There is no other answer but `OutOfMemory`, in place of `Cleared` and
/// `Blocked`. What was cleared stays cleared for the members that still stand, in whichever order
/// they are named, after every list of quiet commands.
///
/// For example, where no two mains may have one code, `W1` gives main 1 another code, and `W2` inserts main 30 with the
/// code that main 1 had, the plan of `W1` and `W2` is `Blocked`. The order is the position 1, since merging
/// `W2` first breaks the rule, and the cause is `Uncovered`. Where both insert main 20, the order is the positions 0
/// and 1, and the cause is `SharedCell`.
pub fn plan(alloc: Global, office: &Office, root: &str, members: &[&str]) -> Plan
    ensures plan { IsPlan office.now (merge_set root.now (map (λ name. name.now) members.now)) result }
    ensures unfit { IsUnfitWhere office.now (merge_set root.now (map (λ name. name.now) members.now)) result }
    ensures promises { Promises office.now (merge_set root.now (map (λ name. name.now) members.now)) result }
    ensures exact { IsExact office.now (merge_set root.now (map (λ name. name.now) members.now)) result }
    ensures lasts { StaysCleared office.now (merge_set root.now (map (λ name. name.now) members.now)) result }
    ensures readable { IsReadableWhereCleared office.now result }
{
    let _rules = office.book();
    let _tables = office.schema().tables();
    let _tree = office.len();
    match read_changes(alloc, office, &members) {
        Ok(changes) => plan_changes(alloc, office, root, members, changes.as_slice()),
        Err(_) => plan_fault(alloc, fault_without_memory(alloc, office, root, &members)),
    }
}
