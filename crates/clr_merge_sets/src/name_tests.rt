//! The tests of a merge set that look at names alone. None of them is ever answered by want of memory.

ghost use Rattle.std.specs.Prelude.{◌≡◌, ℕ, List, not, position};
ghost use Rattle.clr_steps.specs.Offices.{is_kept, stands};
ghost use Rattle.clr_clearance.specs.MergeSets.{is_child};
ghost use Rattle.clr_clearance.specs.Verdicts.{names_fault};
ghost use Rattle.clr_engine.specs.Fitting.{IsAdmitted};
ghost use Rattle.clr_merge_sets.specs.Faults.{IsMergeSetFault};
ghost use Rattle.clr_merge_sets.specs.MergeSetNames.{merge_set};

use crate::name_lists::NameList;
use crate::repeats::first_repeated;
use clr_clearance::Verdict;
use clr_engine::Office;
use std::alloc::Global;

/// Returns whether a name is that of a child of a root: of a workspace other than the root whose parent it is.
pub fn is_child(office: &Office, root: &str, name: &str) -> bool
    ensures { (members : List (List ℕ)) → result ≡ is_child office.now (merge_set root.now members) name.now }
{
    if name == root {
        return false;
    }
    match office.parent_of(name) {
        Some(parent) => parent == root,
        None => false,
    }
}

/// Returns whether a name is neither LIVE's nor a workspace's.
fn is_missing(office: &Office, name: &str) -> bool
    ensures { result ≡ not (stands office.now name.now) }
{
    office.kept(name).is_none()
}

/// Returns the first member that is neither LIVE nor a workspace.
fn first_missing<N: NameList>(office: &Office, members: &N) -> Option<usize>
    ensures { result ≡ position (λ name. not (stands office.now name)) (N.names members.now) }
{
    for position in 0..members.len() {
        if is_missing(office, members.name_at(position)) {
            return Some(position);
        }
    }
    None
}

/// Returns the first member that isn't a child of the root.
fn first_stray<N: NameList>(office: &Office, root: &str, members: &N) -> Option<usize>
    ensures { result ≡ position (λ name. not (is_child office.now (merge_set root.now (N.names members.now)) name)) (N.names members.now) }
{
    for position in 0..members.len() {
        if !is_child(office, root, members.name_at(position)) {
            return Some(position);
        }
    }
    None
}

/// Returns whether a root stands and every rule is to hold in it.
#[tactic(auto, using(crate::proofs::NameLemmas::kept_if_shown))]
fn is_kept(office: &Office, root: &str) -> bool
    ensures value { result ≡ is_kept office.now root.now }
    ensures admitted { IsAdmitted office.now }
{
    office.kept(root).unwrap_or(false)
}

/// Returns the first test of names that a root and members fail, or none. Each test is made over
/// the whole list before the next: the root stands and is kept, no name stands twice, each is that
/// of a workspace, and each is a child of the root. The answer is never want of memory.
#[tactic(auto, unfolding(clr_clearance::specs::Verdicts::names_fault))]
pub fn name_fault<N: NameList>(
    alloc: Global,
    office: &Office,
    root: &str,
    members: &N,
) -> Option<Verdict>
    ensures fault { result ≡ names_fault office.now (merge_set root.now (N.names members.now)) }
    ensures admitted { IsAdmitted office.now }
{
    if !is_kept(office, root) {
        return Some(Verdict::NotKept);
    }
    if let Some(position) = first_repeated(alloc, members) {
        return Some(Verdict::RepeatedMember(position));
    }
    if let Some(position) = first_missing(office, members) {
        return Some(Verdict::NoWorkspace(position));
    }
    match first_stray(office, root, members) {
        Some(position) => Some(Verdict::NotUnderRoot(position)),
        None => None,
    }
}

/// Returns the first test of names that fails, or `OutOfMemory` where none does: the answer where no memory was found for what the members
/// changed.
pub fn fault_without_memory<N: NameList>(
    alloc: Global,
    office: &Office,
    root: &str,
    members: &N,
) -> Verdict
    ensures fault { IsMergeSetFault office.now (merge_set root.now (N.names members.now)) result }
    ensures admitted { IsAdmitted office.now }
{
    match name_fault(alloc, office, root, members) {
        Some(fault) => fault,
        None => Verdict::OutOfMemory,
    }
}
