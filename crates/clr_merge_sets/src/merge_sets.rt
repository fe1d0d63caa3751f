//! What is read of a merge set in an office: the rows of its root, over which the changes of the members are looked at. Nothing of this is
//! copied.

ghost use Rattle.std.specs.Prelude.{◌≡◌, None, true, map, IfErr, IfOk};
ghost use Rattle.clr_finders.specs.Sharing.{IsSettledFor};
ghost use Rattle.clr_needs.specs.Members.{IsSceneFault};
ghost use Rattle.clr_foot.specs.Scenes.{model_of};
ghost use Rattle.clr_steps.specs.Offices.{content_of, is_kept};
ghost use Rattle.clr_steps.specs.Quiet.{MergeSet};
ghost use Rattle.clr_steps.specs.Readings.{changes_in};
ghost use Rattle.clr_engine.specs.Fitting.{IsAdmitted};
ghost use Rattle.clr_clearance.specs.MergeSets.{change_sets};
ghost use Rattle.clr_clearance.specs.Verdicts.{first_conflict as first_conflict_of, names_fault};
ghost use Rattle.clr_merge_sets.specs.Faults.{IsMergeSetFault};
ghost use Rattle.clr_merge_sets.specs.MergeSetNames.{merge_set};
ghost use Rattle.clr_merge_sets.specs.MergeSets.{AreOfMergeSet, AreParts, AreRowsAbove, IsSceneOf};

use crate::merge_set_parts::MergeSetParts;
use crate::name_lists::NameList;
use crate::name_tests::name_fault;
use clr_change::{ChangeSet, first_conflict};
use clr_clearance::Verdict;
use clr_engine::Office;
use clr_foot::Scene;
use clr_grid::SpotIndex;
use clr_needs::SceneFault;
use clr_tree::View;
use std::alloc::{AllocError, Global};

/// Returns the rows of a root that is kept as the office shows them, and the office's finder of
/// them.
fn root_rows<'a>(office: &'a Office, root: &str) -> (View<'a>, &'a SpotIndex)
    requires { is_kept office.now root.now ≡ true }
    ensures rows { result.0 ≡ content_of office.entry.now root.now }
    ensures filed { IsSettledFor result.1.now.settled office.entry.now.book (content_of office.entry.now root.now) }
{
    let position = office.find(root).unwrap();
    let rows = office.view(position).unwrap();
    let finder = office.finder(position).unwrap();
    (rows, finder)
}

/// Returns the first member in conflict with these rows of the root, with its least cell in conflict
/// and how many there are, or none.
fn first_in_conflict<N: NameList>(
    office: &Office,
    rows: &View,
    members: &N,
    sets: &[&ChangeSet],
) -> Option<Verdict>
    requires above { AreRowsAbove office.now (N.names members.now) rows.now }
    requires changed { map (λ set. set.now) sets.now ≡ map (changes_in office.now) (N.names members.now) }
    ensures { result ≡ first_conflict_of office.now 0 (N.names members.now) }
{
    let _office = office;
    let _members = members;
    for member in 0..sets.len() {
        if let Some((cell, count)) = first_conflict(sets[member], rows) {
            return Some(Verdict::Conflict {
                member,
                cell,
                count,
            });
        }
    }
    None
}

/// References to change sets, in their order.
fn references(alloc: Global, sets: &[ChangeSet]) -> Result<Vec<&ChangeSet>, AllocError>
    ensures { IfOk result (λ list. map (λ set. set.now) list.items ≡ sets.entry.now) }
{
    let mut list = Vec::with_capacity(alloc, sets.len())?;
    for set in sets {
        list.push(set)?;
    }
    Ok(list)
}

/// Returns the parts of a root and its members where no test of names fails. Fails with the first
/// member in conflict.
fn parts_of<'a, N: NameList>(
    office: &'a Office,
    root: &str,
    members: &N,
    sets: Vec<&'a ChangeSet>,
) -> Result<MergeSetParts<'a>, Verdict>
    requires named { None ≡ names_fault office.now (merge_set root.now (N.names members.now)) }
    requires changed { map (λ set. set.now) sets.items ≡ change_sets office.now (merge_set root.now (N.names members.now)) }
    ensures parts { IfOk result (AreParts office.entry.now (merge_set root.now (N.names members.now))) }
    ensures fault { IfErr result (IsMergeSetFault office.entry.now (merge_set root.now (N.names members.now))) }
{
    let _sound = office.len();
    let (rows, finder) = root_rows(office, root);
    if let Some(fault) = first_in_conflict(office, &rows, members, sets.as_slice()) {
        return Err(fault);
    }
    Ok(MergeSetParts { rows, finder, sets })
}

/// Returns the parts of a root and its members over their changes, where no test of names and no test for conflicts fails. Fails with the
/// first test that fails; `OutOfMemory` may come in place of any answer but a test of names.
pub fn read_merge_set<'a, N: NameList>(
    alloc: Global,
    office: &'a Office,
    root: &str,
    members: &N,
    changes: &'a [ChangeSet],
) -> Result<MergeSetParts<'a>, Verdict>
    requires { changes.now ≡ change_sets office.now (merge_set root.now (N.names members.now)) }
    ensures parts { IfOk result (AreParts office.entry.now (merge_set root.now (N.names members.now))) }
    ensures fault { IfErr result (IsMergeSetFault office.entry.now (merge_set root.now (N.names members.now))) }
    ensures admitted { IsAdmitted office.entry.now }
{
    if let Some(fault) = name_fault(alloc, office, root, members) {
        return Err(fault);
    }
    let Ok(sets) = references(alloc, changes) else {
        return Err(Verdict::OutOfMemory);
    };
    parts_of(office, root, members, sets)
}

/// Returns what `read_merge_set` does, of changes that stand in different places, as those of some of the members of another merge set do.
pub fn read_merge_set_of<'a, N: NameList>(
    alloc: Global,
    office: &'a Office,
    root: &str,
    members: &N,
    changes: Vec<&'a ChangeSet>,
) -> Result<MergeSetParts<'a>, Verdict>
    requires { map (λ set. set.now) changes.items ≡ change_sets office.now (merge_set root.now (N.names members.now)) }
    ensures parts { IfOk result (AreParts office.entry.now (merge_set root.now (N.names members.now))) }
    ensures fault { IfErr result (IsMergeSetFault office.entry.now (merge_set root.now (N.names members.now))) }
{
    if let Some(fault) = name_fault(alloc, office, root, members) {
        return Err(fault);
    }
    parts_of(office, root, members, changes)
}

impl<'a> MergeSetParts<'a> {
    /// Returns the scene of the root's rows and the members' changes. Fails with the least cell
    /// that two members change, or with `OutOfMemory` if memory runs out.
    pub fn scene<'b>(
        &'b self,
        alloc: Global,
        office: &'b Office,
    ) -> Result<Scene<'b, View<'a>, SpotIndex>, SceneFault>
        requires { AreOfMergeSet office.now self.now }
        ensures scene { IfOk result (λ scene. (s : MergeSet) → AreParts office.entry.now s self.entry.now
            → IsSceneOf (λ finder. finder.settled) office.entry.now s (model_of (λ rows. rows) scene)) }
        ensures shared { IfErr result (λ fault. (s : MergeSet) → AreParts office.entry.now s self.entry.now
            → IsSceneFault (change_sets office.entry.now s) fault) }
    {
        let sets = Vec::from_slice(alloc, self.sets.as_slice())?;
        Scene::new(alloc, office.book(), &self.rows, self.finder, sets)
    }
}
