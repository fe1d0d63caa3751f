//! What an office has of a root and its members: what each member changed, and the rows of versions.

ghost use Rattle.std.specs.Prelude.{◌≡◌, map, IfOk};
ghost use Rattle.std.specs.Option.{option_copied};
ghost use Rattle.clr_steps.specs.Quiet.{MergeSet};
ghost use Rattle.clr_steps.specs.Readings.{changes_in};
ghost use Rattle.clr_merge_sets.specs.MemberChanges.{AreMembers, row_in, rows_of_root};

use crate::name_lists::NameList;
use clr_change::ChangeSet;
use clr_engine::Office;
use clr_member_changes::MemberChanges;
use clr_needs::VersionId;
use clr_rows::{Row, Sheet};
use std::alloc::{AllocError, Global};

/// Returns the rows of a root, LIVE or a workspace, and none if there is no such root. They are copied.
pub fn rows_of_root(alloc: Global, office: &Office, root: &str) -> Result<Sheet, AllocError>
    ensures { IfOk result (λ rows. rows ≡ rows_of_root office.now root.now) }
{
    match office.rows(root)? {
        Some(rows) => Ok(rows),
        None => Ok(Sheet::new(alloc)),
    }
}

/// Returns what a workspace changed, and nothing where there is none.
fn changes_of(alloc: Global, office: &Office, name: &str) -> Result<ChangeSet, AllocError>
    ensures { IfOk result (λ set. set ≡ changes_in office.now name.now) }
{
    match office.changes(name)? {
        Some(set) => Ok(set),
        None => Ok(ChangeSet::new(alloc)),
    }
}

/// Returns what workspaces changed, in their order: nothing where there is no such workspace. Whether they can be merged isn't looked at.
pub fn read_changes<N: NameList>(
    alloc: Global,
    office: &Office,
    names: &N,
) -> Result<Vec<ChangeSet>, AllocError>
    ensures { IfOk result (λ sets. sets.items ≡ map (changes_in office.now) (N.names names.now)) }
{
    let mut sets = Vec::new(alloc);
    for at in 0..names.len() {
        sets.push(changes_of(alloc, office, names.name_at(at))?)?;
    }
    Ok(sets)
}

/// Returns a root and members with what each of them changed, as `read_changes` has it.
pub fn read_member_changes<'a>(
    alloc: Global,
    office: &Office,
    root: &'a str,
    names: &'a [&'a str],
) -> Result<MemberChanges<'a>, AllocError>
    ensures members { IfOk result (λ members. AreMembers office.now
        (record { root = root.entry.now; members = map (λ name. name.now) names.entry.now }) members) }
    ensures names { IfOk result (λ members. map (λ name. name.now) members.names.now ≡ map (λ name. name.now) names.entry.now) }
{
    let changes = read_changes(alloc, office, &names)?;
    Ok(MemberChanges {
        root,
        names,
        changes,
    })
}

/// Returns the row of a version: the one that the first member which changes its cell brings there, or the one that the root has there.
pub fn row_of_version<'a>(
    office: &'a Office,
    members: &'a MemberChanges<'_>,
    version: VersionId,
) -> Option<&'a Row>
    ensures { (s : MergeSet) → AreMembers office.entry.now s members.entry.now → option_copied result ≡ row_in office.entry.now s version }
{
    if version.fresh {
        members.new_row(version.cell)
    } else {
        office.read(members.root, version.cell)
    }
}
