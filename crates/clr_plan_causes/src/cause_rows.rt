//! The rows of a cause: those that it names, and those that served a need and go.

ghost use Rattle.std.specs.Prelude.{◌≡◌, ◌++◌, IfOk, OnOk};
ghost use Rattle.std.specs.Option.{option_copied};
ghost use Rattle.clr_clearance.specs.MergeSets.{change_sets};
ghost use Rattle.clr_steps.specs.Quiet.{MergeSet};
ghost use Rattle.clr_serving_rows.specs.Servers.{server_changes as changes_of_servers};
ghost use Rattle.clr_merge_sets.specs.MemberChanges.{AreMembers};
ghost use Rattle.clr_plan_causes.specs.CauseRows.{contested_rows, goer_of, goers_among, owner_of, row_of_design, shown_row, subject_rows, version_rows};

use clr_engine::Office;
use clr_map_scenes::CauseRow;
use clr_member_changes::{MemberChanges, Standing};
use clr_merge_sets::row_of_version;
use clr_needs::{Need, VersionId};
use clr_rows::{CellId, Row};
use clr_serving_rows::{ServerChange, server_changes};
use std::alloc::{AllocError, Global};

/// Returns the design that brings, changes or removes a row.
fn owner_of(standing: Standing) -> Option<usize>
    ensures { result ≡ owner_of standing }
{
    match standing {
        Standing::New(at)
        | Standing::Changed(at)
        | Standing::Removed(at)
        | Standing::TakenOver(at) => Some(at),
        Standing::Stays | Standing::Now => None,
    }
}

/// Adds the row of a version, where it has one.
fn add_version(
    rows: &mut Vec<CauseRow>,
    office: &Office,
    members: &MemberChanges<'_>,
    version: VersionId,
) -> Result<(), AllocError>
    ensures { OnOk result ((s : MergeSet) → AreMembers office.now s members.now
        → rows.new.items ≡ rows.old.items ++ version_rows office.now s version) }
{
    if let Some(row) = row_of_version(office, members, version) {
        rows.push(CauseRow {
            cell: version.cell,
            owner: owner_of(members.standing(version)),
            row: row.copy()?,
        })?;
    }
    Ok(())
}

/// Returns the rows of the subjects of a need.
pub(crate) fn subjects_of(
    alloc: Global,
    office: &Office,
    members: &MemberChanges<'_>,
    need: &Need,
) -> Result<Vec<CauseRow>, AllocError>
    ensures { IfOk result (λ rows. (s : MergeSet) → AreMembers office.now s members.now
        → rows.items ≡ subject_rows office.now s need.now) }
{
    let mut rows = Vec::new(alloc);
    add_version(&mut rows, office, members, need.first)?;
    if let Some(version) = need.second {
        add_version(&mut rows, office, members, version)?;
    }
    Ok(rows)
}

/// Adds the row that a change takes away, where it takes one away.
fn add_goer(
    goers: &mut Vec<CauseRow>,
    members: &MemberChanges<'_>,
    change: ServerChange,
) -> Result<(), AllocError>
    ensures { OnOk result (goers.new.items ≡ goers.old.items ++ goer_of members.now.changes.items change) }
{
    if !change.leaves {
        return Ok(());
    }
    if let Some(row) = members.row_before(change.member, change.cell) {
        goers.push(CauseRow {
            cell: change.cell,
            owner: Some(change.member),
            row: row.copy()?,
        })?;
    }
    Ok(())
}

/// Returns the rows that some changes take away.
#[tactic(auto, unfolding(crate::specs::CauseRows::goers_among))]
fn goers_among(
    alloc: Global,
    members: &MemberChanges<'_>,
    changes: &[ServerChange],
) -> Result<Vec<CauseRow>, AllocError>
    ensures { IfOk result (λ goers. goers.items ≡ goers_among members.now.changes.items changes.now) }
{
    let mut goers = Vec::new(alloc);
    for change in changes {
        add_goer(&mut goers, members, *change)?;
    }
    Ok(goers)
}

/// Returns the rows that served a need and go with a design.
pub(crate) fn goers_of(
    alloc: Global,
    office: &Office,
    members: &MemberChanges<'_>,
    need: &Need,
) -> Result<Vec<CauseRow>, AllocError>
    ensures { IfOk result (λ goers. (s : MergeSet) → AreMembers office.now s members.now
        → goers.items ≡ goers_among (change_sets office.now s) (changes_of_servers office.now s need.now)) }
{
    let changes = server_changes(alloc, office, members, need)?;
    goers_among(alloc, members, changes.as_slice())
}

/// Returns the row that a design has at a cell, or else the one that stood there before.
fn shown_row<'b>(members: &'b MemberChanges<'_>, at: usize, cell: CellId) -> Option<&'b Row>
    ensures { option_copied result ≡ shown_row members.entry.now.changes.items cell at }
{
    match members.row_after(at, cell) {
        Some(row) => Some(row),
        None => members.row_before(at, cell),
    }
}

/// Adds the row that a design has at a cell, or else the one that stood there before.
fn add_row_of_design(
    rows: &mut Vec<CauseRow>,
    members: &MemberChanges<'_>,
    at: usize,
    cell: CellId,
) -> Result<(), AllocError>
    ensures { OnOk result (rows.new.items ≡ rows.old.items ++ row_of_design members.now.changes.items cell at) }
{
    if let Some(row) = shown_row(members, at, cell) {
        rows.push(CauseRow {
            cell,
            owner: Some(at),
            row: row.copy()?,
        })?;
    }
    Ok(())
}

/// Returns the rows of some designs at a cell, in their order.
#[tactic(auto, unfolding(crate::specs::CauseRows::contested_rows))]
pub(crate) fn contested_rows(
    alloc: Global,
    members: &MemberChanges<'_>,
    cell: CellId,
    positions: &[usize],
) -> Result<Vec<CauseRow>, AllocError>
    ensures { IfOk result (λ rows. rows.items ≡ contested_rows members.now.changes.items cell positions.now) }
{
    let mut rows = Vec::new(alloc);
    for at in positions {
        add_row_of_design(&mut rows, members, *at, cell)?;
    }
    Ok(rows)
}
