//! Current contents, bases, savepoints and changes of workspaces, made whole.

ghost use Rattle.std.specs.Prelude.{◌≡◌, ◌<◌, true, length, IfOk};
ghost use Rattle.clr_rows.specs.Contents.{changes, no_changes};
ghost use Rattle.clr_deltas.specs.Differences.{cells_in};
ghost use Rattle.clr_deltas.specs.Deltas.{delta_at, stored_at, saved_differences, wholes};
ghost use Rattle.clr_workspaces.specs.Marks.{is_saved, mark_at, saved_content};
ghost use Rattle.clr_workspaces.specs.Workspaces.{workspace_at};
ghost use Rattle.clr_contents.specs.SeenRows.{set_each};
ghost use Rattle.clr_workspaces.specs.Roots.{IsRooted};

use crate::reads::{base_row_of, parent_of};
use clr_change::ChangeSet;
use clr_deltas::{Differences, StoredMark, WorkspaceMap};
use clr_rows::{CellId, Row, Sheet};
use std::alloc::{AllocError, Global};

/// Returns the current content of a workspace, whole.
pub fn whole_rows(live: &Sheet, map: &WorkspaceMap, at: usize) -> Result<Sheet, AllocError>
    requires within { at < length map.now }
    requires rooted { IsRooted (wholes live.now map.now) }
    ensures { IfOk result (λ sheet. sheet ≡ (workspace_at (wholes live.now map.now) at).current) }
{
    if at == 0 {
        return live.copy();
    }
    let above = parent_of(live, map, at);
    let mut sheet = whole_rows(live, map, above)?;
    sheet.put_all(map.base(at).rows()?)?;
    sheet.put_all(map.current(at).rows()?)?;
    Ok(sheet)
}

/// Returns the base of a workspace other than LIVE, whole.
pub fn base_rows(live: &Sheet, map: &WorkspaceMap, at: usize) -> Result<Sheet, AllocError>
    requires child { 0 < at }
    requires within { at < length map.now }
    requires rooted { IsRooted (wholes live.now map.now) }
    ensures { IfOk result (λ sheet. sheet ≡ (workspace_at (wholes live.now map.now) at).base) }
{
    let above = parent_of(live, map, at);
    let mut content = whole_rows(live, map, above)?;
    content.put_all(map.base(at).rows()?)?;
    Ok(content)
}

/// Returns the changes from the base of a workspace other than LIVE to these rows, at their cells.
#[tactic(auto, unfolding(crate::specs::SeenRows::set_each))]
fn changes_to(
    live: &Sheet,
    map: &WorkspaceMap,
    at: usize,
    rows: Vec<(CellId, Option<Row>)>,
) -> Result<ChangeSet, AllocError>
    requires child { 0 < at }
    requires within { at < length map.now }
    requires rooted { IsRooted (wholes live.now map.now) }
    ensures { IfOk result (λ set. set ≡ set_each (workspace_at (wholes live.now map.now) at).base no_changes rows.items) }
{
    let mut set = ChangeSet::new(map.allocator());
    for (cell, row) in rows {
        set.set(cell, base_row_of(live, map, at, cell), row.as_ref())?;
    }
    Ok(set)
}

/// Returns what a workspace other than LIVE changed. It is found among the differences of its current
/// content.
pub fn changes_of(live: &Sheet, map: &WorkspaceMap, at: usize) -> Result<ChangeSet, AllocError>
    requires child { 0 < at }
    requires within { at < length map.now }
    requires rooted { IsRooted (wholes live.now map.now) }
    ensures { IfOk result (λ set. let w = workspace_at (wholes live.now map.now) at in set ≡ changes w.base w.current) }
{
    let rows = map.current(at).rows()?;
    let set = changes_to(live, map, at, rows)?;
    Ok(set)
}

/// Returns the cells of rows.
pub fn cells_of(alloc: Global, rows: &[(CellId, Option<Row>)]) -> Result<Vec<CellId>, AllocError>
    ensures { IfOk result (λ cells. cells.items ≡ cells_in rows.now) }
{
    let mut cells = Vec::new(alloc);
    for (cell, _) in rows {
        cells.push(*cell)?;
    }
    Ok(cells)
}

/// Returns a copy of a savepoint's differences, or none of the mark of a child.
fn differences_of(alloc: Global, mark: &StoredMark) -> Result<Differences, AllocError>
    ensures { IfOk result (λ differences. differences ≡ saved_differences mark.now) }
{
    match mark {
        StoredMark::Saved(_, differences) => differences.copy(),
        StoredMark::Child(_) => Ok(Differences::new(alloc)),
    }
}

/// Returns the differences of a savepoint from the base.
pub fn saved_at(map: &WorkspaceMap, at: usize, mark: usize) -> Result<Differences, AllocError>
    requires within { at < length map.now }
    requires marked { mark < length (delta_at map.now at).marks }
    ensures { IfOk result (λ differences. differences ≡ saved_differences (stored_at (delta_at map.now at).marks mark)) }
{
    differences_of(map.allocator(), &map.marks(at)[mark])
}

/// Returns the content of a savepoint of a workspace other than LIVE, whole.
#[tactic(auto, using(crate::proofs::MarkLemmas::saved_stored))]
pub fn saved_rows(
    live: &Sheet,
    map: &WorkspaceMap,
    at: usize,
    mark: usize,
) -> Result<Sheet, AllocError>
    requires child { 0 < at }
    requires within { at < length map.now }
    requires rooted { IsRooted (wholes live.now map.now) }
    requires saved { is_saved (mark_at (workspace_at (wholes live.now map.now) at).marks mark) ≡ true }
    ensures { IfOk result (λ sheet. sheet ≡ saved_content (mark_at (workspace_at (wholes live.now map.now) at).marks mark)) }
{
    let differences = saved_at(map, at, mark)?;
    let mut sheet = base_rows(live, map, at)?;
    sheet.put_all(differences.rows()?)?;
    Ok(sheet)
}
