//! The operations on the workspaces of a tree, as they are stored.

ghost use Rattle.std.specs.Prelude.{◌≡◌, ◌<◌, ◌++◌, [], ◌∷◌, false, None, Some, true, length, OnOk, OnErr, IfOk};
ghost use Rattle.clr_rows.specs.Names.{is_good_name};
ghost use Rattle.clr_deltas.specs.Differences.{cells_in};
ghost use Rattle.std.specs.FinMap as finite;
ghost use Rattle.clr_deltas.specs.Deltas.{delta_at, saved_differences, stored_at, wholes};
ghost use Rattle.clr_workspaces.specs.Marks.{is_saved, is_held, mark_at};
ghost use Rattle.clr_workspaces.specs.Workspaces.{workspace_at, find, parent_of as position_of_parent, children_of};
ghost use Rattle.clr_contents.specs.SeenRows.{Extends, ChildrenStore, StayOwnButChildren};
ghost use Rattle.clr_operations.specs.Moves.{put_into, row_moved, mark_moved};
ghost use Rattle.clr_workspaces.specs.Operations.{after_create, after_remove, after_mark, after_roll_to, after_roll_all};
ghost use Rattle.clr_workspaces.specs.Operations.{after_refresh, after_merge, after_resolve, after_rebase};
ghost use Rattle.clr_workspaces.specs.Operations.{own_changes};
ghost use Rattle.clr_contents.specs.Lean.{IsLean, IsLeanBut, StayOwnButNear};
ghost use Rattle.clr_rows.specs.Contents.{rows_after};
ghost use Rattle.clr_workspaces.specs.Roots.{IsRooted};
ghost use Rattle.clr_workspaces.specs.declared.rebases.Keep.TheVariants.{Child};
ghost use Rattle.clr_workspaces.specs.declared.rebases.Rebase.TheVariants.{Merge, Refresh};

use clr_change::{ChangeSet, copy_row};
use clr_contents::{
    base_row_of, cells_of, changes_of, parent_of, row_of, saved_at, store_current_rows,
    store_rows_of_children, store_seen_row, sweep_at,
};
use clr_deltas::{Differences, StoredMark, WorkspaceMap, push_leaf};
use clr_rows::{CellId, Row, Sheet, Words};
use clr_workspaces::{Keep, Rebase};
use std::alloc::{AllocError, Global};

// Where a function here runs out of memory, no content, mark or flag has changed: all that can fail
// comes first, and then contents change without memory.

/// Puts rows into a current content, one after another. Neutral differences that this makes stay.
fn put_rows(
    live: &mut Sheet,
    map: &mut WorkspaceMap,
    at: usize,
    rows: Vec<(CellId, Option<Row>)>,
) -> Result<(), AllocError>
    requires within { at < length map.old }
    requires rooted { IsRooted (wholes live.old map.old) }
    ensures ok { OnOk result (wholes live.new map.new ≡ put_into (wholes live.old map.old) at rows.items) }
    ensures err { OnErr result (wholes live.new map.new ≡ wholes live.old map.old) }
    ensures extends { Extends map.old map.new }
    ensures elsewhere { StayOwnButNear at (cells_in rows.items) map.old map.new }
    ensures children { OnOk result (ChildrenStore map.new (delta_at map.old at).name (cells_in rows.items)) }
{
    let cells = cells_of(map.allocator(), rows.as_slice())?;
    store_rows_of_children(live, map, at, cells.as_slice())?;
    if at == 0 {
        live.put_all(rows)?;
        return Ok(());
    }
    store_current_rows(live, map, at, cells.as_slice())?;
    map.set_current(at, rows);
    Ok(())
}

/// Puts rows into a current content, one after another.
pub fn write_rows(
    live: &mut Sheet,
    map: &mut WorkspaceMap,
    at: usize,
    rows: Vec<(CellId, Option<Row>)>,
) -> Result<(), AllocError>
    requires within { at < length map.old }
    requires rooted { IsRooted (wholes live.old map.old) }
    ensures ok { OnOk result (wholes live.new map.new ≡ put_into (wholes live.old map.old) at rows.items) }
    ensures err { OnErr result (wholes live.new map.new ≡ wholes live.old map.old) }
    ensures lean { IsLean live.old map.old → IsLean live.new map.new }
{
    let cells = cells_of(map.allocator(), rows.as_slice())?;
    let done = put_rows(live, map, at, rows);
    sweep_at(live, map, at, cells.as_slice());
    done
}

/// Puts a savepoint with the current content at the end of the marks.
pub fn mark(live: &Sheet, map: &mut WorkspaceMap, at: usize, name: &str) -> Result<(), AllocError>
    requires child { 0 < at }
    requires within { at < length map.old }
    requires rooted { IsRooted (wholes live.now map.old) }
    ensures ok { OnOk result (wholes live.now map.new ≡ after_mark (wholes live.now map.old) at name.now) }
    ensures err { OnErr result (wholes live.now map.new ≡ wholes live.now map.old) }
    ensures lean { IsLean live.now map.old → IsLean live.now map.new }
{
    let _live = live;
    let differences = map.current(at).copy()?;
    let name = Words::from_str(map.allocator(), name)?;
    map.push_mark(at, StoredMark::Saved(name, differences))
}

/// Returns the cells of one list, and then those of another.
fn join_cells(alloc: Global, first: &[CellId], others: &[CellId]) -> Result<Vec<CellId>, AllocError>
    ensures { IfOk result (λ cells. cells.items ≡ first.now ++ others.now) }
{
    let mut cells = Vec::new(alloc);
    cells.extend_from_slice(first)?;
    cells.extend_from_slice(others)?;
    Ok(cells)
}

/// Makes the content of a savepoint the current one, given its differences and the cells of these
/// and of the current content. The later savepoints go. Neutral differences that this makes stay.
fn roll_back(
    live: &Sheet,
    map: &mut WorkspaceMap,
    at: usize,
    mark: usize,
    differences: Differences,
    cells: &[CellId],
) -> Result<(), AllocError>
    requires child { 0 < at }
    requires within { at < length map.old }
    requires rooted { IsRooted (wholes live.now map.old) }
    requires saved { is_saved (mark_at (workspace_at (wholes live.now map.old) at).marks mark) ≡ true }
    requires free { is_held (workspace_at (wholes live.now map.old) at).marks mark ≡ false }
    requires differences { differences ≡ saved_differences (stored_at (delta_at map.old at).marks mark) }
    requires cells { cells.now ≡ finite.keys differences ++ finite.keys (delta_at map.old at).current }
    ensures ok { OnOk result (wholes live.now map.new ≡ after_roll_to (wholes live.now map.old) at mark) }
    ensures err { OnErr result (wholes live.now map.new ≡ wholes live.now map.old) }
    ensures long { length map.new ≡ length map.old }
    ensures elsewhere { StayOwnButNear at cells.now map.old map.new }
{
    store_rows_of_children(live, map, at, cells)?;
    map.roll_to(at, differences, mark);
    Ok(())
}

/// Makes the content of a savepoint the current one. The later savepoints go.
#[tactic(auto, using(clr_contents::proofs::MarkLemmas::saved_stored))]
pub fn roll_to(
    live: &Sheet,
    map: &mut WorkspaceMap,
    at: usize,
    mark: usize,
) -> Result<(), AllocError>
    requires child { 0 < at }
    requires within { at < length map.old }
    requires rooted { IsRooted (wholes live.now map.old) }
    requires saved { is_saved (mark_at (workspace_at (wholes live.now map.old) at).marks mark) ≡ true }
    requires free { is_held (workspace_at (wholes live.now map.old) at).marks mark ≡ false }
    ensures ok { OnOk result (wholes live.now map.new ≡ after_roll_to (wholes live.now map.old) at mark) }
    ensures err { OnErr result (wholes live.now map.new ≡ wholes live.now map.old) }
    ensures lean { IsLean live.now map.old → IsLean live.now map.new }
{
    let differences = saved_at(map, at, mark)?;
    let new = differences.cells()?;
    let old = map.current(at).cells()?;
    let cells = join_cells(map.allocator(), new.as_slice(), old.as_slice())?;
    let done = roll_back(live, map, at, mark, differences, cells.as_slice());
    sweep_at(live, map, at, cells.as_slice());
    done
}

/// Makes the base of a leaf its current content. Its savepoints go.
pub fn roll_all(live: &Sheet, map: &mut WorkspaceMap, at: usize)
    requires child { 0 < at }
    requires within { at < length map.old }
    requires rooted { IsRooted (wholes live.now map.old) }
    requires leaf { let ws = wholes live.now map.old in children_of ws (workspace_at ws at).name ≡ 0 }
    ensures rolled { wholes live.now map.new ≡ after_roll_all (wholes live.now map.old) at }
    ensures lean { IsLean live.now map.old → IsLean live.now map.new }
{
    let _live = live;
    map.roll_all(at);
}

/// Merges a workspace into its parent, by the rows that it changed. Neutral differences that this makes
/// stay.
fn merge_rows(
    live: &mut Sheet,
    map: &mut WorkspaceMap,
    at: usize,
    above: usize,
    rows: Vec<(CellId, Option<Row>)>,
    own: Vec<(CellId, Option<Row>)>,
) -> Result<(), AllocError>
    requires child { 0 < at }
    requires within { at < length map.old }
    requires rooted { IsRooted (wholes live.old map.old) }
    requires parent { position_of_parent (wholes live.old map.old) at ≡ Some above }
    requires earlier { above < at }
    requires rows { rows.items ≡ rows_after (own_changes (workspace_at (wholes live.old map.old) at)) }
    requires own { own.items ≡ rows_after (own_changes (workspace_at (wholes live.old map.old) at)) }
    ensures ok { OnOk result (wholes live.new map.new ≡ after_merge (wholes live.old map.old) at above) }
    ensures err { OnErr result (wholes live.new map.new ≡ wholes live.old map.old) }
    ensures long { length map.new ≡ length map.old }
    ensures elsewhere { StayOwnButNear above (cells_in own.items) map.old map.new }
{
    put_rows(live, map, above, rows)?;
    map.take_over(at, own);
    Ok(())
}

/// Merges a workspace into its parent by its changes.
fn merge(
    live: &mut Sheet,
    map: &mut WorkspaceMap,
    at: usize,
    above: usize,
    changed: &ChangeSet,
) -> Result<(), AllocError>
    requires child { 0 < at }
    requires within { at < length map.old }
    requires rooted { IsRooted (wholes live.old map.old) }
    requires parent { position_of_parent (wholes live.old map.old) at ≡ Some above }
    requires earlier { above < at }
    requires changed { changed.now ≡ own_changes (workspace_at (wholes live.old map.old) at) }
    ensures ok { OnOk result (wholes live.new map.new ≡ after_merge (wholes live.old map.old) at above) }
    ensures err { OnErr result (wholes live.new map.new ≡ wholes live.old map.old) }
    ensures lean { IsLean live.old map.old → IsLean live.new map.new }
{
    let rows = changed.rows_after()?;
    let own = changed.rows_after()?;
    let cells = cells_of(map.allocator(), own.as_slice())?;
    let done = merge_rows(live, map, at, above, rows, own);
    sweep_at(live, map, above, cells.as_slice());
    done
}

/// Moves the mark of a child to the end of the marks of its parent, where that isn't LIVE.
fn move_mark(map: &mut WorkspaceMap, above: usize, child: Words) -> Result<(), AllocError>
    requires { above < length map.old }
    ensures ok { OnOk result (map.new ≡ mark_moved map.old above child) }
    ensures err { OnErr result (map.new ≡ map.old) }
{
    if above == 0 {
        return Ok(());
    }
    map.move_mark_last(above, child)?;
    Ok(())
}

/// Refreshes a workspace from its parent, by the rows that it changed, given the cells of these and
/// of the differences of its base and its current content. Neutral differences that this makes stay.
fn refresh_base(
    live: &Sheet,
    map: &mut WorkspaceMap,
    at: usize,
    above: usize,
    rows: Vec<(CellId, Option<Row>)>,
    cells: &[CellId],
) -> Result<(), AllocError>
    requires child { 0 < at }
    requires within { at < length map.old }
    requires rooted { IsRooted (wholes live.now map.old) }
    requires parent { position_of_parent (wholes live.now map.old) at ≡ Some above }
    requires earlier { above < at }
    requires rows { rows.items ≡ rows_after (own_changes (workspace_at (wholes live.now map.old) at)) }
    requires cells { let l = delta_at map.old at in cells.now ≡ cells_in rows.items ++ (finite.keys l.base ++ finite.keys l.current) }
    ensures ok { OnOk result (wholes live.now map.new ≡ after_refresh (wholes live.now map.old) at above) }
    ensures err { OnErr result (wholes live.now map.new ≡ wholes live.now map.old) }
    ensures long { length map.new ≡ length map.old }
    ensures elsewhere { StayOwnButNear at cells.now map.old map.new }
{
    let alloc = map.allocator();
    let name = Words::from_str(alloc, map.name_at(at))?;
    store_rows_of_children(live, map, at, cells)?;
    let differences = Differences::of_rows(alloc, rows)?;
    move_mark(map, above, name)?;
    map.restart(at, differences);
    Ok(())
}

/// Refreshes a workspace from its parent by its changes.
fn refresh(
    live: &Sheet,
    map: &mut WorkspaceMap,
    at: usize,
    above: usize,
    changed: &ChangeSet,
) -> Result<(), AllocError>
    requires child { 0 < at }
    requires within { at < length map.old }
    requires rooted { IsRooted (wholes live.now map.old) }
    requires parent { position_of_parent (wholes live.now map.old) at ≡ Some above }
    requires earlier { above < at }
    requires changed { changed.now ≡ own_changes (workspace_at (wholes live.now map.old) at) }
    ensures ok { OnOk result (wholes live.now map.new ≡ after_refresh (wholes live.now map.old) at above) }
    ensures err { OnErr result (wholes live.now map.new ≡ wholes live.now map.old) }
    ensures lean { IsLean live.now map.old → IsLean live.now map.new }
{
    let alloc = map.allocator();
    let rows = changed.rows_after()?;
    let new = cells_of(alloc, rows.as_slice())?;
    let base = map.base(at).cells()?;
    let old = map.current(at).cells()?;
    let held = join_cells(alloc, base.as_slice(), old.as_slice())?;
    let cells = join_cells(alloc, new.as_slice(), held.as_slice())?;
    let done = refresh_base(live, map, at, above, rows, cells.as_slice());
    sweep_at(live, map, at, cells.as_slice());
    done
}

/// Moves the base of a workspace to its parent's row at one cell, where the workspace keeps its own
/// row.
fn keep_own(
    live: &Sheet,
    map: &mut WorkspaceMap,
    at: usize,
    above: usize,
    cell: CellId,
) -> Result<(), AllocError>
    requires child { 0 < at }
    requires within { at < length map.old }
    requires rooted { IsRooted (wholes live.now map.old) }
    requires parent { position_of_parent (wholes live.now map.old) at ≡ Some above }
    requires earlier { above < at }
    ensures ok { OnOk result (wholes live.now map.new ≡ after_resolve (wholes live.now map.old) at above cell Child) }
    ensures err { OnErr result (wholes live.now map.new ≡ wholes live.now map.old) }
    ensures long { length map.new ≡ length map.old }
    ensures elsewhere { StayOwnButNear at (cell ∷ []) map.old map.new }
{
    store_seen_row(live, map, at, cell)?;
    map.take_base(at, cell);
    Ok(())
}

/// Stores a difference at a cell of the base of each child of a workspace that has none there.
fn store_cell(
    live: &Sheet,
    map: &mut WorkspaceMap,
    at: usize,
    cell: CellId,
) -> Result<(), AllocError>
    requires within { at < length map.old }
    requires rooted { IsRooted (wholes live.now map.old) }
    ensures seen { wholes live.now map.new ≡ wholes live.now map.old }
    ensures extends { Extends map.old map.new }
    ensures elsewhere { StayOwnButChildren (delta_at map.old at).name (cell ∷ []) map.old map.new }
    ensures children { OnOk result (ChildrenStore map.new (delta_at map.old at).name (cell ∷ [])) }
{
    store_rows_of_children(live, map, at, &[cell])
}

/// Moves the base of a workspace to its parent's row at one cell, and gives the workspace another
/// row there.
fn move_row(
    live: &Sheet,
    map: &mut WorkspaceMap,
    at: usize,
    above: usize,
    cell: CellId,
    row: Option<Row>,
) -> Result<(), AllocError>
    requires child { 0 < at }
    requires within { at < length map.old }
    requires rooted { IsRooted (wholes live.now map.old) }
    requires parent { position_of_parent (wholes live.now map.old) at ≡ Some above }
    requires earlier { above < at }
    ensures ok { OnOk result (wholes live.now map.new ≡ row_moved (wholes live.now map.old) at above cell row) }
    ensures err { OnErr result (wholes live.now map.new ≡ wholes live.now map.old) }
    ensures long { length map.new ≡ length map.old }
    ensures elsewhere { StayOwnButNear at (cell ∷ []) map.old map.new }
{
    store_cell(live, map, at, cell)?;
    store_seen_row(live, map, at, cell)?;
    map.move_row(at, cell, row);
    Ok(())
}

/// Resolves one cell of a workspace. Neutral differences that this makes stay.
fn resolve_row(
    live: &Sheet,
    map: &mut WorkspaceMap,
    at: usize,
    above: usize,
    cell: CellId,
    keep: Keep,
) -> Result<(), AllocError>
    requires child { 0 < at }
    requires within { at < length map.old }
    requires rooted { IsRooted (wholes live.now map.old) }
    requires parent { position_of_parent (wholes live.now map.old) at ≡ Some above }
    requires earlier { above < at }
    ensures ok { OnOk result (wholes live.now map.new ≡ after_resolve (wholes live.now map.old) at above cell keep) }
    ensures err { OnErr result (wholes live.now map.new ≡ wholes live.now map.old) }
    ensures long { length map.new ≡ length map.old }
    ensures elsewhere { StayOwnButNear at (cell ∷ []) map.old map.new }
{
    match keep {
        Keep::Child => keep_own(live, map, at, above, cell),
        Keep::Parent => {
            let row = copy_row(row_of(live, map, above, cell))?;
            move_row(live, map, at, above, cell, row)
        }
        Keep::Base => {
            let row = copy_row(base_row_of(live, map, at, cell))?;
            move_row(live, map, at, above, cell, row)
        }
    }
}

/// Takes away every neutral difference, where each one stands at a cell in the workspace at a position
/// or in a child of it.
fn sweep_cell(live: &Sheet, map: &mut WorkspaceMap, at: usize, cell: CellId)
    requires within { at < length map.old }
    requires rooted { IsRooted (wholes live.now map.old) }
    ensures seen { wholes live.now map.new ≡ wholes live.now map.old }
    ensures lean { IsLeanBut at (cell ∷ []) live.now map.old → IsLean live.now map.new }
{
    sweep_at(live, map, at, &[cell]);
}

/// Resolves one cell of a workspace.
fn resolve(
    live: &Sheet,
    map: &mut WorkspaceMap,
    at: usize,
    above: usize,
    cell: CellId,
    keep: Keep,
) -> Result<(), AllocError>
    requires child { 0 < at }
    requires within { at < length map.old }
    requires rooted { IsRooted (wholes live.now map.old) }
    requires parent { position_of_parent (wholes live.now map.old) at ≡ Some above }
    requires earlier { above < at }
    ensures ok { OnOk result (wholes live.now map.new ≡ after_resolve (wholes live.now map.old) at above cell keep) }
    ensures err { OnErr result (wholes live.now map.new ≡ wholes live.now map.old) }
    ensures lean { IsLean live.now map.old → IsLean live.now map.new }
{
    let done = resolve_row(live, map, at, above, cell, keep);
    sweep_cell(live, map, at, cell);
    done
}

/// Merges a workspace into its parent by its changes.
pub fn merge_changes(
    live: &mut Sheet,
    map: &mut WorkspaceMap,
    at: usize,
    changed: &ChangeSet,
) -> Result<(), AllocError>
    requires child { 0 < at }
    requires within { at < length map.old }
    requires rooted { IsRooted (wholes live.old map.old) }
    requires changed { changed.now ≡ own_changes (workspace_at (wholes live.old map.old) at) }
    ensures ok { OnOk result (wholes live.new map.new ≡ after_rebase (wholes live.old map.old) at Merge) }
    ensures err { OnErr result (wholes live.new map.new ≡ wholes live.old map.old) }
    ensures lean { IsLean live.old map.old → IsLean live.new map.new }
{
    let above = parent_of(live, map, at);
    merge(live, map, at, above, changed)
}

/// Refreshes a workspace from its parent by its changes.
pub fn refresh_changes(
    live: &Sheet,
    map: &mut WorkspaceMap,
    at: usize,
    changed: &ChangeSet,
) -> Result<(), AllocError>
    requires child { 0 < at }
    requires within { at < length map.old }
    requires rooted { IsRooted (wholes live.now map.old) }
    requires changed { changed.now ≡ own_changes (workspace_at (wholes live.now map.old) at) }
    ensures ok { OnOk result (wholes live.now map.new ≡ after_rebase (wholes live.now map.old) at Refresh) }
    ensures err { OnErr result (wholes live.now map.new ≡ wholes live.now map.old) }
    ensures lean { IsLean live.now map.old → IsLean live.now map.new }
{
    let above = parent_of(live, map, at);
    refresh(live, map, at, above, changed)
}

/// Moves the base of a workspace.
pub fn rebase(
    live: &mut Sheet,
    map: &mut WorkspaceMap,
    at: usize,
    rebase: Rebase,
) -> Result<(), AllocError>
    requires child { 0 < at }
    requires within { at < length map.old }
    requires rooted { IsRooted (wholes live.old map.old) }
    ensures ok { OnOk result (wholes live.new map.new ≡ after_rebase (wholes live.old map.old) at rebase) }
    ensures err { OnErr result (wholes live.new map.new ≡ wholes live.old map.old) }
    ensures lean { IsLean live.old map.old → IsLean live.new map.new }
{
    match rebase {
        Rebase::Refresh => {
            let changed = changes_of(live, map, at)?;
            refresh_changes(live, map, at, &changed)
        }
        Rebase::Merge => {
            let changed = changes_of(live, map, at)?;
            merge_changes(live, map, at, &changed)
        }
        Rebase::OneRow(cell, keep) => {
            let above = parent_of(live, map, at);
            resolve(live, map, at, above, cell, keep)
        }
    }
}

/// Makes a leaf under the workspace at a position, and its mark there.
pub fn create(
    live: &Sheet,
    map: &mut WorkspaceMap,
    name: &str,
    parent: usize,
) -> Result<(), AllocError>
    requires within { parent < length map.old }
    requires rooted { IsRooted (wholes live.now map.old) }
    requires good { is_good_name name.now ≡ true }
    requires absent { find (wholes live.now map.old) name.now ≡ None }
    ensures ok { OnOk result (wholes live.now map.new ≡ after_create (wholes live.now map.old) name.now parent) }
    ensures err { OnErr result (wholes live.now map.new ≡ wholes live.now map.old) }
    ensures lean { IsLean live.now map.old → IsLean live.now map.new }
{
    let _live = live;
    let alloc = map.allocator();
    let above = Words::from_str(alloc, map.name_at(parent))?;
    let child = Words::from_str(alloc, name)?;
    let name = String::from_str(alloc, name)?;
    let last = map.len();
    push_leaf(map, name, above)?;
    if parent > 0 {
        let marked: Result<_, _> = map.push_mark(parent, StoredMark::Child(child));
        if let Err(fault) = marked {
            let _name = map.remove(last);
            return Err(fault);
        }
    }
    Ok(())
}

/// Takes a leaf and its mark away.
pub fn remove(live: &Sheet, map: &mut WorkspaceMap, at: usize)
    requires child { 0 < at }
    requires within { at < length map.old }
    requires rooted { IsRooted (wholes live.now map.old) }
    requires leaf { let ws = wholes live.now map.old in children_of ws (workspace_at ws at).name ≡ 0 }
    ensures removed { wholes live.now map.new ≡ after_remove (wholes live.now map.old) at }
    ensures lean { IsLean live.now map.old → IsLean live.now map.new }
{
    let above = parent_of(live, map, at);
    let name = map.remove(at);
    map.drop_mark_of(above, name.as_str());
}
