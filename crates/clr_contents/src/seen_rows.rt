//! Differences that are stored before a content changes, so that what lies over it stays as it is.

ghost use Rattle.std.specs.Prelude.{◌≡◌, ◌<◌, ◌∷◌, [], length, OnOk};
ghost use Rattle.std.specs.Str.{bytes_eq};
ghost use Rattle.clr_deltas.specs.Differences.{HasDifference, HasDifferences};
ghost use Rattle.clr_deltas.specs.Deltas.{delta_at, wholes, IsUnder, EachMarkStores};
ghost use Rattle.clr_contents.specs.SeenRows.{Extends, ChildrenStore, StayOwnBut, StayOwnButChildren};
ghost use Rattle.clr_workspaces.specs.Roots.{IsRooted};

use crate::reads::{base_row_of, parent_of, row_of};
use clr_change::copy_row;
use clr_deltas::WorkspaceMap;
use clr_rows::{CellId, Sheet};
use std::alloc::AllocError;

// Each function here stores differences with the rows that are seen. No content changes, also where
// memory runs out.

/// Stores a difference at a cell of a base that has none there.
#[tactic(auto, using(crate::proofs::SeenRowLemmas::extends_base, crate::proofs::SeenRowLemmas::is_stored_in_base))]
fn store_base_row(
    live: &Sheet,
    map: &mut WorkspaceMap,
    at: usize,
    cell: CellId,
) -> Result<(), AllocError>
    requires child { 0 < at }
    requires within { at < length map.old }
    requires rooted { IsRooted (wholes live.now map.old) }
    ensures seen { wholes live.now map.new ≡ wholes live.now map.old }
    ensures extends { Extends map.old map.new }
    ensures elsewhere { StayOwnBut at (cell ∷ []) map.old map.new }
    ensures is_stored { OnOk result (HasDifference (delta_at map.new at).base cell) }
{
    if map.base(at).get(cell).is_some() {
        return Ok(());
    }
    let above = parent_of(live, map, at);
    let row = copy_row(row_of(live, map, above, cell))?;
    map.put_base(at, cell, row)?;
    Ok(())
}

/// Stores a difference at each of some cells of a base that has none there.
fn store_base_rows(
    live: &Sheet,
    map: &mut WorkspaceMap,
    at: usize,
    cells: &[CellId],
) -> Result<(), AllocError>
    requires child { 0 < at }
    requires within { at < length map.old }
    requires rooted { IsRooted (wholes live.now map.old) }
    ensures seen { wholes live.now map.new ≡ wholes live.now map.old }
    ensures extends { Extends map.old map.new }
    ensures elsewhere { StayOwnBut at cells.now map.old map.new }
    ensures is_stored { OnOk result (HasDifferences (delta_at map.new at).base cells.now) }
{
    for cell in cells {
        store_base_row(live, map, at, *cell)?;
    }
    Ok(())
}

/// Returns whether a workspace is a child of another.
fn is_child_of(map: &WorkspaceMap, child: usize, parent: usize) -> bool
    requires child { child < length map.now }
    requires parent { parent < length map.now }
    ensures { result ≡ bytes_eq (delta_at map.now parent).name (delta_at map.now child).parent }
{
    map.name_at(parent) == map.parent_name(child)
}

/// Stores a difference at each of some cells of the base of a workspace that is a child of another.
fn store_rows_of_child(
    live: &Sheet,
    map: &mut WorkspaceMap,
    child: usize,
    parent: usize,
    cells: &[CellId],
) -> Result<(), AllocError>
    requires child { 0 < child }
    requires within { child < length map.old }
    requires parent { parent < length map.old }
    requires rooted { IsRooted (wholes live.now map.old) }
    ensures seen { wholes live.now map.new ≡ wholes live.now map.old }
    ensures extends { Extends map.old map.new }
    ensures elsewhere { StayOwnButChildren (delta_at map.old parent).name cells.now map.old map.new }
    ensures is_stored { OnOk result (IsUnder (delta_at map.old parent).name (delta_at map.new child) → HasDifferences (delta_at map.new child).base cells.now) }
{
    if !is_child_of(map, child, parent) {
        return Ok(());
    }
    store_base_rows(live, map, child, cells)?;
    Ok(())
}

/// Stores the differences that the bases of the children of a workspace need before its content
/// changes at some cells.
pub fn store_rows_of_children(
    live: &Sheet,
    map: &mut WorkspaceMap,
    at: usize,
    cells: &[CellId],
) -> Result<(), AllocError>
    requires within { at < length map.old }
    requires rooted { IsRooted (wholes live.now map.old) }
    ensures seen { wholes live.now map.new ≡ wholes live.now map.old }
    ensures extends { Extends map.old map.new }
    ensures elsewhere { StayOwnButChildren (delta_at map.old at).name cells.now map.old map.new }
    ensures children { OnOk result (ChildrenStore map.new (delta_at map.old at).name cells.now) }
{
    for k in 1..map.len() {
        store_rows_of_child(live, map, k, at, cells)?;
    }
    Ok(())
}

/// Stores a difference at a cell of a current content that has none there.
#[tactic(auto, using(crate::proofs::SeenRowLemmas::extends_current, crate::proofs::SeenRowLemmas::is_stored_in_current))]
fn store_current_row(
    live: &Sheet,
    map: &mut WorkspaceMap,
    at: usize,
    cell: CellId,
) -> Result<(), AllocError>
    requires child { 0 < at }
    requires within { at < length map.old }
    requires rooted { IsRooted (wholes live.now map.old) }
    ensures seen { wholes live.now map.new ≡ wholes live.now map.old }
    ensures extends { Extends map.old map.new }
    ensures elsewhere { StayOwnBut at (cell ∷ []) map.old map.new }
    ensures is_stored { OnOk result (HasDifference (delta_at map.new at).current cell) }
{
    if map.current(at).get(cell).is_some() {
        return Ok(());
    }
    let row = copy_row(row_of(live, map, at, cell))?;
    map.put_current(at, cell, row)?;
    Ok(())
}

/// Stores a difference at each of some cells of a current content that has none there.
pub fn store_current_rows(
    live: &Sheet,
    map: &mut WorkspaceMap,
    at: usize,
    cells: &[CellId],
) -> Result<(), AllocError>
    requires child { 0 < at }
    requires within { at < length map.old }
    requires rooted { IsRooted (wholes live.now map.old) }
    ensures seen { wholes live.now map.new ≡ wholes live.now map.old }
    ensures extends { Extends map.old map.new }
    ensures elsewhere { StayOwnBut at cells.now map.old map.new }
    ensures is_stored { OnOk result (HasDifferences (delta_at map.new at).current cells.now) }
{
    for cell in cells {
        store_current_row(live, map, at, *cell)?;
    }
    Ok(())
}

/// Stores a difference at a cell of each savepoint of a workspace that has none there.
#[tactic(auto, using(crate::proofs::SeenRowLemmas::extends_marks))]
fn store_saved_rows(
    live: &Sheet,
    map: &mut WorkspaceMap,
    at: usize,
    cell: CellId,
) -> Result<(), AllocError>
    requires child { 0 < at }
    requires within { at < length map.old }
    requires rooted { IsRooted (wholes live.now map.old) }
    ensures seen { wholes live.now map.new ≡ wholes live.now map.old }
    ensures extends { Extends map.old map.new }
    ensures elsewhere { StayOwnBut at (cell ∷ []) map.old map.new }
    ensures is_stored { OnOk result (EachMarkStores (delta_at map.new at).marks cell) }
{
    let row = copy_row(base_row_of(live, map, at, cell))?;
    map.store_saved_rows(at, cell, row.as_ref())
}

/// Stores a difference at a cell of the current content and of each savepoint of a workspace that has
/// none there.
#[tactic(auto, using(crate::proofs::SeenRowLemmas::extends_both))]
pub fn store_seen_row(
    live: &Sheet,
    map: &mut WorkspaceMap,
    at: usize,
    cell: CellId,
) -> Result<(), AllocError>
    requires child { 0 < at }
    requires within { at < length map.old }
    requires rooted { IsRooted (wholes live.now map.old) }
    ensures seen { wholes live.now map.new ≡ wholes live.now map.old }
    ensures extends { Extends map.old map.new }
    ensures elsewhere { StayOwnBut at (cell ∷ []) map.old map.new }
    ensures current { OnOk result (HasDifference (delta_at map.new at).current cell) }
    ensures saved { OnOk result (EachMarkStores (delta_at map.new at).marks cell) }
{
    store_current_row(live, map, at, cell)?;
    store_saved_rows(live, map, at, cell)
}
