//! What changes from the current content of a workspace to a content that it may get, found among the
//! differences in which the two can differ.

ghost use Rattle.std.specs.Prelude.{◌≡◌, ◌<◌, ◌++◌, true, length, Some, IfOk};
ghost use Rattle.std.specs.FinMap as finite;
ghost use Rattle.clr_rows.specs.Contents.{changes, no_changes, taken_over};
ghost use Rattle.clr_deltas.specs.Deltas.{delta_at, stored_at, saved_differences, wholes};
ghost use Rattle.clr_workspaces.specs.Marks.{is_saved, mark_at, saved_content};
ghost use Rattle.clr_workspaces.specs.Workspaces.{workspace_at, parent_of as position_of_parent};
ghost use Rattle.clr_workspaces.specs.Operations.{own_changes};
ghost use Rattle.clr_workspaces.specs.Roots.{IsRooted};
ghost use Rattle.clr_contents.specs.Comparing.{set_at};

use crate::views::{BaseView, ChangedView, SavedView, View};
use clr_change::ChangeSet;
use clr_deltas::{Differences, StoredMark, WorkspaceMap};
use clr_rows::{CellId, RowView, Sheet};
use std::alloc::{AllocError, Global};

/// Returns the changes from one content to another at some cells.
#[tactic(auto, unfolding(crate::specs::Comparing::set_at))]
fn changes_at<B: RowView, A: RowView>(
    alloc: Global,
    before: &B,
    after: &A,
    cells: &[CellId],
) -> Result<ChangeSet, AllocError>
    ensures { IfOk result (λ set. set ≡ set_at (B.content before.now) (A.content after.now) no_changes cells.now) }
{
    let mut set = ChangeSet::new(alloc);
    for cell in cells {
        set.set(*cell, before.row(*cell), after.row(*cell))?;
    }
    Ok(set)
}

/// Returns the cells of a savepoint's differences, or none of the mark of a child.
fn cells_of_mark(alloc: Global, mark: &StoredMark) -> Result<Vec<CellId>, AllocError>
    ensures { IfOk result (λ cells. cells.items ≡ finite.keys (saved_differences mark.now)) }
{
    match mark {
        StoredMark::Saved(_, differences) => differences.cells(),
        StoredMark::Child(_) => {
            let nothing = Differences::new(alloc);
            let cells = nothing.cells()?;
            Ok(cells)
        }
    }
}

/// Returns the cells of the differences of the current content of a workspace, and those of the differences of
/// one of its savepoints.
fn cells_of_both(map: &WorkspaceMap, at: usize, mark: usize) -> Result<Vec<CellId>, AllocError>
    requires within { at < length map.now }
    requires marked { mark < length (delta_at map.now at).marks }
    ensures { IfOk result (λ cells. let l = delta_at map.now at in
        cells.items ≡ finite.keys l.current ++ finite.keys (saved_differences (stored_at l.marks mark))) }
{
    let mut cells = map.current(at).cells()?;
    let saved = cells_of_mark(map.allocator(), &map.marks(at)[mark])?;
    cells.extend_from_slice(saved.as_slice())?;
    Ok(cells)
}

/// Returns what changes from the current content of a workspace other than LIVE to the content of one of its
/// savepoints. It is found among the differences of both.
pub fn changes_to_saved(
    live: &Sheet,
    map: &WorkspaceMap,
    at: usize,
    mark: usize,
) -> Result<ChangeSet, AllocError>
    requires child { 0 < at }
    requires within { at < length map.now }
    requires rooted { IsRooted (wholes live.now map.now) }
    requires saved { is_saved (mark_at (workspace_at (wholes live.now map.now) at).marks mark) ≡ true }
    ensures { IfOk result (λ set. let w = workspace_at (wholes live.now map.now) at in set ≡ changes w.current (saved_content (mark_at w.marks mark))) }
{
    let cells = cells_of_both(map, at, mark)?;
    let before = View::new(live, map, at);
    let after = SavedView::new(live, map, at, mark);
    let set = changes_at(map.allocator(), &before, &after, cells.as_slice())?;
    Ok(set)
}

/// Returns what changes from the current content of a workspace other than LIVE to its base. It is found among the
/// differences of the current content.
pub fn changes_to_base(live: &Sheet, map: &WorkspaceMap, at: usize) -> Result<ChangeSet, AllocError>
    requires child { 0 < at }
    requires within { at < length map.now }
    requires rooted { IsRooted (wholes live.now map.now) }
    ensures { IfOk result (λ set. let w = workspace_at (wholes live.now map.now) at in set ≡ changes w.current w.base) }
{
    let cells = map.current(at).cells()?;
    let before = View::new(live, map, at);
    let after = BaseView::new(live, map, at);
    let set = changes_at(map.allocator(), &before, &after, cells.as_slice())?;
    Ok(set)
}

/// Returns what changes from the current content of a workspace other than LIVE to that of its parent with the own
/// changes of the workspace over it. It is found among the differences of the base.
pub fn changes_to_refreshed(
    live: &Sheet,
    map: &WorkspaceMap,
    at: usize,
    above: usize,
    own: &ChangeSet,
) -> Result<ChangeSet, AllocError>
    requires child { 0 < at }
    requires within { at < length map.now }
    requires rooted { IsRooted (wholes live.now map.now) }
    requires above { position_of_parent (wholes live.now map.now) at ≡ Some above }
    requires own { own.now ≡ own_changes (workspace_at (wholes live.now map.now) at) }
    ensures { IfOk result (λ set. let ws = wholes live.now map.now in
        set ≡ changes (workspace_at ws at).current (taken_over (workspace_at ws above).current own.now)) }
{
    let cells = map.base(at).cells()?;
    let before = View::new(live, map, at);
    let parent = View::new(live, map, above);
    let after = ChangedView::new(&parent, own);
    let set = changes_at(map.allocator(), &before, &after, cells.as_slice())?;
    Ok(set)
}
