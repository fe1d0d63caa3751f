//! What a workspace has at a cell, and how deep it is.

ghost use Rattle.std.specs.Prelude.{◌≡◌, ◌<◌, length, true, Some};
ghost use Rattle.std.specs.FinMap as finite;
ghost use Rattle.std.specs.Option.{option_copied};
ghost use Rattle.clr_rows.specs.Contents.{row_at};
ghost use Rattle.clr_deltas.specs.Deltas.{delta_at, saved_differences, stored_at, wholes};
ghost use Rattle.clr_workspaces.specs.Marks.{is_saved, mark_at, saved_content};
ghost use Rattle.clr_workspaces.specs.Workspaces.{workspace_at, parent_of as position_of_parent, depth_of};
ghost use Rattle.clr_workspaces.specs.Roots.{IsRooted};

use clr_deltas::{StoredMark, WorkspaceMap};
use clr_rows::{CellId, Row, Sheet};

/// Returns the position of the parent of a workspace other than LIVE.
pub fn parent_of(live: &Sheet, map: &WorkspaceMap, at: usize) -> usize
    requires child { 0 < at }
    requires within { at < length map.now }
    requires rooted { IsRooted (wholes live.now map.now) }
    ensures found { position_of_parent (wholes live.now map.now) at ≡ Some result }
    ensures earlier { result < at }
{
    let _live = live;
    map.find(map.parent_name(at)).unwrap()
}

/// Returns the row at a cell of a current content. It is found by going up the tree.
pub fn row_of<'a>(
    live: &'a Sheet,
    map: &'a WorkspaceMap,
    mut at: usize,
    cell: CellId,
) -> Option<&'a Row>
    requires within { at < length map.now }
    requires rooted { IsRooted (wholes live.now map.now) }
    ensures { option_copied result ≡ row_at (workspace_at (wholes live.now map.now) at).current cell }
{
    while at > 0 {
        if let Some(row) = map.current(at).get(cell) {
            return row.as_ref();
        }
        if let Some(row) = map.base(at).get(cell) {
            return row.as_ref();
        }
        at = parent_of(live, map, at);
    }
    live.get(cell)
}

/// Returns the row at a cell of the base of a workspace other than LIVE.
pub fn base_row_of<'a>(
    live: &'a Sheet,
    map: &'a WorkspaceMap,
    at: usize,
    cell: CellId,
) -> Option<&'a Row>
    requires child { 0 < at }
    requires within { at < length map.now }
    requires rooted { IsRooted (wholes live.now map.now) }
    ensures { option_copied result ≡ row_at (workspace_at (wholes live.now map.now) at).base cell }
{
    if let Some(row) = map.base(at).get(cell) {
        return row.as_ref();
    }
    row_of(live, map, parent_of(live, map, at), cell)
}

/// Returns the difference of a savepoint at a cell, or none, and none of the mark of a child.
fn saved_difference(mark: &StoredMark, cell: CellId) -> Option<&Option<Row>>
    ensures { option_copied result ≡ finite.get (saved_differences mark.now) cell }
{
    match mark {
        StoredMark::Saved(_, differences) => differences.get(cell),
        StoredMark::Child(_) => None,
    }
}

/// Returns the difference at a cell of the mark at a position, or none.
fn difference_at(map: &WorkspaceMap, at: usize, mark: usize, cell: CellId) -> Option<&Option<Row>>
    requires within { at < length map.now }
    requires marked { mark < length (delta_at map.now at).marks }
    ensures { option_copied result ≡ finite.get (saved_differences (stored_at (delta_at map.now at).marks mark)) cell }
{
    saved_difference(&map.marks(at)[mark], cell)
}

/// Returns the row at a cell of a savepoint of a workspace other than LIVE.
pub fn saved_row_of<'a>(
    live: &'a Sheet,
    map: &'a WorkspaceMap,
    at: usize,
    mark: usize,
    cell: CellId,
) -> Option<&'a Row>
    requires child { 0 < at }
    requires within { at < length map.now }
    requires rooted { IsRooted (wholes live.now map.now) }
    requires saved { is_saved (mark_at (workspace_at (wholes live.now map.now) at).marks mark) ≡ true }
    ensures { option_copied result ≡ row_at (saved_content (mark_at (workspace_at (wholes live.now map.now) at).marks mark)) cell }
{
    if let Some(row) = difference_at(map, at, mark, cell) {
        return row.as_ref();
    }
    base_row_of(live, map, at, cell)
}

/// Returns how many workspaces are above one.
pub fn depth_at(live: &Sheet, map: &WorkspaceMap, mut at: usize) -> usize
    requires within { at < length map.now }
    requires rooted { IsRooted (wholes live.now map.now) }
    ensures { result ≡ depth_of (wholes live.now map.now) at }
{
    let mut count: usize = 0;
    while at > 0 {
        at = parent_of(live, map, at);
        count += 1;
    }
    count
}
