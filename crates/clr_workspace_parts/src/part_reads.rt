//! Workspaces handed out with whole contents.

ghost use Rattle.std.specs.Prelude.{◌≡◌, ◌<◌, length, IfOk};
ghost use Rattle.clr_deltas.specs.Deltas.{wholes, whole_mark};
ghost use Rattle.clr_workspaces.specs.Workspaces.{workspace_at, live_workspace};
ghost use Rattle.clr_workspace_parts.specs.Parts.{mark_of, marks_of, workspace_of};
ghost use Rattle.clr_workspaces.specs.Roots.{IsRooted};

use crate::parts::{MarkPart, Part};
use clr_contents::{base_rows, whole_rows};
use clr_deltas::{StoredMark, WorkspaceMap};
use clr_rows::{LIVE, Sheet, Words};
use std::alloc::{AllocError, Global};

/// Returns a mark of a workspace other than LIVE. A savepoint has its whole content.
#[tactic(auto, unfolding(clr_deltas::specs::Differences::seen_over))]
fn mark_part(
    live: &Sheet,
    map: &WorkspaceMap,
    at: usize,
    mark: &StoredMark,
) -> Result<MarkPart, AllocError>
    requires child { 0 < at }
    requires within { at < length map.now }
    requires rooted { IsRooted (wholes live.now map.now) }
    ensures { IfOk result (λ part. mark_of part ≡ whole_mark (workspace_at (wholes live.now map.now) at).base mark.now) }
{
    match mark {
        StoredMark::Saved(name, differences) => {
            let name = name.copy()?;
            let rows = differences.rows()?;
            let mut content = base_rows(live, map, at)?;
            content.put_all(rows)?;
            Ok(MarkPart::Saved(name, content))
        }
        StoredMark::Child(name) => Ok(MarkPart::ChildMark(name.copy()?)),
    }
}

/// Returns the marks of a workspace other than LIVE.
fn mark_parts(live: &Sheet, map: &WorkspaceMap, at: usize) -> Result<Vec<MarkPart>, AllocError>
    requires child { 0 < at }
    requires within { at < length map.now }
    requires rooted { IsRooted (wholes live.now map.now) }
    ensures { IfOk result (λ parts. marks_of parts.items ≡ (workspace_at (wholes live.now map.now) at).marks) }
{
    let mut parts = Vec::new(map.allocator());
    for mark in map.marks(at) {
        parts.push(mark_part(live, map, at, mark)?)?;
    }
    Ok(parts)
}

/// Returns LIVE with this content, as a part.
pub fn live_part(alloc: Global, live: &Sheet) -> Result<Part, AllocError>
    ensures { IfOk result (λ part. workspace_of part ≡ live_workspace live.now) }
{
    let name = Words::from_str(alloc, LIVE)?;
    let no_name = String::new(alloc);
    let parent = Words::new(no_name);
    let base = Sheet::new(alloc);
    let current = live.copy()?;
    let marks = Vec::new(alloc);
    Ok(Part {
        name,
        parent,
        base,
        current,
        marks,
        kept: true,
    })
}

/// Returns a workspace other than LIVE, with whole contents, as a part.
pub fn part_at(live: &Sheet, map: &WorkspaceMap, at: usize) -> Result<Part, AllocError>
    requires child { 0 < at }
    requires within { at < length map.now }
    requires rooted { IsRooted (wholes live.now map.now) }
    ensures { IfOk result (λ part. workspace_of part ≡ workspace_at (wholes live.now map.now) at) }
{
    let name = Words::from_str(map.allocator(), map.name_at(at))?;
    let parent = Words::from_str(map.allocator(), map.parent_name(at))?;
    let base = base_rows(live, map, at)?;
    let current = whole_rows(live, map, at)?;
    let marks = mark_parts(live, map, at)?;
    Ok(Part {
        name,
        parent,
        base,
        current,
        marks,
        kept: map.is_kept(at),
    })
}
