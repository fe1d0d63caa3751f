//! The tests of parts: names and places, and then marks.

ghost use Rattle.std.specs.Prelude.{◌≡◌, ◌<◌, ◌-◌, length, None, Some, OnOk, IfOk, IfErr};
ghost use Rattle.std.specs.List.{list_all, list_any};
ghost use Rattle.std.specs.Str.{bytes_eq};
ghost use Rattle.clr_deltas.specs.Deltas.{wholes};
ghost use Rattle.clr_workspaces.specs.Marks.{saved_names};
ghost use Rattle.clr_workspaces.specs.Workspaces.{workspace_at, find};
ghost use Rattle.clr_workspace_parts.specs.Parts.{bare_mark, bare_marks, place_fault, has_new_name, is_savepoint_or_child, is_marked_once};
ghost use Rattle.clr_workspace_parts.specs.Parts.{has_good_marks, marks_fault_at, first_below, IsFirstPartFault};
ghost use Rattle.clr_workspaces.specs.Roots.{IsRooted};
ghost use Rattle.clr_workspaces.specs.Soundness.{are_good_savepoints};

use crate::parts::PartFault;
use clr_contents::depth_at;
use clr_deltas::{StoredMark, WorkspaceMap, count_marks_of, count_saved, find_saved};
use clr_rows::{Sheet, good_name};
use clr_workspaces::{MOST_LEVELS, MOST_SAVEPOINTS, MOST_WORKSPACES};

/// Tests whether a workspace of the first name can stand after those of a map, under the one of the
/// second name. Returns the position of that parent. Fails with `BadName`, `NameTaken`, `NoParent`
/// or `TooMany`, whichever applies first.
pub fn judge_place(
    live: &Sheet,
    map: &WorkspaceMap,
    name: &str,
    parent: &str,
) -> Result<usize, PartFault>
    requires { IsRooted (wholes live.now map.now) }
    ensures found { IfOk result (λ above. find (wholes live.now map.now) parent.now ≡ Some above) }
    ensures within { IfOk result (λ above. above < length map.now) }
    ensures absent { OnOk result (find (wholes live.now map.now) name.now ≡ None) }
    ensures passed { OnOk result (place_fault (wholes live.now map.now) name.now parent.now ≡ None) }
    ensures refused { IfErr result (λ why. place_fault (wholes live.now map.now) name.now parent.now ≡ Some why) }
{
    if !good_name(name) {
        return Err(PartFault::BadName);
    }
    if map.find(name).is_some() {
        return Err(PartFault::NameTaken);
    }
    match map.find(parent) {
        None => Err(PartFault::NoParent),
        Some(above) => {
            if map.len() < MOST_WORKSPACES && depth_at(live, map, above) < MOST_LEVELS {
                Ok(above)
            } else {
                Err(PartFault::TooMany)
            }
        }
    }
}

fn has_savepoint(marks: &[StoredMark], name: &str) -> bool
    ensures { result ≡ list_any (bytes_eq name.now) (saved_names (bare_marks marks.now)) }
{
    find_saved(marks, name).is_some()
}

/// Returns whether a mark has a good name that no later savepoint has, if it is a savepoint.
fn has_new_name(mark: &StoredMark, later: &[StoredMark]) -> bool
    ensures { result ≡ has_new_name (bare_mark mark.now) (bare_marks later.now) }
{
    match mark {
        StoredMark::Saved(name, _) => {
            good_name(name.as_str()) && !has_savepoint(later, name.as_str())
        }
        StoredMark::Child(_) => true,
    }
}

/// Returns whether the savepoints aren't too many, and have good and different names. They are
/// counted first, since each name is compared with all later ones.
fn has_good_savepoints(marks: &[StoredMark]) -> bool
    ensures { result ≡ are_good_savepoints (saved_names (bare_marks marks.now)) }
{
    if count_saved(marks) > MOST_SAVEPOINTS {
        return false;
    }
    for i in 0..marks.len() {
        if !has_new_name(&marks[i], &marks[i + 1..]) {
            return false;
        }
    }
    true
}

/// Returns whether a mark is a savepoint, or that of a child of the workspace of a name.
fn is_savepoint_or_child(live: &Sheet, map: &WorkspaceMap, parent: &str, mark: &StoredMark) -> bool
    ensures { result ≡ is_savepoint_or_child (wholes live.now map.now) parent.now (bare_mark mark.now) }
{
    let _live = live;
    match mark {
        StoredMark::Saved(_, _) => true,
        StoredMark::Child(name) => match map.find(name.as_str()) {
            None => false,
            Some(at) => parent == map.parent_name(at),
        },
    }
}

/// Returns whether each mark is a savepoint, or that of a child of the workspace of a name.
fn are_savepoints_or_children(
    live: &Sheet,
    map: &WorkspaceMap,
    parent: &str,
    marks: &[StoredMark],
) -> bool
    ensures { result ≡ list_all (λ m. is_savepoint_or_child (wholes live.now map.now) parent.now (bare_mark m)) marks.now }
{
    marks
        .iter()
        .all(|mark| is_savepoint_or_child(live, map, parent, mark))
}

/// Returns whether the workspace at a position has exactly one mark, if it is a child of the one of
/// a name.
fn is_marked_once(
    live: &Sheet,
    map: &WorkspaceMap,
    parent: &str,
    marks: &[StoredMark],
    at: usize,
) -> bool
    requires { at < length map.now }
    ensures { result ≡ is_marked_once parent.now (bare_marks marks.now) (workspace_at (wholes live.now map.now) at) }
{
    let _live = live;
    parent != map.parent_name(at) || count_marks_of(marks, map.name_at(at)) == 1
}

/// Returns whether each child of the workspace of a name has exactly one mark.
fn are_marked_once(live: &Sheet, map: &WorkspaceMap, parent: &str, marks: &[StoredMark]) -> bool
    ensures { result ≡ list_all (is_marked_once parent.now (bare_marks marks.now)) (wholes live.now map.now) }
{
    for at in 0..map.len() {
        if !is_marked_once(live, map, parent, marks, at) {
            return false;
        }
    }
    true
}

/// Returns whether the workspace at a position, which isn't LIVE, has good marks.
fn has_good_marks(live: &Sheet, map: &WorkspaceMap, at: usize) -> bool
    requires child { 0 < at }
    requires within { at < length map.now }
    ensures { result ≡ has_good_marks (wholes live.now map.now) (workspace_at (wholes live.now map.now) at) }
{
    let name = map.name_at(at);
    let marks = map.marks(at);
    if !has_good_savepoints(marks) {
        return false;
    }
    if !are_savepoints_or_children(live, map, name, marks) {
        return false;
    }
    are_marked_once(live, map, name, marks)
}

/// Tests whether each workspace under LIVE has good marks. Fails with `BadMarks` and the position
/// of the first that hasn't, counted without LIVE.
pub fn judge_marks(live: &Sheet, map: &WorkspaceMap) -> Result<(), (usize, PartFault)>
    ensures passed { OnOk result (first_below (marks_fault_at (wholes live.now map.now)) (length map.now - 1) ≡ None) }
    ensures refused { IfErr result (IsFirstPartFault (first_below (marks_fault_at (wholes live.now map.now)) (length map.now - 1))) }
{
    for at in 1..map.len() {
        if !has_good_marks(live, map, at) {
            return Err((at - 1, PartFault::BadMarks));
        }
    }
    Ok(())
}
