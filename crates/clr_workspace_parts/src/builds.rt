//! Building the map of a tree from parts with whole contents.

ghost use Rattle.std.specs.Prelude.{◌≡◌, ◌<◌, ◌++◌, [], ◌∷◌, suc, None, Some, map, take, length, OnOk, IfOk, IfErr};
ghost use Rattle.clr_rows.specs.Names.{live_name};
ghost use Rattle.clr_deltas.specs.Differences.{seen_over};
ghost use Rattle.clr_deltas.specs.NamedDeltas.{delta_of};
ghost use Rattle.clr_deltas.specs.Deltas.{leaf, whole_mark, whole_of, wholes};
ghost use Rattle.clr_workspaces.specs.Workspaces.{workspace_at, find};
ghost use Rattle.clr_workspace_parts.specs.Parts.{mark_of, marks_of, workspace_of, list_of, part_name_fault_at, first_part_name_fault};
ghost use Rattle.clr_workspace_parts.specs.Parts.{IsPartFault, IsFirstPartFault, fault_number};
ghost use Rattle.clr_workspace_parts.specs.declared.parts.PartFault.TheVariants.{OutOfMemory};
ghost use Rattle.clr_workspaces.specs.Roots.{IsRooted};

use crate::part_checks::judge_place;
use crate::parts::{MarkPart, Part, PartFault};
use clr_change::ChangeSet;
use clr_deltas::{Delta, Differences, StoredMark, WorkspaceMap, live_alone};
use clr_rows::Sheet;
use std::alloc::{AllocError, Global};

/// Returns the differences between a content and the one that it lies over.
fn differences_between(
    alloc: Global,
    below: &Sheet,
    above: &Sheet,
) -> Result<Differences, AllocError>
    ensures { IfOk result (λ differences. seen_over below.now differences ≡ above.now) }
{
    let rows = ChangeSet::between(alloc, below, above)?.rows_after()?;
    let differences = Differences::of_rows(alloc, rows)?;
    Ok(differences)
}

/// Returns a mark as it is stored over a base.
fn stored_mark(alloc: Global, base: &Sheet, mark: &MarkPart) -> Result<StoredMark, AllocError>
    ensures { IfOk result (λ stored. whole_mark base.now stored ≡ mark_of mark.now) }
{
    match mark {
        MarkPart::Saved(name, content) => {
            let name = name.copy()?;
            let differences = differences_between(alloc, base, content)?;
            Ok(StoredMark::Saved(name, differences))
        }
        MarkPart::ChildMark(name) => Ok(StoredMark::Child(name.copy()?)),
    }
}

/// Returns marks as they are stored over a base.
fn stored_marks(
    alloc: Global,
    base: &Sheet,
    marks: &[MarkPart],
) -> Result<Vec<StoredMark>, AllocError>
    ensures { IfOk result (λ stored. map (whole_mark base.now) stored.items ≡ marks_of marks.now) }
{
    let mut stored = Vec::new(alloc);
    for mark in marks {
        stored.push(stored_mark(alloc, base, mark)?)?;
    }
    Ok(stored)
}

/// Returns what is stored of a part whose parent has this content.
fn named_delta_of(alloc: Global, above: &Sheet, part: &Part) -> Result<(String, Delta), AllocError>
    ensures { IfOk result (λ named. whole_of above.now (delta_of named) ≡ workspace_of part.now) }
{
    let base = differences_between(alloc, above, &part.base)?;
    let current = differences_between(alloc, &part.base, &part.current)?;
    let marks = stored_marks(alloc, &part.base, part.marks.as_slice())?;
    let name = part.name.copy()?;
    let parent = part.parent.copy()?;
    let delta = Delta {
        parent,
        base,
        current,
        marks,
        kept: part.kept,
    };
    Ok((name.into_string(), delta))
}

/// Returns the current content of LIVE or of a part, by the position of its workspace.
fn content_of<'a>(live: &'a Sheet, parts: &'a [Part], at: usize) -> &'a Sheet
    requires { at < length (list_of live.now parts.now) }
    ensures { result.now ≡ (workspace_at (list_of live.now parts.now) at).current }
{
    if at == 0 {
        return live;
    }
    let part = &parts[at - 1];
    &part.current
}

/// Puts a part at the end, under the workspace at a position, which has this content.
fn push_under(
    live: &Sheet,
    map: &mut WorkspaceMap,
    above: &Sheet,
    at: usize,
    part: &Part,
) -> Result<(), AllocError>
    requires filled { 0 < length map.old }
    requires absent { find (wholes live.now map.old) part.now.name ≡ None }
    requires found { find (wholes live.now map.old) part.now.parent ≡ Some at }
    requires above { above.now ≡ (workspace_at (wholes live.now map.old) at).current }
    ensures { OnOk result (wholes live.now map.new ≡ wholes live.now map.old ++ workspace_of part.now ∷ []) }
{
    let _live = live;
    let _at = at;
    let (name, delta) = named_delta_of(map.allocator(), above, part)?;
    map.push(name, delta)?;
    Ok(())
}

/// Puts the part at a position behind those before it. Fails with the part's first fault of name or
/// place, or with `OutOfMemory`.
fn push_part(
    live: &Sheet,
    map: &mut WorkspaceMap,
    parts: &[Part],
    at: usize,
) -> Result<(), PartFault>
    requires within { at < length parts.now }
    requires rooted { IsRooted (wholes live.now map.old) }
    requires before { wholes live.now map.old ≡ take (suc at) (list_of live.now parts.now) }
    ensures ok { OnOk result (wholes live.now map.new ≡ take (suc (suc at)) (list_of live.now parts.now)) }
    ensures passed { OnOk result (part_name_fault_at (list_of live.now parts.now) at ≡ None) }
    ensures refused { IfErr result (IsPartFault (part_name_fault_at (list_of live.now parts.now) at)) }
{
    let part = &parts[at];
    let above = match judge_place(live, map, part.name.as_str(), part.parent.as_str()) {
        Ok(above) => above,
        Err(fault) => return Err(fault),
    };
    let content = content_of(live, parts, above);
    match push_under(live, map, content, above, part) {
        Ok(()) => Ok(()),
        Err(_) => Err(PartFault::OutOfMemory),
    }
}

/// Returns the number that stands beside a fault of the part at a position: 0 beside `OutOfMemory`,
/// and else the position.
pub fn fault_number(at: usize, fault: PartFault) -> usize
    ensures { result ≡ fault_number at fault }
{
    match fault {
        PartFault::OutOfMemory => 0,
        _ => at,
    }
}

/// Returns the map of LIVE alone. Fails with `OutOfMemory`, at 0.
pub fn start(alloc: Global) -> Result<WorkspaceMap, (usize, PartFault)>
    ensures made { IfOk result (λ map. map ≡ leaf live_name [] ∷ []) }
    ensures refused { IfErr result (λ refused. refused ≡ (0, OutOfMemory)) }
{
    let alone: Result<_, _> = live_alone(alloc);
    match alone {
        Ok(map) => Ok(map),
        Err(_) => Err((0, PartFault::OutOfMemory)),
    }
}

/// Returns the map of LIVE and of parts. Fails with the position of the first part whose name or
/// place has a fault, and with that fault; or with `OutOfMemory`, at 0.
pub fn push_parts(
    alloc: Global,
    live: &Sheet,
    parts: &[Part],
) -> Result<WorkspaceMap, (usize, PartFault)>
    ensures made { IfOk result (λ map. wholes live.now map ≡ list_of live.now parts.now) }
    ensures passed { OnOk result (first_part_name_fault live.now (map workspace_of parts.now) ≡ None) }
    ensures refused { IfErr result (IsFirstPartFault (first_part_name_fault live.now (map workspace_of parts.now))) }
{
    let mut map = start(alloc)?;
    for at in 0..parts.len() {
        if let Err(fault) = push_part(live, &mut map, parts, at) {
            return Err((fault_number(at, fault), fault));
        }
    }
    Ok(map)
}
