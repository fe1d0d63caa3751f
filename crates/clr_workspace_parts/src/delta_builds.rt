//! Building the map of a tree from parts by their differences.

ghost use Rattle.std.specs.Prelude.{◌≡◌, ◌++◌, [], ◌∷◌, None, OnOk, IfOk, IfErr};
ghost use Rattle.clr_deltas.specs.NamedDeltas.{stored_delta};
ghost use Rattle.clr_deltas.specs.Deltas.{above_in, whole_of, wholes};
ghost use Rattle.clr_workspaces.specs.Workspaces.{live_workspace};
ghost use Rattle.clr_workspace_parts.specs.Parts.{spaces_of, place_fault, first_part_name_fault, IsPartFault, IsFirstPartFault};
ghost use Rattle.clr_workspaces.specs.Roots.{IsRooted};

use crate::builds::{fault_number, start};
use crate::part_checks::judge_place;
use crate::parts::PartFault;
use clr_deltas::{StoredPart, WorkspaceMap};
use clr_rows::Sheet;
use std::alloc::Global;

/// Puts a part at the end, as it is stored. Fails with the part's first fault of name or place, or
/// with `OutOfMemory`.
fn push_delta(live: &Sheet, map: &mut WorkspaceMap, part: StoredPart) -> Result<(), PartFault>
    requires { IsRooted (wholes live.now map.old) }
    ensures ok { OnOk result (wholes live.now map.new
        ≡ wholes live.now map.old ++ whole_of (above_in (wholes live.now map.old) (stored_delta part)) (stored_delta part) ∷ []) }
    ensures passed { OnOk result (place_fault (wholes live.now map.old) part.name part.delta.parent ≡ None) }
    ensures refused { IfErr result (IsPartFault (place_fault (wholes live.now map.old) part.name part.delta.parent)) }
{
    let StoredPart { name, delta } = part;
    if let Err(fault) = judge_place(live, map, name.as_str(), delta.parent.as_str()) {
        return Err(fault);
    }
    match map.push(name.into_string(), delta) {
        Ok(()) => Ok(()),
        Err(_) => Err(PartFault::OutOfMemory),
    }
}

/// Returns the map of LIVE and of parts by their differences. No content is made whole. Fails with
/// the position of the first part whose name or place has a fault, and with that fault; or with
/// `OutOfMemory`, at 0.
pub fn push_deltas(
    alloc: Global,
    live: &Sheet,
    parts: Vec<StoredPart>,
) -> Result<WorkspaceMap, (usize, PartFault)>
    ensures made { IfOk result (λ made. wholes live.now made ≡ live_workspace live.now ∷ spaces_of live.now parts.items) }
    ensures passed { OnOk result (first_part_name_fault live.now (spaces_of live.now parts.items) ≡ None) }
    ensures refused { IfErr result (IsFirstPartFault (first_part_name_fault live.now (spaces_of live.now parts.items))) }
{
    let mut map = start(alloc)?;
    for part in parts {
        let at = map.len() - 1;
        if let Err(fault) = push_delta(live, &mut map, part) {
            return Err((fault_number(at, fault), fault));
        }
    }
    Ok(map)
}
