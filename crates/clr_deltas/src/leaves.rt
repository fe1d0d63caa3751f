//! Leaves of a map: one put at the end, and LIVE alone.

ghost use Rattle.std.specs.Prelude.{◌≡◌, ◌++◌, [], ◌∷◌, string_bytes, None, OnOk, OnErr, IfOk};
ghost use Rattle.clr_rows.specs.Names.{live_name};
ghost use Rattle.clr_deltas.specs.Deltas.{find_delta, leaf};

use crate::differences::Differences;
use crate::workspace_maps::{Delta, WorkspaceMap};
use clr_rows::{LIVE, Words};
use std::alloc::{AllocError, Global};

/// Puts a leaf of a new name at the end of a map, without its mark. If memory runs out, nothing
/// changes.
pub fn push_leaf(map: &mut WorkspaceMap, name: String, parent: Words) -> Result<(), AllocError>
    requires { find_delta map.old (string_bytes name) ≡ None }
    ensures ok { OnOk result (map.new ≡ map.old ++ leaf (string_bytes name) parent ∷ []) }
    ensures err { OnErr result (map.new ≡ map.old) }
{
    let alloc = map.allocator();
    let delta = Delta {
        parent,
        base: Differences::new(alloc),
        current: Differences::new(alloc),
        marks: Vec::new(alloc),
        kept: false,
    };
    map.push(name, delta)
}

/// Returns the map of LIVE alone.
pub fn live_alone(alloc: Global) -> Result<WorkspaceMap, AllocError>
    ensures { IfOk result (λ map. map ≡ leaf live_name [] ∷ []) }
{
    let mut map = WorkspaceMap::new(alloc);
    let name = String::from_str(alloc, LIVE)?;
    let no_name = Words::new(String::new(alloc));
    push_leaf(&mut map, name, no_name)?;
    Ok(map)
}
