//! The names of the workspaces that were read already.

ghost use Rattle.std.specs.Prelude.{◌≡◌, List, ◌++◌, ◌∷◌, [], OnErr, OnOk};
ghost use Rattle.clr_deltas.specs.Deltas.{Delta};
ghost use Rattle.std.specs.BTreeSet.{IsUnchanged};
ghost use Rattle.std.specs.Str.{bytes_eq};
ghost use Rattle.clr_rows.specs.Names.{live_name};
ghost use Rattle.clr_office_reading.specs.Workspaces.{HasNames, stands_in};

use clr_rows::{LIVE, Words};
use std::alloc::AllocError;
use std::collections::BTreeSet;

fn is_live(name: &str) -> bool
    ensures { result ≡ bytes_eq name.now live_name }
{
    name == LIVE
}

/// Returns whether a name is that of LIVE, or one of these.
pub fn stands(names: &BTreeSet<String>, name: &str) -> bool
    ensures { (earlier : List Delta) → HasNames names.now earlier → result ≡ stands_in earlier name.now }
{
    is_live(name) || names.contains(name)
}

/// Adds the name of one more workspace to those of the earlier ones. If memory runs out, the names
/// stay as they are.
pub fn note_name(names: &mut BTreeSet<String>, name: &Words) -> Result<(), AllocError>
    ensures noted { OnOk result ((earlier : List Delta) (l : Delta) → HasNames names.old earlier → l.name ≡ name.now → HasNames names.new (earlier ++ l ∷ [])) }
    ensures err { OnErr result (IsUnchanged names.old names.new) }
{
    let copy = name.copy()?;
    names.insert(copy.into_string())?;
    Ok(())
}
