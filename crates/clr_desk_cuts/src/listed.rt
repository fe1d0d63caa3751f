//! The cells that an office text lists of its workspaces.

ghost use Rattle.std.specs.Prelude.{◌≡◌, IfOk, OnOk, map, Ok};
ghost use Rattle.std.specs.FinMap as finite;
ghost use Rattle.clr_deltas.specs.NamedDeltas.{stored_delta};
ghost use Rattle.clr_desk_cuts.specs.Listed.{AreListedIn, with_deltas, with_entries};

use clr_deltas::{Differences, StoredPart};
use clr_office_reading::read_office;
use std::alloc::{AllocError, Global};

/// Adds the cells of differences, with a row or without.
#[tactic(auto, unfolding(crate::specs::Listed::with_entries))]
fn add_cells(cells: &mut Differences, differences: &Differences) -> Result<(), AllocError>
    ensures { OnOk result (cells.new ≡ with_entries cells.old (finite.entries differences.now)) }
{
    for (cell, _) in differences.iter() {
        cells.put(*cell, None)?;
    }
    Ok(())
}

/// Adds the cells of workspaces, those of their bases and those of their rows.
#[tactic(auto, unfolding(crate::specs::Listed::with_deltas))]
fn add_workspaces(cells: &mut Differences, workspaces: &[StoredPart]) -> Result<(), AllocError>
    ensures { OnOk result (cells.new ≡ with_deltas cells.old (map stored_delta workspaces.now)) }
{
    for workspace in workspaces {
        add_cells(cells, &workspace.delta.base)?;
        add_cells(cells, &workspace.delta.current)?;
    }
    Ok(())
}

/// Returns the cells that an office text lists of its workspaces, also those at which it says that a row is gone
/// and where there is none. The text can be read.
pub(crate) fn listed_cells(alloc: Global, office: &[u8]) -> Result<Differences, AllocError>
    ensures { IfOk result (AreListedIn office.now) }
{
    // (a text that was read fails only for want of memory)
    let Ok(parts) = read_office(alloc, office) else {
        return Err(AllocError);
    };
    let mut cells = Differences::new(alloc);
    add_workspaces(&mut cells, parts.workspaces.as_slice())?;
    Ok(cells)
}
