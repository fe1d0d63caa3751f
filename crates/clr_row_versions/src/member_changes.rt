//! Members: change sets, the cells that they change, and which of them change each.

ghost use Rattle.std.specs.Prelude.{◌≡◌, ◌<◌, ◌≤◌, ◌++◌, true, Some, None, length, map, IfOk, IfSome, MatchOption, OnErr, OnOk};
ghost use Rattle.std.specs.FinMap as finite;
ghost use Rattle.clr_rows.specs.declared.cells.CellId.{CellId as Cell};
ghost use Rattle.clr_needs.specs.declared.limits.TheConstants.{MOST_MEMBERS};
ghost use Rattle.clr_rows.specs.Beginnings.{IsBegun};
ghost use Rattle.clr_needs.specs.Members.{AreApart, AreFirstTwo, IsApart, IsLeastShared, after_of, changed_cells, positions};
ghost use Rattle.clr_row_versions.specs.Changers.{changers_at, lesser, noted_changers};
ghost use Rattle.clr_needs.specs.Settings.{first_changer};
ghost use Rattle.clr_row_versions.specs.Versions.{new_version_at, row_and_life, version_of};

use crate::changers::{Changers, changers_of, key_of};
use crate::versions::Version;
use clr_change::ChangeSet;
use clr_needs::{Life, SharedCell, VersionId};
use clr_rows::CellId;
use std::alloc::{AllocError, Global};
use std::collections::HashMap;

/// Change sets, the cells that they change, one set after another, and the first two that change each.
#[derive(Drop)]
pub struct Members<'a> {
    pub sets: Vec<&'a ChangeSet>,
    pub cells: Vec<CellId>,
    changers: HashMap<(u16, i64), Changers>,
    pub ghost few: { length sets.items ≤ MOST_MEMBERS },
    pub ghost all: { cells.items ≡ changed_cells (map (λ s. s.now) sets.items) },
    ghost changed_by: { (q : Cell) → noted_changers changers q ≡ changers_at (map (λ s. s.now) sets.items) q },
}

/// Adds the cells that a change set changes to a list, ascending. If memory runs out, the list keeps what stood in it,
/// with the first of these cells behind it.
pub fn add_cells(set: &ChangeSet, cells: &mut Vec<CellId>) -> Result<(), AllocError>
    ensures ok { OnOk result (cells.new.items ≡ cells.old.items ++ finite.keys set.now) }
    ensures err { OnErr result (IsBegun cells.old.items (finite.keys set.now) cells.new.items) }
{
    for (cell, _) in set.iter() {
        cells.push(*cell)?;
    }
    Ok(())
}

/// Returns the cells that change sets change, one set after another.
fn changed_cells(alloc: Global, sets: &[&ChangeSet]) -> Result<Vec<CellId>, AllocError>
    ensures { IfOk result (λ cells. cells.items ≡ changed_cells (map (λ s. s.now) sets.now)) }
{
    let mut cells = Vec::new(alloc);
    for set in sets {
        add_cells(set, &mut cells)?;
    }
    Ok(cells)
}

/// Returns the lesser of the cell that was found, if any, and one more.
fn lesser(found: Option<SharedCell>, other: SharedCell) -> SharedCell
    ensures { result ≡ lesser found other }
{
    match found {
        Some(found) if !other.cell.cmp(&found.cell).is_lt() => found,
        _ => other,
    }
}

impl<'a> Members<'a> {
    /// Returns the members of at most `MOST_MEMBERS` change sets.
    pub fn new(alloc: Global, sets: Vec<&'a ChangeSet>) -> Result<Members<'a>, AllocError>
        requires { length sets.items ≤ MOST_MEMBERS }
        ensures { IfOk result (λ members. members.sets.items ≡ sets.entry.items) }
    {
        let cells = changed_cells(alloc, sets.as_slice())?;
        let changers = changers_of(alloc, sets.as_slice())?;
        Ok(Members {
            sets,
            cells,
            changers,
        })
    }

    /// Returns the first member that changes a cell, if one does.
    pub fn changer(&self, cell: CellId) -> Option<u16>
        ensures first { result ≡ first_changer (after_of (map (λ s. s.now) self.now.sets.items)) (positions (map (λ s. s.now) self.now.sets.items)) cell }
        ensures position { IfSome result (λ n. n < length self.now.sets.items) }
    {
        let changers = self.changers.get(&key_of(cell))?;
        Some(changers.first)
    }

    /// Returns the new version of a cell, if its first changer brings a row there.
    pub fn new_version(&self, cell: CellId) -> Option<Version<'_>>
        ensures { MatchOption result (new_version_at (map (λ s. s.now) self.now.sets.items) cell ≡ None)
            (λ v. (v.id ≡ version_of true cell) × (new_version_at (map (λ s. s.now) self.now.sets.items) cell ≡ Some (row_and_life v))) }
    {
        let position = self.changer(cell)?;
        let change = self.sets[position as usize].get(cell)?;
        match &change.after {
            None => None,
            Some(row) => Some(Version {
                id: VersionId { cell, fresh: true },
                row,
                life: Life::With(position),
            }),
        }
    }

    /// Returns the first two members that change a cell, if two do.
    fn first_two(&self, cell: CellId) -> Option<(u16, u16)>
        ensures { MatchOption result (IsApart (map (λ s. s.now) self.now.sets.items) cell)
            (λ two. AreFirstTwo (map (λ s. s.now) self.now.sets.items) cell two.0 two.1) }
    {
        let changers = self.changers.get(&key_of(cell))?;
        let second = changers.second?;
        Some((changers.first, second))
    }

    /// Returns the least cell that two members change, with the first two that do, if there is one.
    pub fn least_shared(&self) -> Option<SharedCell>
        ensures { MatchOption result (AreApart (map (λ s. s.now) self.now.sets.items)) (IsLeastShared (map (λ s. s.now) self.now.sets.items)) }
    {
        let mut least = None;
        for cell in &self.cells {
            if let Some((first, second)) = self.first_two(*cell) {
                let other = SharedCell {
                    cell: *cell,
                    first,
                    second,
                };
                least = Some(lesser(least, other));
            }
        }
        least
    }
}
