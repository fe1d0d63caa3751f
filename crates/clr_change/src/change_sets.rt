//! Change sets: what changes between two contents, cell by cell.

ghost use Rattle.std.specs.Prelude.{◌≡◌, ◌<◌, ◌^◌, length, slice_get, false, IfOk, IfSome, OnOk, OnErr, IsSome};
ghost use Rattle.std.specs.BTreeMap.{keys};
ghost use Rattle.std.specs.FinMap as finite;
ghost use Rattle.std.specs.Map.Iter.{ShowsInOrder, deref_pair};
ghost use Rattle.std.specs.Option.{option_copied};
ghost use Rattle.clr_rows.specs.Contents.{changes, rows_after};
ghost use Rattle.clr_rows.specs.Same.{same};
ghost use Rattle.clr_rows.specs.declared.cells.CellId.{CellId as Cell};
ghost use Rattle.clr_rows.specs.declared.cells.Change.{Change as OneChange};
ghost use Rattle.clr_change.specs.ChangeSets.{AreDifferent, AreNoted, set_change};

use clr_rows::{CellId, Change, Row, Sheet};
use std::alloc::{AllocError, Global};
use std::collections::BTreeMap;
use std::collections::btree_map::Iter;
use std::marker::Model;

/// What changes between two contents: the cells where they differ, each with both rows.
#[derive(Drop)]
pub struct ChangeSet {
    alloc: Global,
    changes: BTreeMap<CellId, Change>,
}

impl Model for ChangeSet {
    ghost use Rattle.clr_rows.specs.Contents.{Changes, coded_changes};

    ghost Value = { Changes };

    ghost coded = { coded_changes };

    ghost use Rattle.clr_change.specs.ChangeSets.{changes_of, IsSoundChangeSet};

    ghost view = { λ a. changes_of a.changes.entries };

    ghost invariant = { λ a. IsSoundChangeSet a.changes.entries };
}

/// Returns whether two rows are the same, a missing row counting as a value.
pub fn are_same(a: Option<&Row>, b: Option<&Row>) -> bool
    ensures { result ≡ same (option_copied a.entry) (option_copied b.entry) }
{
    match a {
        Some(a) => match b {
            Some(b) => a.same(b),
            None => false,
        },
        None => b.is_none(),
    }
}

/// Returns a copy of a row, or none where there is no row.
pub fn copy_row(row: Option<&Row>) -> Result<Option<Row>, AllocError>
    ensures { IfOk result (λ copy. copy ≡ option_copied row.entry) }
{
    match row {
        Some(row) => Ok(Some(row.copy()?)),
        None => Ok(None),
    }
}

fn key_at(changes: &BTreeMap<CellId, Change>, at: usize) -> Option<&CellId>
    ensures { option_copied result ≡ slice_get (keys changes.now) at }
{
    changes.keys().nth(at)
}

impl ChangeSet {
    /// Returns a set of no changes.
    pub fn new(alloc: Global) -> ChangeSet
        ensures { result ≡ finite.empty }
    {
        ChangeSet {
            alloc,
            changes: BTreeMap::new(alloc),
        }
    }

    /// Sets the change at a cell to the one from the row before, or none, to the row after, or
    /// none. Where the two are the same, the cell has no change afterwards. If memory runs out,
    /// nothing changes.
    pub fn set(
        &mut self,
        cell: CellId,
        before: Option<&Row>,
        after: Option<&Row>,
    ) -> Result<(), AllocError>
        ensures ok { OnOk result (self.new ≡ set_change self.old cell (option_copied before.entry) (option_copied after.entry)) }
        ensures err { OnErr result (self.new ≡ self.old) }
    {
        if are_same(before, after) {
            self.take(cell);
            return Ok(());
        }
        let change = Change {
            before: copy_row(before)?,
            after: copy_row(after)?,
        };
        self.put(cell, change)
    }

    /// Puts a change at a cell.
    fn put(&mut self, cell: CellId, change: Change) -> Result<(), AllocError>
        requires { same change.before change.after ≡ false }
        ensures ok { OnOk result (self.new ≡ finite.insert self.old cell change) }
        ensures err { OnErr result (self.new ≡ self.old) }
    {
        self.changes.insert(cell, change)?;
        Ok(())
    }

    /// Takes the change at a cell away, if there is one.
    fn take(&mut self, cell: CellId)
        ensures { self.new ≡ finite.remove self.old cell }
    {
        self.changes.remove(&cell);
    }

    /// Returns the change at a cell, or none.
    /// For example, where main 1 stays as it is, main 2 gets the code `D` in place of `B`, and main 3 goes, it
    /// returns none for main 1. For main 2 the row before has the code `B` and the row after has `D`, and for main 3
    /// there is no row after.
    pub fn get(&self, cell: CellId) -> Option<&Change>
        ensures change { option_copied result ≡ finite.get self.now cell }
        ensures differ { AreDifferent self.now }
    {
        self.changes.get(&cell)
    }

    /// Returns how many cells are changed.
    /// For example, a new set has 2 changed cells once main 1 is set from the code `A` to `B`, main 2 from no row to
    /// a row, and main 3 from a row to an equal one.
    pub fn len(&self) -> usize
        ensures { result ≡ length (finite.keys self.now) }
    {
        self.changes.len()
    }

    /// Returns the changed cell at a position in the order of cells, or none where there are fewer
    /// changes. The cell is found by going over the changes before it.
    /// For example, where mains 4, 2 and 3 are changed and nothing else, it returns mains 2, 3 and 4 for positions 0,
    /// 1 and 2, and none for position 3.
    pub fn cell_at(&self, at: usize) -> Option<CellId>
        ensures position { result ≡ slice_get (finite.keys self.now) at }
        ensures held { IfSome result (λ cell. IsSome (finite.get self.now cell)) }
    {
        key_at(&self.changes, at).copied()
    }

    /// Returns the changed cells with their changes, in the order of cells.
    pub fn iter(&self) -> Iter<'_, CellId, Change>
        ensures rest { result ≡ finite.entries self.now }
        ensures runs { ShowsInOrder (deref_pair {K = Cell} {X = OneChange}) }
        ensures differ { AreDifferent self.now }
        ensures small { length (finite.entries self.now) < 2 ^ 63 }
    {
        self.changes.iter()
    }

    /// Returns what changes from one content to another.
    /// For example, where main 1 stays as it is, main 2 gets another code, main 3 goes and main 4 comes, there are three
    /// changes, of mains 2, 3 and 4.
    pub fn between(alloc: Global, base: &Sheet, current: &Sheet) -> Result<ChangeSet, AllocError>
        ensures { IfOk result (λ set. set ≡ changes base.now current.now) }
    {
        let mut set = ChangeSet::new(alloc);
        set.note_all(base, current, base)?;
        set.note_all(base, current, current)?;
        Ok(set)
    }

    /// Sets the changes at each cell of a sheet to what changes there from one content to another.
    fn note_all(&mut self, base: &Sheet, current: &Sheet, cells: &Sheet) -> Result<(), AllocError>
        ensures ok { OnOk result (AreNoted base.now current.now cells.now self.old self.new) }
    {
        for (cell, _) in cells.iter() {
            self.set(*cell, base.get(*cell), current.get(*cell))?;
        }
        Ok(())
    }

    /// Returns the rows after the changes, by cell, in the order of cells.
    pub fn rows_after(&self) -> Result<Vec<(CellId, Option<Row>)>, AllocError>
        ensures { IfOk result (λ rows. rows.items ≡ rows_after self.now) }
    {
        let mut rows = Vec::new(self.alloc);
        for (cell, change) in self.iter() {
            let row = copy_row(change.after.as_ref())?;
            rows.push((*cell, row))?;
        }
        Ok(rows)
    }
}
