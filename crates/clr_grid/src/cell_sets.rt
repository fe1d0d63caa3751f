//! Sets of cells.

ghost use Rattle.std.specs.Prelude.{◌≡◌, ◌⊎◌, ◌||◌, ◌&&◌, true, false, OnOk, OnErr};
ghost use Rattle.std.specs.FinSet as set;
ghost use Rattle.clr_rows.specs.declared.cells.CellId.{CellId as Cell};
ghost use Rattle.clr_finders.specs.NextCells.{IsNextOf};
ghost use Rattle.clr_grid.specs.CellSets.{is_one};
ghost use Rattle.clr_grid.specs.Gains.{GainsCells};

use crate::cell_lists::CellList;
use crate::next_cells::next_key;
use clr_rows::CellId;
use std::alloc::{AllocError, Global};
use std::collections::BTreeSet;
use std::marker::Model;

/// A set of cells.
#[derive(Drop)]
pub(crate) struct CellSet {
    cells: BTreeSet<CellId>,
}

impl Model for CellSet {
    ghost use Rattle.std.specs.FinSet as set;
    ghost use Rattle.clr_grid.specs.CellSets.{Cells, coded_cells};

    ghost Value = { Cells };

    ghost coded = { coded_cells };

    ghost view = { λ s. set.from_list s.cells.keys };
}

impl CellSet {
    /// Returns a set without cells.
    pub(crate) fn new(alloc: Global) -> CellSet
        ensures { result ≡ set.empty }
    {
        CellSet {
            cells: BTreeSet::new(alloc),
        }
    }

    /// Adds a cell. If memory runs out, nothing changes.
    pub(crate) fn add(&mut self, cell: CellId) -> Result<(), AllocError>
        ensures ok { OnOk result (self.new ≡ set.insert self.old cell) }
        ensures err { OnErr result (self.new ≡ self.old) }
    {
        self.cells.insert(cell)?;
        Ok(())
    }

    /// Adds a cell, where a test says so, and nothing else.
    pub(crate) fn add_if(&mut self, test: bool, cell: CellId) -> Result<(), AllocError>
        ensures kept { (q : Cell) → set.contains self.old q ≡ true → set.contains self.new q ≡ true }
        ensures only { (q : Cell) → set.contains self.new q ≡ true → (set.contains self.old q ≡ true) ⊎ ((q ≡ cell) × (test ≡ true)) }
        ensures added { OnOk result (test ≡ true → set.contains self.new cell ≡ true) }
    {
        if test {
            self.add(cell)?;
        }
        Ok(())
    }

    /// Takes a cell away.
    pub(crate) fn remove(&mut self, cell: CellId)
        ensures { self.new ≡ set.remove self.old cell }
    {
        self.cells.remove(&cell);
    }

    /// Takes a cell away, where a test says so.
    pub(crate) fn remove_if(&mut self, test: bool, cell: CellId)
        ensures kept { (q : Cell) → (is_one cell q && test) ≡ false → set.contains self.old q ≡ true → set.contains self.new q ≡ true }
        ensures fewer { (q : Cell) → set.contains self.new q ≡ true → set.contains self.old q ≡ true }
        ensures gone { test ≡ true → set.contains self.new cell ≡ false }
    {
        if test {
            self.remove(cell);
        }
    }

    /// Returns whether there is no cell.
    pub(crate) fn is_empty(&self) -> bool
        ensures none { result ≡ true → self.now ≡ set.empty }
        ensures some { result ≡ false → self.now ≡ set.empty → ⊥ }
    {
        self.cells.is_empty()
    }

    /// Adds the cells to a list, where a test says so. If memory runs out, the list keeps its own cells, and has some of this set besides.
    pub(crate) fn add_to(&self, test: bool, cells: &mut CellList) -> Result<(), AllocError>
        ensures ok { OnOk result ((q : Cell) → set.contains cells.new q ≡ (set.contains cells.old q || (test && set.contains self.now q))) }
        ensures err { OnErr result (GainsCells (λ q. (test && set.contains self.now q) ≡ true) cells.old cells.new) }
    {
        if test {
            cells.add_keys(&self.cells)?;
        }
        Ok(())
    }

    /// Returns the first cell behind a given one, where a test says so, if there is one.
    pub(crate) fn next_if(&self, test: bool, after: Option<CellId>) -> Option<CellId>
        ensures { IsNextOf (λ q. (test && set.contains self.now q) ≡ true) after result }
    {
        if test {
            next_key(&self.cells, after)
        } else {
            None
        }
    }
}
