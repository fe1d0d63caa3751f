//! The cells at one number.

ghost use Rattle.std.specs.Prelude.{◌≡◌, ◌||◌, ◌&&◌, not, true, false, option_to_list, OnOk, OnErr};
ghost use Rattle.std.specs.FinSet as set;
ghost use Rattle.std.specs.Ordering.{eq_by_cmp};
ghost use Rattle.clr_rows.specs.Cells.{cell_cmp};
ghost use Rattle.clr_rows.specs.declared.cells.CellId.{CellId as Cell};
ghost use Rattle.clr_finders.specs.NextCells.{IsNextOf};
ghost use Rattle.clr_finders.specs.CellLists.{is_one_of};
ghost use Rattle.clr_grid.specs.Gains.{GainsCells};

use crate::cell_lists::CellList;
use crate::next_cells::{next_key, next_one};
use clr_finders::lesser_cell;
use clr_rows::CellId;
use std::alloc::{AllocError, Global};
use std::collections::BTreeSet;
use std::marker::Model;

/// The cells at one number. Most numbers have one cell alone, which takes no memory of its own.
#[derive(Drop)]
pub(crate) struct SpotCells {
    first: Option<CellId>,
    others: BTreeSet<CellId>,
}

impl Model for SpotCells {
    ghost use Rattle.std.specs.Prelude.{◌++◌, option_to_list};
    ghost use Rattle.std.specs.FinSet as set;
    ghost use Rattle.clr_grid.specs.CellSets.{Cells, coded_cells};

    ghost Value = { Cells };

    ghost coded = { coded_cells };

    ghost view = { λ s. set.from_list (option_to_list s.first ++ s.others.keys) };
}

/// Returns a cell, if there is one, and it isn't the other one.
fn without(first: Option<CellId>, cell: CellId) -> Option<CellId>
    ensures { (q : Cell) → is_one_of (option_to_list result) q ≡ (not (eq_by_cmp cell_cmp q cell) && is_one_of (option_to_list first) q) }
{
    match first {
        Some(first) if first.cmp(&cell).is_eq() => None,
        other => other,
    }
}

impl SpotCells {
    /// Returns one cell alone.
    pub(crate) fn one(alloc: Global, cell: CellId) -> SpotCells
        ensures { result ≡ set.insert set.empty cell }
    {
        SpotCells {
            first: Some(cell),
            others: BTreeSet::new(alloc),
        }
    }

    /// Adds a cell. If memory runs out, nothing changes.
    pub(crate) fn add(&mut self, cell: CellId) -> Result<(), AllocError>
        ensures ok { OnOk result (self.new ≡ set.insert self.old cell) }
        ensures err { OnErr result (self.new ≡ self.old) }
    {
        let Some(first) = self.first else {
            self.first = Some(cell);
            return Ok(());
        };
        if first.cmp(&cell).is_eq() {
            return Ok(());
        }
        self.others.insert(cell)?;
        Ok(())
    }

    /// Takes a cell away.
    pub(crate) fn remove(&mut self, cell: CellId)
        ensures { self.new ≡ set.remove self.old cell }
    {
        self.first = without(self.first, cell);
        self.others.remove(&cell);
    }

    /// Returns whether there is no cell.
    #[tactic(auto, using(crate::proofs::SetLemmas::not_empty))]
    pub(crate) fn is_empty(&self) -> bool
        ensures none { result ≡ true → self.now ≡ set.empty }
        ensures some { result ≡ false → self.now ≡ set.empty → ⊥ }
    {
        match self.first {
            Some(_) => false,
            None => self.others.is_empty(),
        }
    }

    /// Returns the first cell behind a given one, if there is one.
    pub(crate) fn next(&self, after: Option<CellId>) -> Option<CellId>
        ensures { IsNextOf (λ q. set.contains self.now q ≡ true) after result }
    {
        lesser_cell(next_one(self.first, after), next_key(&self.others, after))
    }

    /// Adds the cells to a list. If memory runs out, the list keeps its own cells, and has some of these besides.
    pub(crate) fn add_to(&self, cells: &mut CellList) -> Result<(), AllocError>
        ensures ok { OnOk result ((q : Cell) → set.contains cells.new q ≡ (set.contains cells.old q || set.contains self.now q)) }
        ensures err { OnErr result (GainsCells (λ q. set.contains self.now q ≡ true) cells.old cells.new) }
    {
        cells.add_some(self.first)?;
        cells.add_keys(&self.others)?;
        Ok(())
    }
}
