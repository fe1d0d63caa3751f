//! Lists in which cells are gathered; only which cells they have counts.

ghost use Rattle.std.specs.Prelude.{◌≡◌, ◌||◌, true, option_to_list, OnOk, OnErr};
ghost use Rattle.std.specs.FinSet as set;
ghost use Rattle.std.specs.List.Sorted.{IsStrictlySortedBy};
ghost use Rattle.clr_rows.specs.Cells.{cell_cmp};
ghost use Rattle.clr_rows.specs.declared.cells.CellId.{CellId as Cell};
ghost use Rattle.clr_grid.specs.CellSets.{with_listed_cells};
ghost use Rattle.clr_finders.specs.CellLists.{is_one_of};
ghost use Rattle.clr_grid.specs.Gains.{GainsCells};

use clr_rows::CellId;
use clr_spots::put_in_order;
use std::alloc::{AllocError, Global};
use std::collections::BTreeSet;
use std::marker::Model;

/// The cells that were added, one after another, and some of them maybe more than once.
#[derive(Drop)]
pub(crate) struct CellList {
    cells: Vec<CellId>,
}

impl Model for CellList {
    ghost use Rattle.std.specs.FinSet as set;
    ghost use Rattle.clr_grid.specs.CellSets.{Cells, coded_cells, with_listed_cells};

    ghost Value = { Cells };

    ghost coded = { coded_cells };

    ghost view = { λ s. with_listed_cells set.empty s.cells.items };
}

impl CellList {
    /// Returns a list without cells.
    pub(crate) fn new(alloc: Global) -> CellList
        ensures { result ≡ set.empty }
    {
        CellList {
            cells: Vec::new(alloc),
        }
    }

    /// Adds a cell. If memory runs out, nothing changes.
    pub(crate) fn add(&mut self, cell: CellId) -> Result<(), AllocError>
        ensures ok { OnOk result (self.new ≡ set.insert self.old cell) }
        ensures err { OnErr result (self.new ≡ self.old) }
    {
        self.cells.push(cell)?;
        Ok(())
    }

    /// Adds a cell, if there is one. If memory runs out, nothing changes.
    pub(crate) fn add_some(&mut self, cell: Option<CellId>) -> Result<(), AllocError>
        ensures ok { OnOk result (self.new ≡ with_listed_cells self.old (option_to_list cell)) }
        ensures err { OnErr result (self.new ≡ self.old) }
    {
        match cell {
            Some(cell) => self.add(cell),
            None => Ok(()),
        }
    }

    /// Adds the cells of a set. If memory runs out, the list keeps its own cells, and has some of these cells besides.
    pub(crate) fn add_keys(&mut self, cells: &BTreeSet<CellId>) -> Result<(), AllocError>
        ensures ok { OnOk result ((q : Cell) → set.contains self.new q ≡ (set.contains self.old q || is_one_of cells.now.keys q)) }
        ensures err { OnErr result (GainsCells (λ q. is_one_of cells.now.keys q ≡ true) self.old self.new) }
    {
        if cells.is_empty() {
            return Ok(());
        }
        for cell in cells {
            self.add(*cell)?;
        }
        Ok(())
    }

    /// Returns the cells, ascending, each once. It takes no memory.
    #[tactic(auto, using(crate::proofs::SetLemmas::listed_alike))]
    pub(crate) fn into_vec(self) -> Vec<CellId>
        ensures exact { (q : Cell) → is_one_of result.items q ≡ set.contains self q }
        ensures rising { IsStrictlySortedBy cell_cmp result.items }
    {
        let mut cells = self.cells;
        put_in_order(&mut cells);
        cells
    }
}
