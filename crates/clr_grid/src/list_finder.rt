//! The plain finder, which goes over all its rows.

ghost use Rattle.std.specs.Prelude.{◌≡◌, ◌<◌, ◌∷◌, [], length, IfOk};
ghost use Rattle.clr_rows.specs.Held.{held_of};
ghost use Rattle.clr_rules.specs.Books.{FitTogether};
ghost use Rattle.clr_finders.specs.RowMaps.{no_filed_rows};
ghost use Rattle.clr_finders.specs.Sharing.{found_cells, rule_spots};

use clr_finders::{RowFinder, RowMap, RowSpots, RuleSpots, row_spots_at};
use clr_rows::{CellId, Held, Row};
use clr_rules::RuleBook;
use std::alloc::{AllocError, Global};
use std::marker::Model;

/// A finder that goes over all its rows.
#[derive(Drop)]
pub struct ListFinder {
    alloc: Global,
    rows: RowMap,
}

impl Model for ListFinder {
    ghost use Rattle.clr_finders.specs.RowMaps.{FiledRows, coded_rows};

    ghost Value = { FiledRows };

    ghost coded = { coded_rows };

    ghost view = { λ a. a.rows };
}

impl ListFinder {
    /// Returns a finder without rows. It takes no memory.
    pub fn new(alloc: Global) -> ListFinder
        ensures { result ≡ no_filed_rows }
    {
        ListFinder {
            alloc,
            rows: RowMap::new(alloc),
        }
    }

    /// Returns the cells that are found, servers alone or all.
    fn find(
        &self,
        book: &RuleBook,
        rule: u16,
        held: Held,
        servers: bool,
    ) -> Result<Vec<CellId>, AllocError>
        requires number { rule < length book.now }
        requires fit { FitTogether book.now (held_of held ∷ []) }
        ensures { IfOk result (λ cells. cells.items ≡ found_cells servers self.now.settled rule (rule_spots book.now rule (held_of held.entry))) }
    {
        let spots = RuleSpots::new(self.alloc, book, rule, held)?;
        self.rows.find_all(self.alloc, servers, rule, &spots)
    }
}

impl RowFinder for ListFinder {
    ghost settled = { λ finder. finder.settled };

    ghost pending = { λ finder. finder.pending };

    fn without_rows(alloc: Global) -> ListFinder {
        ListFinder::new(alloc)
    }

    fn sharing(&self, book: &RuleBook, rule: u16, held: Held) -> Result<Vec<CellId>, AllocError> {
        self.find(book, rule, held, false)
    }

    fn sharing_servers(
        &self,
        book: &RuleBook,
        rule: u16,
        held: Held,
    ) -> Result<Vec<CellId>, AllocError> {
        self.find(book, rule, held, true)
    }

    fn spots_at(&self, cell: CellId) -> Option<&RowSpots> {
        self.rows.settled_row(cell)
    }

    fn candidates(
        &self,
        servers: bool,
        rule: u16,
        spots: &RuleSpots,
    ) -> Result<Vec<CellId>, AllocError> {
        let cells = self.rows.find_all(self.alloc, servers, rule, spots)?;
        Ok(cells)
    }

    fn next_server(&self, _rule: u16, _spots: &RuleSpots, after: Option<CellId>) -> Option<CellId> {
        self.rows.next_cell(after)
    }

    fn note(&mut self, book: &RuleBook, cell: CellId, row: Option<&Row>) -> Result<(), AllocError> {
        let spots = row_spots_at(self.alloc, book, cell, row)?;
        self.rows.note(cell, spots)
    }

    fn settle(&mut self) {
        self.rows.settle();
    }

    fn forget(&mut self) {
        self.rows.forget();
    }
}
