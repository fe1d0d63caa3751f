//! The finder that looks up the spots of a row.

ghost use Rattle.std.specs.Prelude.{◌≡◌, ◌<◌, ◌∷◌, [], length, true, Some, None, is_some, IfOk, OnOk, OnErr, MatchOption};
ghost use Rattle.std.specs.FinMap as finite;
ghost use Rattle.clr_rows.specs.Held.{held_of};
ghost use Rattle.clr_rules.specs.Books.{FitTogether};
ghost use Rattle.clr_finders.specs.RowMaps.{no_filed_rows, with_pending, with_settled_row, with_settled, without_pending};
ghost use Rattle.clr_finders.specs.Sharing.{found_cells, row_spots, rule_spots};

use crate::rule_index::{RuleIndex, cells_near, file_row, next_server_near, unfile_row};
use clr_finders::{RowFinder, RowMap, RowSpots, RuleSpots, row_spots_at};
use clr_rows::{CellId, Held, Row};
use clr_rules::RuleBook;
use std::alloc::{AllocError, Global};
use std::marker::Model;

/// A finder that looks only at the spots of the given row: it keeps the cells of its rows by rule
/// and spot, and those of wide rows apart. For a wide row it looks at all rows.
#[derive(Drop)]
pub struct SpotIndex {
    alloc: Global,
    rows: RowMap,
    rules: Vec<RuleIndex>,
}

impl Model for SpotIndex {
    ghost use Rattle.clr_finders.specs.RowMaps.{FiledRows, coded_rows};

    ghost Value = { FiledRows };

    ghost coded = { coded_rows };

    ghost use Rattle.clr_grid.specs.Filing.{IsFiledExactly};

    ghost view = { λ a. a.rows };

    ghost invariant = { λ a. IsFiledExactly a.rows a.rules.items };
}

impl SpotIndex {
    /// Returns a finder without rows. It takes no memory.
    pub fn new(alloc: Global) -> SpotIndex
        ensures { result ≡ no_filed_rows }
    {
        SpotIndex {
            alloc,
            rows: RowMap::new(alloc),
            rules: Vec::new(alloc),
        }
    }

    /// Returns this finder with one more row, at a cell where it has no row. A finder of a content is made in this way, row by row.
    /// If memory runs out, the finder is gone.
    pub(crate) fn with_row(
        self,
        book: &RuleBook,
        cell: CellId,
        row: &Row,
    ) -> Result<SpotIndex, AllocError>
        requires fit { FitTogether book.now ((cell, row.now) ∷ []) }
        requires free { finite.get self.settled cell ≡ None }
        ensures { IfOk result (λ finder. finder ≡ with_settled_row self cell (row_spots book.now (cell, row.now))) }
    {
        let mut rows = self.rows;
        let mut rules = self.rules;
        let spots = RowSpots::new(self.alloc, book, Held { cell, row })?;
        file_row(&mut rules, self.alloc, cell, Some(&spots))?;
        rows.put(cell, spots)?;
        Ok(SpotIndex {
            alloc: self.alloc,
            rows,
            rules,
        })
    }

    /// Returns the cells that are found, servers alone or all.
    fn find(
        &self,
        book: &RuleBook,
        rule: u16,
        held: Held,
        servers: bool,
    ) -> Result<Vec<CellId>, AllocError>
        requires number { rule < length book.now }
        requires fit { FitTogether book.now (held_of held ∷ []) }
        ensures { IfOk result (λ cells. cells.items ≡ found_cells servers self.now.settled rule (rule_spots book.now rule (held_of held.entry))) }
    {
        let spots = RuleSpots::new(self.alloc, book, rule, held)?;
        if spots.spots.wide {
            return self.rows.find_all(self.alloc, servers, rule, &spots);
        }
        let cells = cells_near(self.rules.as_slice(), self.alloc, servers, rule, &spots)?;
        self.rows
            .find_among(self.alloc, servers, rule, &spots, cells.as_slice())
    }

    /// Returns a cell with a pending change, or none.
    fn first_pending(&self) -> Option<CellId>
        ensures { MatchOption result (self.now.pending ≡ finite.empty) (λ cell. is_some (finite.get self.now.pending cell) ≡ true) }
    {
        self.rows.first_pending()
    }

    /// Adds a pending change of a cell that has none.
    fn note_spots(&mut self, cell: CellId, spots: Option<RowSpots>) -> Result<(), AllocError>
        requires { finite.get self.old.pending cell ≡ None }
        ensures ok { OnOk result (self.new ≡ with_pending self.old cell spots) }
        ensures err { OnErr result (self.new ≡ self.old) }
    {
        self.rows.note(cell, spots)?;
        match file_row(
            &mut self.rules,
            self.alloc,
            cell,
            self.rows.pending_row(cell),
        ) {
            Ok(()) => Ok(()),
            Err(error) => {
                let refused = self.rows.forget_at(cell);
                unfile_row(&mut self.rules, cell, refused, self.rows.settled_row(cell));
                Err(error)
            }
        }
    }

    /// Takes the pending change of a cell over.
    fn settle_at(&mut self, cell: CellId)
        requires { is_some (finite.get self.old.pending cell) ≡ true }
        ensures { self.new ≡ with_settled self.old cell }
    {
        let before = self.rows.settle_at(cell);
        unfile_row(&mut self.rules, cell, before, self.rows.settled_row(cell));
    }

    /// Drops the pending change of a cell.
    fn forget_at(&mut self, cell: CellId)
        ensures { self.new ≡ without_pending self.old cell }
    {
        let row = self.rows.forget_at(cell);
        unfile_row(&mut self.rules, cell, row, self.rows.settled_row(cell));
    }
}

impl RowFinder for SpotIndex {
    ghost settled = { λ finder. finder.settled };

    ghost pending = { λ finder. finder.pending };

    fn without_rows(alloc: Global) -> SpotIndex {
        SpotIndex::new(alloc)
    }

    fn sharing(&self, book: &RuleBook, rule: u16, held: Held) -> Result<Vec<CellId>, AllocError> {
        self.find(book, rule, held, false)
    }

    fn sharing_servers(
        &self,
        book: &RuleBook,
        rule: u16,
        held: Held,
    ) -> Result<Vec<CellId>, AllocError> {
        self.find(book, rule, held, true)
    }

    fn spots_at(&self, cell: CellId) -> Option<&RowSpots> {
        self.rows.settled_row(cell)
    }

    fn candidates(
        &self,
        servers: bool,
        rule: u16,
        spots: &RuleSpots,
    ) -> Result<Vec<CellId>, AllocError> {
        if spots.spots.wide {
            let cells = self.rows.find_all(self.alloc, servers, rule, spots)?;
            return Ok(cells);
        }
        let cells = cells_near(self.rules.as_slice(), self.alloc, servers, rule, spots)?;
        Ok(cells)
    }

    fn next_server(&self, rule: u16, spots: &RuleSpots, after: Option<CellId>) -> Option<CellId> {
        if spots.spots.wide {
            return self.rows.next_cell(after);
        }
        next_server_near(self.rules.as_slice(), rule, spots, after)
    }

    fn note(&mut self, book: &RuleBook, cell: CellId, row: Option<&Row>) -> Result<(), AllocError> {
        let spots = row_spots_at(self.alloc, book, cell, row)?;
        self.note_spots(cell, spots)
    }

    fn settle(&mut self) {
        while let Some(cell) = self.first_pending() {
            self.settle_at(cell);
        }
    }

    fn forget(&mut self) {
        while let Some(cell) = self.first_pending() {
            self.forget_at(cell);
        }
    }
}
