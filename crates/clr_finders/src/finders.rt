//! What every finder of rows promises.

ghost use Rattle.std.specs.Prelude.{◌≡◌, ◌<◌, ◌∷◌, [], length, true, false, Some, None, Contains, IfOk, OnOk, OnErr};
ghost use Rattle.std.specs.FinMap as finite;
ghost use Rattle.std.specs.Option.{option_copied, option_map};
ghost use Rattle.clr_rows.specs.declared.cells.CellId.{CellId as Cell};
ghost use Rattle.clr_rows.specs.Held.{held_of};
ghost use Rattle.clr_rules.specs.Books.{FitTogether};
ghost use Rattle.clr_finders.specs.NextCells.{IsNextOf};
ghost use Rattle.clr_finders.specs.Sharing.{Pending, Settled, found_cells, next_at, row_spots, rows_at, rule_spots};

use crate::row_spots::{RowSpots, RuleSpots};
use clr_rows::{CellId, Held, Row};
use clr_rules::RuleBook;
use std::alloc::{AllocError, Global};

/// A map from cells to the spots of their rows under each rule of one book, with pending changes
/// beside it. Every call is given that same book, and rows that fit a schema which the book fits.
pub trait RowFinder: Drop {
    ghost settled: { Self → Settled };

    ghost pending: { Self → Pending };

    /// Returns a finder without rows. It takes no memory.
    fn without_rows(alloc: Global) -> Self
        ensures settled { settled result ≡ finite.empty }
        ensures pending { pending result ≡ finite.empty };

    /// Returns the cells whose row shares a spot with this one under a rule, ascending, each once.
    /// Where one of the two rows is wide, it is enough that both have a role in the rule. A row
    /// without a role shares with none. The rule's number is below the book's `len`.
    /// For example, where mains may cross only at nodes, a main from (0, 0) to (500000, 0) finds a main from
    /// (250000, -1000) to (250000, 1000) and a node at (250000, 0), since all three have the square (2, 0). It doesn't
    /// find a hydrant at (250000, 0), which has no role in the rule.
    fn sharing(&self, book: &RuleBook, rule: u16, held: Held) -> Result<Vec<CellId>, AllocError>
        requires number { rule < length book.now }
        requires fit { FitTogether book.now (held_of held ∷ []) }
        ensures { IfOk result (λ cells. cells.items ≡ found_cells false (settled self.now) rule (rule_spots book.now rule (held_of held.entry))) };

    /// Returns those cells of `sharing` whose row is of the side that serves.
    /// For example, where mains may cross only at nodes, a main finds the nodes that share with it, and no mains.
    fn sharing_servers(
        &self,
        book: &RuleBook,
        rule: u16,
        held: Held,
    ) -> Result<Vec<CellId>, AllocError>
        requires number { rule < length book.now }
        requires fit { FitTogether book.now (held_of held ∷ []) }
        ensures { IfOk result (λ cells. cells.items ≡ found_cells true (settled self.now) rule (rule_spots book.now rule (held_of held.entry))) };

    /// Returns the spots of the settled row at a cell under each rule, or none where no row stands.
    fn spots_at(&self, cell: CellId) -> Option<&RowSpots>
        ensures { option_copied result ≡ finite.get (settled self.now) cell };

    /// Returns cells among which each of `sharing` stands, for a row of these spots under a rule, or
    /// each of `sharing_servers` where servers alone are looked for. There may be others.
    fn candidates(
        &self,
        servers: bool,
        rule: u16,
        spots: &RuleSpots,
    ) -> Result<Vec<CellId>, AllocError>
        ensures { IfOk result (λ cells. (q : Cell) → Contains (found_cells servers (settled self.now) rule spots.now) q → Contains cells.items q) };

    /// Returns a cell behind a given one, or any where none is given, which is past no cell of
    /// `sharing_servers` that stands there, for a row of these spots under a rule. None says that
    /// none of those stands there. It takes no memory.
    fn next_server(&self, rule: u16, spots: &RuleSpots, after: Option<CellId>) -> Option<CellId>
        ensures { IsNextOf (Contains (found_cells true (settled self.now) rule spots.now)) after result };

    /// Adds a pending change of a cell that has none yet: the row that is to stand there, or none.
    /// If memory runs out, nothing changes.
    /// For example, `sharing` doesn't find a new main that is noted until `settle` is called.
    fn note(&mut self, book: &RuleBook, cell: CellId, row: Option<&Row>) -> Result<(), AllocError>
        requires fit { FitTogether book.now (rows_at cell (option_copied row)) }
        requires free { finite.get (pending self.old) cell ≡ None }
        ensures settled { settled self.new ≡ settled self.old }
        ensures ok { OnOk result (pending self.new
            ≡ finite.insert (pending self.old) cell (option_map (λ r. row_spots book.now (cell, r)) (option_copied row.entry))) }
        ensures err { OnErr result (pending self.new ≡ pending self.old) };

    /// Takes the pending changes over. It takes no memory.
    /// For example, where just two changes are pending, main 1 with no row and main 2 with a row, `spots_at` returns
    /// none for main 1 afterwards, and the spots of the noted row for main 2. For all other cells it returns what it
    /// did before.
    fn settle(&mut self)
        ensures settled { (q : Cell) → finite.get (settled self.new) q ≡ next_at (settled self.old) (pending self.old) q }
        ensures pending { pending self.new ≡ finite.empty };

    /// Drops the pending changes. It takes no memory.
    /// For example, where a new main 2 is noted, `spots_at` returns none for main 2 after `forget`, even once
    /// `settle` is called. Main 2 can be noted again.
    fn forget(&mut self)
        ensures settled { settled self.new ≡ settled self.old }
        ensures pending { pending self.new ≡ finite.empty };
}
