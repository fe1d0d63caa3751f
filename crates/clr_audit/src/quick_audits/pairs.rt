//! Needs of two rows that a quick audit sees to be met.

ghost use Rattle.std.specs.Prelude.{◌≡◌, ◌<◌, ◌∷◌, true, length, IfOk, Some};
ghost use Rattle.std.specs.declared.cmp.Ordering.TheVariants.{Less};
ghost use Rattle.clr_rows.specs.Cells.{cell_cmp};
ghost use Rattle.clr_rows.specs.Contents.{row_at};
ghost use Rattle.clr_rows.specs.Held.{Held as Row, held_of};
ghost use Rattle.clr_rules.specs.Books.{FitTogether, FitsContent};
ghost use Rattle.clr_rules.specs.Needs.{Stands, rows_in};
ghost use Rattle.clr_finders.specs.Sharing.{IsSettledFor, rule_spots};
ghost use Rattle.clr_audit.specs.Meeting.{IsMetBeside, IsMetIfCalled, IsPairMet, IsPartMet};

use crate::quick_audits::QuickAudit;
use crate::quick_audits::limits::{MOST_NEAR, MOST_PARTS};
use clr_finders::{RowFinder, RuleSpots};
use clr_rows::{CellId, Held};
use clr_rules::Ask;
use std::alloc::AllocError;

impl<F: RowFinder> QuickAudit<'_, F> {
    /// Returns whether what a rule asks of a part of each of two rows is seen to be met.
    fn is_ask_met(&self, ask: Ask, first: Held, second: Held, spots: &RuleSpots) -> bool
        requires number { ask.rule < length self.now.book.now }
        requires fit { FitTogether self.now.book.now (held_of first ∷ (held_of second ∷ rows_in self.now.sheet.now)) }
        ensures { result ≡ true → IsMetIfCalled self.now.book.now (row_at self.now.sheet.now) ask (held_of first.entry) (Some (held_of second.entry)) }
    {
        if !self.book.calls_two(ask, first, second) {
            return true;
        }
        self.finds_server(ask, first, Some(second), spots)
    }

    /// Returns whether what a rule asks of a part of a row and of another row is seen to be met.
    fn is_part_met(
        &self,
        rule: u16,
        part: u16,
        first: Held,
        second: Held,
        spots: &RuleSpots,
    ) -> bool
        requires number { rule < length self.now.book.now }
        requires fit { FitTogether self.now.book.now (held_of first ∷ (held_of second ∷ rows_in self.now.sheet.now)) }
        ensures { result ≡ true → IsPartMet self.now.book.now (row_at self.now.sheet.now) rule part (held_of first.entry) (held_of second.entry) }
    {
        for other in 0..self.book.part_count(rule, second) {
            let ask = Ask {
                rule,
                first_part: part,
                second_part: other + 1,
            };
            if !self.is_ask_met(ask, first, second, spots) {
                return false;
            }
        }
        true
    }

    /// Returns whether what a rule asks of two rows is seen to be met. It isn't where one of them has too many parts.
    fn is_pair_met(&self, rule: u16, first: Held, second: Held, spots: &RuleSpots) -> bool
        requires number { rule < length self.now.book.now }
        requires fit { FitTogether self.now.book.now (held_of first ∷ (held_of second ∷ rows_in self.now.sheet.now)) }
        ensures { result ≡ true → IsPairMet self.now.book.now (row_at self.now.sheet.now) rule (held_of first.entry) (held_of second.entry) }
    {
        let count = self.book.part_count(rule, first);
        if count > MOST_PARTS || self.book.part_count(rule, second) > MOST_PARTS {
            return false;
        }
        for part in 0..count {
            if !self.is_part_met(rule, part + 1, first, second, spots) {
                return false;
            }
        }
        true
    }

    /// Returns whether what a rule asks of a row and of the one at a greater cell, if one stands there, is seen to be met.
    fn is_met_beside(&self, rule: u16, first: Held, cell: CellId, spots: &RuleSpots) -> bool
        requires number { rule < length self.now.book.now }
        requires fits { FitsContent self.now.book.now self.now.sheet.now }
        requires stands { Stands (row_at self.now.sheet.now) (held_of first) }
        ensures { result ≡ true → IsMetBeside self.now.book.now (row_at self.now.sheet.now) rule (held_of first.entry) cell }
    {
        if !first.cell.cmp(&cell).is_lt() {
            return true;
        }
        match self.sheet.get(cell) {
            Some(row) => self.is_pair_met(rule, first, Held { cell, row }, spots),
            None => true,
        }
    }

    /// Returns whether all that a rule asks of a row and of rows at greater cells is seen to be met. It isn't where too many rows are near.
    pub(crate) fn are_pairs_met(
        &self,
        rule: u16,
        first: Held,
        spots: &RuleSpots,
    ) -> Result<bool, AllocError>
        requires number { rule < length self.now.book.now }
        requires fits { FitsContent self.now.book.now self.now.sheet.now }
        requires stands { Stands (row_at self.now.sheet.now) (held_of first) }
        requires spots { spots.now ≡ rule_spots self.now.book.now rule (held_of first) }
        requires settled { IsSettledFor (F.settled self.now.finder.now) self.now.book.now self.now.sheet.now }
        ensures { IfOk result (λ met. met ≡ true → (t : Row) → Stands (row_at self.now.sheet.now) t → cell_cmp first.entry.cell t.0 ≡ Less
            → IsPairMet self.now.book.now (row_at self.now.sheet.now) rule (held_of first.entry) t) }
    {
        let cells = self.finder.candidates(false, rule, spots)?;
        if cells.len() > MOST_NEAR {
            return Ok(false);
        }
        for cell in &cells {
            if !self.is_met_beside(rule, first, *cell, spots) {
                return Ok(false);
            }
        }
        Ok(true)
    }
}
