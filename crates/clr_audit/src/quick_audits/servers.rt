//! Servers that a quick audit finds for a need.

ghost use Rattle.std.specs.Prelude.{◌≡◌, ◌<◌, ◌∷◌, ◌++◌, true, length, option_to_list};
ghost use Rattle.std.specs.Option.{option_map};
ghost use Rattle.clr_rows.specs.Contents.{row_at};
ghost use Rattle.clr_rows.specs.Held.{held_of};
ghost use Rattle.clr_rules.specs.Books.{FitTogether};
ghost use Rattle.clr_rules.specs.Needs.{IsMet, rows_in};

use crate::quick_audits::QuickAudit;
use crate::quick_audits::limits::MOST_TRIED;
use clr_finders::{RowFinder, RuleSpots};
use clr_rows::{CellId, Held};
use clr_rules::Ask;

impl<F: RowFinder> QuickAudit<'_, F> {
    /// Returns whether a row stands at a cell and serves these subjects.
    fn serves_at(&self, ask: Ask, first: Held, second: Option<Held>, cell: CellId) -> bool
        requires number { ask.rule < length self.now.book.now }
        requires fit { FitTogether self.now.book.now (held_of first ∷ (option_to_list (option_map held_of second) ++ rows_in self.now.sheet.now)) }
        ensures { result ≡ true → IsMet self.now.book.now (row_at self.now.sheet.now) ask (held_of first.entry) (option_map held_of second.entry) }
    {
        match self.sheet.get(cell) {
            Some(row) => self.book.serves(ask, first, second, Held { cell, row }),
            None => false,
        }
    }

    /// Returns whether a row serves these subjects, the first one being of these spots. It isn't found where too many cells come before its own.
    pub(crate) fn finds_server(
        &self,
        ask: Ask,
        first: Held,
        second: Option<Held>,
        spots: &RuleSpots,
    ) -> bool
        requires number { ask.rule < length self.now.book.now }
        requires fit { FitTogether self.now.book.now (held_of first ∷ (option_to_list (option_map held_of second) ++ rows_in self.now.sheet.now)) }
        ensures { result ≡ true → IsMet self.now.book.now (row_at self.now.sheet.now) ask (held_of first.entry) (option_map held_of second.entry) }
    {
        let mut after = None;
        for _tried in 0..MOST_TRIED {
            let Some(cell) = self.finder.next_server(ask.rule, spots, after) else {
                return false;
            };
            if self.serves_at(ask, first, second, cell) {
                return true;
            }
            after = Some(cell);
        }
        false
    }
}
