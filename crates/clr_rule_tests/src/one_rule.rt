//! One rule with rows: which call it, which serve, and their spots.
ghost use Rattle.std.specs.Prelude.{◌≡◌, ◌<◌, length};
ghost use Rattle.clr_rules.specs.Books.{FitsBook};

use crate::rule_texts::rules;
use crate::texts::RowAt;
use clr_row_test_kit::schema;
use clr_rows::{Held, Schema};
use clr_rules::{Ask, RuleBook};
use clr_spots::{Spots, spots_of};
use std::alloc::Global;

impl RowAt {
    fn as_held(&self) -> Held
        ensures cell { result.cell ≡ self.now.cell }
        ensures row { result.row.now ≡ self.now.row }
    {
        Held {
            cell: self.cell,
            row: &self.row,
        }
    }
}

/// The numbers of two parts.
pub(crate) type Parts = (u16, u16);

fn ask(parts: Parts) -> Ask
    ensures { result.rule ≡ 0 }
{
    Ask {
        rule: 0,
        first_part: parts.0,
        second_part: parts.1,
    }
}

/// A book of one rule, with the network that it fits. A row that doesn't fit the network has no answer.
#[derive(Drop)]
pub(crate) struct OneRule {
    schema: Schema,
    book: RuleBook,
    ghost fits: { FitsBook schema book },
    ghost some: { 0 < length book },
}

impl OneRule {
    /// Returns the book of a rule, over the network of a text.
    pub(crate) fn of(alloc: Global, network: &str, rule: &str) -> Option<OneRule> {
        let schema = schema(alloc, network)?;
        let book = RuleBook::new(&schema, rules(alloc, rule)?).ok()?;
        if book.len() == 0 {
            return None;
        }
        Some(OneRule { schema, book })
    }

    /// Returns the spots of a row.
    pub(crate) fn spots_of(&self, alloc: Global, row: &RowAt) -> Option<Spots> {
        self.schema.fits(row.cell, &row.row).ok()?;
        spots_of(alloc, &self.book, 0, row.as_held()).ok()
    }

    /// Returns how many parts of a row the rule is asked of.
    pub(crate) fn part_count(&self, row: &RowAt) -> Option<u16> {
        self.schema.fits(row.cell, &row.row).ok()?;
        Some(self.book.part_count(0, row.as_held()))
    }

    /// Returns whether a row alone calls the rule.
    pub(crate) fn calls_one(&self, row: &RowAt) -> Option<bool> {
        self.schema.fits(row.cell, &row.row).ok()?;
        Some(self.book.calls_one(0, row.as_held()))
    }

    /// Returns whether these parts of two rows call the rule.
    pub(crate) fn calls_two(&self, parts: Parts, first: &RowAt, second: &RowAt) -> Option<bool> {
        self.schema.fits(first.cell, &first.row).ok()?;
        self.schema.fits(second.cell, &second.row).ok()?;
        Some(
            self.book
                .calls_two(ask(parts), first.as_held(), second.as_held()),
        )
    }

    /// Returns whether a row serves one row where these numbers of parts are asked.
    pub(crate) fn serves_one(&self, parts: Parts, first: &RowAt, server: &RowAt) -> Option<bool> {
        self.schema.fits(first.cell, &first.row).ok()?;
        self.schema.fits(server.cell, &server.row).ok()?;
        Some(
            self.book
                .serves(ask(parts), first.as_held(), None, server.as_held()),
        )
    }

    /// Returns whether a row serves these parts of two rows.
    pub(crate) fn serves_two(
        &self,
        parts: Parts,
        first: &RowAt,
        second: &RowAt,
        server: &RowAt,
    ) -> Option<bool> {
        self.schema.fits(first.cell, &first.row).ok()?;
        self.schema.fits(second.cell, &second.row).ok()?;
        self.schema.fits(server.cell, &server.row).ok()?;
        let second = Some(second.as_held());
        Some(
            self.book
                .serves(ask(parts), first.as_held(), second, server.as_held()),
        )
    }
}
