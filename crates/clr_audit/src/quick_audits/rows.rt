//! A quick audit of a content, row by row.

ghost use Rattle.std.specs.Prelude.{◌≡◌, ◌<◌, ◌||◌, true, length, IfOk, None};
ghost use Rattle.clr_rows.specs.Contents.{row_at};
ghost use Rattle.clr_rows.specs.Held.{held_of};
ghost use Rattle.clr_rules.specs.declared.needs.Ask.{Ask as OneAsk};
ghost use Rattle.clr_rules.specs.Books.{FitsContent};
ghost use Rattle.clr_rules.specs.Needs.{Holds, Stands};
ghost use Rattle.clr_finders.specs.Sharing.{IsSettledFor, rule_spots};
ghost use Rattle.clr_audit.specs.Meeting.{AreMet, AreMetUnder, IsMetIfCalled};

use crate::quick_audits::QuickAudit;
use clr_finders::{RowFinder, RuleSpots};
use clr_rows::{Held, Sheet};
use clr_rules::{Ask, Roles, RuleBook};
use std::alloc::AllocError;

/// Returns whether a row of these roles may be one of two subjects.
fn may_be_paired(roles: Roles) -> bool
    ensures { result ≡ (roles.first || roles.second) }
{
    roles.first || roles.second
}

impl<F: RowFinder> QuickAudit<'_, F> {
    /// Returns whether what a rule asks of a row alone is seen to be met.
    fn is_alone_met(&self, rule: u16, first: Held, spots: &RuleSpots) -> bool
        requires number { rule < length self.now.book.now }
        requires fits { FitsContent self.now.book.now self.now.sheet.now }
        requires stands { Stands (row_at self.now.sheet.now) (held_of first) }
        ensures { result ≡ true → (ask : OneAsk) → ask.rule ≡ rule
            → IsMetIfCalled self.now.book.now (row_at self.now.sheet.now) ask (held_of first.entry) None }
    {
        if !self.book.calls_one(rule, first) {
            return true;
        }
        self.finds_server(Ask::plain(rule), first, None, spots)
    }

    /// Returns whether all that a rule asks of a row, alone or with rows at greater cells, is seen to be met.
    fn is_rule_met(&self, rule: u16, first: Held, spots: &RuleSpots) -> Result<bool, AllocError>
        requires number { rule < length self.now.book.now }
        requires fits { FitsContent self.now.book.now self.now.sheet.now }
        requires stands { Stands (row_at self.now.sheet.now) (held_of first) }
        requires spots { spots.now ≡ rule_spots self.now.book.now rule (held_of first) }
        requires settled { IsSettledFor (F.settled self.now.finder.now) self.now.book.now self.now.sheet.now }
        ensures { IfOk result (λ met. met ≡ true → AreMetUnder self.now.book.now (row_at self.now.sheet.now) rule (held_of first.entry)) }
    {
        if !spots.has_role {
            return Ok(true);
        }
        if !self.is_alone_met(rule, first, spots) {
            return Ok(false);
        }
        let roles = self.book.roles_of(rule, first);
        if !may_be_paired(roles) {
            return Ok(true);
        }
        self.are_pairs_met(rule, first, spots)
    }

    /// Returns whether all that the rules ask of a row, alone or with rows at greater cells, is seen to be met.
    fn are_rules_met(&self, first: Held) -> Result<bool, AllocError>
        requires fits { FitsContent self.now.book.now self.now.sheet.now }
        requires stands { Stands (row_at self.now.sheet.now) (held_of first) }
        requires settled { IsSettledFor (F.settled self.now.finder.now) self.now.book.now self.now.sheet.now }
        ensures { IfOk result (λ met. met ≡ true → AreMet self.now.book.now (row_at self.now.sheet.now) (held_of first.entry)) }
    {
        let Some(spots) = self.finder.spots_at(first.cell) else {
            return Ok(false);
        };
        for rule in 0..self.book.len() {
            let Some(spots) = spots.get(rule as u16) else {
                return Ok(false);
            };
            if !self.is_rule_met(rule as u16, first, spots)? {
                return Ok(false);
            }
        }
        Ok(true)
    }
}

/// Returns whether every rule is seen to hold in a content whose rows a finder has. Where it returns
/// true, every rule holds. Where it returns false, a rule is broken, or it gave up: more than 256 rows are near one
/// row under a rule, one of two rows has more than 8 parts, or none of the first 64 rows that may serve a need serves
/// it. The book and the rows fit one schema.
/// For example, where mains may cross only at nodes, and mains 1 and 2 cross at node 9 and no other mains cross, it returns true.
pub fn is_seen_to_hold<F: RowFinder>(
    book: &RuleBook,
    sheet: &Sheet,
    finder: &F,
) -> Result<bool, AllocError>
    requires fits { FitsContent book.now sheet.now }
    requires settled { IsSettledFor (F.settled finder.now) book.now sheet.now }
    ensures { IfOk result (λ seen. seen ≡ true → Holds book.now (row_at sheet.now)) }
{
    let audit = QuickAudit {
        book,
        sheet,
        finder,
    };
    for (cell, row) in sheet.iter() {
        if !audit.are_rules_met(Held { cell: *cell, row })? {
            return Ok(false);
        }
    }
    Ok(true)
}
