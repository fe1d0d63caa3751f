//! What a finder keeps of a row.

ghost use Rattle.std.specs.Prelude.{◌≡◌, ◌<◌, ◌∷◌, [], false, length, slice_get, IfOk};
ghost use Rattle.std.specs.Option.{option_copied, option_map};
ghost use Rattle.clr_rows.specs.Held.{held_of};
ghost use Rattle.clr_rules.specs.Books.{FitTogether};
ghost use Rattle.clr_finders.specs.Sharing.{row_spots, rows_at, rule_spots};

use crate::sides::{has_role, may_serve};
use clr_rows::{CellId, Held, Row};
use clr_rules::RuleBook;
use clr_spots::{SpotList, Spots, spots_of};
use std::alloc::{AllocError, Global};
use std::marker::Model;

/// The spots of a row under a rule, whether it has a role in it, and whether it is of the side that
/// serves.
#[derive(Debug, Drop)]
pub struct RuleSpots {
    pub spots: Spots,
    pub has_role: bool,
    pub may_serve: bool,
}

impl RuleSpots {
    /// Returns what is kept of a row under a rule in which it has no role: it has no spots, and
    /// isn't of the side that serves.
    fn without_role(alloc: Global) -> RuleSpots
        ensures list { result.spots.list ≡ [] }
        ensures wide { result.spots.wide ≡ false }
        ensures has_role { result.has_role ≡ false }
        ensures may_serve { result.may_serve ≡ false }
    {
        RuleSpots {
            spots: Spots {
                list: SpotList::new(Vec::new(alloc)),
                wide: false,
            },
            has_role: false,
            may_serve: false,
        }
    }

    /// Returns the spots of a row under the rule of a number, which is below the book's `len`. The
    /// book and the row fit one schema. Where the row has no role in the rule, its spots aren't
    /// looked for, and no memory is taken.
    #[tactic(auto, unfolding(crate::specs::Sharing::rule_spots, clr_rules::specs::Sides::has_role, crate::specs::Sharing::may_serve_under))]
    pub fn new(
        alloc: Global,
        book: &RuleBook,
        rule: u16,
        held: Held,
    ) -> Result<RuleSpots, AllocError>
        requires number { rule < length book.now }
        requires fit { FitTogether book.now (held_of held ∷ []) }
        ensures { IfOk result (λ spots. spots ≡ rule_spots book.now rule (held_of held.entry)) }
    {
        if !has_role(book.rule(rule), held) {
            return Ok(RuleSpots::without_role(alloc));
        }
        Ok(RuleSpots {
            spots: spots_of(alloc, book, rule, held)?,
            has_role: true,
            may_serve: may_serve(book.rule(rule), held),
        })
    }
}

/// The spots of a row under each rule, by number.
#[derive(Debug, Drop)]
pub struct RowSpots {
    list: Vec<RuleSpots>,
}

impl Model for RowSpots {
    ghost use Rattle.std.specs.Prelude.{List};
    ghost use Rattle.clr_finders.specs.declared.row_spots.RuleSpots.{RuleSpots as OfRule};

    ghost Value = { List OfRule };

    ghost view = { λ a. a.list.items };
}

impl RowSpots {
    /// Returns the spots of a row under each rule of a book. The book and the row fit one schema.
    pub fn new(alloc: Global, book: &RuleBook, held: Held) -> Result<RowSpots, AllocError>
        requires { FitTogether book.now (held_of held ∷ []) }
        ensures { IfOk result (λ spots. spots ≡ row_spots book.now (held_of held.entry)) }
    {
        let count = book.len() as u16;
        let mut list = Vec::with_capacity(alloc, book.len())?;
        for rule in 0..count {
            list.push(RuleSpots::new(alloc, book, rule, held)?)?;
        }
        Ok(RowSpots { list })
    }

    /// Returns the spots under the rule of a number, or none where there is no such rule.
    pub fn get(&self, rule: u16) -> Option<&RuleSpots>
        ensures { option_copied result ≡ slice_get self.now rule }
    {
        self.list.get(rule as usize)
    }

    /// Returns the spots under all rules, in the order of their numbers.
    pub fn as_slice(&self) -> &[RuleSpots]
        ensures { result.now ≡ self.now }
    {
        self.list.as_slice()
    }
}

/// Returns the spots of the row at a cell under each rule of a book, or none where no row is given.
/// The book and the row fit one schema.
pub fn row_spots_at(
    alloc: Global,
    book: &RuleBook,
    cell: CellId,
    row: Option<&Row>,
) -> Result<Option<RowSpots>, AllocError>
    requires { FitTogether book.now (rows_at cell (option_copied row)) }
    ensures { IfOk result (λ spots. spots ≡ option_map (λ r. row_spots book.now (cell, r)) (option_copied row.entry)) }
{
    match row {
        Some(row) => Ok(Some(RowSpots::new(alloc, book, Held { cell, row })?)),
        None => Ok(None),
    }
}
