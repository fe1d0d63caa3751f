//! Which rows call a rule, and which serve them.

ghost use Rattle.std.specs.Prelude.{◌≡◌, ◌<◌, ◌∷◌, [], length, Some, None, option_map, option_to_list};
ghost use Rattle.clr_rows.specs.Held.{held_of};
ghost use Rattle.clr_rules.specs.Books.{FitTogether};
ghost use Rattle.clr_rules.specs.Calls.{calls, part_count, plain_ask, serves};

mod segments;
mod servers;
mod subjects;

use crate::books::RuleBook;
use crate::calls::servers::is_server;
use crate::calls::subjects::{are_subjects, is_subject};
use crate::needs::Ask;
use crate::rules::Rule;
use clr_rows::Held;
use clr_segments::parts;

impl RuleBook {
    /// Returns how many parts of a row a rule is asked of: those of its segment or path for a
    /// `Crossing`, and 1 for another rule, which is asked of whole rows. The rule's number is below
    /// `len`.
    /// For example, of a path with four vertices a `Crossing` is asked of 3 parts, and an `EndNode` of 1.
    #[tactic(auto, unfolding(crate::specs::Calls::part_count))]
    pub fn part_count(&self, rule: u16, held: Held) -> u16
        requires number { rule < length self.now }
        requires fit { FitTogether self.now (held_of held ∷ []) }
        ensures { result ≡ part_count self.now rule (held_of held.entry) }
    {
        match self.rule(rule) {
            Rule::Crossing { .. } => parts(&held.row.shape),
            _ => 1,
        }
    }

    /// Returns whether a row alone calls a rule, so that some row which serves it must stand. The
    /// rule's number is below `len`, and the row fits a schema that the book fits.
    /// For example, under an `EndNode` of the mains with the code `A`, a main with the code `A` calls the rule, and
    /// one with the code `B` doesn't. No row alone calls a `Unique`.
    #[tactic(auto, unfolding(crate::specs::Calls::calls))]
    pub fn calls_one(&self, rule: u16, held: Held) -> bool
        requires number { rule < length self.now }
        requires fit { FitTogether self.now (held_of held ∷ []) }
        ensures { result ≡ calls self.now (plain_ask rule) (held_of held.entry) None }
    {
        is_subject(self.rule(rule), rule, held)
    }

    /// Returns whether two rows call a rule, in either arrangement, so that some row which serves
    /// them must stand. For a `Crossing` the parts of the ask have a common point; a part that
    /// isn't there doesn't call. Under other rules part numbers other than 1 don't call. Whether
    /// the cells differ isn't looked at. The rule's number is below `len`, and the rows fit a
    /// schema that the book fits.
    /// For example, under a `Unique` on the code, two mains with the code `A` call the rule, and mains with the codes
    /// `A` and `a` don't. Under a `Crossing`, mains from (0, 0) to (10, 10) and from (0, 10) to (10, 0) call it.
    #[tactic(auto, unfolding(crate::specs::Calls::calls))]
    pub fn calls_two(&self, ask: Ask, first: Held, second: Held) -> bool
        requires number { ask.rule < length self.now }
        requires fit { FitTogether self.now (held_of first ∷ held_of second ∷ []) }
        ensures { result ≡ calls self.now ask (held_of first.entry) (Some (held_of second.entry)) }
    {
        are_subjects(self.rule(ask.rule), ask, first, second)
    }

    /// Returns whether a row serves the subjects of a rule. For a `Crossing` it is a point of both
    /// parts of the ask; a part that isn't there is served by none, nor are parts that overlap.
    /// Under other rules no row serves where a part number isn't 1. For a `Partner` and an
    /// `EndNode` the subject must be of the subject's side, too; for a `Crossing` only the server's
    /// side is looked at. The rule's number is below `len`, and the rows fit a schema that the book
    /// fits.
    /// For example, under a `Crossing` at nodes, a node at (5, 5) serves mains from (0, 0) to (10, 10) and from (0, 10)
    /// to (10, 0), and a node at (4, 4) doesn't. Under a `Unique` or a `Near` no row serves.
    #[tactic(auto, unfolding(crate::specs::Calls::serves))]
    pub fn serves(&self, ask: Ask, first: Held, second: Option<Held>, server: Held) -> bool
        requires number { ask.rule < length self.now }
        requires fit { FitTogether self.now (held_of first ∷ held_of server ∷ option_to_list (option_map held_of second)) }
        ensures { result ≡ serves self.now ask (held_of first.entry) (option_map held_of second.entry) (held_of server.entry) }
    {
        is_server(self.rule(ask.rule), ask, first, second, server)
    }
}
