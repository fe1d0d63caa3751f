//! Books of rules: the rules of a network that fit its schema.

ghost use Rattle.std.specs.Prelude.{◌≡◌, ◌<◌, ◌≤◌, true, length, IfOk, MatchResult, Some, slice_get};
ghost use Rattle.clr_rules.specs.declared.limits.TheConstants.{MOST_RULES};
ghost use Rattle.std.specs.List.{list_all};
ghost use Rattle.clr_rules.specs.Books.{FitsBook, book_fault, is_rule_within};

mod faults;
mod rule_checks;

use crate::books::rule_checks::check_rules;
use crate::limits::MOST_RULES;
use crate::rules::Rule;
use clr_rows::Schema;
pub use faults::RuleFault;
use std::marker::Model;

/// Rules over the rows of a schema, numbered from 0: at most 64.
#[derive(Debug, Drop)]
pub struct RuleBook {
    rules: Vec<Rule>,
}

impl Model for RuleBook {
    ghost use Rattle.std.specs.Prelude.{List};
    ghost use Rattle.clr_rules.specs.declared.rules.Rule.{Rule as OneRule};
    ghost use Rattle.clr_rules.specs.Books.{IsBook};

    ghost Value = { List OneRule };

    ghost view = { λ a. a.rules.items };

    ghost invariant = { λ a. IsBook a.rules.items };
}

impl RuleBook {
    /// Returns the book of these rules, numbered in their order, for the rows of this schema. Fails
    /// with number 64 and `TooMany` where there are more than 64 rules. Otherwise it fails with the
    /// number of the first rule that fails a test, and with the first of these faults: `NoTable`
    /// where the table of a side isn't in the schema, `NoColumn` where a list of columns is empty
    /// or names a column that its table hasn't or `Col::Key` stands in a `Unique`, `KindsDiffer`
    /// where the lists of a `Partner` differ in length or kinds, `WrongShape` where the table of a
    /// side hasn't the shape that the rule asks for, `BadDistance` where a distance isn't 1 to
    /// 1,000,000 millimetres, and `BadFilter` where a filter names a column that its table hasn't
    /// or a literal is of another kind than its column.
    ///
    /// For example, where the first rule is good and the second is a `Near` with the distance 0, it fails with number 1
    /// and `BadDistance`.
    #[tactic(auto, unfolding(crate::specs::Books::book_fault))]
    pub fn new(schema: &Schema, rules: Vec<Rule>) -> Result<RuleBook, (u16, RuleFault)>
        ensures made { IfOk result (λ book. book ≡ rules.items) }
        ensures judged { MatchResult result (λ _. FitsBook schema.now rules.items) (λ fault. book_fault schema.now rules.items ≡ Some fault) }
    {
        if rules.len() > MOST_RULES {
            return Err((MOST_RULES as u16, RuleFault::TooMany));
        }
        match check_rules(schema, rules.as_slice()) {
            Ok(()) => Ok(RuleBook { rules }),
            Err(fault) => Err(fault),
        }
    }

    /// Returns how many rules there are.
    /// For example, a book that is made of a `Unique` and two `Near` rules has 3, and one that is made of an empty
    /// list has 0.
    pub fn len(&self) -> usize
        ensures value { result ≡ length self.now }
        ensures small { length self.now ≤ MOST_RULES }
    {
        self.rules.len()
    }

    /// Returns the rule of a number, which is below `len`.
    /// For example, where a book is made of a `Unique`, a `Near` with the distance 7 and a `Near` with the distance
    /// 8, in this order, it returns the `Near` with the distance 8 for number 2.
    pub fn rule(&self, number: u16) -> &Rule
        requires { number < length self.now }
        ensures { slice_get self.now number ≡ Some result.now }
    {
        &self.rules[number as usize]
    }

    /// Returns the rules, in the order of their numbers.
    pub fn rules(&self) -> &[Rule]
        ensures value { result.now ≡ self.now }
        ensures within { list_all is_rule_within self.now ≡ true }
    {
        self.rules.as_slice()
    }
}
