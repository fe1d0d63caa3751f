//! Rules under which no row serves.

ghost use Rattle.std.specs.Prelude.{◌≡◌, ◌<◌, length};
ghost use Rattle.clr_new_pairs.specs.NewPairs.{is_unserved, is_unserved_under};

use clr_rules::{Rule, RuleBook};

/// Returns whether no row serves under a rule.
fn is_unserved(rule: &Rule) -> bool
    ensures { result ≡ is_unserved rule.now }
{
    match rule.sides().server {
        Some(_) => false,
        None => true,
    }
}

/// Returns whether no row serves under the rule of a number.
#[tactic(auto, unfolding(crate::specs::NewPairs::is_unserved_under))]
pub(crate) fn is_unserved_by_number(book: &RuleBook, rule: u16) -> bool
    requires { rule < length book.now }
    ensures { result ≡ is_unserved_under book.now rule }
{
    is_unserved(book.rule(rule))
}
