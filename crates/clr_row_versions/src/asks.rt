//! Of how many rows a rule is asked.

ghost use Rattle.std.specs.Prelude.{◌≡◌, ◌<◌, length};
ghost use Rattle.clr_row_versions.specs.Candidates.{is_of_two, is_of_two_under, may_be_paired};
ghost use Rattle.clr_row_versions.specs.Versions.{row_of};

use crate::versions::Version;
use clr_rules::{Rule, RuleBook};

/// Returns whether a rule is asked of two rows.
fn is_of_two(rule: &Rule) -> bool
    ensures { result ≡ is_of_two rule.now }
{
    match rule.sides().second {
        Some(_) => true,
        None => false,
    }
}

/// Tests whether the rule of a number is asked of two rows.
#[tactic(auto, unfolding(crate::specs::Candidates::is_of_two_under))]
pub fn is_asked_of_two(book: &RuleBook, rule: u16) -> bool
    requires { rule < length book.now }
    ensures { result ≡ is_of_two_under book.now rule }
{
    is_of_two(book.rule(rule))
}

/// Tests whether the rule is asked of two rows and a version is of a side of these.
#[tactic(auto, unfolding(crate::specs::Candidates::may_be_paired))]
pub fn may_be_paired(book: &RuleBook, rule: u16, version: Version) -> bool
    requires { rule < length book.now }
    ensures { result ≡ may_be_paired book.now rule (row_of version.entry) }
{
    if !is_asked_of_two(book, rule) {
        return false;
    }
    let roles = book.roles_of(rule, version.as_held());
    roles.first || roles.second
}
