//! The sides of a rule that a row is of.

ghost use Rattle.std.specs.Prelude.{◌≡◌, ◌<◌, length};
ghost use Rattle.clr_rows.specs.Held.{held_of};
ghost use Rattle.clr_rules.specs.Roles.{roles, roles_under};

use crate::books::RuleBook;
use crate::rules::Rule;
use crate::sides::is_of;
use clr_rows::Held;

/// Which sides of a rule a row is of: it may be a subject alone, the first or the second of two
/// subjects in either arrangement, and a server.
#[derive(Clone, Copy, Debug, PartialEq, Eq)]
pub struct Roles {
    pub alone: bool,
    pub first: bool,
    pub second: bool,
    pub server: bool,
}

/// Returns the roles of a row in needs of this rule.
#[tactic(auto, unfolding(crate::specs::Roles::roles))]
fn roles_by_rule(rule: &Rule, held: Held) -> Roles
    ensures { result ≡ roles rule.now (held_of held.entry) }
{
    let sides = rule.sides();
    Roles {
        alone: is_of(sides.alone, held),
        first: is_of(sides.first, held),
        second: is_of(sides.second, held),
        server: is_of(sides.server, held),
    }
}

impl RuleBook {
    /// Returns which sides of the rule of a number a row is of. The rule's number is below `len`.
    #[tactic(auto, unfolding(crate::specs::Roles::roles_under))]
    pub fn roles_of(&self, rule: u16, held: Held) -> Roles
        requires { rule < length self.now }
        ensures { result ≡ roles_under self.now rule (held_of held.entry) }
    {
        roles_by_rule(self.rule(rule), held)
    }
}
