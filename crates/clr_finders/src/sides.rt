//! Which rows have a role in a rule, and which are of the side that serves.

ghost use Rattle.std.specs.Prelude.{◌≡◌};
ghost use Rattle.clr_rows.specs.Held.{held_of};
ghost use Rattle.clr_rules.specs.Sides.{has_role_in};
ghost use Rattle.clr_finders.specs.Sharing.{may_serve};

use clr_rows::Held;
use clr_rules::{Rule, is_of_side};

/// Returns whether a row is of some side of a rule.
#[tactic(auto, unfolding(clr_rules::specs::Sides::has_role_in))]
pub(crate) fn has_role(rule: &Rule, held: Held) -> bool
    ensures { result ≡ has_role_in rule.now (held_of held.entry) }
{
    match rule {
        Rule::Unique { subject, .. } => is_of_side(subject, held),
        Rule::Partner {
            subject,
            server,
            ..
        }
        | Rule::EndNode {
            subject,
            server,
            ..
        } => is_of_side(subject, held) || is_of_side(server, held),
        Rule::Crossing { a, b, server } => {
            is_of_side(a, held) || is_of_side(b, held) || is_of_side(server, held)
        }
        Rule::Near { a, b, .. } => is_of_side(a, held) || is_of_side(b, held),
    }
}

/// Returns whether a row is of the side of a rule that serves.
pub fn may_serve(rule: &Rule, held: Held) -> bool
    ensures { result ≡ may_serve rule.now (held_of held.entry) }
{
    match rule {
        Rule::Partner { server, .. }
        | Rule::EndNode { server, .. }
        | Rule::Crossing { server, .. } => is_of_side(server, held),
        Rule::Unique { .. } | Rule::Near { .. } => false,
    }
}
