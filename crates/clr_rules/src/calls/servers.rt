//! Which rows serve the subjects of a rule.

ghost use Rattle.std.specs.Prelude.{◌≡◌, IfSome, option_map};
ghost use Rattle.clr_rows.specs.Held.{held_of};
ghost use Rattle.clr_rows.specs.Parts.{part_of};
ghost use Rattle.clr_rules.specs.Calls.{is_server, suits, are_one_point, is_crossing_at};
ghost use Rattle.clr_rules.specs.Fitting.{IsSoundShape};
ghost use Rattle.clr_rules.specs.Sides.{point_of};

use crate::calls::segments::is_crossing_at;
use crate::needs::Ask;
use crate::rules::Rule;
use crate::shapes::{end_in, point_in};
use crate::sides::{are_equal_in, is_of, is_of_side};
use clr_rows::{Held, Place};
use clr_segments::part;

/// Returns whether both places are there and the same.
#[tactic(auto, using(crate::proofs::FieldLemmas::is_one_point))]
fn are_one_point(p: Option<Place>, q: Option<Place>) -> bool
    ensures { result ≡ are_one_point p q }
{
    match (p, q) {
        (Some(p), Some(q)) => p.same(&q),
        _ => false,
    }
}

/// Returns whether a row is a point of the parts of an ask, which are there and don't overlap.
fn is_at_crossing(ask: Ask, first: Held, second: Held, server: Held) -> bool
    requires first { IsSoundShape first.row.now.shape }
    requires second { IsSoundShape second.row.now.shape }
    requires server { IsSoundShape server.row.now.shape }
    ensures { result ≡ is_crossing_at (part_of first.entry.row.now.shape ask.first_part)
        (part_of second.entry.row.now.shape ask.second_part) (point_of (held_of server.entry)) }
{
    is_crossing_at(
        part(&first.row.shape, ask.first_part),
        part(&second.row.shape, ask.second_part),
        point_in(&server.row.shape),
    )
}

/// Returns whether a row is such that it serves the subjects of this rule where it is of the
/// server's side.
fn suits(rule: &Rule, ask: Ask, first: Held, second: Option<Held>, server: Held) -> bool
    requires first { IsSoundShape first.row.now.shape }
    requires second { IfSome second (λ held. IsSoundShape held.row.now.shape) }
    requires server { IsSoundShape server.row.now.shape }
    ensures { result ≡ suits rule.now ask (held_of first.entry) (option_map held_of second.entry) (held_of server.entry) }
{
    match (rule, second) {
        (
            Rule::Partner {
                subject,
                columns,
                server_columns,
                ..
            },
            None,
        ) => {
            ask.is_plain()
                && is_of_side(subject, first)
                && are_equal_in(first, columns.as_slice(), server, server_columns.as_slice())
        }
        (Rule::EndNode { subject, tip, .. }, None) => {
            ask.is_plain()
                && is_of_side(subject, first)
                && are_one_point(end_in(*tip, &first.row.shape), point_in(&server.row.shape))
        }
        (Rule::Crossing { .. }, Some(second)) => is_at_crossing(ask, first, second, server),
        _ => false,
    }
}

/// Returns whether a row serves the subjects of this rule.
#[tactic(auto, unfolding(crate::specs::Calls::is_server))]
pub(super) fn is_server(
    rule: &Rule,
    ask: Ask,
    first: Held,
    second: Option<Held>,
    server: Held,
) -> bool
    requires first { IsSoundShape first.row.now.shape }
    requires second { IfSome second (λ held. IsSoundShape held.row.now.shape) }
    requires server { IsSoundShape server.row.now.shape }
    ensures { result ≡ is_server rule.now ask (held_of first.entry) (option_map held_of second.entry) (held_of server.entry) }
{
    is_of(rule.sides().server, server) && suits(rule, ask, first, second, server)
}
