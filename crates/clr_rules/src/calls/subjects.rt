//! Which rows call a rule.

ghost use Rattle.std.specs.Prelude.{◌≡◌, true, Some, None, IfSome};
ghost use Rattle.std.specs.Option.{option_copied};
ghost use Rattle.clr_rows.specs.Held.{held_of};
ghost use Rattle.clr_rows.specs.Parts.{part_of};
ghost use Rattle.clr_rows.specs.Places.{InRange};
ghost use Rattle.clr_rules.specs.Books.{is_distance, has_distance};
ghost use Rattle.clr_rules.specs.Calls.{plain_ask, are_subjects, are_related, have_meeting, are_nearer};
ghost use Rattle.clr_rules.specs.Fitting.{IsSoundShape};
ghost use Rattle.clr_rules.specs.Sides.{are_of};

use crate::calls::segments::have_meeting;
use crate::needs::Ask;
use crate::rules::Rule;
use crate::shapes::point_in;
use crate::sides::{Side, are_equal_in, is_of};
use clr_rows::{Held, Place};
use clr_segments::{near, part};

/// Returns whether one row is of the one side and one of the other, in either arrangement.
fn are_of(a: Option<&Side>, b: Option<&Side>, first: Held, second: Held) -> bool
    ensures { result ≡ are_of (option_copied a.entry) (option_copied b.entry) (held_of first.entry) (held_of second.entry) }
{
    if is_of(a, first) && is_of(b, second) {
        true
    } else {
        is_of(a, second) && is_of(b, first)
    }
}

/// Returns whether the parts of an ask are there and have a common point.
fn have_meeting_parts(ask: Ask, first: Held, second: Held) -> bool
    requires first { IsSoundShape first.row.now.shape }
    requires second { IsSoundShape second.row.now.shape }
    ensures { result ≡ have_meeting (part_of first.entry.row.now.shape ask.first_part) (part_of second.entry.row.now.shape ask.second_part) }
{
    have_meeting(
        part(&first.row.shape, ask.first_part),
        part(&second.row.shape, ask.second_part),
    )
}

/// Returns whether both points are there and nearer than d.
fn are_nearer(d: i64, p: Option<Place>, q: Option<Place>) -> bool
    requires distance { is_distance d ≡ true }
    requires p_in { IfSome p InRange }
    requires q_in { IfSome q InRange }
    ensures { result ≡ are_nearer d p q }
{
    match (p, q) {
        (Some(p), Some(q)) => near(p, q, d),
        _ => false,
    }
}

/// Returns whether two rows are such that they call this rule where they are of its sides.
fn are_related(rule: &Rule, ask: Ask, first: Held, second: Held) -> bool
    requires distance { has_distance rule.now ≡ true }
    requires first { IsSoundShape first.row.now.shape }
    requires second { IsSoundShape second.row.now.shape }
    ensures { result ≡ are_related rule.now ask (held_of first.entry) (held_of second.entry) }
{
    match rule {
        Rule::Unique { columns, .. } => {
            ask.is_plain() && are_equal_in(first, columns.as_slice(), second, columns.as_slice())
        }
        Rule::Crossing { .. } => have_meeting_parts(ask, first, second),
        Rule::Near { d, .. } => {
            ask.is_plain()
                && are_nearer(*d, point_in(&first.row.shape), point_in(&second.row.shape))
        }
        Rule::Partner { .. } | Rule::EndNode { .. } => false,
    }
}

/// Returns whether a row alone calls this rule.
#[tactic(auto, unfolding(crate::specs::Calls::are_subjects))]
pub(super) fn is_subject(rule: &Rule, number: u16, held: Held) -> bool
    ensures { result ≡ are_subjects rule.now (plain_ask number) (held_of held.entry) None }
{
    is_of(rule.sides().alone, held)
}

/// Returns whether two rows call this rule.
#[tactic(auto, unfolding(crate::specs::Calls::are_subjects))]
pub(super) fn are_subjects(rule: &Rule, ask: Ask, first: Held, second: Held) -> bool
    requires distance { has_distance rule.now ≡ true }
    requires first { IsSoundShape first.row.now.shape }
    requires second { IsSoundShape second.row.now.shape }
    ensures { result ≡ are_subjects rule.now ask (held_of first.entry) (Some (held_of second.entry)) }
{
    let sides = rule.sides();
    are_of(sides.first, sides.second, first, second) && are_related(rule, ask, first, second)
}
