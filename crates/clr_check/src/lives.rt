//! What lives do where some members go before others.

ghost use Rattle.std.specs.Prelude.{◌≡◌, option_map};
ghost use Rattle.clr_needs.specs.Members.{lifetime};
ghost use Rattle.clr_check.specs.Lives.{is_up_to, lasts, lasts_while, lasts_while_if_any, never_both_live, one_always_lives};
ghost use Rattle.clr_merge_sets.specs.PositionPairs.{pairs_say};

use clr_merge_sets::{PositionPair, goes_before};
use clr_needs::Life;

/// Returns whether one member is another, or goes before it.
fn is_up_to(pairs: &[PositionPair], earlier: u16, later: u16) -> bool
    ensures { result ≡ is_up_to (pairs_say pairs.now) earlier later }
{
    earlier == later || goes_before(pairs, earlier as usize, later as usize)
}

/// Returns whether the first life goes on while the second does.
fn lasts_while(pairs: &[PositionPair], life: Life, other: Life) -> bool
    ensures { result ≡ lasts_while (pairs_say pairs.now) (lifetime life) (lifetime other) }
{
    match (life, other) {
        (Life::Always, _) => true,
        (Life::With(earlier), Life::With(later)) => is_up_to(pairs, earlier, later),
        (Life::Without(later), Life::Without(earlier)) => is_up_to(pairs, earlier, later),
        _ => false,
    }
}

/// Returns whether a life goes on while a subject does, if there is one.
fn lasts_while_if_any(pairs: &[PositionPair], life: Life, subject: Option<Life>) -> bool
    ensures { result ≡ lasts_while_if_any (pairs_say pairs.now) (lifetime life) (option_map lifetime subject) }
{
    match subject {
        Some(subject) => lasts_while(pairs, life, subject),
        None => false,
    }
}

/// Returns whether a version of this life stands wherever the subjects do.
pub(crate) fn lasts(
    pairs: &[PositionPair],
    life: Life,
    first: Option<Life>,
    second: Option<Life>,
) -> bool
    ensures { result ≡ lasts (pairs_say pairs.now) (lifetime life) (option_map lifetime first) (option_map lifetime second) }
{
    lasts_while_if_any(pairs, life, first) || lasts_while_if_any(pairs, life, second)
}

/// Returns whether of two lives one always goes on.
pub(crate) fn one_always_lives(pairs: &[PositionPair], one: Life, other: Life) -> bool
    ensures { result ≡ one_always_lives (pairs_say pairs.now) (lifetime one) (lifetime other) }
{
    match (one, other) {
        (Life::With(earlier), Life::Without(later)) => is_up_to(pairs, earlier, later),
        (Life::Without(later), Life::With(earlier)) => is_up_to(pairs, earlier, later),
        _ => false,
    }
}

/// Returns whether two lives never go on both.
pub(crate) fn never_both_live(pairs: &[PositionPair], one: Life, other: Life) -> bool
    ensures { result ≡ never_both_live (pairs_say pairs.now) (lifetime one) (lifetime other) }
{
    match (one, other) {
        (Life::With(later), Life::Without(earlier)) => is_up_to(pairs, earlier, later),
        (Life::Without(earlier), Life::With(later)) => is_up_to(pairs, earlier, later),
        _ => false,
    }
}
