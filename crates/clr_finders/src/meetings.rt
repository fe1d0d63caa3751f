//! Rows that are found with one another, by their spots.

ghost use Rattle.std.specs.Prelude.{◌≡◌};
ghost use Rattle.std.specs.Option.{option_copied};
ghost use Rattle.clr_spots.specs.Spots.{have_common_spot};
ghost use Rattle.clr_finders.specs.Sharing.{are_meeting, is_met};

use crate::row_spots::RuleSpots;
use clr_spots::Spot;

/// Returns whether some spot is in both lists.
fn have_common_spot(first: &[Spot], second: &[Spot]) -> bool
    ensures { result ≡ have_common_spot first.now second.now }
{
    for spot in first {
        if second.contains(spot) {
            return true;
        }
    }
    false
}

/// Returns whether two rows of these spots have a role, and share a spot or one of them is wide.
#[tactic(auto, unfolding(crate::specs::Sharing::are_meeting))]
fn are_meeting(first: &RuleSpots, second: &RuleSpots) -> bool
    ensures { result ≡ are_meeting first.now second.now }
{
    first.has_role
        && second.has_role
        && (first.spots.wide
            || second.spots.wide
            || have_common_spot(first.spots.list.as_slice(), second.spots.list.as_slice()))
}

/// Tests whether a row of the other spots, if there is one, is found with a row of the first: both
/// have a role, and they share a spot or one of them is wide. Where servers alone are looked for,
/// it is of the side that serves, too.
pub(crate) fn is_met(servers: bool, spots: &RuleSpots, other: Option<&RuleSpots>) -> bool
    ensures { result ≡ is_met servers spots.now (option_copied other.entry) }
{
    match other {
        Some(other) => are_meeting(spots, other) && (!servers || other.may_serve),
        None => false,
    }
}
