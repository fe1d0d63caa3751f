//! Pairs of members of which the first goes before the second, so that needs are helped in time.

ghost use Rattle.std.specs.Prelude.{◌≡◌, ◌||◌, ◌<◌, ◌+◌, true, drop, length, IfOk, MatchOption, OnOk};
ghost use Rattle.std.specs.List.{list_all};
ghost use Rattle.clr_order_answers.specs.Pairs.{AreAllApart, ArePairsFor, IsPairFor, are_served, is_served, serves};
ghost use Rattle.clr_order_answers.specs.Choosing.{AddsPair, AreKeptOf, AreServingPairs, KeepsNeeded};
ghost use Rattle.clr_order_answers.specs.Places.{IsFirstAmong, IsLastAmong, IsNoneAmong};
ghost use Rattle.clr_order_knots.specs.OpenNeeds.{AreSidesApart};
ghost use Rattle.clr_order_knots.specs.Peeling.{AreHelpedInTime};
ghost use Rattle.clr_order_search.specs.Laws.{IsHelpedInTime};
ghost use Rattle.clr_order_search.specs.OpenNeeds.{has};

use clr_order_search::OpenNeed;
use std::alloc::{AllocError, Global};

/// Two members, of which the first goes before the second.
#[derive(Clone, Copy, Debug)]
pub struct Pair {
    pub earlier: u16,
    pub later: u16,
}

/// Tests whether the first of a pair helps a need that the second blocks.
fn serves(pair: Pair, need: &OpenNeed) -> bool
    ensures { result ≡ serves pair need.now }
{
    need.helpers.contains(&pair.earlier) && need.blockers.contains(&pair.later)
}

/// Tests whether one of some pairs serves a need.
fn is_served(pairs: &[Pair], need: &OpenNeed) -> bool
    ensures { result ≡ is_served pairs.now need.now }
{
    pairs.iter().any(|pair| serves(*pair, need))
}

/// Tests whether each need is served by one of some pairs or of others.
fn are_served(needs: &[OpenNeed], pairs: &[Pair], others: &[Pair]) -> bool
    ensures { result ≡ list_all (λ need. is_served pairs.now need || is_served others.now need) needs.now }
{
    needs
        .iter()
        .all(|need| is_served(pairs, need) || is_served(others, need))
}

/// Tests whether a member is one of some.
fn is_one_of(members: &[u16], member: u16) -> bool
    ensures { result ≡ has members.now member }
{
    members.contains(&member)
}

/// Returns the first of some members in an order.
fn first_of(order: &[u16], members: &[u16]) -> Option<u16>
    ensures { MatchOption result (IsNoneAmong members.now order.now) (IsFirstAmong members.now order.now) }
{
    for at in 0..order.len() {
        if is_one_of(members, order[at]) {
            return Some(order[at]);
        }
    }
    None
}

/// Returns the last of some members in an order.
fn last_of(order: &[u16], members: &[u16]) -> Option<u16>
    ensures { MatchOption result (IsNoneAmong members.now order.now) (IsLastAmong members.now order.now) }
{
    let mut last = None;
    for at in 0..order.len() {
        if is_one_of(members, order[at]) {
            last = Some(order[at]);
        }
    }
    last
}

/// Returns the first helper of a need in an order, and the last of its blockers there.
fn pair_for(order: &[u16], need: &OpenNeed) -> Option<Pair>
    requires helped { IsHelpedInTime order.now need.now }
    requires apart { AreSidesApart need.now }
    ensures { MatchOption result ⊥ (IsPairFor order.now need.now) }
{
    let earlier = first_of(order, need.helpers.as_slice())?;
    let later = last_of(order, need.blockers.as_slice())?;
    Some(Pair { earlier, later })
}

/// Adds a pair for a need, unless one of the pairs serves it.
fn add_pair(order: &[u16], need: &OpenNeed, pairs: &mut Vec<Pair>) -> Result<(), AllocError>
    requires helped { IsHelpedInTime order.now need.now }
    requires apart { AreSidesApart need.now }
    ensures { OnOk result (AddsPair order.now need.now pairs.old.items pairs.new.items) }
{
    if is_served(pairs.as_slice(), need) {
        return Ok(());
    }
    match pair_for(order, need) {
        None => Ok(()),
        Some(pair) => {
            pairs.push(pair)?;
            Ok(())
        }
    }
}

/// Returns pairs that serve the needs, one after another: one more wherever no pair serves a need yet.
fn pairs_in_turn(alloc: Global, needs: &[OpenNeed], order: &[u16]) -> Result<Vec<Pair>, AllocError>
    requires helped { AreHelpedInTime order.now needs.now }
    requires apart { AreAllApart needs.now }
    ensures { IfOk result (λ pairs. AreServingPairs needs.now order.now pairs.items) }
{
    let mut pairs = Vec::new(alloc);
    for need in needs {
        add_pair(order, need, &mut pairs)?;
    }
    Ok(pairs)
}

/// Tests whether each need is served by one of some pairs or of those behind a position of others.
fn are_served_without(needs: &[OpenNeed], kept: &[Pair], pairs: &[Pair], at: usize) -> bool
    requires { at < length pairs.now }
    ensures { result ≡ list_all (λ need. is_served kept.now need || is_served (drop (at + 1) pairs.now) need) needs.now }
{
    are_served(needs, kept, &pairs[at + 1..])
}

/// Adds the pair at a position to those that are kept, unless these and those behind it serve each
/// need without it.
fn keep_needed(
    needs: &[OpenNeed],
    pairs: &[Pair],
    at: usize,
    kept: &mut Vec<Pair>,
) -> Result<(), AllocError>
    requires { at < length pairs.now }
    ensures { OnOk result (KeepsNeeded needs.now pairs.now at kept.old.items kept.new.items) }
{
    if are_served_without(needs, kept.as_slice(), pairs, at) {
        return Ok(());
    }
    kept.push(pairs[at])?;
    Ok(())
}

/// Returns those of some pairs without which not all needs would be served.
fn without_needless(
    alloc: Global,
    needs: &[OpenNeed],
    pairs: &[Pair],
) -> Result<Vec<Pair>, AllocError>
    requires { are_served pairs.now needs.now ≡ true }
    ensures { IfOk result (λ kept. AreKeptOf needs.now pairs.now kept.items) }
{
    let mut kept = Vec::new(alloc);
    for at in 0..pairs.len() {
        keep_needed(needs, pairs, at, &mut kept)?;
    }
    Ok(kept)
}

/// Returns pairs of which the first goes before the second in an order, where each need is helped in
/// time: each need has a pair of a helper and a blocker, and without any of the pairs some need
/// would have none.
pub fn pairs_of(alloc: Global, needs: &[OpenNeed], order: &[u16]) -> Result<Vec<Pair>, AllocError>
    requires helped { AreHelpedInTime order.now needs.now }
    requires apart { AreAllApart needs.now }
    ensures { IfOk result (λ pairs. ArePairsFor needs.now order.now pairs.items) }
{
    let pairs = pairs_in_turn(alloc, needs, order)?;
    let kept = without_needless(alloc, needs, pairs.as_slice())?;
    Ok(kept)
}
