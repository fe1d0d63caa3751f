//! What is said of the orders of members.

ghost use Rattle.std.specs.Prelude.{◌≡◌, ◌==◌, IfOk, MatchOption, OnOk, [], length, true};
ghost use Rattle.clr_order_answers.specs.Answers.{AreAllHelped, IsAnswer, IsKnotAnswer, IsLeftAnswer, IsOrdered, IsUnhelpedAt};
ghost use Rattle.clr_order_answers.specs.Searching.{IsFoundIn, IsSearchable, PutsKnot};
ghost use Rattle.clr_order_knots.specs.Members.{ArePlaces, needs_at};
ghost use Rattle.clr_order_knots.specs.OpenNeeds.{AreHelped, AreWithin};
ghost use Rattle.clr_order_knots.specs.Peeling.{IsPeeled};

use crate::pairs::{Pair, pairs_of};
use crate::renumbering::{order_of, renumber_all};
use clr_order_knots::{Knot, Peeled, first_knot, large_knot, peel, waiting_members, whole_order};
use clr_order_search::{OpenNeed, OrderSearch, first_order};
use std::alloc::{AllocError, Global};

/// What can be said of the orders of members.
#[derive(Debug, Drop)]
pub enum OrderAnswer {
    /// An order of all members that works, and pairs of which the first goes before the second in it:
    /// each need has a pair of a helper and a blocker, and none of the pairs can be left out.
    Order { order: Vec<u16>, pairs: Vec<Pair> },
    /// The first need that no member helps, by its place in the list.
    Final(usize),
    /// Each order of all members breaks a need on the way. Either each of these members alone blocks a
    /// need that only others of them help, or needs join these and leave them no order.
    Stuck(Vec<u16>),
    /// Needs join these members, and these are more than `MOST_SEARCHED`; nothing is said of orders.
    TooMany(Vec<u16>),
}

/// Tests whether no member helps a need.
fn is_unhelped(need: &OpenNeed) -> bool
    ensures { result ≡ (length need.now.helpers.items == 0) }
{
    need.helpers.as_slice().is_empty()
}

/// Returns the place of the first need that no member helps, if there is one.
fn first_unhelped(needs: &[OpenNeed]) -> Option<usize>
    ensures { MatchOption result (AreAllHelped needs.now) (IsUnhelpedAt needs.now) }
{
    for at in 0..needs.len() {
        if is_unhelped(&needs[at]) {
            return Some(at);
        }
    }
    None
}

/// Returns an order of the members of a knot that helps its needs in time, where a search finds one.
fn search(
    alloc: Global,
    needs: &[OpenNeed],
    count: u16,
    knot: &Knot,
) -> Result<OrderSearch, AllocError>
    requires within { AreWithin needs.now count }
    requires knot { IsSearchable needs.now count knot.now }
    ensures { IfOk result (IsFoundIn needs.now count knot.now) }
{
    let members = knot.members.as_slice();
    let renumbered = renumber_all(alloc, members, needs, knot.inside.as_slice())?;
    match first_order(alloc, renumbered.as_slice(), members.len() as u16)? {
        OrderSearch::Found(places) => {
            let order = order_of(alloc, members, places.as_slice())?;
            Ok(OrderSearch::Found(order))
        }
        OrderSearch::NoneWorks => Ok(OrderSearch::NoneWorks),
        OrderSearch::TooMany => Ok(OrderSearch::TooMany),
    }
}

/// Puts the members of a knot in an order behind those that go first, and leaves the needs outside it.
fn put_knot(peeled: &mut Peeled, order: &[u16], outside: Vec<usize>) -> Result<(), AllocError>
    ensures { OnOk result (PutsKnot order.now outside.items peeled.old peeled.new) }
{
    peeled.firsts.extend_from_slice(order)?;
    peeled.left = outside;
    Ok(())
}

/// Returns the order of all members that begins and ends so, with its pairs.
fn ordered(
    alloc: Global,
    needs: &[OpenNeed],
    count: u16,
    peeled: &Peeled,
) -> Result<OrderAnswer, AllocError>
    requires within { AreWithin needs.now count }
    requires ends { IsPeeled needs.now count peeled.now }
    requires none { peeled.now.left.items ≡ [] }
    ensures { IfOk result (IsOrdered needs.now count) }
{
    let order = whole_order(
        alloc,
        count,
        peeled.firsts.as_slice(),
        peeled.lasts.as_slice(),
    )?;
    let pairs = pairs_of(alloc, needs, order.as_slice())?;
    Ok(OrderAnswer::Order { order, pairs })
}

/// Returns what can be said of the orders of all members, where these needs are left and no knot of
/// theirs is too large.
fn answer_of_knots(
    alloc: Global,
    needs: &[OpenNeed],
    count: u16,
    peeled: Peeled,
) -> Result<OrderAnswer, AllocError>
    requires within { AreWithin needs.now count }
    requires ends { IsPeeled needs.now count peeled }
    requires places { ArePlaces needs.now peeled.left.items }
    ensures { IfOk result (IsKnotAnswer needs.now count (needs_at needs.now peeled.left.items)) }
{
    let mut peeled = peeled;
    while !peeled.left.is_empty() {
        let knot = first_knot(alloc, needs, peeled.left.as_slice(), count)?;
        match search(alloc, needs, count, &knot)? {
            OrderSearch::Found(order) => put_knot(&mut peeled, order.as_slice(), knot.outside)?,
            OrderSearch::NoneWorks => return Ok(OrderAnswer::Stuck(knot.members)),
            OrderSearch::TooMany => return Ok(OrderAnswer::TooMany(knot.members)),
        }
    }
    ordered(alloc, needs, count, &peeled)
}

/// Returns what can be said of the orders of all members, where no members wait for one another.
fn answer_of_left(alloc: Global, needs: &[OpenNeed], count: u16) -> Result<OrderAnswer, AllocError>
    requires within { AreWithin needs.now count }
    requires helped { AreHelped needs.now }
    ensures { IfOk result (IsLeftAnswer needs.now count) }
{
    let peeled = peel(alloc, needs, count)?;
    if let Some(members) = large_knot(alloc, needs, peeled.left.as_slice(), count)? {
        return Ok(OrderAnswer::TooMany(members));
    }
    let answer = answer_of_knots(alloc, needs, count, peeled)?;
    Ok(answer)
}

/// Returns what can be said of the orders of all members below a number, where some needs of theirs
/// are open: `Final` wherever no member helps some need, with the first such need. Else `Stuck` where
/// members wait for one another, with the greatest set of these. Else members that block none of the
/// needs that are left go first, and members that help none go last. `TooMany` comes exactly where a
/// knot of more than `MOST_SEARCHED` members is left then, `Stuck` where a knot has no order, and else
/// `Order`. Fails only if memory runs out.
/// For example, where member 0 alone blocks a need that member 1 helps, the answer is the order 1, 0 with the pair
/// of these two. Where member 1 alone also blocks a need that member 0 helps, it is `Stuck`.
pub fn answer_of(alloc: Global, needs: &[OpenNeed], count: u16) -> Result<OrderAnswer, AllocError>
    requires { AreWithin needs.now count }
    ensures { IfOk result (IsAnswer needs.now count) }
{
    if let Some(at) = first_unhelped(needs) {
        return Ok(OrderAnswer::Final(at));
    }
    let waiting = waiting_members(alloc, needs, count)?;
    if !waiting.is_empty() {
        return Ok(OrderAnswer::Stuck(waiting));
    }
    let answer = answer_of_left(alloc, needs, count)?;
    Ok(answer)
}
