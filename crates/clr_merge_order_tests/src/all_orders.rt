//! What is said of orders in offices that dice make, beside the merges of all members in all orders.

use crate::dice_offices::{MadeUp, NAMES, made_up};
use crate::lists::{all_orders, has_all, keeps};
use crate::merges::{are_done, are_let_pass, certificate_of, is_cleared};
use clr_cert::Certificate;
use clr_merge_orders::{MergeOrder, merge_order};
use clr_order_answers::Pair;
use clr_scene_orders::SceneOrder;
use std::alloc::Global;
use std::test::Fail;

/// How many offices dice make.
const OFFICES: u64 = 200;

/// How many orders there are, in how many of them all merges are done, and of how many something else is said.
#[derive(Drop)]
struct Orders {
    all: usize,
    done: usize,
    odd: usize,
}

/// Returns how the orders of all members turn out, where this tells of each whether all merges are done, and whether something else is
/// said of it.
fn orders_by<F: FnMut(&[u16]) -> Option<(bool, bool)>>(
    alloc: Global,
    count: u16,
    mut told: F,
) -> Option<Orders>
    requires callable { F.IsAlwaysCallable told }
{
    let mut orders = Orders {
        all: 0,
        done: 0,
        odd: 0,
    };
    for order in all_orders(alloc, count).ok()? {
        let (is_done, is_odd) = told(order.as_slice())?;
        orders.all = orders.all.saturating_add(1);
        orders.done = orders.done.saturating_add(usize::from(is_done));
        orders.odd = orders.odd.saturating_add(usize::from(is_odd));
    }
    Some(orders)
}

/// Returns whether all merges are done in an order, and whether its plan says otherwise.
fn told_of(alloc: Global, made: &MadeUp, order: &[u16]) -> Option<(bool, bool)> {
    let is_done = are_done(alloc, made, order)?;
    Some((is_done, is_cleared(alloc, made, order)? != is_done))
}

/// Returns whether all merges are done in an order, and whether its plan says otherwise, or they are let pass where the order doesn't keep the
/// pairs, or not where it does.
fn told_under(
    alloc: Global,
    made: &MadeUp,
    certificate: &Certificate,
    pairs: &[Pair],
    order: &[u16],
) -> Option<(bool, bool)> {
    let (is_done, is_odd) = told_of(alloc, made, order)?;
    let is_kept = keeps(order, pairs);
    let is_let_pass = are_let_pass(alloc, made, certificate, order)?;
    Some((
        is_done,
        is_odd || is_let_pass != is_kept || is_kept && !is_done,
    ))
}

/// How what is said of an office turns out.
#[derive(Clone, Copy, Debug, PartialEq, Eq)]
enum Outcome {
    /// An order without pairs, and all orders are done.
    Free,
    /// An order with pairs, and all orders are done that keep these, but not all.
    Paired,
    /// A need that no member helps, and no order is done.
    Final,
    /// No order, and none is done.
    Stuck,
    /// A cell that two change, and no order is done.
    Planned,
    /// Something else.
    Wrong,
}

/// Returns the outcome where an order with pairs is said.
fn outcome_of_order(
    alloc: Global,
    made: &MadeUp,
    order: &[u16],
    pairs: &[Pair],
) -> Option<Outcome> {
    let certificate = certificate_of(alloc, made, order)?;
    let orders = orders_by(alloc, made.count, |order| {
        told_under(alloc, made, &certificate, pairs, order)
    })?;
    let is_free = orders.done == orders.all;
    if !has_all(order, made.count) || !keeps(order, pairs) || orders.odd != 0 {
        return Some(Outcome::Wrong);
    }
    Some(match (is_free, pairs.is_empty()) {
        (true, true) => Outcome::Free,
        (false, false) => Outcome::Paired,
        _ => Outcome::Wrong,
    })
}

/// Returns this outcome where no order is done.
fn outcome_of_none(alloc: Global, made: &MadeUp, outcome: Outcome) -> Option<Outcome> {
    let orders = orders_by(alloc, made.count, |order| told_of(alloc, made, order))?;
    if orders.done == 0 && orders.odd == 0 {
        Some(outcome)
    } else {
        Some(Outcome::Wrong)
    }
}

/// Returns how what is said of the members of an office turns out.
fn outcome_over(alloc: Global, made: &MadeUp) -> Option<Outcome> {
    let names = NAMES.get(..made.count as usize)?;
    match merge_order(alloc, &made.office, "LIVE", names).ok()? {
        MergeOrder::Planned(_) => outcome_of_none(alloc, made, Outcome::Planned),
        MergeOrder::Ordered(SceneOrder::Order { order, pairs }) => {
            outcome_of_order(alloc, made, order.as_slice(), pairs.as_slice())
        }
        MergeOrder::Ordered(SceneOrder::Final { .. }) => {
            outcome_of_none(alloc, made, Outcome::Final)
        }
        MergeOrder::Ordered(SceneOrder::Stuck(_)) => outcome_of_none(alloc, made, Outcome::Stuck),
        MergeOrder::Ordered(SceneOrder::TooMany(_)) => Some(Outcome::Wrong),
    }
}

/// Returns how what is said of the office that a seed makes turns out.
fn outcome_of_seed(alloc: Global, seed: u64) -> Option<Outcome> {
    let made = made_up(alloc, seed)?;
    outcome_over(alloc, &made)
}

/// Returns the outcomes of all offices.
fn outcomes(alloc: Global) -> Result<Vec<Outcome>, Fail> {
    let mut list = Vec::new(alloc);
    for seed in 0..OFFICES {
        list.push(outcome_of_seed(alloc, seed).ok_or("nothing is said")?)?;
    }
    Ok(list)
}

/// Returns how many turn out so.
fn count(outcomes: &[Outcome], wanted: Outcome) -> usize {
    outcomes
        .iter()
        .filter(|outcome| **outcome == wanted)
        .count()
}

/// An order is one in which all merges are done, and so is each other one that keeps its pairs, and no other is let pass under its certificate;
/// where none is said to be, none is done; and each order is planned as it turns out.
#[test]
fn orders_of_made_up_offices(rt: HostRuntime) -> Result<(), Fail> {
    let list = outcomes(rt.alloc())?;
    let list = list.as_slice();
    let free = count(list, Outcome::Free);
    let paired = count(list, Outcome::Paired);
    let unhelped = count(list, Outcome::Final);
    let stuck = count(list, Outcome::Stuck);
    let planned = count(list, Outcome::Planned);
    let wrong = count(list, Outcome::Wrong);
    assert!(rt;
        free > 5 && paired > 5 && unhelped > 5 && stuck > 0 && planned > 5 && wrong == 0,
        "{free} free, {paired} paired, {unhelped} final, {stuck} stuck, {planned} planned, {wrong} wrong"
    );
    Ok(())
}
