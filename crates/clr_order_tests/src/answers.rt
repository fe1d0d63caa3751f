//! What is said of the orders of members, by hand.

use crate::searches::{Blocked, open_needs};
use crate::within::answer_within;
use clr_order_answers::{OrderAnswer, Pair};
use std::alloc::{AllocError, Global};
use std::test::Fail;

/// What is wanted.
pub(crate) enum Wanted {
    /// This order, with these pairs.
    Order(&'static [u16], &'static [(u16, u16)]),
    /// The need at this place, as final.
    Final(usize),
    /// These members, as stuck.
    Stuck(&'static [u16]),
    /// These members, as too many.
    TooMany(&'static [u16]),
}

/// How many members there are, their needs, and what is wanted.
type Case = (u16, &'static [Blocked], Wanted);

/// Returns whether a pair is of these two.
fn is_pair(pair: Pair, wanted: (u16, u16)) -> bool {
    pair.earlier == wanted.0 && pair.later == wanted.1
}

/// Returns whether just these pairs were found, in this order.
fn are_pairs(found: &[Pair], wanted: &[(u16, u16)]) -> bool {
    found.len() == wanted.len()
        && found
            .iter()
            .zip(wanted)
            .all(|(pair, members)| is_pair(*pair, *members))
}

/// Returns whether just this was answered.
pub(crate) fn is_answered(answer: &Option<OrderAnswer>, wanted: &Wanted) -> bool {
    match (answer, wanted) {
        (Some(OrderAnswer::Order { order, pairs }), Wanted::Order(members, goes_before)) => {
            order.as_slice() == *members && are_pairs(pairs.as_slice(), goes_before)
        }
        (Some(OrderAnswer::Final(at)), Wanted::Final(place)) => at == place,
        (Some(OrderAnswer::Stuck(found)), Wanted::Stuck(members)) => found.as_slice() == *members,
        (Some(OrderAnswer::TooMany(found)), Wanted::TooMany(members)) => {
            found.as_slice() == *members
        }
        _ => false,
    }
}

/// Returns the position of the first case that is answered otherwise; none where each is answered as it is wanted.
fn first_wrong(alloc: Global, cases: &[Case]) -> Result<Option<usize>, AllocError> {
    for (at, (count, needs, wanted)) in cases.iter().enumerate() {
        let needs = open_needs(alloc, needs)?;
        let answer = answer_within(alloc, needs.as_slice(), *count)?;
        if !is_answered(&answer, wanted) {
            return Ok(Some(at));
        }
    }
    Ok(None)
}

/// Nobody is there; nothing is asked; one waits for another; a chain of three beside one who is free; and who is helped by either of two.
const ORDERS: [Case; 5] = [
    (0, &[], Wanted::Order(&[], &[])),
    (3, &[], Wanted::Order(&[0, 1, 2], &[])),
    (3, &[(&[0], &[2])], Wanted::Order(&[2, 1, 0], &[(2, 0)])),
    (
        4,
        &[(&[0], &[1]), (&[1], &[2])],
        Wanted::Order(&[2, 1, 3, 0], &[(1, 0), (2, 1)]),
    ),
    (
        3,
        &[(&[0], &[1, 2]), (&[0], &[2])],
        Wanted::Order(&[1, 2, 0], &[(2, 0)]),
    ),
];

#[test]
fn members_go_first_and_last(rt: HostRuntime) -> Result<(), Fail> {
    assert_eq!(rt; first_wrong(rt.alloc(), &ORDERS)?, None);
    Ok(())
}

/// The first need that nobody helps, although two others wait for each other; two who wait for each other; and one who waits for these,
/// beside one who has somebody else too.
const WAITING: [Case; 3] = [
    (
        3,
        &[(&[0], &[1]), (&[1], &[0]), (&[2], &[]), (&[0], &[])],
        Wanted::Final(2),
    ),
    (2, &[(&[0], &[1]), (&[1], &[0])], Wanted::Stuck(&[0, 1])),
    (
        5,
        &[(&[0], &[1]), (&[1], &[0]), (&[2], &[0]), (&[3], &[2, 4])],
        Wanted::Stuck(&[0, 1, 2]),
    ),
];

#[test]
fn members_wait_for_one_another(rt: HostRuntime) -> Result<(), Fail> {
    assert_eq!(rt; first_wrong(rt.alloc(), &WAITING)?, None);
    Ok(())
}

/// Of three nobody can be the last; and five of whom four have to stand between others, which no row does, beside one who goes last and
/// one who is free.
const TIGHT: [Case; 2] = [
    (
        3,
        &[(&[0, 1], &[2]), (&[1, 2], &[0]), (&[0, 2], &[1])],
        Wanted::Stuck(&[0, 1, 2]),
    ),
    (
        7,
        &[
            (&[1], &[3, 4]),
            (&[3, 4], &[1]),
            (&[4], &[1, 0]),
            (&[1, 0], &[4]),
            (&[0], &[4, 2]),
            (&[4, 2], &[0]),
            (&[2], &[3, 1]),
            (&[3, 1], &[2]),
            (&[5], &[0]),
        ],
        Wanted::Stuck(&[0, 1, 2, 3, 4]),
    ),
];

#[test]
fn a_knot_without_an_order_is_stuck(rt: HostRuntime) -> Result<(), Fail> {
    assert_eq!(rt; first_wrong(rt.alloc(), &TIGHT)?, None);
    Ok(())
}
