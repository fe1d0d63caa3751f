//! Knots of many members: up to sixteen are searched, more are too many.

use crate::answers::{Wanted, is_answered};
use crate::searches::{ROW, open_need, row_needs};
use crate::within::answer_within;
use clr_order_search::OpenNeed;
use std::alloc::{AllocError, Global};
use std::test::Fail;

/// Each in the row before the next.
const ROW_PAIRS: [(u16, u16); 15] = [
    (9, 3),
    (3, 12),
    (12, 0),
    (0, 7),
    (7, 14),
    (14, 5),
    (5, 1),
    (1, 10),
    (10, 15),
    (15, 2),
    (2, 8),
    (8, 6),
    (6, 13),
    (13, 4),
    (4, 11),
];

#[test]
fn a_knot_of_sixteen_is_answered(rt: HostRuntime) -> Result<(), Fail> {
    let alloc = rt.alloc();
    let needs = row_needs(alloc, &ROW)?;
    let answer = answer_within(alloc, needs.as_slice(), 16)?;
    assert!(rt; is_answered(&answer, &Wanted::Order(&ROW, &ROW_PAIRS)));
    Ok(())
}

/// One more behind the row.
const LONGER_ROW: [u16; 17] = [9, 3, 12, 0, 7, 14, 5, 1, 10, 15, 2, 8, 6, 13, 4, 11, 16];

/// Those in the longer row, as they are numbered.
const SEVENTEEN: [u16; 17] = [0, 1, 2, 3, 4, 5, 6, 7, 8, 9, 10, 11, 12, 13, 14, 15, 16];

#[test]
fn a_knot_of_seventeen_is_too_large(rt: HostRuntime) -> Result<(), Fail> {
    let alloc = rt.alloc();
    let mut needs = row_needs(alloc, &LONGER_ROW)?;
    let answer = answer_within(alloc, needs.as_slice(), 17)?;
    assert!(rt; is_answered(&answer, &Wanted::TooMany(&SEVENTEEN)));
    needs.push(open_need(alloc, &[18], &[0])?)?;
    needs.push(open_need(alloc, &[1], &[19])?)?;
    let answer = answer_within(alloc, needs.as_slice(), 20)?;
    assert!(rt; is_answered(&answer, &Wanted::TooMany(&SEVENTEEN)));
    Ok(())
}

/// The row between one who goes first, two who are free, and one who goes last.
const ROW_WITH_OTHERS: [u16; 20] = [
    17, 9, 3, 12, 0, 7, 14, 5, 1, 10, 15, 2, 8, 6, 13, 4, 11, 18, 19, 16,
];

/// The pairs of the row, and the one who goes first and the one who goes last with those that need them.
const PAIRS_WITH_OTHERS: [(u16, u16); 17] = [
    (9, 3),
    (3, 12),
    (12, 0),
    (0, 7),
    (7, 14),
    (14, 5),
    (5, 1),
    (1, 10),
    (10, 15),
    (15, 2),
    (2, 8),
    (8, 6),
    (6, 13),
    (13, 4),
    (4, 11),
    (17, 9),
    (9, 16),
];

#[test]
fn members_outside_a_knot_do_not_count(rt: HostRuntime) -> Result<(), Fail> {
    let alloc = rt.alloc();
    let mut needs = row_needs(alloc, &ROW)?;
    needs.push(open_need(alloc, &[9], &[17])?)?;
    needs.push(open_need(alloc, &[16], &[9])?)?;
    let answer = answer_within(alloc, needs.as_slice(), 20)?;
    assert!(rt;
        is_answered(
            &answer,
            &Wanted::Order(&ROW_WITH_OTHERS, &PAIRS_WITH_OTHERS)
        )
    );
    Ok(())
}

/// Nine in a row, and then nine in another.
const ROWS: [u16; 18] = [0, 1, 2, 3, 4, 5, 6, 7, 8, 9, 10, 11, 12, 13, 14, 15, 16, 17];

/// In each of both rows, each before the next.
const PAIRS_OF_ROWS: [(u16, u16); 16] = [
    (0, 1),
    (1, 2),
    (2, 3),
    (3, 4),
    (4, 5),
    (5, 6),
    (6, 7),
    (7, 8),
    (9, 10),
    (10, 11),
    (11, 12),
    (12, 13),
    (13, 14),
    (14, 15),
    (15, 16),
    (16, 17),
];

#[test]
fn each_knot_is_searched_for_itself(rt: HostRuntime) -> Result<(), Fail> {
    let alloc = rt.alloc();
    let mut needs = row_needs(alloc, &ROWS[..9])?;
    for need in row_needs(alloc, &ROWS[9..])? {
        needs.push(need)?;
    }
    let answer = answer_within(alloc, needs.as_slice(), 18)?;
    assert!(rt; is_answered(&answer, &Wanted::Order(&ROWS, &PAIRS_OF_ROWS)));
    Ok(())
}

/// Returns needs by which each of some members waits for the next.
fn waiting_needs(alloc: Global, members: &[u16]) -> Result<Vec<OpenNeed>, AllocError> {
    let mut list = Vec::new(alloc);
    for at in 1..members.len() {
        list.push(open_need(alloc, &[members[at - 1]], &[members[at]])?)?;
    }
    Ok(list)
}

/// The last of seventeen comes first, and the first comes last.
const TURNED: [u16; 17] = [16, 15, 14, 13, 12, 11, 10, 9, 8, 7, 6, 5, 4, 3, 2, 1, 0];

/// Each of seventeen behind the next.
const TURNED_PAIRS: [(u16, u16); 16] = [
    (1, 0),
    (2, 1),
    (3, 2),
    (4, 3),
    (5, 4),
    (6, 5),
    (7, 6),
    (8, 7),
    (9, 8),
    (10, 9),
    (11, 10),
    (12, 11),
    (13, 12),
    (14, 13),
    (15, 14),
    (16, 15),
];

#[test]
fn seventeen_in_a_chain_are_no_knot(rt: HostRuntime) -> Result<(), Fail> {
    let alloc = rt.alloc();
    let mut needs = waiting_needs(alloc, &SEVENTEEN)?;
    let answer = answer_within(alloc, needs.as_slice(), 17)?;
    assert!(rt; is_answered(&answer, &Wanted::Order(&TURNED, &TURNED_PAIRS)));
    needs.push(open_need(alloc, &[16], &[0])?)?;
    let answer = answer_within(alloc, needs.as_slice(), 17)?;
    assert!(rt; is_answered(&answer, &Wanted::Stuck(&SEVENTEEN)));
    Ok(())
}
