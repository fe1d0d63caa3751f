//! Orders that are found, or that none works, by hand.

use clr_order_search::{MOST_SEARCHED, OpenNeed, OrderSearch, first_order};
use std::alloc::{AllocError, Global};
use std::test::Fail;

/// A need by its blockers and its helpers.
pub(crate) type Blocked = (&'static [u16], &'static [u16]);

/// How many members there are, their needs, and the order that is wanted, if one works.
pub(crate) type Case = (u16, &'static [Blocked], Option<&'static [u16]>);

pub(crate) fn open_need(
    alloc: Global,
    blockers: &[u16],
    helpers: &[u16],
) -> Result<OpenNeed, AllocError> {
    Ok(OpenNeed {
        blockers: Vec::from_slice(alloc, blockers)?,
        helpers: Vec::from_slice(alloc, helpers)?,
    })
}

/// Returns the needs of a case.
pub(crate) fn open_needs(alloc: Global, needs: &[Blocked]) -> Result<Vec<OpenNeed>, AllocError> {
    let mut list = Vec::new(alloc);
    for (blockers, helpers) in needs {
        list.push(open_need(alloc, blockers, helpers)?)?;
    }
    Ok(list)
}

/// Returns whether just this order was found, or that none works where none is wanted.
pub(crate) fn is_found(found: &OrderSearch, wanted: Option<&[u16]>) -> bool {
    match (found, wanted) {
        (OrderSearch::Found(order), Some(wanted)) => order.as_slice() == wanted,
        (OrderSearch::NoneWorks, None) => true,
        _ => false,
    }
}

/// Returns the position of the first case in which another order is found; none where each is as it is wanted.
pub(crate) fn first_wrong(alloc: Global, cases: &[Case]) -> Result<Option<usize>, AllocError> {
    for (at, (count, needs, wanted)) in cases.iter().enumerate() {
        let needs = open_needs(alloc, needs)?;
        let found = first_order(alloc, needs.as_slice(), *count)?;
        if !is_found(&found, *wanted) {
            return Ok(Some(at));
        }
    }
    Ok(None)
}

/// Nobody is there, nothing is asked, and one waits for another.
const PLAIN: [Case; 4] = [
    (0, &[], Some(&[])),
    (3, &[], Some(&[0, 1, 2])),
    (2, &[(&[0], &[1])], Some(&[1, 0])),
    (2, &[(&[1], &[0])], Some(&[0, 1])),
];

#[test]
fn members_come_as_they_are_numbered_but_for_those_that_wait(rt: HostRuntime) -> Result<(), Fail> {
    assert_eq!(rt; first_wrong(rt.alloc(), &PLAIN)?, None);
    Ok(())
}

/// A chain of three; two helpers, of whom one is enough; two blockers, of whom one may come first; and one that waits for
/// either of two, of whom only one may come before it.
const WAITING: [Case; 4] = [
    (3, &[(&[0], &[1]), (&[1], &[2])], Some(&[2, 1, 0])),
    (3, &[(&[0], &[1, 2])], Some(&[1, 0, 2])),
    (3, &[(&[0, 1], &[2])], Some(&[0, 2, 1])),
    (3, &[(&[0], &[1, 2]), (&[1, 2], &[0])], Some(&[1, 0, 2])),
];

#[test]
fn members_wait_for_helpers(rt: HostRuntime) -> Result<(), Fail> {
    assert_eq!(rt; first_wrong(rt.alloc(), &WAITING)?, None);
    Ok(())
}

/// Two that exchange what each needs of the other; a need without helpers; a need of a member that isn't there, which never
/// helps; one that is blocked by such a member, and so never broken; and needs that are broken from the start.
const ODD: [Case; 6] = [
    (2, &[(&[0], &[1]), (&[1], &[0])], None),
    (3, &[(&[0, 2], &[])], None),
    (2, &[(&[0], &[5])], None),
    (2, &[(&[0, 7], &[])], Some(&[0, 1])),
    (1, &[(&[], &[0])], None),
    (0, &[(&[], &[])], None),
];

#[test]
fn exchanges_and_needs_without_helpers_have_no_order(rt: HostRuntime) -> Result<(), Fail> {
    assert_eq!(rt; first_wrong(rt.alloc(), &ODD)?, None);
    Ok(())
}

/// 1 stands between 3 and 4, 4 between 1 and 0, and 0 between 4 and 2: so 3, 1, 4, 0, 2, or the other way round. With 2
/// between 3 and 1 too there is no order.
const BETWEEN: [Case; 2] = [
    (
        5,
        &[
            (&[1], &[3, 4]),
            (&[3, 4], &[1]),
            (&[4], &[1, 0]),
            (&[1, 0], &[4]),
            (&[0], &[4, 2]),
            (&[4, 2], &[0]),
        ],
        Some(&[2, 0, 4, 1, 3]),
    ),
    (
        5,
        &[
            (&[1], &[3, 4]),
            (&[3, 4], &[1]),
            (&[4], &[1, 0]),
            (&[1, 0], &[4]),
            (&[0], &[4, 2]),
            (&[4, 2], &[0]),
            (&[2], &[3, 1]),
            (&[3, 1], &[2]),
        ],
        None,
    ),
];

#[test]
fn members_stand_between_others(rt: HostRuntime) -> Result<(), Fail> {
    assert_eq!(rt; first_wrong(rt.alloc(), &BETWEEN)?, None);
    Ok(())
}

/// Sixteen in a row, each between those beside it.
pub(crate) const ROW: [u16; 16] = [9, 3, 12, 0, 7, 14, 5, 1, 10, 15, 2, 8, 6, 13, 4, 11];

/// Returns the needs by which each in a row but the ends stands between those beside it.
pub(crate) fn row_needs(alloc: Global, row: &[u16]) -> Result<Vec<OpenNeed>, AllocError> {
    let mut list = Vec::new(alloc);
    for at in 2..row.len() {
        let beside = [row[at - 2], row[at]];
        list.push(open_need(alloc, &[row[at - 1]], &beside)?)?;
        list.push(open_need(alloc, &beside, &[row[at - 1]])?)?;
    }
    Ok(list)
}

#[test]
fn a_knot_of_sixteen_is_searched(rt: HostRuntime) -> Result<(), Fail> {
    let alloc = rt.alloc();
    let mut needs = row_needs(alloc, &ROW)?;
    let found = first_order(alloc, needs.as_slice(), MOST_SEARCHED)?;
    assert!(rt; is_found(&found, Some(&ROW)));
    needs.push(open_need(alloc, &[9], &[11])?)?;
    let mut turned = ROW;
    turned.reverse();
    let found = first_order(alloc, needs.as_slice(), MOST_SEARCHED)?;
    assert!(rt; is_found(&found, Some(&turned)));
    needs.push(open_need(alloc, &[11], &[9])?)?;
    let found = first_order(alloc, needs.as_slice(), MOST_SEARCHED)?;
    assert!(rt; is_found(&found, None));
    Ok(())
}

#[test]
fn seventeen_members_are_too_many(rt: HostRuntime) -> Result<(), Fail> {
    let alloc = rt.alloc();
    let found = first_order(alloc, &[], 17)?;
    assert!(rt; matches!(found, OrderSearch::TooMany));
    Ok(())
}
