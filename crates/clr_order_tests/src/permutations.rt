//! All orders of a few members, one after another, beside what the search finds.

use crate::searches::is_found;
use clr_call_test_kit::Dice;
use clr_order_search::{OpenNeed, first_order};
use std::alloc::{AllocError, Global};
use std::test::Fail;

/// Members of whom dice throw needs.
const MEMBERS: u16 = 5;

/// How many lists there are of five of five members: 5 * 5 * 5 * 5 * 5.
const LISTS: u16 = 3_125;

/// How many times needs are thrown.
const THROWS: usize = 200;

/// Returns the list with this number: its digits to the base of five, the highest first.
fn list_with(alloc: Global, number: u16) -> Result<Vec<u16>, AllocError> {
    let mut members = Vec::new(alloc);
    for place in [625_u16, 125, 25, 5, 1] {
        members.push(number / place % MEMBERS)?;
    }
    Ok(members)
}

/// Returns whether each of the five members is in a list.
fn has_all(list: &[u16]) -> bool {
    (0..MEMBERS).all(|member| list.contains(&member))
}

/// Returns whether all blockers of a need are among the merged members, and none of its helpers is.
fn is_broken(need: &OpenNeed, merged: &[u16]) -> bool {
    need.blockers.iter().all(|member| merged.contains(member))
        && !need.helpers.iter().any(|member| merged.contains(member))
}

/// Returns whether no need is broken before the first merge of a list or after any.
fn works(needs: &[OpenNeed], list: &[u16]) -> bool {
    for end in 0..=list.len() {
        let merged = &list[..end];
        if needs.iter().any(|need| is_broken(need, merged)) {
            return false;
        }
    }
    true
}

/// Returns the first of all orders of five members that works, if one does.
fn first_that_works(alloc: Global, needs: &[OpenNeed]) -> Result<Option<Vec<u16>>, AllocError> {
    for number in 0..LISTS {
        let list = list_with(alloc, number)?;
        if has_all(list.as_slice()) && works(needs, list.as_slice()) {
            return Ok(Some(list));
        }
    }
    Ok(None)
}

/// Returns members that dice take: each of six with one chance in three, the last of whom isn't there.
fn thrown_members(alloc: Global, dice: &mut Dice) -> Result<Vec<u16>, AllocError> {
    let mut members = Vec::new(alloc);
    for member in 0..=MEMBERS {
        if dice.throw(3) == 0 {
            members.push(member)?;
        }
    }
    Ok(members)
}

/// Returns up to eleven needs that dice throw, each with a blocker at least.
fn thrown_needs(alloc: Global, dice: &mut Dice) -> Result<Vec<OpenNeed>, AllocError> {
    let mut needs = Vec::new(alloc);
    for _ in 0..dice.throw(12) {
        let mut blockers = thrown_members(alloc, dice)?;
        blockers.push(dice.throw(5) as u16)?;
        let helpers = thrown_members(alloc, dice)?;
        needs.push(OpenNeed { blockers, helpers })?;
    }
    Ok(needs)
}

/// Returns how many of the thrown needs have an order, where the search finds the first of all orders each time; none where it doesn't.
fn number_found(alloc: Global) -> Result<Option<usize>, AllocError> {
    let mut dice = Dice::new(1);
    let mut count: usize = 0;
    for _ in 0..THROWS {
        let needs = thrown_needs(alloc, &mut dice)?;
        let wanted = first_that_works(alloc, needs.as_slice())?;
        let found = first_order(alloc, needs.as_slice(), MEMBERS)?;
        if !is_found(&found, wanted.as_deref()) {
            return Ok(None);
        }
        if wanted.is_some() {
            count = count.saturating_add(1);
        }
    }
    Ok(Some(count))
}

/// Another program, which asks for a helper before a blocker of each need, finds an order for 125 of the 200.
#[test]
fn the_first_of_all_orders_is_found(rt: HostRuntime) -> Result<(), Fail> {
    assert_eq!(rt; number_found(rt.alloc())?, Some(125));
    Ok(())
}
