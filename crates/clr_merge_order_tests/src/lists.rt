//! Lists of members, and the pairs of which the first stands before the second.

use clr_order_answers::Pair;
use std::alloc::{AllocError, Global};

/// Returns the list with this number: so many of its digits to the base of five, the last first.
fn list_with(alloc: Global, number: u16, count: u16) -> Result<Vec<u16>, AllocError> {
    let mut members = Vec::new(alloc);
    let mut left = number;
    for _ in 0..count {
        members.push(left % 5)?;
        left /= 5;
    }
    Ok(members)
}

/// Returns whether a list has each of so many members.
pub(crate) fn has_all(list: &[u16], count: u16) -> bool {
    (0..count).all(|member| list.contains(&member))
}

/// Returns how many lists there are of so many of five members, of up to five.
fn list_count(count: u16) -> u16 {
    match count {
        0 => 1,
        1 => 5,
        2 => 25,
        3 => 125,
        4 => 625,
        _ => 3_125,
    }
}

/// Returns all orders of so many members, up to five.
pub(crate) fn all_orders(alloc: Global, count: u16) -> Result<Vec<Vec<u16>>, AllocError> {
    let mut orders = Vec::new(alloc);
    for number in 0..list_count(count) {
        let list = list_with(alloc, number, count)?;
        if has_all(list.as_slice(), count) {
            orders.push(list)?;
        }
    }
    Ok(orders)
}

/// Returns whether a member stands before another in a list.
fn stands_before(list: &[u16], earlier: u16, later: u16) -> bool {
    let mut is_passed = false;
    for member in list {
        if *member == later {
            return is_passed;
        }
        is_passed = is_passed || *member == earlier;
    }
    false
}

/// Returns whether in a list the first of each pair stands before the second.
pub(crate) fn keeps(list: &[u16], pairs: &[Pair]) -> bool {
    pairs
        .iter()
        .all(|pair| stands_before(list, pair.earlier, pair.later))
}
