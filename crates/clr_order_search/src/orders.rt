//! The search for an order: over all sets of members that aren't merged yet, the smaller ones first.

ghost use Rattle.std.specs.Prelude.{◌≡◌, ◌≤◌, ◌<◌, ◌^◌, List, length, true, IfOk, IfSome};
ghost use Rattle.clr_order_search.specs.Orders.{IsFirstOrder, IsSearched};
ghost use Rattle.clr_order_search.specs.Searching.{CanBeNext, CanFollow, IsNext, IsTestOf, TellsBelow, is_in, none_merged, outside};
ghost use Rattle.clr_order_search.specs.declared.limits.TheConstants.{MOST_SEARCHED};
ghost use Rattle.clr_order_search.specs.declared.open_needs.OpenNeed.{OpenNeed as Need};

use crate::limits::MOST_SEARCHED;
use crate::open_needs::OpenNeed;
use crate::searches::OrderSearch;
use crate::sets::{breaks_one, has_member, without_member};
use std::alloc::{AllocError, Global};

/// Returns how many sets of members there are.
fn number_of_sets(count: u16) -> usize
    requires few { count ≤ MOST_SEARCHED }
    ensures { result ≡ 2 ^ count }
{
    1 << count
}

/// Returns whether a member can be merged next, where those of a set are left and the table tells of
/// each lesser set whether its members can follow.
fn can_be_next(count: u16, table: &[bool], left: usize, member: u16) -> bool
    requires few { count ≤ MOST_SEARCHED }
    requires below { member < count }
    requires long { left ≤ length table.now }
    ensures there { result ≡ true → is_in left member ≡ true }
    ensures told { (needs : List Need) → TellsBelow needs count table.now left → IsTestOf result (CanBeNext needs count left member) }
{
    if !has_member(left, member) {
        return false;
    }
    let others = without_member(left, member);
    table[others]
}

/// Returns the first member of a set that can be merged next, where the table tells of each lesser
/// set whether its members can follow.
fn next_member(count: u16, table: &[bool], left: usize) -> Option<u16>
    requires few { count ≤ MOST_SEARCHED }
    requires long { left ≤ length table.now }
    ensures below { IfSome result (λ member. member < count) }
    ensures there { IfSome result (λ member. is_in left member ≡ true) }
    ensures next { (needs : List Need) → TellsBelow needs count table.now left → IsNext needs count (outside count left) result }
{
    for member in 0..count {
        if can_be_next(count, table, left, member) {
            return Some(member);
        }
    }
    None
}

/// Returns whether the members of a set can follow once all others are merged.
fn can_follow(needs: &[OpenNeed], count: u16, table: &[bool], left: usize) -> bool
    requires few { count ≤ MOST_SEARCHED }
    requires within { left < 2 ^ count }
    requires told { TellsBelow needs.now count table.now left }
    ensures { IsTestOf result (CanFollow needs.now count (outside count left)) }
{
    if breaks_one(needs, count, left) {
        return false;
    }
    if left == 0 {
        return true;
    }
    next_member(count, table, left).is_some()
}

/// Returns a table that tells of each set of members whether these can follow once all others are
/// merged.
fn following_sets(alloc: Global, needs: &[OpenNeed], count: u16) -> Result<Vec<bool>, AllocError>
    requires few { count ≤ MOST_SEARCHED }
    ensures { IfOk result (λ table. TellsBelow needs.now count table.items (2 ^ count)) }
{
    let sets = number_of_sets(count);
    let mut table = Vec::with_capacity(alloc, sets)?;
    for left in 0..sets {
        let can = can_follow(needs, count, table.as_slice(), left);
        table.push(can)?;
    }
    Ok(table)
}

/// Returns the first order that works, where the table tells of each set whether its members can
/// follow, and all members can.
fn order_by(alloc: Global, count: u16, table: &[bool]) -> Result<Vec<u16>, AllocError>
    requires few { count ≤ MOST_SEARCHED }
    requires long { 2 ^ count ≤ length table.now }
    ensures { IfOk result (λ order. (needs : List Need) → TellsBelow needs count table.now (2 ^ count) → CanFollow needs count none_merged
        → IsFirstOrder needs count order.items) }
{
    let mut order = Vec::with_capacity(alloc, count as usize)?;
    let mut left = number_of_sets(count) - 1;
    for _ in 0..count {
        let Some(member) = next_member(count, table, left) else {
            return Ok(order);
        };
        order.push(member)?;
        left = without_member(left, member);
    }
    Ok(order)
}

/// Returns an order in which all members below a number can be merged one after another so that no
/// need is broken before the first merge or after any: of those that work the first, by the numbers
/// of members. Answers `NoneWorks` where each order of all members breaks a need on the way, and
/// `TooMany` where there are more than `MOST_SEARCHED` members, whatever the needs are. Looks once at
/// each set of members: at 65,536 sets of 16 members.
pub fn first_order(alloc: Global, needs: &[OpenNeed], count: u16) -> Result<OrderSearch, AllocError>
    ensures { IfOk result (λ found. IsSearched needs.now count found) }
{
    if count > MOST_SEARCHED {
        return Ok(OrderSearch::TooMany);
    }
    let table = following_sets(alloc, needs, count)?;
    let all = number_of_sets(count) - 1;
    if !table[all] {
        return Ok(OrderSearch::NoneWorks);
    }
    let order = order_by(alloc, count, table.as_slice())?;
    Ok(OrderSearch::Found(order))
}
