//! Members of whom each waits for others of them.

ghost use Rattle.std.specs.Prelude.{◌≡◌, ◌<◌, ◌≤◌, ◌||◌, ◌&&◌, ℕ, true, false, get_or, length, IfOk};
ghost use Rattle.std.specs.List.{filter, list_all};
ghost use Rattle.clr_order_search.specs.OpenNeeds.{has};
ghost use Rattle.clr_order_knots.specs.Members.{AreThose, Tells};
ghost use Rattle.clr_order_knots.specs.OpenNeeds.{AreWithin};
ghost use Rattle.clr_order_knots.specs.Waiting.{IsWaitingSet, are_one, makes_wait, waits_for};
ghost use Rattle.clr_order_search.specs.declared.open_needs.OpenNeed.{OpenNeed as Need};

use crate::sides::{are_marked, empty_table, is_marked, mark};
use clr_order_search::OpenNeed;
use std::alloc::{AllocError, Global};

/// Returns whether all members of a list are one.
fn are_one(members: &[u16]) -> bool
    ensures { result ≡ are_one members.now }
{
    match members.first() {
        None => true,
        Some(first) => members.iter().all(|member| *member == *first),
    }
}

/// Marks who alone blocks a need, where a table says of all who help it that they wait.
fn mark_waiting(table: &mut Vec<bool>, need: &OpenNeed, waiting: &[bool])
    requires { (m : ℕ) → has need.now.blockers.items m ≡ true → m < length table.old.items }
    ensures long { length table.new.items ≡ length table.old.items }
    ensures marked { (m : ℕ) → get_or table.new.items m false
        ≡ (get_or table.old.items m false || (makes_wait (λ x. get_or waiting.now x false) need.now && has need.now.blockers.items m)) }
{
    if are_one(need.blockers.as_slice()) && are_marked(waiting, need.helpers.as_slice()) {
        mark(table, need.blockers.as_slice());
    }
}

/// Returns a table of those who alone block a need that only members help of whom a table says so.
fn waiting_for(
    alloc: Global,
    needs: &[OpenNeed],
    waiting: &[bool],
    count: u16,
) -> Result<Vec<bool>, AllocError>
    requires { AreWithin needs.now count }
    ensures { IfOk result (λ table. Tells table.items (waits_for needs.now (λ m. get_or waiting.now m false))) }
{
    let mut table = empty_table(alloc, count)?;
    for need in needs {
        mark_waiting(&mut table, need, waiting);
    }
    Ok(table)
}

/// Returns those of some members of whom a table says so.
fn those_marked(alloc: Global, table: &[bool], members: &[u16]) -> Result<Vec<u16>, AllocError>
    ensures { IfOk result (λ list. list.items ≡ filter (λ m. get_or table.now m false) members.now) }
{
    members
        .iter()
        .copied()
        .filter(|member| is_marked(table, *member))
        .collect(alloc)
}

/// Returns those of some members who wait for others of them.
fn still_waiting(
    alloc: Global,
    needs: &[OpenNeed],
    members: &[u16],
    count: u16,
) -> Result<Vec<u16>, AllocError>
    requires within { AreWithin needs.now count }
    requires below { (m : ℕ) → has members.now m ≡ true → m < count }
    ensures { IfOk result (λ list. list.items ≡ filter (waits_for needs.now (has members.now)) members.now) }
{
    let mut waiting = empty_table(alloc, count)?;
    mark(&mut waiting, members);
    let table = waiting_for(alloc, needs, waiting.as_slice(), count)?;
    let list = those_marked(alloc, table.as_slice(), members)?;
    Ok(list)
}

/// Returns all members below a number.
fn all_members(alloc: Global, count: u16) -> Result<Vec<u16>, AllocError>
    ensures { IfOk result (λ list. AreThose count (λ m. true) list.items) }
{
    let mut list = Vec::new(alloc);
    for member in 0..count {
        list.push(member)?;
    }
    Ok(list)
}

/// Returns the greatest set of members each of whom alone blocks a need that only others of them help.
/// For example, where member 0 alone blocks a need that member 1 helps, and member 1 alone one that member 0
/// helps, these two wait for each other.
pub fn waiting_members(
    alloc: Global,
    needs: &[OpenNeed],
    count: u16,
) -> Result<Vec<u16>, AllocError>
    requires { AreWithin needs.now count }
    ensures { IfOk result (λ members. IsWaitingSet needs.now count members.items) }
{
    let mut members = all_members(alloc, count)?;
    loop {
        let fewer = still_waiting(alloc, needs, members.as_slice(), count)?;
        if fewer.len() >= members.len() {
            return Ok(members);
        }
        members = fewer;
    }
}
