//! The members on a side of needs, and tables of members.

ghost use Rattle.std.specs.Prelude.{◌≡◌, ◌<◌, ◌||◌, ℕ, true, false, get_or, length, slice_get, slice_set, IfOk};
ghost use Rattle.std.specs.List.{list_all, list_any};
ghost use Rattle.clr_order_search.specs.OpenNeeds.{has};
ghost use Rattle.clr_order_knots.specs.Members.{AreThose, Tells, is_at, is_concerned, is_on, needs_at, on_side};
ghost use Rattle.clr_order_knots.specs.OpenNeeds.{AreWithin};

use clr_order_search::OpenNeed;
use std::alloc::{AllocError, Global};

/// A side of a need.
#[derive(Clone, Copy, Debug)]
pub enum NeedSide {
    /// The members who block it.
    Blockers,
    /// The members who help it.
    Helpers,
}

/// Returns the members on a side of a need.
pub(crate) fn on_side(need: &OpenNeed, side: NeedSide) -> &[u16]
    ensures { result.now ≡ on_side side need.now }
{
    match side {
        NeedSide::Blockers => need.blockers.as_slice(),
        NeedSide::Helpers => need.helpers.as_slice(),
    }
}

/// Returns whether a table says so of a member.
pub(crate) fn is_marked(table: &[bool], member: u16) -> bool
    ensures { result ≡ get_or table.now member false }
{
    (member as usize) < table.len() && table[member as usize]
}

/// Returns whether a table says so of all members of a list.
pub(crate) fn are_marked(table: &[bool], members: &[u16]) -> bool
    ensures { result ≡ list_all (λ m. get_or table.now m false) members.now }
{
    members.iter().all(|member| is_marked(table, *member))
}

/// Returns whether a table says so of one member of a list.
pub(crate) fn is_one_marked(table: &[bool], members: &[u16]) -> bool
    ensures { result ≡ list_any (λ m. get_or table.now m false) members.now }
{
    members.iter().any(|member| is_marked(table, *member))
}

/// Marks a member in a table.
fn set_mark(table: &mut Vec<bool>, member: u16)
    requires { member < length table.old.items }
    ensures { table.new.items ≡ slice_set table.old.items member true }
{
    table[member as usize] = true;
}

/// Marks some members in a table.
pub(crate) fn mark(table: &mut Vec<bool>, members: &[u16])
    requires { (m : ℕ) → has members.now m ≡ true → m < length table.old.items }
    ensures long { length table.new.items ≡ length table.old.items }
    ensures marked { (m : ℕ) → get_or table.new.items m false ≡ (get_or table.old.items m false || has members.now m) }
{
    for member in members {
        set_mark(table, *member);
    }
}

/// Marks the members on a side of the need at a place, if there is one.
fn mark_at(table: &mut Vec<bool>, needs: &[OpenNeed], at: usize, side: NeedSide)
    requires { AreWithin needs.now (length table.old.items) }
    ensures long { length table.new.items ≡ length table.old.items }
    ensures marked { (m : ℕ) → get_or table.new.items m false ≡ (get_or table.old.items m false || is_at side (slice_get needs.now at) m) }
{
    if at >= needs.len() {
        return;
    }
    mark(table, on_side(&needs[at], side));
}

/// Marks the members on a side of the needs at some places.
fn mark_side(table: &mut Vec<bool>, needs: &[OpenNeed], places: &[usize], side: NeedSide)
    requires { AreWithin needs.now (length table.old.items) }
    ensures long { length table.new.items ≡ length table.old.items }
    ensures marked { (m : ℕ) → get_or table.new.items m false ≡ (get_or table.old.items m false || is_on side (needs_at needs.now places.now) m) }
{
    for at in places {
        mark_at(table, needs, *at, side);
    }
}

/// Returns a table of the members below a number that says so of none.
pub(crate) fn empty_table(alloc: Global, count: u16) -> Result<Vec<bool>, AllocError>
    ensures long { IfOk result (λ table. length table.items ≡ count) }
    ensures empty { IfOk result (λ table. (m : ℕ) → get_or table.items m false ≡ false) }
{
    vec![in alloc; false; count as usize]
}

/// Returns a table of the members on a side of the needs at some places.
pub(crate) fn table_of(
    alloc: Global,
    needs: &[OpenNeed],
    places: &[usize],
    side: NeedSide,
    count: u16,
) -> Result<Vec<bool>, AllocError>
    requires { AreWithin needs.now count }
    ensures { IfOk result (λ table. Tells table.items (is_on side (needs_at needs.now places.now))) }
{
    let mut table = empty_table(alloc, count)?;
    mark_side(&mut table, needs, places, side);
    Ok(table)
}

/// Returns a table of the members whom the needs at some places concern.
pub(crate) fn table_of_concerned(
    alloc: Global,
    needs: &[OpenNeed],
    places: &[usize],
    count: u16,
) -> Result<Vec<bool>, AllocError>
    requires { AreWithin needs.now count }
    ensures { IfOk result (λ table. Tells table.items (is_concerned (needs_at needs.now places.now))) }
{
    let mut table = empty_table(alloc, count)?;
    mark_side(&mut table, needs, places, NeedSide::Blockers);
    mark_side(&mut table, needs, places, NeedSide::Helpers);
    Ok(table)
}

/// Returns the members below a number of whom a table says so, ascending.
pub(crate) fn marked(alloc: Global, table: &[bool], count: u16) -> Result<Vec<u16>, AllocError>
    ensures { IfOk result (λ list. AreThose count (λ m. get_or table.now m false) list.items) }
{
    let mut list = Vec::new(alloc);
    for member in 0..count {
        if is_marked(table, member) {
            list.push(member)?;
        }
    }
    Ok(list)
}
