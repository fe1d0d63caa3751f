//! Orders of all members, of which some go first and some last.

ghost use Rattle.std.specs.Prelude.{◌≡◌, ◌||◌, not, ◌<◌, ℕ, false, true, get_or, IfOk};
ghost use Rattle.clr_order_search.specs.OpenNeeds.{has};
ghost use Rattle.clr_order_knots.specs.Members.{AreThose};
ghost use Rattle.clr_order_knots.specs.Peeling.{IsFilled};

use crate::sides::{empty_table, is_marked, mark};
use std::alloc::{AllocError, Global};

/// Returns the members below a number that are in neither of two lists, ascending.
fn others(alloc: Global, count: u16, firsts: &[u16], lasts: &[u16]) -> Result<Vec<u16>, AllocError>
    requires first { (m : ℕ) → has firsts.now m ≡ true → m < count }
    requires last { (m : ℕ) → has lasts.now m ≡ true → m < count }
    ensures { IfOk result (λ list. AreThose count (λ m. not (has firsts.now m || has lasts.now m)) list.items) }
{
    let mut table = empty_table(alloc, count)?;
    mark(&mut table, firsts);
    mark(&mut table, lasts);
    unmarked(alloc, table.as_slice(), count)
}

/// Returns the members below a number of whom a table says nothing, ascending.
fn unmarked(alloc: Global, table: &[bool], count: u16) -> Result<Vec<u16>, AllocError>
    ensures { IfOk result (λ list. AreThose count (λ m. not (get_or table.now m false)) list.items) }
{
    let mut list = Vec::new(alloc);
    for member in 0..count {
        if !is_marked(table, member) {
            list.push(member)?;
        }
    }
    Ok(list)
}

/// Returns an order of all members below a number that begins with some and ends with others.
pub fn whole_order(
    alloc: Global,
    count: u16,
    firsts: &[u16],
    lasts: &[u16],
) -> Result<Vec<u16>, AllocError>
    requires first { (m : ℕ) → has firsts.now m ≡ true → m < count }
    requires last { (m : ℕ) → has lasts.now m ≡ true → m < count }
    ensures { IfOk result (λ order. IsFilled count firsts.now lasts.now order.items) }
{
    let between = others(alloc, count, firsts, lasts)?;
    let mut order = Vec::from_slice(alloc, firsts)?;
    order.extend_from_slice(between.as_slice())?;
    order.extend_from_slice(lasts)?;
    Ok(order)
}
