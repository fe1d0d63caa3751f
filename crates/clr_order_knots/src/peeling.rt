//! Members that may go first and members that may go last, and the needs that are left without them.

ghost use Rattle.std.specs.Prelude.{◌≡◌, ◌&&◌, not, ℕ, true, false, get_or, length, slice_get, IfOk};
ghost use Rattle.std.specs.List.{filter, list_all};
ghost use Rattle.clr_order_knots.specs.Members.{ArePlaces, AreThose, Tells, is_on, needs_at};
ghost use Rattle.clr_order_knots.specs.OpenNeeds.{AreHelped, AreWithin};
ghost use Rattle.clr_order_knots.specs.Peeling.{AreLeft, IsPeeled, IsRoundIfAny, stays};
ghost use Rattle.clr_order_knots.specs.Places.{keeps, passes_at};

use crate::sides::{NeedSide, are_marked, is_marked, table_of};
use clr_order_search::OpenNeed;
use std::alloc::{AllocError, Global};

/// Members that go first and members that go last, and the places of the needs that are left.
#[derive(Debug, Drop)]
pub struct Peeled {
    pub firsts: Vec<u16>,
    pub lasts: Vec<u16>,
    pub left: Vec<usize>,
}

/// Returns whether all who help a need are marked in one table, and all who block it in another.
fn keeps(need: &OpenNeed, blocking: &[bool], helping: &[bool]) -> bool
    ensures { result ≡ keeps (λ m. get_or blocking.now m false) (λ m. get_or helping.now m false) need.now }
{
    are_marked(blocking, need.helpers.as_slice()) && are_marked(helping, need.blockers.as_slice())
}

/// Returns whether the need at a place is kept by two tables.
fn keeps_at(needs: &[OpenNeed], at: usize, blocking: &[bool], helping: &[bool]) -> bool
    ensures { result ≡ passes_at needs.now (keeps (λ m. get_or blocking.now m false) (λ m. get_or helping.now m false)) at }
{
    at < needs.len() && keeps(&needs[at], blocking, helping)
}

/// Returns the places of those needs that two tables keep.
fn places_kept(
    alloc: Global,
    needs: &[OpenNeed],
    places: &[usize],
    blocking: &[bool],
    helping: &[bool],
) -> Result<Vec<usize>, AllocError>
    ensures { IfOk result (λ kept. kept.items
        ≡ filter (passes_at needs.now (keeps (λ m. get_or blocking.now m false) (λ m. get_or helping.now m false))) places.now) }
{
    places
        .iter()
        .copied()
        .filter(|at| keeps_at(needs, *at, blocking, helping))
        .collect(alloc)
}

/// Returns whether a member is marked in one table and not in another.
fn is_marked_only(table: &[bool], other: &[bool], member: u16) -> bool
    ensures { result ≡ (get_or table.now member false && not (get_or other.now member false)) }
{
    is_marked(table, member) && !is_marked(other, member)
}

/// Returns the members below a number that are marked in one table and not in another, ascending.
fn marked_only(
    alloc: Global,
    table: &[bool],
    other: &[bool],
    count: u16,
) -> Result<Vec<u16>, AllocError>
    ensures { IfOk result (λ list. AreThose count (λ m. get_or table.now m false && not (get_or other.now m false)) list.items) }
{
    let mut list = Vec::new(alloc);
    for member in 0..count {
        if is_marked_only(table, other, member) {
            list.push(member)?;
        }
    }
    Ok(list)
}

/// Puts those first that block none of the needs that are left and help one, and those last that help
/// none and block one. Returns whether there were any.
fn peel_once(
    alloc: Global,
    needs: &[OpenNeed],
    count: u16,
    peeled: &mut Peeled,
) -> Result<bool, AllocError>
    requires { AreWithin needs.now count }
    ensures { IfOk result (IsRoundIfAny needs.now count peeled.old peeled.new) }
{
    let blocking = table_of(
        alloc,
        needs,
        peeled.left.as_slice(),
        NeedSide::Blockers,
        count,
    )?;
    let helping = table_of(
        alloc,
        needs,
        peeled.left.as_slice(),
        NeedSide::Helpers,
        count,
    )?;
    let left = places_kept(
        alloc,
        needs,
        peeled.left.as_slice(),
        blocking.as_slice(),
        helping.as_slice(),
    )?;
    if left.len() >= peeled.left.len() {
        return Ok(false);
    }
    let first = marked_only(alloc, helping.as_slice(), blocking.as_slice(), count)?;
    let mut last = marked_only(alloc, blocking.as_slice(), helping.as_slice(), count)?;
    peeled.firsts.extend_from_slice(first.as_slice())?;
    last.extend_from_slice(peeled.lasts.as_slice())?;
    peeled.lasts = last;
    peeled.left = left;
    Ok(true)
}

/// Returns the numbers below another.
fn places_below(alloc: Global, end: usize) -> Result<Vec<usize>, AllocError>
    ensures { IfOk result (λ places. AreThose end (λ m. true) places.items) }
{
    let mut places = Vec::new(alloc);
    for place in 0..end {
        places.push(place)?;
    }
    Ok(places)
}

/// Returns members that go first and members that go last, so that an order of all helps each need in
/// time if in between it helps each need that is left; and what is left, the greatest set of needs such
/// that whoever blocks one of them helps one of them too, and the other way round.
pub fn peel(alloc: Global, needs: &[OpenNeed], count: u16) -> Result<Peeled, AllocError>
    requires within { AreWithin needs.now count }
    requires helped { AreHelped needs.now }
    ensures peeled { IfOk result (IsPeeled needs.now count) }
    ensures left { IfOk result (λ peeled. AreLeft needs.now (needs_at needs.now peeled.left.items)) }
    ensures places { IfOk result (λ peeled. ArePlaces needs.now peeled.left.items) }
{
    let mut peeled = Peeled {
        firsts: Vec::new(alloc),
        lasts: Vec::new(alloc),
        left: places_below(alloc, needs.len())?,
    };
    while peel_once(alloc, needs, count, &mut peeled)? {}
    Ok(peeled)
}
