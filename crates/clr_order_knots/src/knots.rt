//! Knots: members that needs join.

ghost use Rattle.std.specs.Prelude.{◌≡◌, ◌<◌, ℕ, true, false, Bool, get_or, length, slice_get, IfOk, IfSome, IfNone, MatchOption};
ghost use Rattle.std.specs.List.{filter, list_any};
ghost use Rattle.clr_order_knots.specs.Members.{ArePlaces, AreThose, Tells, is_concerned, needs_at};
ghost use Rattle.clr_order_knots.specs.OpenNeeds.{AreWithin};
ghost use Rattle.clr_order_knots.specs.Knots.{AbsorbsIfAny, AreKnotsSmall, IsKnotOf, IsLargeKnot};
ghost use Rattle.clr_order_knots.specs.Places.{as_wanted, passes_at, reaches};

use crate::sides::{is_one_marked, marked, table_of_concerned};
use clr_order_search::{MOST_SEARCHED, OpenNeed};
use std::alloc::{AllocError, Global};

/// Members whom needs join, the places of the needs that concern them, and the places of the others.
#[derive(Debug, Drop)]
pub struct Knot {
    pub members: Vec<u16>,
    pub inside: Vec<usize>,
    pub outside: Vec<usize>,
}

/// Returns whether one who blocks or helps a need is marked.
fn reaches(need: &OpenNeed, table: &[bool]) -> bool
    ensures { result ≡ reaches (λ m. get_or table.now m false) need.now }
{
    is_one_marked(table, need.blockers.as_slice()) || is_one_marked(table, need.helpers.as_slice())
}

/// Returns what a test says, or its opposite.
fn as_wanted(wanted: bool, passed: bool) -> bool
    ensures { result ≡ as_wanted wanted passed }
{
    if wanted { passed } else { !passed }
}

/// Returns whether one who blocks or helps the need at a place is marked, or none is.
fn is_reached(needs: &[OpenNeed], at: usize, table: &[bool], wanted: bool) -> bool
    ensures { result ≡ passes_at needs.now (λ need. as_wanted wanted (reaches (λ m. get_or table.now m false) need)) at }
{
    at < needs.len() && as_wanted(wanted, reaches(&needs[at], table))
}

/// Returns those of some places at which a member of the need is marked, or those at which none is.
fn places_reached(
    alloc: Global,
    needs: &[OpenNeed],
    places: &[usize],
    table: &[bool],
    wanted: bool,
) -> Result<Vec<usize>, AllocError>
    ensures { IfOk result (λ those. those.items
        ≡ filter (passes_at needs.now (λ need. as_wanted wanted (reaches (λ m. get_or table.now m false) need))) places.now) }
{
    places
        .iter()
        .copied()
        .filter(|at| is_reached(needs, *at, table, wanted))
        .collect(alloc)
}

/// Puts the needs outside that have a member with those inside inside too. Returns whether fewer are
/// outside then.
fn absorb(
    alloc: Global,
    needs: &[OpenNeed],
    count: u16,
    inside: &mut Vec<usize>,
    outside: &mut Vec<usize>,
) -> Result<bool, AllocError>
    requires { AreWithin needs.now count }
    ensures { IfOk result (AbsorbsIfAny needs.now inside.old.items outside.old.items inside.new.items outside.new.items) }
{
    let table = table_of_concerned(alloc, needs, inside.as_slice(), count)?;
    let rest = places_reached(alloc, needs, outside.as_slice(), table.as_slice(), false)?;
    if rest.len() >= outside.len() {
        return Ok(false);
    }
    let touching = places_reached(alloc, needs, outside.as_slice(), table.as_slice(), true)?;
    inside.extend_from_slice(touching.as_slice())?;
    *outside = rest;
    Ok(true)
}

/// Returns the members whom the needs inside concern, with these needs and the others.
fn knot_of(
    alloc: Global,
    needs: &[OpenNeed],
    count: u16,
    inside: Vec<usize>,
    outside: Vec<usize>,
) -> Result<Knot, AllocError>
    requires { AreWithin needs.now count }
    ensures inside { IfOk result (λ knot. knot.inside ≡ inside) }
    ensures outside { IfOk result (λ knot. knot.outside ≡ outside) }
    ensures members { IfOk result (λ knot. AreThose count (is_concerned (needs_at needs.now inside.items)) knot.members.items) }
{
    let table = table_of_concerned(alloc, needs, inside.as_slice(), count)?;
    let members = marked(alloc, table.as_slice(), count)?;
    Ok(Knot {
        members,
        inside,
        outside,
    })
}

/// Returns the knot of the members whom the first of the needs at some places concerns.
pub fn first_knot(
    alloc: Global,
    needs: &[OpenNeed],
    left: &[usize],
    count: u16,
) -> Result<Knot, AllocError>
    requires within { AreWithin needs.now count }
    requires places { ArePlaces needs.now left.now }
    requires some { 0 < length left.now }
    ensures { IfOk result (IsKnotOf needs.now count left.now) }
{
    let mut inside = Vec::from_slice(alloc, &left[..1])?;
    let mut outside = Vec::from_slice(alloc, &left[1..])?;
    while absorb(alloc, needs, count, &mut inside, &mut outside)? {}
    let knot = knot_of(alloc, needs, count, inside, outside)?;
    Ok(knot)
}

/// Returns a knot of more than `MOST_SEARCHED` members, if the needs at some places have one.
pub fn large_knot(
    alloc: Global,
    needs: &[OpenNeed],
    left: &[usize],
    count: u16,
) -> Result<Option<Vec<u16>>, AllocError>
    requires within { AreWithin needs.now count }
    requires places { ArePlaces needs.now left.now }
    ensures { IfOk result (λ found. MatchOption found (AreKnotsSmall (needs_at needs.now left.now))
        (λ members. IsLargeKnot (needs_at needs.now left.now) members.items)) }
{
    let mut rest = Vec::from_slice(alloc, left)?;
    while !rest.is_empty() {
        let knot = first_knot(alloc, needs, rest.as_slice(), count)?;
        if knot.members.len() > MOST_SEARCHED as usize {
            return Ok(Some(knot.members));
        }
        rest = knot.outside;
    }
    Ok(None)
}
