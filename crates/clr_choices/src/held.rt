//! Which of some broken needs members break by themselves, and by which of them.
ghost use Rattle.std.specs.Prelude.{◌≡◌, ◌<◌, Contains, get_or, length, map, IfOk, IfSome, OnOk};
ghost use Rattle.std.specs.List.Sorted.{IsStrictlySortedBy};
ghost use Rattle.clr_clashes.specs.BrokenNeeds.{ArePlaces, IsFirstHeld};
ghost use Rattle.clr_clashes.specs.Clashes.{IsAllIn};
ghost use Rattle.clr_clashes.specs.Keeping.{is_all_in};
ghost use Rattle.clr_clashes.specs.ListedClashes.{listed_clash_of, listed_cmp};
ghost use Rattle.clr_choices.specs.Looked.{ArePositionsOf, is_member_at, with_position};

use clr_clashes::Clash;
use clr_rows::Words;
use std::alloc::{AllocError, Global};

/// Returns whether a name is the member at a place.
fn is_member_at(members: &[&str], at: usize, name: &Words) -> bool
    ensures { result ≡ is_member_at (map (λ member. member.now) members.now) at name.now }
{
    match members.get(at) {
        None => false,
        Some(member) => *member == name.as_str(),
    }
}

/// Adds the position of a name, where it is the member at the place that comes next.
fn add_if_member(
    members: &[&str],
    name: &Words,
    at: usize,
    positions: &mut Vec<usize>,
) -> Result<(), AllocError>
    ensures { OnOk result (positions.new.items
        ≡ with_position (is_member_at (map (λ member. member.now) members.now) (length positions.old.items) name.now) positions.old.items at) }
{
    if is_member_at(members, positions.len(), name) {
        positions.push(at)?;
    }
    Ok(())
}

/// Returns the positions of members among names, where they stand there in this order.
#[tactic(auto, using(crate::proofs::Holding::all_found))]
pub(crate) fn positions_of(
    alloc: Global,
    names: &[Words],
    members: &[&str],
) -> Result<Option<Vec<usize>>, AllocError>
    ensures { IfOk result (λ found. IfSome found (λ positions. ArePositionsOf names.now (map (λ member. member.now) members.now) positions.items)) }
{
    let mut positions = Vec::new(alloc);
    for at in 0..names.len() {
        add_if_member(members, &names[at], at, &mut positions)?;
    }
    if positions.len() < members.len() {
        return Ok(None);
    }
    Ok(Some(positions))
}

/// Returns whether all of some members are at these positions.
fn are_within(members: &[u16], positions: &[usize]) -> bool
    ensures { result ≡ is_all_in members.now positions.now }
{
    members
        .iter()
        .all(|member| positions.contains(&(*member as usize)))
}

/// Returns the first of some broken needs of which the members at these positions hold all that break it.
pub(crate) fn first_held<'a>(broken: &'a [Clash], positions: &[usize]) -> Option<&'a Clash>
    requires { IsStrictlySortedBy listed_cmp (map listed_clash_of broken.now) }
    ensures { IfSome result (λ clash. IsFirstHeld (map listed_clash_of broken.entry.now) positions.entry.now (listed_clash_of clash.now)) }
{
    for clash in broken {
        if are_within(clash.members.as_slice(), positions) {
            return Some(clash);
        }
    }
    None
}

/// Returns the place of one of some positions.
fn place_of(positions: &[usize], position: usize) -> usize
    requires { Contains positions.now position }
    ensures below { result < length positions.now }
    ensures stands { get_or positions.now result 0 ≡ position }
{
    for at in 0..positions.len() {
        if positions[at] == position {
            return at;
        }
    }
    0
}

/// Returns the places of members in a list of positions.
pub(crate) fn places_of(
    alloc: Global,
    positions: &[usize],
    members: &[u16],
) -> Result<Vec<usize>, AllocError>
    requires { IsAllIn members.now positions.now }
    ensures { IfOk result (λ places. ArePlaces positions.now members.now places.items) }
{
    let mut places = Vec::with_capacity(alloc, members.len())?;
    for member in members {
        places.push(place_of(positions, *member as usize))?;
    }
    Ok(places)
}
