//! Needs of some members, with these numbered by their places in a list.

ghost use Rattle.std.specs.Prelude.{◌≡◌, ◌<◌, ◌≤◌, ℕ, true, length, slice_get, Some, IfOk, OnOk};
ghost use Rattle.clr_order_search.specs.OpenNeeds.{has};
ghost use Rattle.clr_order_search.specs.declared.open_needs.OpenNeed.{OpenNeed as Need};
ghost use Rattle.clr_order_knots.specs.Members.{needs_at};
ghost use Rattle.clr_order_answers.specs.Renumbering.{AddsRenumbered, AreNumberedBy, AreRenumbered, IsAmong, IsRenumbered, StandFor, members_at};

use clr_order_search::OpenNeed;
use std::alloc::{AllocError, Global};

/// Returns a place of a member that is in a list.
fn place_of(list: &[u16], member: u16) -> u16
    requires few { length list.now ≤ 65535 }
    requires there { has list.now member ≡ true }
    ensures { slice_get list.now result ≡ Some member }
{
    for place in 0..list.len() {
        if list[place] == member {
            return place as u16;
        }
    }
    0
}

/// Returns the places of some members in a list.
fn places_of(alloc: Global, list: &[u16], members: &[u16]) -> Result<Vec<u16>, AllocError>
    requires few { length list.now ≤ 65535 }
    requires among { (m : ℕ) → has members.now m ≡ true → has list.now m ≡ true }
    ensures { IfOk result (λ places. StandFor list.now places.items members.now) }
{
    let mut places = Vec::new(alloc);
    for member in members {
        let place = place_of(list, *member);
        places.push(place)?;
    }
    Ok(places)
}

/// Returns a need with its members numbered by their places in a list.
fn renumber(alloc: Global, list: &[u16], need: &OpenNeed) -> Result<OpenNeed, AllocError>
    requires few { length list.now ≤ 65535 }
    requires among { IsAmong list.now need.now }
    ensures { IfOk result (IsRenumbered list.now need.now) }
{
    let blockers = places_of(alloc, list, need.blockers.as_slice())?;
    let helpers = places_of(alloc, list, need.helpers.as_slice())?;
    Ok(OpenNeed { blockers, helpers })
}

/// Adds the need at a place, if there is one, with its members numbered by their places in a list.
fn add_renumbered(
    alloc: Global,
    list: &[u16],
    needs: &[OpenNeed],
    at: usize,
    renumbered: &mut Vec<OpenNeed>,
) -> Result<(), AllocError>
    requires few { length list.now ≤ 65535 }
    requires among { (need : Need) → slice_get needs.now at ≡ Some need → IsAmong list.now need }
    ensures { OnOk result (AddsRenumbered list.now (slice_get needs.now at) renumbered.old.items renumbered.new.items) }
{
    if at >= needs.len() {
        return Ok(());
    }
    let other = renumber(alloc, list, &needs[at])?;
    renumbered.push(other)?;
    Ok(())
}

/// Returns the needs at some places with their members numbered by their places in a list.
pub(crate) fn renumber_all(
    alloc: Global,
    list: &[u16],
    needs: &[OpenNeed],
    places: &[usize],
) -> Result<Vec<OpenNeed>, AllocError>
    requires few { length list.now ≤ 65535 }
    requires among { AreNumberedBy list.now (needs_at needs.now places.now) }
    ensures { IfOk result (λ new. AreRenumbered list.now (needs_at needs.now places.now) new.items) }
{
    let mut renumbered = Vec::new(alloc);
    for at in places {
        add_renumbered(alloc, list, needs, *at, &mut renumbered)?;
    }
    Ok(renumbered)
}

/// Returns the members at some places of a list.
pub(crate) fn order_of(alloc: Global, list: &[u16], places: &[u16]) -> Result<Vec<u16>, AllocError>
    requires { (place : ℕ) → has places.now place ≡ true → place < length list.now }
    ensures { IfOk result (λ order. order.items ≡ members_at list.now places.now) }
{
    let mut order = Vec::new(alloc);
    for place in places {
        order.push(list[*place as usize])?;
    }
    Ok(order)
}
