//! Which of the members that go now or after others have an order together.

ghost use Rattle.std.specs.Prelude.{◌≡◌, ◌++◌, ◌∷◌, [], filter, find, option_to_list, slice_get, IfOk, OnOk};
ghost use Rattle.std.specs.List.{filter_map, range_with_len};
ghost use Rattle.clr_merge_sets.specs.MemberChanges.{set_of};
ghost use Rattle.clr_merge_orders.specs.MergeOrders.{IsFoundOrder};
ghost use Rattle.clr_merge_clashes.specs.Laws.{merge_set_of_part};
ghost use Rattle.clr_board.specs.Boards.{Settled};
ghost use Rattle.clr_board.specs.States.{helpers_of};
ghost use Rattle.clr_board.specs.Settling.{dropped, goers_of, goes_at, is_any_going, may_go, places_in_plan, places_in_scene, places_of, waits, without};

use crate::states::{DesignState, clash_of, state_of};
use clr_clash_helpers::HelpedClash;
use clr_engine::Office;
use clr_member_changes::MemberChanges;
use clr_merge_orders::{MergeOrder, merge_order};
use clr_merge_sets::names_at;
use clr_plan::Plan;
use clr_scene_orders::SceneOrder;
use std::alloc::{AllocError, Global};

/// Returns whether the member at a position is free, or waits.
fn may_go(helped: &[HelpedClash<'_>], at: usize) -> bool
    ensures { result ≡ may_go helped.now at }
{
    state_of(helped, at).goes()
}

/// Returns whether one of some members is free, or waits.
fn is_any_going(helped: &[HelpedClash<'_>], positions: &[usize]) -> bool
    ensures { result ≡ is_any_going helped.now positions.now }
{
    positions.iter().any(|at| may_go(helped, *at))
}

/// Returns whether one of those that help the clash of a member is free, or waits.
fn is_helped(helped: &[HelpedClash<'_>], at: usize) -> bool
    ensures { result ≡ is_any_going helped.now (helpers_of helped.now at) }
{
    match clash_of(helped, at) {
        Some(clash) => is_any_going(helped, clash.helpers.as_slice()),
        None => false,
    }
}

/// Returns whether the member at a position is free, or waits and is helped by one that is free or waits itself.
fn goes_at(helped: &[HelpedClash<'_>], at: usize) -> bool
    ensures { result ≡ goes_at helped.now at }
{
    match state_of(helped, at) {
        DesignState::Free => true,
        DesignState::Waiting => is_helped(helped, at),
        DesignState::Unaided | DesignState::Conflicted | DesignState::Clashing => false,
    }
}

/// Adds the member at a position, where it goes now or after others.
fn add_goer(helped: &[HelpedClash<'_>], at: usize, goers: &mut Vec<usize>) -> Result<(), AllocError>
    ensures { OnOk result (goers.new.items ≡ goers.old.items ++ filter (goes_at helped.now) (at ∷ [])) }
{
    if goes_at(helped, at) {
        goers.push(at)?;
    }
    Ok(())
}

/// Returns those of so many members that go now or after others.
pub(crate) fn goers_of(
    alloc: Global,
    helped: &[HelpedClash<'_>],
    count: usize,
) -> Result<Vec<usize>, AllocError>
    ensures { IfOk result (λ goers. goers.items ≡ goers_of helped.now (range_with_len 0 count)) }
{
    let mut goers = Vec::new(alloc);
    for at in 0..count {
        add_goer(helped, at, &mut goers)?;
    }
    Ok(goers)
}

/// Returns what is said of the orders of some members.
fn order_of(
    alloc: Global,
    office: &Office,
    members: &MemberChanges<'_>,
    goers: &[usize],
) -> Result<MergeOrder, AllocError>
    ensures { IfOk result (IsFoundOrder office.now (merge_set_of_part (set_of members.now) goers.now)) }
{
    let names = names_at(alloc, members.names, goers)?;
    merge_order(alloc, office, members.root, names.as_slice())
}

/// Returns positions of 16 bits as positions.
fn wide(alloc: Global, places: &[u16]) -> Result<Vec<usize>, AllocError>
    ensures { IfOk result (λ list. list.items ≡ places.now) }
{
    let mut list = Vec::with_capacity(alloc, places.len())?;
    for place in places {
        list.push(*place as usize)?;
    }
    Ok(list)
}

/// Returns the members of the order of a plan that is blocked.
fn places_in_plan(alloc: Global, plan: &Plan) -> Result<Vec<usize>, AllocError>
    ensures { IfOk result (λ places. places.items ≡ places_in_plan plan.now) }
{
    match plan {
        Plan::Blocked { order, .. } => Vec::from_slice(alloc, order.as_slice()),
        Plan::Cleared(_) | Plan::Unfit(_) | Plan::OutOfMemory => Ok(Vec::new(alloc)),
    }
}

/// Returns the members that show why no order of a scene is found.
fn places_in_scene(alloc: Global, order: &SceneOrder) -> Result<Vec<usize>, AllocError>
    ensures { IfOk result (λ places. places.items ≡ places_in_scene order.now) }
{
    match order {
        SceneOrder::Order { .. } => Ok(Vec::new(alloc)),
        SceneOrder::Final { members, .. } => wide(alloc, members.as_slice()),
        SceneOrder::Stuck(members) => wide(alloc, members.as_slice()),
        SceneOrder::TooMany(members) => wide(alloc, members.as_slice()),
    }
}

/// Returns the members that show why no order is found, by their positions among those that are asked about.
fn places_of(alloc: Global, order: &MergeOrder) -> Result<Vec<usize>, AllocError>
    ensures { IfOk result (λ places. places.items ≡ places_of order.now) }
{
    match order {
        MergeOrder::Ordered(order) => places_in_scene(alloc, order),
        MergeOrder::Planned(plan) => places_in_plan(alloc, plan),
    }
}

/// Adds the number at a place, if there is one.
fn add_number(numbers: &[usize], place: usize, list: &mut Vec<usize>) -> Result<(), AllocError>
    ensures { OnOk result (list.new.items ≡ list.old.items ++ option_to_list (slice_get numbers.now place)) }
{
    let Some(number) = numbers.get(place) else {
        return Ok(());
    };
    list.push(*number)?;
    Ok(())
}

/// Returns the numbers at some places; one past the end has none.
fn numbers_at(alloc: Global, numbers: &[usize], places: &[usize]) -> Result<Vec<usize>, AllocError>
    ensures { IfOk result (λ list. list.items ≡ filter_map (slice_get numbers.now) places.now) }
{
    let mut list = Vec::with_capacity(alloc, places.len())?;
    for place in places {
        add_number(numbers, *place, &mut list)?;
    }
    Ok(list)
}

/// Returns the first of some members that waits for another.
fn first_waiting(helped: &[HelpedClash<'_>], members: &[usize]) -> Option<usize>
    ensures { result ≡ find (waits helped.now) members.now }
{
    for at in members {
        if state_of(helped, *at).is_waiting() {
            return Some(*at);
        }
    }
    None
}

/// Returns the first member that waits of those that show why no order is found.
fn dropped(
    alloc: Global,
    helped: &[HelpedClash<'_>],
    goers: &[usize],
    order: &MergeOrder,
) -> Result<Option<usize>, AllocError>
    ensures { IfOk result (λ at. at ≡ dropped helped.now goers.now order.now) }
{
    let places = places_of(alloc, order)?;
    let shown = numbers_at(alloc, goers, places.as_slice())?;
    Ok(first_waiting(helped, shown.as_slice()))
}

/// Takes a member away.
fn drop_goer(goers: &mut Vec<usize>, at: usize)
    ensures { goers.new.items ≡ without at goers.old.items }
{
    goers.retain(|goer| *goer != at);
}

/// Returns those of some members that have an order together, and what is said of their orders. Where no order is found, the first of the members that show
/// this and that wait is left out, and the others are asked about.
pub(crate) fn settle(
    alloc: Global,
    office: &Office,
    members: &MemberChanges<'_>,
    helped: &[HelpedClash<'_>],
    goers: Vec<usize>,
) -> Result<(Vec<usize>, MergeOrder), AllocError>
    ensures { IfOk result (λ r. Settled office.now (set_of members.now) helped.now goers.items r.0.items r.1) }
{
    let mut left = goers;
    for _ in 0..left.len() {
        let order = order_of(alloc, office, members, left.as_slice())?;
        match dropped(alloc, helped, left.as_slice(), &order)? {
            Some(at) => drop_goer(&mut left, at),
            None => return Ok((left, order)),
        }
    }
    let order = order_of(alloc, office, members, left.as_slice())?;
    Ok((left, order))
}
