//! Which of those that go comes before which.

ghost use Rattle.std.specs.Prelude.{◌≡◌, ◌++◌, ◌∷◌, [], filter, get_or, map, IfOk, OnOk};
ghost use Rattle.clr_board.specs.Boards.{earlier_of, is_ordered, is_scene_ordered, pairs_of, pairs_of_scene, turn_of, turns_of};

use clr_merge_orders::MergeOrder;
use clr_order_answers::Pair;
use clr_scene_orders::SceneOrder;
use std::alloc::{AllocError, Global};

/// Two members by position, of which the first goes before the second.
#[derive(Clone, Copy, Debug)]
pub struct Turn {
    pub earlier: usize,
    pub later: usize,
}

/// Returns whether an order is found of a scene.
fn is_scene_ordered(order: &SceneOrder) -> bool
    ensures { result ≡ is_scene_ordered order.now }
{
    match order {
        SceneOrder::Order { .. } => true,
        SceneOrder::Final { .. } | SceneOrder::Stuck(_) | SceneOrder::TooMany(_) => false,
    }
}

/// Returns whether an order is found.
pub fn is_ordered(order: &MergeOrder) -> bool
    ensures { result ≡ is_ordered order.now }
{
    match order {
        MergeOrder::Ordered(order) => is_scene_ordered(order),
        MergeOrder::Planned(_) => false,
    }
}

/// Returns the number at a position, or 0 past the end.
fn number_at(numbers: &[usize], at: u16) -> usize
    ensures { result ≡ get_or numbers.now at 0 }
{
    match numbers.get(at as usize) {
        Some(number) => *number,
        None => 0,
    }
}

/// Returns a pair of those that go, by their positions among all members.
fn turn_of(goers: &[usize], pair: Pair) -> Turn
    ensures { result ≡ turn_of goers.now pair }
{
    Turn {
        earlier: number_at(goers, pair.earlier),
        later: number_at(goers, pair.later),
    }
}

/// Returns pairs of those that go, by their positions among all members.
fn turns_of_pairs(alloc: Global, goers: &[usize], pairs: &[Pair]) -> Result<Vec<Turn>, AllocError>
    ensures { IfOk result (λ turns. turns.items ≡ map (turn_of goers.now) pairs.now) }
{
    let mut turns = Vec::with_capacity(alloc, pairs.len())?;
    for pair in pairs {
        turns.push(turn_of(goers, *pair))?;
    }
    Ok(turns)
}

/// Returns the turns of an order of a scene, and none where no order is found.
fn turns_of_scene(
    alloc: Global,
    goers: &[usize],
    order: &SceneOrder,
) -> Result<Vec<Turn>, AllocError>
    ensures { IfOk result (λ turns. turns.items ≡ map (turn_of goers.now) (pairs_of_scene order.now)) }
{
    match order {
        SceneOrder::Order { pairs, .. } => turns_of_pairs(alloc, goers, pairs.as_slice()),
        SceneOrder::Final { .. } | SceneOrder::Stuck(_) | SceneOrder::TooMany(_) => {
            Ok(Vec::new(alloc))
        }
    }
}

/// Returns the turns of an order of those that go, and none where no order is found.
pub(crate) fn turns_of(
    alloc: Global,
    goers: &[usize],
    order: &MergeOrder,
) -> Result<Vec<Turn>, AllocError>
    ensures { IfOk result (λ turns. turns.items ≡ turns_of goers.now order.now) }
{
    match order {
        MergeOrder::Ordered(order) => turns_of_scene(alloc, goers, order),
        MergeOrder::Planned(_) => Ok(Vec::new(alloc)),
    }
}

/// Adds the member that goes first, where the member at a position goes next.
fn add_earlier(earlier: &mut Vec<usize>, turn: Turn, at: usize) -> Result<(), AllocError>
    ensures { OnOk result (earlier.new.items ≡ earlier.old.items ++ earlier_of (turn ∷ []) at) }
{
    if turn.later == at {
        earlier.push(turn.earlier)?;
    }
    Ok(())
}

/// Returns the positions of those that go before the member at a position, in the order of the turns.
pub fn earlier_of(alloc: Global, turns: &[Turn], at: usize) -> Result<Vec<usize>, AllocError>
    ensures { IfOk result (λ earlier. earlier.items ≡ earlier_of turns.now at) }
{
    let mut earlier = Vec::new(alloc);
    for turn in turns {
        add_earlier(&mut earlier, *turn, at)?;
    }
    Ok(earlier)
}
