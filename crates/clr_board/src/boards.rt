//! What is said of all members of a merge set at once.

ghost use Rattle.std.specs.Prelude.{◌≡◌, IfOk};
ghost use Rattle.std.specs.List.{range_with_len};
ghost use Rattle.clr_merge_sets.specs.MemberChanges.{AreMembers, set_of};
ghost use Rattle.clr_board.specs.Boards.{IsBoard, states_of};

use crate::settling::{goers_of, settle};
use crate::states::{DesignState, state_of};
use crate::turns::{Turn, turns_of};
use clr_clash_helpers::{HelpedClash, helped_clashes};
use clr_engine::Office;
use clr_member_changes::MemberChanges;
use clr_merge_clashes::MergeClashes;
use clr_merge_orders::MergeOrder;
use std::alloc::{AllocError, Global};

/// What is said of all members of a merge set at once. Members are named by position.
#[derive(Drop)]
pub struct Board<'a> {
    /// Each clash, with the members that help it.
    pub helped: Vec<HelpedClash<'a>>,
    /// How each member stands, in their order.
    pub states: Vec<DesignState>,
    /// Those that go now or after others, ascending: those that are free, and those that wait and have a place in an order with them.
    pub goers: Vec<usize>,
    /// What is said of the orders of those that go, by their positions among themselves.
    pub order: MergeOrder,
    /// Who goes before whom in that order, by their positions among all members; none where no order is found.
    pub turns: Vec<Turn>,
}

/// Returns how each of so many members stands.
fn states_of(
    alloc: Global,
    helped: &[HelpedClash<'_>],
    count: usize,
) -> Result<Vec<DesignState>, AllocError>
    ensures { IfOk result (λ states. states.items ≡ states_of helped.now (range_with_len 0 count)) }
{
    let mut states = Vec::with_capacity(alloc, count)?;
    for at in 0..count {
        states.push(state_of(helped, at))?;
    }
    Ok(states)
}

/// Returns what is said of members of a root and of their clashes, which were found in this office: who helps each clash, how each member stands, which go
/// now or after others, and what the planner of orders says of these. Those that go are the free ones, and those that wait and that one of these helps. Where
/// no order of them is found, the first of the members that show this and that wait is left out, and the others are asked about. The changes are to be those
/// that the members make in the office. It fails only for want of memory.
///
/// For example, where no two mains may have one code, `W1` inserts main 30 with the code of main 1, and `W2` gives main 1 another code, `W1` waits and
/// `W2` is free; both go, and `W2` goes before `W1`.
pub fn board_of<'a>(
    alloc: Global,
    office: &Office,
    members: &MemberChanges<'_>,
    found: &'a MergeClashes,
) -> Result<Board<'a>, AllocError>
    requires { AreMembers office.now (set_of members.now) members.now }
    ensures board { IfOk result (IsBoard office.now (set_of members.now) found.entry.now) }
{
    let helped = helped_clashes(alloc, office, members, found.clashes.as_slice())?;
    let count = members.names.len();
    let states = states_of(alloc, helped.as_slice(), count)?;
    let going = goers_of(alloc, helped.as_slice(), count)?;
    let (goers, order) = settle(alloc, office, members, helped.as_slice(), going)?;
    let turns = turns_of(alloc, goers.as_slice(), &order)?;
    Ok(Board {
        helped,
        states,
        goers,
        order,
        turns,
    })
}
