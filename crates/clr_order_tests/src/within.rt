//! What is said of the orders of members, where their needs are such that it can be asked.

ghost use Rattle.std.specs.Prelude.{◌≡◌, ◌==◌, length, nat_lt};
ghost use Rattle.std.specs.List.{list_all};
ghost use Rattle.clr_order_tests.specs.Within.{is_within, may_help};

use clr_order_answers::{OrderAnswer, answer_of};
use clr_order_search::OpenNeed;
use std::alloc::{AllocError, Global};

/// Tests whether members are below a number.
fn are_below(members: &[u16], count: u16) -> bool
    ensures { result ≡ list_all (λ m. nat_lt m count) members.now }
{
    members.iter().all(|member| *member < count)
}

/// Tests whether a member is below a number and doesn't block a need.
fn may_help(count: u16, need: &OpenNeed, member: u16) -> bool
    ensures { result ≡ may_help count need.now member }
{
    member < count && !need.blockers.contains(&member)
}

/// Tests whether all who help a need are below a number and don't block it.
fn may_all_help(count: u16, need: &OpenNeed) -> bool
    ensures { result ≡ list_all (may_help count need.now) need.now.helpers.items }
{
    need.helpers
        .iter()
        .all(|member| may_help(count, need, *member))
}

/// Tests whether nobody blocks a need.
fn is_unblocked(need: &OpenNeed) -> bool
    ensures { result ≡ (length need.now.blockers.items == 0) }
{
    need.blockers.as_slice().is_empty()
}

/// Tests whether a need has a blocker, no helper of it is one, and all are below a number.
fn is_within(count: u16, need: &OpenNeed) -> bool
    ensures { result ≡ is_within count need.now }
{
    !is_unblocked(need) && (are_below(need.blockers.as_slice(), count) && may_all_help(count, need))
}

/// Tests whether each need is so.
fn are_within(count: u16, needs: &[OpenNeed]) -> bool
    ensures { result ≡ list_all (is_within count) needs.now }
{
    needs.iter().all(|need| is_within(count, need))
}

/// Returns what is said of the orders of the members below a number, if it can be asked.
pub(crate) fn answer_within(
    alloc: Global,
    needs: &[OpenNeed],
    count: u16,
) -> Result<Option<OrderAnswer>, AllocError> {
    if !are_within(count, needs) {
        return Ok(None);
    }
    let answer = answer_of(alloc, needs, count)?;
    Ok(Some(answer))
}
