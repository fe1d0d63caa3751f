//! Pairs of members that help open needs in time, where members come in the order of their positions.

ghost use Rattle.std.specs.Prelude.{◌≡◌, length, IfOk};
ghost use Rattle.std.specs.List.{range_with_len};
ghost use Rattle.clr_order_knots.specs.OpenNeeds.{AreWithin};
ghost use Rattle.clr_order_answers.specs.Pairs.{ArePairsFor};
ghost use Rattle.clr_listed_covers.specs.Late.{AreHelpedInList};

use clr_order_answers::{Pair, pairs_of};
use clr_order_search::OpenNeed;
use std::alloc::{AllocError, Global};

/// Returns the positions below a number.
fn positions(alloc: Global, count: u16) -> Result<Vec<u16>, AllocError>
    ensures { IfOk result (λ list. list.items ≡ range_with_len 0 count) }
{
    let mut list = Vec::with_capacity(alloc, count as usize)?;
    for position in 0..count {
        list.push(position)?;
    }
    Ok(list)
}

/// Returns pairs of which the first stands before the second, where a helper of each need stands before a
/// blocker: each need has a pair of a helper and a blocker, and without any of the pairs some need
/// would have none.
pub(crate) fn listed_pairs(
    alloc: Global,
    needs: &[OpenNeed],
    count: u16,
) -> Result<Vec<Pair>, AllocError>
    requires within { AreWithin needs.now count }
    requires helped { AreHelpedInList needs.now (length needs.now) }
    ensures { IfOk result (λ pairs. ArePairsFor needs.now (range_with_len 0 count) pairs.items) }
{
    let order = positions(alloc, count)?;
    let pairs = pairs_of(alloc, needs, order.as_slice())?;
    Ok(pairs)
}
