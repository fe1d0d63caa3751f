//! Pairs of members, and whether they are independent.

ghost use Rattle.std.specs.Prelude.{◌<◌, length, map, IfOk, OnOk};
ghost use Rattle.clr_foot.specs.Scenes.{IsReady, model_of, setting_of};
ghost use Rattle.clr_independence.specs.Pairs.{AddsPairs, AreAscending, ArePairs};

use crate::member_needs::{needs_of_members, share_one};
use clr_finders::RowFinder;
use clr_foot::Scene;
use clr_needs::Need;
use clr_rows::RowView;
use std::alloc::{AllocError, Global};

/// Two members by position, and whether no possible need involves both.
#[derive(Clone, Copy, Debug, PartialEq, Eq)]
pub struct MemberPair {
    pub first: usize,
    pub second: usize,
    pub independent: bool,
}

/// Adds the pairs of a member with each one behind it.
fn add_pairs(
    lists: &[Vec<Need>],
    first: usize,
    pairs: &mut Vec<MemberPair>,
) -> Result<(), AllocError>
    requires first { first < length lists.now }
    requires ascending { AreAscending (map (λ list. list.items) lists.now) }
    ensures { OnOk result (AddsPairs (map (λ list. list.items) lists.now) first pairs.old.items pairs.new.items) }
{
    let needs = lists[first].as_slice();
    for second in first + 1..lists.len() {
        let independent = !share_one(needs, lists[second].as_slice());
        pairs.push(MemberPair {
            first,
            second,
            independent,
        })?;
    }
    Ok(())
}

/// Returns the pairs of a scene's members, in the order of the list, and which of them are
/// independent.
pub(crate) fn pairs<V: RowView, F: RowFinder>(
    alloc: Global,
    scene: &Scene<'_, V, F>,
) -> Result<Vec<MemberPair>, AllocError>
    requires ready { IsReady F.settled (model_of V.content scene.now) }
    ensures { IfOk result (λ pairs. ArePairs (setting_of (model_of V.content scene.now)) (length (model_of V.content scene.now).sets) pairs.items) }
{
    let lists = needs_of_members(alloc, scene)?;
    let mut pairs = Vec::new(alloc);
    for first in 0..lists.len() {
        add_pairs(lists.as_slice(), first, &mut pairs)?;
    }
    Ok(pairs)
}
