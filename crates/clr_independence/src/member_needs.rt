//! The possible needs that involve each member, and whether two members have one in common.

ghost use Rattle.std.specs.Prelude.{◌<◌, length, map, Contains, IfOk};
ghost use Rattle.std.specs.List.Sorted.{IsStrictlySortedBy};
ghost use Rattle.clr_needs.specs.Orders.{need_cmp};
ghost use Rattle.clr_foot.specs.Scenes.{IsReady, model_of, setting_of};
ghost use Rattle.clr_needs.specs.Tests.{IsTestOf};
ghost use Rattle.clr_independence.specs.Pairs.{AreNeedsOf, ShareOne};

use clr_finders::RowFinder;
use clr_foot::Scene;
use clr_needs::Need;
use clr_rows::RowView;
use std::alloc::{AllocError, Global};

/// Returns whether a need is among some.
fn is_among(needs: &[Need], need: Need) -> bool
    requires { IsStrictlySortedBy need_cmp needs.now }
    ensures { IsTestOf result (Contains needs.now need) }
{
    needs.binary_search(&need).is_ok()
}

/// Returns whether two lists have a need in common.
pub(crate) fn share_one(needs: &[Need], others: &[Need]) -> bool
    requires { IsStrictlySortedBy need_cmp others.now }
    ensures { IsTestOf result (ShareOne needs.now others.now) }
{
    for need in needs {
        if is_among(others, *need) {
            return true;
        }
    }
    false
}

/// Returns the possible needs that involve each member.
pub(crate) fn needs_of_members<V: RowView, F: RowFinder>(
    alloc: Global,
    scene: &Scene<'_, V, F>,
) -> Result<Vec<Vec<Need>>, AllocError>
    requires ready { IsReady F.settled (model_of V.content scene.now) }
    ensures { IfOk result (λ lists. AreNeedsOf (setting_of (model_of V.content scene.now)) (length (model_of V.content scene.now).sets)
        (map (λ list. list.items) lists.items)) }
{
    let mut lists = Vec::with_capacity(alloc, scene.len())?;
    for member in 0..scene.len() {
        lists.push(scene.needs_involving(member as u16)?)?;
    }
    Ok(lists)
}
