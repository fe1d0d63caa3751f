//! What covers the touched needs of a scene whose members are merged in the order of their positions.

ghost use Rattle.std.specs.Prelude.{◌<◌, length, IfOk};
ghost use Rattle.clr_foot.specs.Scenes.{IsReady, model_of, setting_of};
ghost use Rattle.clr_listed_covers.specs.ListedCovers.{IsBrokenAt, IsListedCover};

use crate::entries::entries_under;
use crate::late::{end_of, first_late};
use crate::listed_pairs::listed_pairs;
use clr_cert::Entries;
use clr_finders::RowFinder;
use clr_foot::Scene;
use clr_needs::Need;
use clr_open_needs::{OpenNeeds, open_needs};
use clr_order_answers::Pair;
use clr_rows::RowView;
use std::alloc::{AllocError, Global};

/// What can be said of a scene whose members are merged in the order of their positions.
#[derive(Debug, Drop)]
pub enum ListedCover {
    /// Entries that cover every touched need wherever the first of each pair goes before the second. In
    /// each pair the first stands before the second. Without any of the pairs some need isn't covered.
    Covered { pairs: Vec<Pair>, entries: Entries },
    /// The least touched need that nothing covers in this order, and how many first members break it, of
    /// whom the last blocks it.
    Broken { need: Need, count: usize },
}

/// Returns the open need at a place, and how many members there are up to the last that blocks it.
fn broken_at(found: &OpenNeeds, at: usize) -> ListedCover
    requires needs { at < length found.now.needs.items }
    requires sides { at < length found.now.sides.items }
    ensures { IsBrokenAt found.now at result }
{
    let need = found.needs[at];
    let count = end_of(found.sides[at].blockers.as_slice());
    ListedCover::Broken { need, count }
}

/// Returns what can be said of a scene whose members are merged in the order of their positions:
/// `Covered` where each touched need is covered if each member goes before those behind it, and
/// `Broken` otherwise.
/// For example, where no two mains may have one code, member 0 gives main 1 another code, and member 1 inserts
/// main 30 with the code that main 1 had, the scene is `Covered` with the pair of 0 and 1. With the members the other
/// way round it is `Broken` with the need of the old main 1 and the new main 30, and 1 member.
pub fn cover_as_listed<V: RowView, F: RowFinder>(
    alloc: Global,
    scene: &Scene<'_, V, F>,
) -> Result<ListedCover, AllocError>
    requires ready { IsReady F.settled (model_of V.content scene.now) }
    ensures { IfOk result (IsListedCover (setting_of (model_of V.content scene.now))) }
{
    let found = open_needs(alloc, scene)?;
    match first_late(found.sides.as_slice()) {
        Some(at) => Ok(broken_at(&found, at)),
        None => {
            let pairs = listed_pairs(alloc, found.sides.as_slice(), scene.len() as u16)?;
            let entries = entries_under(alloc, scene, pairs.as_slice())?;
            Ok(ListedCover::Covered { pairs, entries })
        }
    }
}
