//! The entries of a scene's touched needs where some members go before others.

ghost use Rattle.std.specs.Prelude.{◌≡◌, ℕ, None, Option, IfOk};
ghost use Rattle.clr_foot.specs.Scenes.{IsReady, model_of, setting_of};
ghost use Rattle.clr_needs.specs.Needs.{IsPossibleNeed, IsTouched};
ghost use Rattle.clr_listed_covers.specs.Entries.{AreEntriesUnder, IsCoveredBy, IsEntryUnder, IsHelpedBy};

use crate::covers::{Cover, cover_by_pairs};
use clr_cert::{Entries, Entry};
use clr_finders::RowFinder;
use clr_foot::Scene;
use clr_needs::Need;
use clr_order_answers::Pair;
use clr_rows::RowView;
use std::alloc::{AllocError, Global};

/// Returns an entry with the witnesses of a possible need that one of some pairs serves: its first helps
/// the need and its second blocks it. Returns none where the subjects never stand together.
fn entry_by_pairs<V: RowView, F: RowFinder>(
    scene: &Scene<'_, V, F>,
    need: &Need,
    pairs: &[Pair],
) -> Result<Option<Entry>, AllocError>
    requires ready { IsReady F.settled (model_of V.content scene.now) }
    requires possible { IsPossibleNeed (setting_of (model_of V.content scene.now)) need.now }
    requires helped { IsHelpedBy (setting_of (model_of V.content scene.now)) pairs.now need.now }
    ensures { IfOk result (IsEntryUnder (setting_of (model_of V.content scene.now)) pairs.now need.now) }
{
    let servers = scene.servers(need)?;
    match cover_by_pairs(scene, need, servers.as_slice(), pairs) {
        None => Ok(None),
        Some(Cover::NeverMeet) => Ok(None),
        Some(Cover::Witnesses(one, two)) => Ok(Some(Entry {
            need: *need,
            one,
            two,
        })),
    }
}

/// Returns an entry with the witnesses of a touched need: those that are picked for it, where something
/// covers it in every order. Returns none where its subjects never stand together under the pairs.
fn entry_for<V: RowView, F: RowFinder>(
    scene: &Scene<'_, V, F>,
    need: &Need,
    pairs: &[Pair],
) -> Result<Option<Entry>, AllocError>
    requires ready { IsReady F.settled (model_of V.content scene.now) }
    requires touched { IsTouched (setting_of (model_of V.content scene.now)) need.now }
    requires covered { IsCoveredBy (setting_of (model_of V.content scene.now)) pairs.now }
    ensures { IfOk result (IsEntryUnder (setting_of (model_of V.content scene.now)) pairs.now need.now) }
{
    match scene.pick(need)? {
        Some((one, two)) => Ok(Some(Entry {
            need: *need,
            one,
            two,
        })),
        None => entry_by_pairs(scene, need, pairs),
    }
}

/// Returns entries that cover the touched needs of a scene where the first of each pair goes before the
/// second: ascending by need, one for each need whose subjects can stand together.
pub(crate) fn entries_under<V: RowView, F: RowFinder>(
    alloc: Global,
    scene: &Scene<'_, V, F>,
    pairs: &[Pair],
) -> Result<Entries, AllocError>
    requires ready { IsReady F.settled (model_of V.content scene.now) }
    requires covered { IsCoveredBy (setting_of (model_of V.content scene.now)) pairs.now }
    ensures { IfOk result (AreEntriesUnder (setting_of (model_of V.content scene.now)) pairs.now) }
{
    let needs = scene.touched_needs()?;
    let mut list = Vec::new(alloc);
    for need in &needs {
        if let Some(entry) = entry_for(scene, need, pairs)? {
            list.push(entry)?;
        }
    }
    Ok(Entries::new(list))
}
