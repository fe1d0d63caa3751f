//! Whether a member helps others.
ghost use Rattle.std.specs.Prelude.{◌≡◌, ◌==◌, map, IfOk};
ghost use Rattle.std.specs.List.{list_any};
ghost use Rattle.clr_needs.specs.Members.{AreApart};
ghost use Rattle.clr_needs.specs.Needs.{IsPossibleNeed};
ghost use Rattle.clr_needs.specs.Tests.{IsTestOf};
ghost use Rattle.clr_foot.specs.Scenes.{IsReady, model_of, setting_of};
ghost use Rattle.clr_clearance.specs.MergeSets.{change_sets, setting_by_position};
ghost use Rattle.clr_merge_sets.specs.MergeSetNames.{merge_set};
ghost use Rattle.clr_merge_sets.specs.MergeSets.{AreParts};
ghost use Rattle.clr_open_needs.specs.OpenNeeds.{IsHelperOf};
ghost use Rattle.clr_clash_helpers.specs.Helpers.{HelpsAt};

use crate::refusals::refused;
use clr_change::ChangeSet;
use clr_engine::Office;
use clr_finders::RowFinder;
use clr_foot::Scene;
use clr_merge_sets::{MergeSetParts, read_merge_set_of, verdict_of};
use clr_needs::Need;
use clr_open_needs::helpers;
use clr_rows::RowView;
use std::alloc::{AllocError, Global};

/// Returns whether a place is among some positions.
fn is_among(positions: &[u16], place: usize) -> bool
    ensures { result ≡ list_any (λ x. x == place) positions.now }
{
    positions.iter().any(|position| *position as usize == place)
}

/// Returns whether the member at a place of a scene helps a need that is possible there.
fn is_helper<V: RowView, F: RowFinder>(
    alloc: Global,
    scene: &Scene<'_, V, F>,
    need: &Need,
    place: usize,
) -> Result<bool, AllocError>
    requires ready { IsReady F.settled (model_of V.content scene.now) }
    requires possible { IsPossibleNeed (setting_of (model_of V.content scene.now)) need.now }
    ensures { IfOk result (λ told. IsTestOf told (IsHelperOf (setting_of (model_of V.content scene.now)) need.now place)) }
{
    let positions = helpers(alloc, scene, need)?;
    Ok(is_among(positions.as_slice(), place))
}

/// Returns whether, of the members of these parts, the one at a place helps a need, no cell being changed by two. The need is
/// possible where no cell is changed by two.
fn helps_in(
    alloc: Global,
    office: &Office,
    root: &str,
    names: &[&str],
    parts: &MergeSetParts<'_>,
    need: &Need,
    place: usize,
) -> Result<bool, AllocError>
    requires parts { AreParts office.now (merge_set root.now (map (λ name. name.now) names.now)) parts.now }
    requires possible { AreApart (change_sets office.now (merge_set root.now (map (λ name. name.now) names.now)))
        → IsPossibleNeed (setting_by_position office.now (merge_set root.now (map (λ name. name.now) names.now))) need.now }
    ensures { IfOk result (λ told. IsTestOf told (HelpsAt office.now (merge_set root.now (map (λ name. name.now) names.now)) need.now place)) }
{
    let _root = root;
    let _names = names;
    match parts.scene(alloc, office) {
        Ok(scene) => is_helper(alloc, &scene, need, place),
        Err(fault) => refused(verdict_of(fault)),
    }
}

/// Returns whether, of members with these changes, the one at a place helps a need, none of them being in conflict and no
/// cell being changed by two. The need is possible where no cell is changed by two.
pub(crate) fn helps_at(
    alloc: Global,
    office: &Office,
    root: &str,
    names: &[&str],
    sets: Vec<&ChangeSet>,
    need: &Need,
    place: usize,
) -> Result<bool, AllocError>
    requires sets { map (λ set. set.now) sets.items ≡ change_sets office.now (merge_set root.now (map (λ name. name.now) names.now)) }
    requires possible { AreApart (change_sets office.now (merge_set root.now (map (λ name. name.now) names.now)))
        → IsPossibleNeed (setting_by_position office.now (merge_set root.now (map (λ name. name.now) names.now))) need.now }
    ensures { IfOk result (λ told. IsTestOf told (HelpsAt office.now (merge_set root.now (map (λ name. name.now) names.now)) need.now place)) }
{
    match read_merge_set_of(alloc, office, root, &names, sets) {
        Ok(parts) => helps_in(alloc, office, root, names, &parts, need, place),
        Err(fault) => refused(fault),
    }
}
