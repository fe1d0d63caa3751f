//! Whether some members touch a need.
ghost use Rattle.std.specs.Prelude.{◌≡◌, map, Contains, IfOk};
ghost use Rattle.std.specs.List.Sorted.{IsStrictlySortedBy};
ghost use Rattle.clr_needs.specs.Needs.{IsTouched};
ghost use Rattle.clr_needs.specs.Orders.{need_cmp};
ghost use Rattle.clr_needs.specs.Tests.{IsTestOf};
ghost use Rattle.clr_foot.specs.Scenes.{IsReady, model_of, setting_of};
ghost use Rattle.clr_clearance.specs.MergeSets.{change_sets};
ghost use Rattle.clr_merge_sets.specs.MergeSetNames.{merge_set};
ghost use Rattle.clr_merge_sets.specs.MergeSets.{AreParts};
ghost use Rattle.clr_clash_helpers.specs.Helpers.{Touch};

use crate::refusals::refused;
use clr_change::ChangeSet;
use clr_engine::Office;
use clr_finders::RowFinder;
use clr_foot::Scene;
use clr_merge_sets::{MergeSetParts, read_merge_set_of, verdict_of};
use clr_needs::Need;
use clr_rows::RowView;
use std::alloc::{AllocError, Global};

/// Returns whether a need is among some.
fn is_among(needs: &[Need], need: &Need) -> bool
    requires { IsStrictlySortedBy need_cmp needs.now }
    ensures { IsTestOf result (Contains needs.now need.now) }
{
    needs.binary_search(need).is_ok()
}

/// Returns whether the members of a scene touch a need.
fn is_touched<V: RowView, F: RowFinder>(
    scene: &Scene<'_, V, F>,
    need: &Need,
) -> Result<bool, AllocError>
    requires ready { IsReady F.settled (model_of V.content scene.now) }
    ensures { IfOk result (λ told. IsTestOf told (IsTouched (setting_of (model_of V.content scene.now)) need.now)) }
{
    let needs = scene.touched_needs()?;
    Ok(is_among(needs.as_slice(), need))
}

/// Returns whether the members of these parts touch a need, no cell being changed by two.
fn touch_in(
    alloc: Global,
    office: &Office,
    root: &str,
    names: &[&str],
    parts: &MergeSetParts<'_>,
    need: &Need,
) -> Result<bool, AllocError>
    requires { AreParts office.now (merge_set root.now (map (λ name. name.now) names.now)) parts.now }
    ensures { IfOk result (λ told. IsTestOf told (Touch office.now (merge_set root.now (map (λ name. name.now) names.now)) need.now)) }
{
    let _root = root;
    let _names = names;
    match parts.scene(alloc, office) {
        Ok(scene) => is_touched(&scene, need),
        Err(fault) => refused(verdict_of(fault)),
    }
}

/// Returns whether members with these changes touch a need, none of which is in conflict and no cell being changed by two.
pub(crate) fn touch(
    alloc: Global,
    office: &Office,
    root: &str,
    names: &[&str],
    sets: Vec<&ChangeSet>,
    need: &Need,
) -> Result<bool, AllocError>
    requires { map (λ set. set.now) sets.items ≡ change_sets office.now (merge_set root.now (map (λ name. name.now) names.now)) }
    ensures { IfOk result (λ told. IsTestOf told (Touch office.now (merge_set root.now (map (λ name. name.now) names.now)) need.now)) }
{
    match read_merge_set_of(alloc, office, root, &names, sets) {
        Ok(parts) => touch_in(alloc, office, root, names, &parts, need),
        Err(fault) => refused(fault),
    }
}
