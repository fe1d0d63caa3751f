//! Versions of a scene by their lives.

ghost use Rattle.std.specs.List.Sorted.{IsStrictlySortedBy};
ghost use Rattle.clr_foot.specs.Scenes.{model_of, setting_of};
ghost use Rattle.clr_needs.specs.Members.{lifetime};
ghost use Rattle.clr_needs.specs.Orders.{version_cmp};
ghost use Rattle.clr_needs.specs.Witnesses.{IsLeastPassing, has_life_at};

use clr_finders::RowFinder;
use clr_foot::Scene;
use clr_needs::{Life, VersionId};
use clr_open_needs::has_life;
use clr_rows::RowView;

/// Returns the least of some ascending versions that has this life, if one does.
pub(crate) fn least_with<V: RowView, F: RowFinder>(
    scene: &Scene<'_, V, F>,
    ids: &[VersionId],
    life: Life,
) -> Option<VersionId>
    requires ascending { IsStrictlySortedBy version_cmp ids.now }
    ensures { IsLeastPassing (has_life_at (lifetime life) (setting_of (model_of V.content scene.now))) ids.now result }
{
    for id in ids {
        if has_life(scene, *id, life) {
            return Some(*id);
        }
    }
    None
}
