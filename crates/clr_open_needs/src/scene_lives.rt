//! Versions of a scene that have a life.

ghost use Rattle.std.specs.Prelude.{◌≡◌};
ghost use Rattle.clr_foot.specs.Scenes.{model_of, setting_of};
ghost use Rattle.clr_needs.specs.Blocking.{has_life, has_subject_of_life};
ghost use Rattle.clr_needs.specs.Members.{lifetime};
ghost use Rattle.clr_needs.specs.Settings.{version};

use clr_finders::RowFinder;
use clr_foot::Scene;
use clr_needs::{Life, Need, VersionId};
use clr_row_versions::are_same;
use clr_rows::RowView;

/// Tests whether a scene has the version of a name and it has this life.
pub fn has_life<V: RowView, F: RowFinder>(
    scene: &Scene<'_, V, F>,
    id: VersionId,
    life: Life,
) -> bool
    ensures { result ≡ has_life (lifetime life) (version (setting_of (model_of V.content scene.now)) id) }
{
    match scene.life(id) {
        None => false,
        Some(found) => are_same(found, life),
    }
}

/// Tests whether a subject of a need has this life in a scene.
pub fn has_subject_with<V: RowView, F: RowFinder>(
    scene: &Scene<'_, V, F>,
    need: &Need,
    life: Life,
) -> bool
    ensures { result ≡ has_subject_of_life (lifetime life) (setting_of (model_of V.content scene.now)) need.now }
{
    match need.second {
        None => has_life(scene, need.first, life),
        Some(second) => has_life(scene, need.first, life) || has_life(scene, second, life),
    }
}
