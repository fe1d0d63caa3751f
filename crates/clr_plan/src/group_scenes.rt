//! The scenes of groups.

ghost use Rattle.std.specs.Prelude.{◌≡◌, map, IfOk};
ghost use Rattle.clr_needs.specs.Members.{AreApart};
ghost use Rattle.clr_foot.specs.Scenes.{IsReady, model_of, setting_of};
ghost use Rattle.clr_groups.specs.Groups.{AreGroups};
ghost use Rattle.clr_plan.specs.GroupNeeds.{models_at};

use clr_finders::RowFinder;
use clr_foot::Scene;
use clr_groups::group_scene;
use clr_rows::RowView;
use std::alloc::{AllocError, Global};

/// Returns the scene of each group of a scene's members.
pub(crate) fn group_scenes<'a, V: RowView, F: RowFinder>(
    alloc: Global,
    scene: &Scene<'a, V, F>,
    groups: &[Vec<u16>],
) -> Result<Vec<Scene<'a, V, F>>, AllocError>
    requires ready { IsReady F.settled (model_of V.content scene.now) }
    requires apart { AreApart (model_of V.content scene.now).sets }
    requires groups { AreGroups (setting_of (model_of V.content scene.now)) (map (λ g. g.items) groups.now) }
    ensures { IfOk result (λ parts. map (model_of V.content) parts.items
        ≡ models_at (model_of V.content scene.entry.now) (map (λ g. g.items) groups.entry.now)) }
{
    let mut parts = Vec::with_capacity(alloc, groups.len())?;
    for at in 0..groups.len() {
        parts.push(group_scene(scene, groups, at)?)?;
    }
    Ok(parts)
}
