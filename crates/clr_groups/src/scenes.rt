//! The scenes of groups.

ghost use Rattle.std.specs.Prelude.{◌≡◌, ◌<◌, [], get_or, length, map, IfOk};
ghost use Rattle.clr_needs.specs.Members.{AreApart};
ghost use Rattle.clr_foot.specs.Scenes.{IsReady, model_at, model_of, setting_of};
ghost use Rattle.clr_groups.specs.Groups.{AreGroups};

use clr_finders::RowFinder;
use clr_foot::Scene;
use clr_rows::RowView;
use std::alloc::AllocError;

/// Returns the scene of the group at a position among the groups of a scene's members.
pub fn group_scene<'a, V: RowView, F: RowFinder>(
    scene: &Scene<'a, V, F>,
    groups: &[Vec<u16>],
    at: usize,
) -> Result<Scene<'a, V, F>, AllocError>
    requires ready { IsReady F.settled (model_of V.content scene.now) }
    requires apart { AreApart (model_of V.content scene.now).sets }
    requires groups { AreGroups (setting_of (model_of V.content scene.now)) (map (λ g. g.items) groups.now) }
    requires within { at < length groups.now }
    ensures made { IfOk result (λ part. model_of V.content part
        ≡ model_at (model_of V.content scene.entry.now) (get_or (map (λ g. g.items) groups.entry.now) at [])) }
    ensures ready { IfOk result (λ part. IsReady F.settled (model_of V.content part)) }
{
    let _few = scene.len();
    let part = scene.part(groups[at].as_slice())?;
    Ok(part)
}
