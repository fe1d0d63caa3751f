//! The members that help a need.

ghost use Rattle.std.specs.Prelude.{◌≡◌, IfOk};
ghost use Rattle.std.specs.List.{list_any};
ghost use Rattle.clr_foot.specs.Scenes.{IsReady, model_of, setting_of};
ghost use Rattle.clr_needs.specs.Members.{lifetime};
ghost use Rattle.clr_needs.specs.Needs.{AreServers, IsPossibleNeed};
ghost use Rattle.clr_needs.specs.Witnesses.{has_life_at};
ghost use Rattle.clr_open_needs.specs.OpenNeeds.{Helps, IsToldHelper};

use crate::scene_lives::{has_life, has_subject_with};
use clr_finders::RowFinder;
use clr_foot::Scene;
use clr_needs::{Life, Need, VersionId};
use clr_rows::RowView;
use std::alloc::{AllocError, Global};

/// Tests whether one of some versions has this life.
fn has_server_with<V: RowView, F: RowFinder>(
    scene: &Scene<'_, V, F>,
    servers: &[VersionId],
    life: Life,
) -> bool
    ensures { result ≡ list_any (has_life_at (lifetime life) (setting_of (model_of V.content scene.now))) servers.now }
{
    servers.iter().any(|id| has_life(scene, *id, life))
}

/// Tests whether a member takes a subject of a possible need away or brings one of its servers.
fn is_helper<V: RowView, F: RowFinder>(
    scene: &Scene<'_, V, F>,
    need: &Need,
    servers: &[VersionId],
    position: u16,
) -> bool
    requires possible { IsPossibleNeed (setting_of (model_of V.content scene.now)) need.now }
    requires servers { AreServers (setting_of (model_of V.content scene.now)) need.now servers.now }
    ensures { IsToldHelper (setting_of (model_of V.content scene.now)) need.now position result }
{
    if has_subject_with(scene, need, Life::Without(position)) {
        return true;
    }
    has_server_with(scene, servers, Life::With(position))
}

/// Returns the members that help a possible need, by position, ascending: those that take a subject
/// away or bring a version that serves it.
/// For example, where no two mains may have one code, member 0 gives main 1 another code, and member 1 inserts
/// main 30 with the code that main 1 had, member 0 alone helps the need of the old main 1 and the new main 30.
pub fn helpers<V: RowView, F: RowFinder>(
    alloc: Global,
    scene: &Scene<'_, V, F>,
    need: &Need,
) -> Result<Vec<u16>, AllocError>
    requires ready { IsReady F.settled (model_of V.content scene.now) }
    requires possible { IsPossibleNeed (setting_of (model_of V.content scene.now)) need.now }
    ensures { IfOk result (λ list. Helps (setting_of (model_of V.content scene.now)) need.now list.items) }
{
    let servers = scene.servers(need)?;
    let mut list = Vec::new(alloc);
    for position in 0..scene.len() {
        if is_helper(scene, need, servers.as_slice(), position as u16) {
            list.push(position as u16)?;
        }
    }
    Ok(list)
}
