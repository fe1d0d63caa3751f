//! What covers a need where the first of a pair of members goes before the second.

ghost use Rattle.std.specs.Prelude.{◌≡◌, true, false};
ghost use Rattle.clr_foot.specs.Scenes.{model_of, setting_of};
ghost use Rattle.clr_needs.specs.Blocking.{has_subject_of_life};
ghost use Rattle.clr_needs.specs.Needs.{AreServers, IsPossibleNeed};
ghost use Rattle.clr_needs.specs.Settings.{Without};
ghost use Rattle.clr_listed_covers.specs.Covers.{IsCoverByPair, IsCoverByPairs};

use crate::lives::least_with;
use clr_finders::RowFinder;
use clr_foot::Scene;
use clr_needs::{Life, Need, VersionId};
use clr_open_needs::has_subject_with;
use clr_order_answers::Pair;
use clr_rows::RowView;

/// What covers a need.
#[derive(Clone, Copy, Debug)]
pub(crate) enum Cover {
    /// Its subjects never stand together.
    NeverMeet,
    /// One version, or two of which one always stands.
    Witnesses(VersionId, Option<VersionId>),
}

/// Returns what covers a possible need of which the first of a pair takes a subject away, where the
/// second blocks it: the second brings the other subject, or takes a server away no sooner.
fn cover_of_leaving<V: RowView, F: RowFinder>(
    scene: &Scene<'_, V, F>,
    need: &Need,
    servers: &[VersionId],
    pair: Pair,
) -> Option<Cover>
    requires possible { IsPossibleNeed (setting_of (model_of V.content scene.now)) need.now }
    requires servers { AreServers (setting_of (model_of V.content scene.now)) need.now servers.now }
    requires leaving { has_subject_of_life (Without pair.earlier) (setting_of (model_of V.content scene.now)) need.now ≡ true }
    ensures { IsCoverByPair (setting_of (model_of V.content scene.now)) need.now pair result }
{
    if has_subject_with(scene, need, Life::With(pair.later)) {
        return Some(Cover::NeverMeet);
    }
    match least_with(scene, servers, Life::Without(pair.later)) {
        None => None,
        Some(old) => Some(Cover::Witnesses(old, None)),
    }
}

/// Returns what covers a possible need of which the first of a pair takes no subject away, where it
/// brings a server and the second blocks the need: that server alone if the second brings a subject,
/// or else that server and one which the second takes away.
fn cover_of_coming<V: RowView, F: RowFinder>(
    scene: &Scene<'_, V, F>,
    need: &Need,
    servers: &[VersionId],
    pair: Pair,
) -> Option<Cover>
    requires possible { IsPossibleNeed (setting_of (model_of V.content scene.now)) need.now }
    requires servers { AreServers (setting_of (model_of V.content scene.now)) need.now servers.now }
    requires staying { has_subject_of_life (Without pair.earlier) (setting_of (model_of V.content scene.now)) need.now ≡ false }
    ensures { IsCoverByPair (setting_of (model_of V.content scene.now)) need.now pair result }
{
    let Some(new) = least_with(scene, servers, Life::With(pair.earlier)) else {
        return None;
    };
    if has_subject_with(scene, need, Life::With(pair.later)) {
        return Some(Cover::Witnesses(new, None));
    }
    match least_with(scene, servers, Life::Without(pair.later)) {
        None => None,
        Some(old) => Some(Cover::Witnesses(new, Some(old))),
    }
}

/// Returns what covers a possible need where the first of a pair goes before the second, if the first
/// helps the need and the second blocks it.
fn cover_by_pair<V: RowView, F: RowFinder>(
    scene: &Scene<'_, V, F>,
    need: &Need,
    servers: &[VersionId],
    pair: Pair,
) -> Option<Cover>
    requires possible { IsPossibleNeed (setting_of (model_of V.content scene.now)) need.now }
    requires servers { AreServers (setting_of (model_of V.content scene.now)) need.now servers.now }
    ensures { IsCoverByPair (setting_of (model_of V.content scene.now)) need.now pair result }
{
    if has_subject_with(scene, need, Life::Without(pair.earlier)) {
        cover_of_leaving(scene, need, servers, pair)
    } else {
        cover_of_coming(scene, need, servers, pair)
    }
}

/// Returns what covers a possible need where the first of each pair goes before the second, if of one
/// of the pairs the first helps the need and the second blocks it.
pub(crate) fn cover_by_pairs<V: RowView, F: RowFinder>(
    scene: &Scene<'_, V, F>,
    need: &Need,
    servers: &[VersionId],
    pairs: &[Pair],
) -> Option<Cover>
    requires possible { IsPossibleNeed (setting_of (model_of V.content scene.now)) need.now }
    requires servers { AreServers (setting_of (model_of V.content scene.now)) need.now servers.now }
    ensures { IsCoverByPairs (setting_of (model_of V.content scene.now)) need.now pairs.now result }
{
    for pair in pairs {
        if let Some(cover) = cover_by_pair(scene, need, servers, *pair) {
            return Some(cover);
        }
    }
    None
}
