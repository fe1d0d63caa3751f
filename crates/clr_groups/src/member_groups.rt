//! Groups of members, by their labels.

ghost use Rattle.std.specs.Prelude.{◌≡◌, ◌≤◌, ◌<◌, ℕ, get_or, length, map, IfOk};
ghost use Rattle.std.specs.Ordering.{nat_cmp};
ghost use Rattle.clr_needs.specs.declared.limits.TheConstants.{MOST_MEMBERS};
ghost use Rattle.clr_needs.specs.Needs.{Lists};
ghost use Rattle.clr_foot.specs.Scenes.{IsReady, model_of, setting_of};
ghost use Rattle.clr_groups.specs.Groups.{AreGroups};
ghost use Rattle.clr_groups.specs.Labels.{AreGroupsBy, IsLabelled};
ghost use Rattle.clr_groups.specs.MemberNeeds.{TieMembers};

use crate::labels::labels_of;
use crate::member_needs::{MemberNeed, member_needs};
use clr_finders::RowFinder;
use clr_foot::Scene;
use clr_rows::RowView;
use std::alloc::{AllocError, Global};

/// Returns the members that have a label, ascending.
fn members_with(alloc: Global, labels: &[u16], label: u16) -> Result<Vec<u16>, AllocError>
    requires { length labels.now ≤ MOST_MEMBERS }
    ensures { IfOk result (λ list. Lists nat_cmp (IsLabelled labels.now label) list.items) }
{
    let mut list = Vec::new(alloc);
    for member in 0..labels.len() {
        if labels[member] == label {
            list.push(member as u16)?;
        }
    }
    Ok(list)
}

/// Returns, for each label that a member has, the members that have it.
fn groups_by(alloc: Global, labels: &[u16]) -> Result<Vec<Vec<u16>>, AllocError>
    requires few { length labels.now ≤ MOST_MEMBERS }
    requires below { (x : ℕ) → x < length labels.now → get_or labels.now x 0 < length labels.now }
    ensures { IfOk result (λ groups. AreGroupsBy labels.now (map (λ g. g.items) groups.items)) }
{
    let mut groups = Vec::new(alloc);
    for label in 0..labels.len() {
        let group = members_with(alloc, labels, label as u16)?;
        if !group.is_empty() {
            groups.push(group)?;
        }
    }
    Ok(groups)
}

/// Returns the groups of a scene's members, where the needs that may tie members are given.
pub(crate) fn groups_of_pairs<V: RowView, F: RowFinder>(
    alloc: Global,
    scene: &Scene<'_, V, F>,
    pairs: &[MemberNeed],
) -> Result<Vec<Vec<u16>>, AllocError>
    requires pairs { TieMembers (setting_of (model_of V.content scene.now)) (length (model_of V.content scene.now).sets) pairs.now }
    ensures { IfOk result (λ groups. AreGroups (setting_of (model_of V.content scene.now)) (map (λ g. g.items) groups.items)) }
{
    let labels = labels_of(alloc, scene, pairs)?;
    groups_by(alloc, labels.as_slice())
}

/// Returns the groups of a scene's members, by position. Each group ascends and has a member, each
/// member stands in one, and two stand in the same one exactly where a chain of dependent pairs
/// joins them. The needs that may tie members are listed once.
pub fn groups<V: RowView, F: RowFinder>(
    alloc: Global,
    scene: &Scene<'_, V, F>,
) -> Result<Vec<Vec<u16>>, AllocError>
    requires ready { IsReady F.settled (model_of V.content scene.now) }
    ensures { IfOk result (λ groups. AreGroups (setting_of (model_of V.content scene.now)) (map (λ g. g.items) groups.items)) }
{
    let pairs = member_needs(alloc, scene)?;
    groups_of_pairs(alloc, scene, pairs.as_slice())
}
