//! Labels of members: two have the same one exactly where a chain of dependent pairs joins them. No
//! pair is tried: the needs that may tie members are listed once, and members that stand beside
//! one another in the list of all these with the same need get one label.

ghost use Rattle.std.specs.Prelude.{◌≡◌, ◌≤◌, ◌<◌, ℕ, length, Contains, IfOk};
ghost use Rattle.clr_needs.specs.declared.limits.TheConstants.{MOST_MEMBERS};
ghost use Rattle.clr_foot.specs.Scenes.{model_of, setting_of};
ghost use Rattle.clr_groups.specs.Labels.{AreLabels, AreMoved, IsJoinedAt, label, moved_label};
ghost use Rattle.clr_groups.specs.MemberNeeds.{TieMembers};
ghost use Rattle.clr_groups.specs.declared.member_needs.MemberNeed.{MemberNeed as Pair};

use crate::member_needs::MemberNeed;
use clr_finders::RowFinder;
use clr_foot::Scene;
use clr_rows::RowView;
use std::alloc::{AllocError, Global};

/// Returns a label, or the one that is put in its place.
fn moved_label(label: u16, from: u16, to: u16) -> u16
    ensures { result ≡ moved_label from to label }
{
    if label == from { to } else { label }
}

/// Puts one label in the place of another.
fn move_labels(labels: &mut Vec<u16>, from: u16, to: u16)
    ensures { AreMoved from to labels.old.items labels.new.items }
{
    for k in 0..labels.len() {
        labels[k] = moved_label(labels[k], from, to);
    }
}

/// Gives all that have a member's label that of another member.
fn join(labels: &mut Vec<u16>, member: u16, other: u16)
    requires member { member < length labels.old.items }
    requires other { other < length labels.old.items }
    ensures { AreMoved (label labels.old.items member) (label labels.old.items other) labels.old.items labels.new.items }
{
    let from = labels[member as usize];
    let to = labels[other as usize];
    if from != to {
        move_labels(labels, from, to);
    }
}

/// Joins the member of a pair with that of the pair before it, if both have the same need.
fn join_at(labels: &mut Vec<u16>, list: &[MemberNeed], at: usize)
    requires after { 0 < at }
    requires within { at < length list.now }
    requires below { (p : Pair) → Contains list.now p → p.member < length labels.old.items }
    ensures { IsJoinedAt list.now at labels.old.items labels.new.items }
{
    let last = list[at - 1];
    let next = list[at];
    if last.need.cmp(&next.need).is_eq() {
        join(labels, next.member, last.member);
    }
}

/// Returns each member's own position.
fn own_labels(alloc: Global, count: usize) -> Result<Vec<u16>, AllocError>
    requires { count ≤ MOST_MEMBERS }
    ensures long { IfOk result (λ labels. length labels.items ≡ count) }
    ensures own { IfOk result (λ labels. (k : ℕ) → k < count → label labels.items k ≡ k) }
{
    let mut labels = Vec::with_capacity(alloc, count)?;
    for member in 0..count {
        labels.push(member as u16)?;
    }
    Ok(labels)
}

/// Returns a label for each member, where the needs that may tie members are given.
pub(crate) fn labels_of<V: RowView, F: RowFinder>(
    alloc: Global,
    scene: &Scene<'_, V, F>,
    list: &[MemberNeed],
) -> Result<Vec<u16>, AllocError>
    requires list { TieMembers (setting_of (model_of V.content scene.now)) (length (model_of V.content scene.now).sets) list.now }
    ensures few { IfOk result (λ labels. length labels.items ≤ MOST_MEMBERS) }
    ensures exact { IfOk result (λ labels. AreLabels (setting_of (model_of V.content scene.now)) (length (model_of V.content scene.now).sets) labels.items) }
{
    let mut labels = own_labels(alloc, scene.len())?;
    for at in 1..list.len() {
        join_at(&mut labels, list, at);
    }
    Ok(labels)
}
