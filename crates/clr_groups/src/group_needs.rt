//! The touched needs of a scene, each with the group in whose scene it is touched.

ghost use Rattle.std.specs.Prelude.{◌≡◌, ◌<◌, ◌≤◌, ℕ, List, map, length, get_or, slice_get, Contains, IfOk, OnOk};
ghost use Rattle.std.specs.List.Sorted.{IsStrictlySortedBy};
ghost use Rattle.std.specs.Ordering.{nat_cmp};
ghost use Rattle.clr_row_versions.specs.Gains.{Gains, OfSome};
ghost use Rattle.clr_needs.specs.declared.limits.TheConstants.{MOST_MEMBERS};
ghost use Rattle.clr_needs.specs.Members.{AreApart};
ghost use Rattle.clr_needs.specs.Needs.{Lists};
ghost use Rattle.clr_needs.specs.Tests.{IsTestOf};
ghost use Rattle.clr_foot.specs.Scenes.{IsReady, model_of, setting_of};
ghost use Rattle.clr_groups.specs.GroupNeeds.{IsOfPlace, IsPlaceOf, IsTouchedAt, group_need_cmp};
ghost use Rattle.clr_groups.specs.Groups.{AreGroups};
ghost use Rattle.clr_groups.specs.declared.member_needs.MemberNeed.{MemberNeed as Pair};

use crate::member_groups::groups_of_pairs;
use crate::member_needs::{MemberNeed, member_needs};
use clr_finders::RowFinder;
use clr_foot::Scene;
use clr_needs::Need;
use clr_rows::RowView;
use clr_spots::put_in_order;
use std::alloc::{AllocError, Global};

/// A touched need, and the position of the group in whose scene it is touched. Such pairs are
/// ordered by need, then by group.
#[derive(Clone, Copy, Debug, PartialEq, Eq, PartialOrd, Ord)]
pub struct GroupNeed {
    pub need: Need,
    pub group: usize,
}

/// Adds the need of a pair, if the member touches it, with the place of the member.
fn add_if_touched(
    pair: MemberNeed,
    places: &[usize],
    list: &mut Vec<GroupNeed>,
) -> Result<(), AllocError>
    requires { pair.member < length places.now }
    ensures { OnOk result (Gains (IsOfPlace places.now pair) (IsOfPlace places.now pair) list.old.items list.new.items) }
{
    if !pair.touches {
        return Ok(());
    }
    list.push(GroupNeed {
        need: pair.need,
        group: places[pair.member as usize],
    })?;
    Ok(())
}

/// Returns the needs that members touch, each with the places of these, ascending.
fn touched_needs(
    alloc: Global,
    pairs: &[MemberNeed],
    places: &[usize],
) -> Result<Vec<GroupNeed>, AllocError>
    requires { (p : Pair) → Contains pairs.now p → p.member < length places.now }
    ensures { IfOk result (λ list. Lists group_need_cmp (OfSome (IsOfPlace places.now) pairs.now) list.items) }
{
    let mut list = Vec::new(alloc);
    for pair in pairs {
        add_if_touched(*pair, places, &mut list)?;
    }
    put_in_order(&mut list);
    Ok(list)
}

/// Returns whether a member is in a group.
fn is_in(group: &[u16], member: u16) -> bool
    requires { IsStrictlySortedBy nat_cmp group.now }
    ensures { IsTestOf result (Contains group.now member) }
{
    group.binary_search(&member).is_ok()
}

/// Returns the position of the group of a member.
fn place_of(groups: &[Vec<u16>], member: u16) -> usize
    requires ascending { (g : List ℕ) → Contains (map (λ g. g.items) groups.now) g → IsStrictlySortedBy nat_cmp g }
    requires some { (g : List ℕ) × Contains (map (λ g. g.items) groups.now) g × Contains g member }
    ensures { IsPlaceOf (map (λ g. g.items) groups.now) member result }
{
    for place in 0..groups.len() {
        if is_in(groups[place].as_slice(), member) {
            return place;
        }
    }
    0
}

/// Returns the position of each member's group.
fn places_of(alloc: Global, groups: &[Vec<u16>], count: usize) -> Result<Vec<usize>, AllocError>
    requires ascending { (g : List ℕ) → Contains (map (λ g. g.items) groups.now) g → IsStrictlySortedBy nat_cmp g }
    requires some { (x : ℕ) → x < count → (g : List ℕ) × Contains (map (λ g. g.items) groups.now) g × Contains g x }
    requires few { count ≤ MOST_MEMBERS }
    ensures long { IfOk result (λ places. length places.items ≡ count) }
    ensures placed { IfOk result (λ places. (x : ℕ) → x < count → IsPlaceOf (map (λ g. g.items) groups.now) x (get_or places.items x 0)) }
{
    let mut places = Vec::with_capacity(alloc, count)?;
    for member in 0..count {
        places.push(place_of(groups, member as u16))?;
    }
    Ok(places)
}

/// Returns the groups of a scene's members, as `groups` does, and with them the touched needs of
/// the scenes of these groups, ascending.
pub fn groups_and_needs<V: RowView, F: RowFinder>(
    alloc: Global,
    scene: &Scene<'_, V, F>,
) -> Result<(Vec<Vec<u16>>, Vec<GroupNeed>), AllocError>
    requires ready { IsReady F.settled (model_of V.content scene.now) }
    requires apart { AreApart (model_of V.content scene.now).sets }
    ensures groups { IfOk result (λ both. AreGroups (setting_of (model_of V.content scene.now)) (map (λ g. g.items) both.0.items)) }
    ensures needs { IfOk result (λ both. Lists group_need_cmp (IsTouchedAt (model_of V.content scene.now).rules (model_of V.content scene.now).root
        (model_of V.content scene.now).sets (map (λ g. g.items) both.0.items)) both.1.items) }
{
    let pairs = member_needs(alloc, scene)?;
    let groups = groups_of_pairs(alloc, scene, pairs.as_slice())?;
    let places = places_of(alloc, groups.as_slice(), scene.len())?;
    let needs = touched_needs(alloc, pairs.as_slice(), places.as_slice())?;
    Ok((groups, needs))
}
