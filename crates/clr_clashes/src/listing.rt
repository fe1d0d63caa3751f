//! The smallest clashes of a scene: one pass over its touched needs finds the members that break each
//! need which nothing covers, and those that hold others give way.

ghost use Rattle.std.specs.Prelude.{◌≡◌, map, IfOk, OnOk};
ghost use Rattle.std.specs.List.{list_any};
ghost use Rattle.clr_needs.specs.Needs.{IsPossibleNeed};
ghost use Rattle.clr_foot.specs.Scenes.{IsReady, model_of, setting_of};
ghost use Rattle.clr_clashes.specs.Keeping.{AddsNeedClash, is_all_in, with_clash};
ghost use Rattle.clr_clashes.specs.ListedClashes.{AreSmallestClashes, listed_clash_of};

use clr_finders::RowFinder;
use clr_foot::Scene;
use clr_needs::Need;
use clr_rows::RowView;
use std::alloc::{AllocError, Global};

/// Members that can't all be merged, by position, ascending, and a need that they break.
#[derive(Debug, Drop)]
pub struct Clash {
    pub members: Vec<u16>,
    pub need: Need,
}

/// Returns whether all of some members are among others.
fn is_within(members: &[u16], others: &[u16]) -> bool
    ensures { result ≡ is_all_in members.now others.now }
{
    members.iter().all(|member| others.contains(member))
}

/// Returns whether the members of one of some clashes are all among some members.
fn hold_clash(clashes: &[Clash], members: &[u16]) -> bool
    ensures { result ≡ list_any (λ k. is_all_in k.members.items members.now) clashes.now }
{
    clashes
        .iter()
        .any(|clash| is_within(clash.members.as_slice(), members))
}

/// Adds a clash, unless it holds one that is there, and drops those that hold it.
fn add_clash(clashes: &mut Vec<Clash>, clash: Clash) -> Result<(), AllocError>
    ensures { OnOk result (map listed_clash_of clashes.new.items ≡ with_clash (map listed_clash_of clashes.old.items) (listed_clash_of clash)) }
{
    if hold_clash(clashes.as_slice(), clash.members.as_slice()) {
        return Ok(());
    }
    clashes.retain(|other| !is_within(clash.members.as_slice(), other.members.as_slice()));
    clashes.push(clash)?;
    Ok(())
}

/// Adds the members that break a possible need, where no witnesses are picked for it.
fn note_need<V: RowView, F: RowFinder>(
    scene: &Scene<'_, V, F>,
    need: &Need,
    clashes: &mut Vec<Clash>,
) -> Result<(), AllocError>
    requires ready { IsReady F.settled (model_of V.content scene.now) }
    requires possible { IsPossibleNeed (setting_of (model_of V.content scene.now)) need.now }
    ensures { OnOk result (AddsNeedClash (setting_of (model_of V.content scene.now)) need.now
        (map listed_clash_of clashes.old.items) (map listed_clash_of clashes.new.items)) }
{
    match scene.pick(need)? {
        Some(_) => Ok(()),
        None => {
            let members = scene.blockers(need)?;
            add_clash(
                clashes,
                Clash {
                    members,
                    need: *need,
                },
            )
        }
    }
}

/// Returns the smallest sets of a scene's members that can't all be merged, since together they
/// break a touched need which nothing covers: each set once, with the least need that its members
/// break, in the order of these needs.
pub fn clashes<V: RowView, F: RowFinder>(
    alloc: Global,
    scene: &Scene<'_, V, F>,
) -> Result<Vec<Clash>, AllocError>
    requires ready { IsReady F.settled (model_of V.content scene.now) }
    ensures { IfOk result (λ list. AreSmallestClashes (setting_of (model_of V.content scene.now)) (map listed_clash_of list.items)) }
{
    let needs = scene.touched_needs()?;
    let mut list = Vec::new(alloc);
    for need in &needs {
        note_need(scene, need, &mut list)?;
    }
    Ok(list)
}
