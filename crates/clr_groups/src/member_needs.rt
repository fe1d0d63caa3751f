//! The needs by which members may be tied to one another, in one list with the members that they
//! involve, and with whether the member touches the need.

ghost use Rattle.std.specs.Prelude.{◌<◌, length, Contains, IfOk, OnOk};
ghost use Rattle.clr_row_versions.specs.Gains.{Gains, OfSome};
ghost use Rattle.clr_needs.specs.Needs.{IsTouched};
ghost use Rattle.clr_needs.specs.declared.needs.Need.{Need as OneNeed};
ghost use Rattle.clr_foot.specs.Scenes.{IsReady, model_of, setting_in};
ghost use Rattle.clr_groups.specs.MemberNeeds.{IsOfChanger, IsOfNeed, IsOfTies, IsPair, IsPairOf, TieMembers};

use clr_finders::RowFinder;
use clr_foot::Scene;
use clr_needs::{Need, VersionId};
use clr_rows::RowView;
use clr_spots::put_in_order;
use std::alloc::{AllocError, Global};

/// A need, a member that it involves, and whether it is listed since the member touches something by
/// it. These are ordered by need, then by member.
#[derive(Clone, Copy, Debug, PartialEq, Eq, PartialOrd, Ord)]
pub(crate) struct MemberNeed {
    pub(crate) need: Need,
    pub(crate) member: u16,
    pub(crate) touches: bool,
}

/// Adds a need with the member that changes the cell of a subject, if it is another than the given one.
fn add_changer<V: RowView, F: RowFinder>(
    scene: &Scene<'_, V, F>,
    need: Need,
    member: u16,
    subject: VersionId,
    list: &mut Vec<MemberNeed>,
) -> Result<(), AllocError>
    ensures { OnOk result (Gains (IsOfChanger (setting_in V.content scene.now) need member subject)
        (IsOfChanger (setting_in V.content scene.now) need member subject) list.old.items list.new.items) }
{
    match scene.changer(subject.cell) {
        None => Ok(()),
        Some(other) => {
            if other == member {
                return Ok(());
            }
            list.push(MemberNeed {
                need,
                member: other,
                touches: false,
            })?;
            Ok(())
        }
    }
}

/// Adds a possible need with a member, and with the members whose versions are its subjects.
fn add_need<V: RowView, F: RowFinder>(
    scene: &Scene<'_, V, F>,
    member: u16,
    touches: bool,
    need: Need,
    list: &mut Vec<MemberNeed>,
) -> Result<(), AllocError>
    requires { IsPairOf (setting_in V.content scene.now) member touches need }
    ensures { OnOk result (Gains (IsPair (setting_in V.content scene.now)) (IsOfNeed (setting_in V.content scene.now) member touches need)
        list.old.items list.new.items) }
{
    list.push(MemberNeed {
        need,
        member,
        touches,
    })?;
    add_changer(scene, need, member, need.first, list)?;
    match need.second {
        None => Ok(()),
        Some(second) => add_changer(scene, need, member, second, list),
    }
}

/// Adds some needs, each with a member and with the members whose versions are its subjects.
fn add_needs<V: RowView, F: RowFinder>(
    scene: &Scene<'_, V, F>,
    member: u16,
    touches: bool,
    needs: &[Need],
    list: &mut Vec<MemberNeed>,
) -> Result<(), AllocError>
    requires { (n : OneNeed) → Contains needs.now n → IsPairOf (setting_in V.content scene.now) member touches n }
    ensures { OnOk result (Gains (IsPair (setting_in V.content scene.now)) (OfSome (IsOfNeed (setting_in V.content scene.now) member touches) needs.now)
        list.old.items list.new.items) }
{
    for need in needs {
        add_need(scene, member, touches, *need, list)?;
    }
    Ok(())
}

/// Adds the needs that may tie a member.
fn add_ties<V: RowView, F: RowFinder>(
    scene: &Scene<'_, V, F>,
    member: u16,
    list: &mut Vec<MemberNeed>,
) -> Result<(), AllocError>
    requires ready { IsReady F.settled (model_of V.content scene.now) }
    requires member { member < length (model_of V.content scene.now).sets }
    ensures { OnOk result (Gains (IsPair (setting_in V.content scene.now)) (IsOfTies (setting_in V.content scene.now) member) list.old.items list.new.items) }
{
    let ties = scene.ties(member)?;
    add_needs(scene, member, true, ties.touching.as_slice(), list)?;
    add_needs(scene, member, false, ties.others.as_slice(), list)?;
    Ok(())
}

/// Returns the needs that may tie members, each with the members that it involves, ascending.
pub(crate) fn member_needs<V: RowView, F: RowFinder>(
    alloc: Global,
    scene: &Scene<'_, V, F>,
) -> Result<Vec<MemberNeed>, AllocError>
    requires ready { IsReady F.settled (model_of V.content scene.now) }
    ensures { IfOk result (λ list. TieMembers (setting_in V.content scene.now) (length (model_of V.content scene.now).sets) list.items) }
{
    let mut list = Vec::new(alloc);
    for member in 0..scene.len() {
        add_ties(scene, member as u16, &mut list)?;
    }
    put_in_order(&mut list);
    Ok(list)
}
