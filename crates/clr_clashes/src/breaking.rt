//! The touched needs of a scene that nothing covers, each with the members that break it.

ghost use Rattle.std.specs.Prelude.{map, IfOk, OnOk};
ghost use Rattle.clr_needs.specs.Needs.{IsPossibleNeed};
ghost use Rattle.clr_foot.specs.Scenes.{IsReady, model_of, setting_of};
ghost use Rattle.clr_clashes.specs.BrokenNeeds.{AddsBrokenNeed, AreBrokenNeeds};
ghost use Rattle.clr_clashes.specs.ListedClashes.{listed_clash_of};

use crate::listing::Clash;
use clr_finders::RowFinder;
use clr_foot::Scene;
use clr_needs::Need;
use clr_rows::RowView;
use std::alloc::{AllocError, Global};

/// Adds a possible need with the members that break it, where no witnesses are picked for it.
fn add_if_broken<V: RowView, F: RowFinder>(
    scene: &Scene<'_, V, F>,
    need: &Need,
    list: &mut Vec<Clash>,
) -> Result<(), AllocError>
    requires ready { IsReady F.settled (model_of V.content scene.now) }
    requires possible { IsPossibleNeed (setting_of (model_of V.content scene.now)) need.now }
    ensures { OnOk result (AddsBrokenNeed (setting_of (model_of V.content scene.now)) need.now
        (map listed_clash_of list.old.items) (map listed_clash_of list.new.items)) }
{
    match scene.pick(need)? {
        Some(_) => Ok(()),
        None => {
            let members = scene.blockers(need)?;
            list.push(Clash {
                members,
                need: *need,
            })?;
            Ok(())
        }
    }
}

/// Returns all touched needs of a scene without witnesses, ascending, each with the members that break it, by position.
pub fn broken_needs<V: RowView, F: RowFinder>(
    alloc: Global,
    scene: &Scene<'_, V, F>,
) -> Result<Vec<Clash>, AllocError>
    requires ready { IsReady F.settled (model_of V.content scene.now) }
    ensures { IfOk result (λ list. AreBrokenNeeds (setting_of (model_of V.content scene.now)) (map listed_clash_of list.items)) }
{
    let needs = scene.touched_needs()?;
    let mut list = Vec::new(alloc);
    for need in &needs {
        add_if_broken(scene, need, &mut list)?;
    }
    Ok(list)
}
