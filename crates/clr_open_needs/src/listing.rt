//! The open needs of a scene: one pass over its touched needs.

ghost use Rattle.std.specs.Prelude.{IfOk, OnOk};
ghost use Rattle.clr_foot.specs.Scenes.{IsReady, model_of, setting_of};
ghost use Rattle.clr_needs.specs.Needs.{IsPossibleNeed};
ghost use Rattle.clr_open_needs.specs.Listing.{AddsNeed, PutsNeed};
ghost use Rattle.clr_open_needs.specs.OpenNeeds.{AreOpenNeeds, AreTouchedListed};

use crate::helping::helpers;
use clr_finders::RowFinder;
use clr_foot::Scene;
use clr_needs::Need;
use clr_order_search::OpenNeed;
use clr_rows::RowView;
use std::alloc::{AllocError, Global};

/// Needs that nothing covers in every order, and for each of them, at the same place, its blockers and
/// its helpers by position, ascending.
#[derive(Debug, Drop)]
pub struct OpenNeeds {
    pub needs: Vec<Need>,
    pub sides: Vec<OpenNeed>,
}

/// Adds a possible need with its blockers and helpers.
fn add_need<V: RowView, F: RowFinder>(
    alloc: Global,
    scene: &Scene<'_, V, F>,
    need: &Need,
    found: &mut OpenNeeds,
) -> Result<(), AllocError>
    requires ready { IsReady F.settled (model_of V.content scene.now) }
    requires possible { IsPossibleNeed (setting_of (model_of V.content scene.now)) need.now }
    ensures { OnOk result (PutsNeed (setting_of (model_of V.content scene.now)) need.now found.old found.new) }
{
    let blockers = scene.blockers(need)?;
    let helpers = helpers(alloc, scene, need)?;
    found.needs.push(*need)?;
    found.sides.push(OpenNeed { blockers, helpers })?;
    Ok(())
}

/// Adds a possible need with its blockers and helpers, where no witnesses are picked for it.
fn note_need<V: RowView, F: RowFinder>(
    alloc: Global,
    scene: &Scene<'_, V, F>,
    need: &Need,
    found: &mut OpenNeeds,
) -> Result<(), AllocError>
    requires ready { IsReady F.settled (model_of V.content scene.now) }
    requires possible { IsPossibleNeed (setting_of (model_of V.content scene.now)) need.now }
    ensures { OnOk result (AddsNeed (setting_of (model_of V.content scene.now)) need.now found.old found.new) }
{
    match scene.pick(need)? {
        Some(_) => Ok(()),
        None => add_need(alloc, scene, need, found),
    }
}

/// Returns the touched needs of a scene that nothing covers in every order, ascending, each once,
/// with exactly its blockers and exactly its helpers.
/// For example, where no two mains may have one code, and two members exchange the codes of mains 1 and 2, each
/// of the two open needs has the one member as its blocker and the other as its helper.
pub fn open_needs<V: RowView, F: RowFinder>(
    alloc: Global,
    scene: &Scene<'_, V, F>,
) -> Result<OpenNeeds, AllocError>
    requires ready { IsReady F.settled (model_of V.content scene.now) }
    ensures needs { IfOk result (AreOpenNeeds (setting_of (model_of V.content scene.now))) }
    ensures touched { IfOk result (λ found. AreTouchedListed (setting_of (model_of V.content scene.now))) }
{
    let needs = scene.touched_needs()?;
    let mut found = OpenNeeds {
        needs: Vec::new(alloc),
        sides: Vec::new(alloc),
    };
    for need in &needs {
        note_need(alloc, scene, need, &mut found)?;
    }
    Ok(found)
}
