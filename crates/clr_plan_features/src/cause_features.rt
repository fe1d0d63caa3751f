//! The feature of the place of a cause.

ghost use Rattle.std.specs.Prelude.{◌≡◌, ◌++◌, IfOk, OnOk};
ghost use Rattle.std.specs.List.{flat_map};
ghost use Rattle.clr_steps.specs.Quiet.{MergeSet};
ghost use Rattle.clr_merge_sets.specs.MemberChanges.{AreMembers};
ghost use Rattle.clr_geojson.specs.Collections.{line_with_comma};
ghost use Rattle.clr_plan_features.specs.CausePlaces.{IsPlaceOfPlan, place_between, place_between_rows, place_of_cause, place_of_mark};
ghost use Rattle.clr_plan_features.specs.PlanFeatures.{place_feature, place_features};

use clr_drawing::middle_of;
use clr_engine::Office;
use clr_geojson::{Feature, Properties, Property, add_feature};
use clr_map_scenes::{Cause, CauseRow, Mark};
use clr_member_changes::MemberChanges;
use clr_merge_sets::Plan;
use clr_plan_causes::cause_of;
use clr_rows::{Place, Shape, Words};
use std::alloc::{AllocError, Global};

/// A place that a map marks, and the few words that it says there.
#[derive(Drop)]
pub(crate) struct MarkedPlace {
    pub place: Place,
    pub says: Words,
}

/// Returns the place between two points, or none of other shapes.
fn place_between(one: &Shape, other: &Shape) -> Option<Place>
    ensures { result ≡ place_between one.now other.now }
{
    match (one, other) {
        (Shape::At(one), Shape::At(other)) => middle_of(&Shape::Line(*one, *other)),
        _ => None,
    }
}

/// Returns the place between the first two of some rows, if these are points.
fn place_between_rows(rows: &[CauseRow]) -> Option<Place>
    ensures { result ≡ place_between_rows rows.now }
{
    match rows {
        [one, other, ..] => place_between(&one.row.shape, &other.row.shape),
        _ => None,
    }
}

/// Returns the place that a map marks, if it marks one: of points that are too near, the place
/// between them.
pub fn place_of_mark(mark: Mark, rows: &[CauseRow]) -> Option<Place>
    ensures { result ≡ place_of_mark mark rows.now }
{
    match mark {
        Mark::Ring(ring) => Some(ring.place),
        Mark::Near(_) => place_between_rows(rows),
        Mark::Link | Mark::Nothing => None,
    }
}

/// Returns the place of a cause, if it has one, with what a map says there.
fn place_of_cause(cause: Cause) -> Option<MarkedPlace>
    ensures { result ≡ place_of_cause cause }
{
    match place_of_mark(cause.mark, cause.rows.as_slice()) {
        Some(place) => Some(MarkedPlace {
            place,
            says: Words::new(cause.says),
        }),
        None => None,
    }
}

/// Returns the place of the cause of a plan, with what a map says there: none where the plan isn't blocked, or its cause has no place.
pub(crate) fn place_of_plan(
    alloc: Global,
    office: &Office,
    members: &MemberChanges<'_>,
    plan: &Plan,
) -> Result<Option<MarkedPlace>, AllocError>
    ensures { IfOk result (λ found. (s : MergeSet) → AreMembers office.now s members.now → IsPlaceOfPlan office.now s plan.now found) }
{
    match cause_of(alloc, office, members, plan)? {
        Some(cause) => Ok(place_of_cause(cause)),
        None => Ok(None),
    }
}

/// Returns the feature of a place.
#[tactic(auto, unfolding(crate::specs::PlanFeatures::place_feature))]
fn place_feature(alloc: Global, marked: &MarkedPlace) -> Result<Feature, AllocError>
    ensures { IfOk result (λ feature. feature ≡ place_feature marked.now) }
{
    let mut list = Vec::new(alloc);
    list.push(Property::text(alloc, "table", "")?)?;
    list.push(Property::number(alloc, "key", 0)?)?;
    list.push(Property::text(alloc, "workspace", "")?)?;
    list.push(Property::text(alloc, "what", "place")?)?;
    list.push(Property::flag(alloc, "cause", true)?)?;
    list.push(Property::text(alloc, "says", marked.says.as_str())?)?;
    Ok(Feature {
        properties: Properties::new(list),
        shape: Shape::At(marked.place),
    })
}

/// Adds the feature of a place, if there is one.
pub(crate) fn add_place(
    alloc: Global,
    text: &mut Vec<u8>,
    marked: &Option<MarkedPlace>,
) -> Result<(), AllocError>
    ensures { OnOk result (text.new.items ≡ text.old.items ++ flat_map line_with_comma (place_features marked.now)) }
{
    match marked {
        Some(marked) => {
            let feature = place_feature(alloc, marked)?;
            add_feature(text, &feature)
        }
        None => Ok(()),
    }
}
