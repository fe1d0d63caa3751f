//! What labels should leave free, and what they may not cover.

use crate::anchors::APART;
use clr_change::ChangeSet;
use clr_drawing::{Labels, samples};
use clr_map_frames::{frames_of, has_frames};
use clr_map_scenes::MapScene;
use clr_rows::Row;
use std::alloc::AllocError;

/// Notes the spots of a row that labels should leave free.
fn avoid_row(
    labels: &mut Labels,
    scene: &MapScene<'_>,
    row: Option<&Row>,
) -> Result<(), AllocError> {
    let Some(row) = row else {
        return Ok(());
    };
    for spot in &samples(scene.field.alloc, &scene.view, &row.shape, APART)? {
        labels.avoid(*spot)?;
    }
    Ok(())
}

/// Notes the spots of what a design changes.
fn avoid_set(labels: &mut Labels, scene: &MapScene<'_>, set: &ChangeSet) -> Result<(), AllocError> {
    for (_, change) in set.iter() {
        avoid_row(labels, scene, change.before.as_ref())?;
        avoid_row(labels, scene, change.after.as_ref())?;
    }
    Ok(())
}

/// Notes the spots of what is in the root.
fn avoid_root(labels: &mut Labels, scene: &MapScene<'_>) -> Result<(), AllocError> {
    for (_, row) in scene.field.rows.iter() {
        avoid_row(labels, scene, Some(row))?;
    }
    Ok(())
}

/// Notes the spots of what the designs change.
fn avoid_designs(labels: &mut Labels, scene: &MapScene<'_>) -> Result<(), AllocError> {
    for at in scene.field.designs.order() {
        if let Some(set) = scene.field.designs.changes(*at) {
            avoid_set(labels, scene, set)?;
        }
    }
    Ok(())
}

/// Notes the spots that labels should leave free, if the map has room enough for it to matter.
pub(crate) fn avoid_rows(labels: &mut Labels, scene: &MapScene<'_>) -> Result<(), AllocError> {
    if scene.detail.is_fine() {
        avoid_root(labels, scene)?;
    }
    if scene.changes.is_fine() {
        avoid_designs(labels, scene)?;
    }
    Ok(())
}

/// Takes the areas of the outlines of the frames of the design at a position.
fn take_frames_of(labels: &mut Labels, scene: &MapScene<'_>, at: usize) -> Result<(), AllocError> {
    for frame in &frames_of(scene, at)? {
        labels.take(*frame)?;
    }
    Ok(())
}

/// Takes the area of a frame's outline, if it is drawn.
pub(crate) fn take_frames(labels: &mut Labels, scene: &MapScene<'_>) -> Result<(), AllocError> {
    if !has_frames(scene) {
        return Ok(());
    }
    for at in scene.field.designs.order() {
        take_frames_of(labels, scene, *at)?;
    }
    Ok(())
}
