//! The frames round what designs change.

ghost use Rattle.std.specs.Prelude.{◌≡◌};
ghost use Rattle.clr_map_frames.specs.Frames.{has_frames};

use clr_drawing::{Area, Sketch, extent_of};
use clr_map_scenes::MapScene;
use clr_rows::Row;
use clr_svg::{Ink, Pixels};
use std::alloc::{AllocError, Global};

/// Changes that are nearer than this share a frame.
const NEAR: Pixels = Pixels { tenths: 460 };

/// How far a frame goes beyond what it is round.
const MARGIN: Pixels = Pixels { tenths: 80 };

/// The most designs whose names stand beside their rows where there is room.
const FEW: usize = 3;

/// Returns whether the changes have frames: where there are several designs, or little room.
pub fn has_frames(scene: &MapScene<'_>) -> bool
    ensures { result ≡ has_frames scene.now }
{
    scene.cause.is_none() && (!scene.changes.is_fine() || scene.field.designs.len() > FEW)
}

/// Adds an area to groups: it and all groups that it is near become one.
fn add_area(alloc: Global, groups: &mut Vec<Area>, area: Area) -> Result<(), AllocError> {
    let mut whole = area;
    let mut others = Vec::new(alloc);
    for group in groups.iter() {
        if group.grow(NEAR).overlaps(whole) {
            whole = whole.join(*group);
        } else {
            others.push(*group)?;
        }
    }
    others.push(whole)?;
    *groups = others;
    Ok(())
}

fn add_row(
    groups: &mut Vec<Area>,
    scene: &MapScene<'_>,
    row: Option<&Row>,
) -> Result<(), AllocError> {
    let Some(row) = row else {
        return Ok(());
    };
    match extent_of(None, &row.shape) {
        Some(bounds) => add_area(scene.field.alloc, groups, scene.view.area(bounds)),
        None => Ok(()),
    }
}

/// Returns the areas of what the design at a position changes: those that are near one another as one.
fn groups_of(scene: &MapScene<'_>, at: usize) -> Result<Vec<Area>, AllocError> {
    let mut groups = Vec::new(scene.field.alloc);
    if let Some(set) = scene.field.designs.changes(at) {
        for (_, change) in set.iter() {
            add_row(&mut groups, scene, change.before.as_ref())?;
            add_row(&mut groups, scene, change.after.as_ref())?;
        }
    }
    Ok(groups)
}

/// Returns the frames of the design at a position.
pub fn frames_of(scene: &MapScene<'_>, at: usize) -> Result<Vec<Area>, AllocError> {
    let mut groups = groups_of(scene, at)?;
    for group in groups.iter_mut() {
        *group = group.grow(MARGIN);
    }
    Ok(groups)
}

/// Returns the frame that is largest, if there is one.
pub fn largest(frames: &[Area]) -> Option<Area> {
    let mut best = None;
    let mut most = -1i64;
    for frame in frames {
        let size = frame.width().tenths.saturating_mul(frame.height().tenths);
        if size > most {
            most = size;
            best = Some(*frame);
        }
    }
    best
}

fn add_frames_of(
    sketch: &mut Sketch,
    scene: &MapScene<'_>,
    at: usize,
    ink: Ink,
) -> Result<(), AllocError> {
    for frame in &frames_of(scene, at)? {
        sketch.add_area(*frame, Pixels::whole(7), ink)?;
    }
    Ok(())
}

/// Draws the grounds of the frames, which lie beneath the rows.
pub fn add_grounds(sketch: &mut Sketch, scene: &MapScene<'_>) -> Result<(), AllocError> {
    for at in scene.field.designs.order() {
        let colours = scene.field.designs.colours(*at);
        add_frames_of(sketch, scene, *at, Ink::of_area(colours.within))?;
    }
    Ok(())
}

/// Draws the outlines of the frames.
pub fn add_outlines(sketch: &mut Sketch, scene: &MapScene<'_>) -> Result<(), AllocError> {
    for at in scene.field.designs.order() {
        let colours = scene.field.designs.colours(*at);
        let outline = Ink::of_line(colours.line, Pixels::of_tenths(14));
        add_frames_of(sketch, scene, *at, outline)?;
    }
    Ok(())
}
