//! The names of designs beside what they change.

use crate::anchors::{APART, some_of};
use crate::chips::{Look, add_label};
use clr_drawing::{Area, Labels, Sketch, samples};
use clr_map_frames::{frames_of, has_frames, largest};
use clr_map_scenes::MapScene;
use clr_rows::Row;
use clr_svg::{PagePoint, Pixels};
use std::alloc::AllocError;

/// Returns the spots round a frame at which the name of its design may stand.
fn anchors_round(scene: &MapScene<'_>, frame: Area) -> Result<Vec<PagePoint>, AllocError> {
    let middle = frame.middle();
    let mut anchors = Vec::new(scene.field.alloc);
    for (x, y) in [
        (middle.x, frame.top),
        (middle.x, frame.bottom),
        (frame.right, middle.y),
        (frame.left, middle.y),
    ] {
        anchors.push(PagePoint { x, y })?;
    }
    Ok(anchors)
}

/// Adds the spots of what a design changes.
fn add_spots(
    spots: &mut Vec<PagePoint>,
    scene: &MapScene<'_>,
    row: Option<&Row>,
) -> Result<(), AllocError> {
    if let Some(row) = row {
        let more = samples(scene.field.alloc, &scene.view, &row.shape, APART)?;
        spots.extend_from_slice(more.as_slice())?;
    }
    Ok(())
}

/// Returns the spots at which the name of a design may point.
fn anchors_of_design(scene: &MapScene<'_>, at: usize) -> Result<Vec<PagePoint>, AllocError> {
    if has_frames(scene) {
        return match largest(frames_of(scene, at)?.as_slice()) {
            Some(frame) => anchors_round(scene, frame),
            None => Ok(Vec::new(scene.field.alloc)),
        };
    }
    let mut spots = Vec::new(scene.field.alloc);
    if let Some(set) = scene.field.designs.changes(at) {
        for (_, change) in set.iter() {
            add_spots(&mut spots, scene, change.before.as_ref())?;
            add_spots(&mut spots, scene, change.after.as_ref())?;
        }
    }
    some_of(scene, spots.as_slice())
}

/// Writes the names of the designs beside what they change.
pub(crate) fn add_design_labels(
    sketch: &mut Sketch,
    labels: &mut Labels,
    scene: &MapScene<'_>,
) -> Result<(), AllocError> {
    let gap = Pixels::whole(if has_frames(scene) { 6 } else { 14 });
    for at in scene.field.designs.order() {
        let anchors = anchors_of_design(scene, *at)?;
        let look = Look::row(scene.field.designs.colours(*at).label);
        let name = scene.field.designs.name(*at);
        add_label(sketch, labels, anchors.as_slice(), name, look, gap)?;
    }
    Ok(())
}
