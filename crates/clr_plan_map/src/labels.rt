//! Labels beside rows, none of which covers another.

use crate::busy_spots::{avoid_rows, take_frames};
use crate::cause_labels::add_cause_labels;
use crate::design_labels::add_design_labels;
use crate::witness_labels::add_witness_labels;
use clr_drawing::{Labels, Sketch};
use clr_engine::Office;
use clr_map_frames::area_of_scale;
use clr_map_scenes::MapScene;
use clr_plan::Plan;
use clr_svg::Pixels;
use std::alloc::AllocError;

/// Draws the labels of a plan.
pub(crate) fn add_labels(
    sketch: &mut Sketch,
    scene: &MapScene<'_>,
    office: &Office,
    plan: &Plan,
) -> Result<(), AllocError> {
    let mut labels = Labels::new(scene.field.alloc, scene.frame().grow(Pixels::whole(-4)));
    labels.take(area_of_scale(scene))?;
    avoid_rows(&mut labels, scene)?;
    take_frames(&mut labels, scene)?;
    match scene.cause {
        Some(cause) => add_cause_labels(sketch, &mut labels, scene, cause),
        None => {
            add_design_labels(sketch, &mut labels, scene)?;
            add_witness_labels(sketch, &mut labels, scene, office, plan)
        }
    }
}
