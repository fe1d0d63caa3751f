//! What a cause names, marked: a halo behind its rows, and its place.

use crate::point_marks::{mark_radius, marks_at};
use clr_drawing::{ALARM, HALO, PAPER, Sketch, add_shape, middle_of};
use clr_map_scenes::{Cause, CauseRow, MapScene, Mark};
use clr_rows::{Place, Shape};
use clr_svg::{Ink, PagePoint, Pixels};
use std::alloc::AllocError;

/// How far a halo goes beyond a point.
const HALO_RADIUS: Pixels = Pixels { tenths: 170 };

/// Draws the halo of a row.
fn add_halo(sketch: &mut Sketch, scene: &MapScene<'_>, row: &CauseRow) -> Result<(), AllocError> {
    if let Shape::At(place) = &row.row.shape {
        return sketch.add_circle(scene.view.spot(*place), HALO_RADIUS, Ink::of_area(HALO));
    }
    let mut steps = Vec::new(sketch.allocator());
    add_shape(&mut steps, &scene.view, &row.row.shape)?;
    sketch.add_path(steps, Ink::of_line(HALO, HALO_RADIUS))
}

/// Draws the haloes of the rows that a cause names.
pub fn add_haloes(
    sketch: &mut Sketch,
    scene: &MapScene<'_>,
    cause: &Cause,
) -> Result<(), AllocError> {
    for row in &cause.rows {
        add_halo(sketch, scene, row)?;
    }
    Ok(())
}

/// Returns the middles of the first two rows of a cause.
fn two_middles(cause: &Cause) -> Option<(Place, Place)> {
    let first = cause.rows.as_slice().first()?;
    let second = cause.rows.as_slice().get(1)?;
    Some((middle_of(&first.row.shape)?, middle_of(&second.row.shape)?))
}

/// Returns the spot halfway between two.
fn halfway(from: PagePoint, to: PagePoint) -> PagePoint {
    PagePoint {
        x: from.x + (to.x - from.x).half(),
        y: from.y + (to.y - from.y).half(),
    }
}

/// Where the place of a cause is on the page, and how far round it its mark goes.
#[derive(Clone, Copy)]
pub struct Marked {
    pub spot: PagePoint,
    pub radius: Pixels,
}

/// Returns the spot between the first two rows of a cause, and how far round it their mark goes.
fn marked_between(scene: &MapScene<'_>, cause: &Cause, radius: Pixels) -> Option<Marked> {
    let (first, second) = two_middles(cause)?;
    Some(Marked {
        spot: halfway(scene.view.spot(first), scene.view.spot(second)),
        radius,
    })
}

/// Returns where the place of a cause is marked, if it is.
pub fn marked_spot(scene: &MapScene<'_>, cause: &Cause) -> Option<Marked> {
    match cause.mark {
        Mark::Ring(ring) => {
            let beside = i64::from(marks_at(scene, ring.place).saturating_sub(1));
            Some(Marked {
                spot: scene.view.spot(ring.place),
                radius: Pixels::whole(15) + mark_radius(scene) * beside,
            })
        }
        Mark::Link => marked_between(scene, cause, Pixels::whole(3)),
        Mark::Near(_) => {
            let (first, second) = two_middles(cause)?;
            let (from, to) = (scene.view.spot(first), scene.view.spot(second));
            let across = (to.x - from.x).tenths.saturating_abs();
            let along = (to.y - from.y).tenths.saturating_abs();
            let half = Pixels::of_tenths(across.max(along)).half();
            marked_between(scene, cause, half + Pixels::whole(6))
        }
        Mark::Nothing => None,
    }
}

fn add_ring(sketch: &mut Sketch, marked: Marked) -> Result<(), AllocError> {
    let below = Ink::of_line(PAPER, Pixels::whole(6));
    sketch.add_circle(marked.spot, marked.radius, below)?;
    let above = Ink::of_line(ALARM, Pixels::of_tenths(32));
    sketch.add_circle(marked.spot, marked.radius, above)
}

/// Draws a circle of a distance round each of two points, and a line between them.
fn add_near(
    sketch: &mut Sketch,
    scene: &MapScene<'_>,
    first: Place,
    second: Place,
    distance: i64,
) -> Result<(), AllocError> {
    let thin = Ink::of_line(ALARM, Pixels::of_tenths(14));
    let circle = thin.with_dashes(Pixels::whole(5), Pixels::whole(4));
    for place in [first, second] {
        sketch.add_circle(scene.view.spot(place), scene.view.length(distance), circle)?;
    }
    let line = Ink::of_line(ALARM, Pixels::whole(3));
    sketch.add_line(scene.view.spot(first), scene.view.spot(second), line)
}

/// Marks the place of a cause.
pub fn add_mark(
    sketch: &mut Sketch,
    scene: &MapScene<'_>,
    cause: &Cause,
) -> Result<(), AllocError> {
    if let Mark::Ring(_) = cause.mark
        && let Some(marked) = marked_spot(scene, cause)
    {
        return add_ring(sketch, marked);
    }
    let Some((first, second)) = two_middles(cause) else {
        return Ok(());
    };
    match cause.mark {
        Mark::Near(distance) => add_near(sketch, scene, first, second, distance),
        Mark::Link => {
            let line = Ink::of_line(ALARM, Pixels::whole(2));
            let dotted = line.with_dashes(Pixels::whole(3), Pixels::whole(5));
            sketch.add_line(scene.view.spot(first), scene.view.spot(second), dotted)
        }
        Mark::Ring(_) | Mark::Nothing => Ok(()),
    }
}
