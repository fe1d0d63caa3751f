//! Lines at round numbers, their numbers, and the scale.

use clr_drawing::{
    Area, FAINT, GRID, GROUND, INK, SOFT, Sketch, round_metres, round_step, ticks, words_width,
};
use clr_map_scenes::{LEFT, MapScene};
use clr_rows::Place;
use clr_svg::{Anchor, Ink, PagePoint, PathCommand, Pixels, Weight};
use std::alloc::AllocError;

/// The size of the numbers.
const SMALL: Pixels = Pixels { tenths: 115 };

/// Returns the distance between two lines, in millimetres.
fn step_of(scene: &MapScene<'_>) -> i64 {
    round_step(scene.view.width() / 4)
}

/// Returns where a number of the axis to the right stands.
fn across(scene: &MapScene<'_>, x: i64) -> Pixels {
    let y = scene.view.world.least.y;
    scene.view.spot(Place { x, y }).x
}

/// Returns where a number of the axis upwards stands.
fn along(scene: &MapScene<'_>, y: i64) -> Pixels {
    let x = scene.view.world.least.x;
    scene.view.spot(Place { x, y }).y
}

/// Draws the lines at round numbers.
pub fn add_grid(sketch: &mut Sketch, scene: &MapScene<'_>) -> Result<(), AllocError> {
    let alloc = sketch.allocator();
    let (world, frame) = (scene.view.world, scene.frame());
    let mut steps = Vec::new(alloc);
    for x in &ticks(alloc, world.least.x, world.most.x, step_of(scene))? {
        let x = across(scene, *x);
        steps.push(PathCommand::Begin(PagePoint { x, y: frame.top }))?;
        steps.push(PathCommand::Line(PagePoint { x, y: frame.bottom }))?;
    }
    add_level_lines(&mut steps, scene)?;
    sketch.add_path(steps, Ink::of_line(GRID, Pixels::of_tenths(10)))
}

fn add_level_lines(steps: &mut Vec<PathCommand>, scene: &MapScene<'_>) -> Result<(), AllocError> {
    let alloc = scene.field.alloc;
    let (world, frame) = (scene.view.world, scene.frame());
    for y in &ticks(alloc, world.least.y, world.most.y, step_of(scene))? {
        let y = along(scene, *y);
        steps.push(PathCommand::Begin(PagePoint { x: frame.left, y }))?;
        steps.push(PathCommand::Line(PagePoint { x: frame.right, y }))?;
    }
    Ok(())
}

/// Writes the numbers below the map.
fn add_numbers_below(sketch: &mut Sketch, scene: &MapScene<'_>) -> Result<(), AllocError> {
    let alloc = sketch.allocator();
    let (world, frame) = (scene.view.world, scene.frame());
    for x in &ticks(alloc, world.least.x, world.most.x, step_of(scene))? {
        let words = round_metres(alloc, *x)?;
        let at = PagePoint {
            x: across(scene, *x),
            y: frame.bottom + Pixels::whole(17),
        };
        sketch.add_words(
            words.as_str(),
            at,
            SMALL,
            SOFT,
            Anchor::Middle,
            Weight::Plain,
        )?;
    }
    Ok(())
}

/// Writes the numbers at the left side, where there is room within the frame.
fn add_numbers_beside(sketch: &mut Sketch, scene: &MapScene<'_>) -> Result<(), AllocError> {
    let alloc = sketch.allocator();
    let (world, frame) = (scene.view.world, scene.frame());
    for y in &ticks(alloc, world.least.y, world.most.y, step_of(scene))? {
        let words = round_metres(alloc, *y)?;
        let at = PagePoint {
            x: LEFT + Pixels::whole(6),
            y: along(scene, *y) - Pixels::whole(4),
        };
        if frame.top + Pixels::whole(12) < at.y && at.y < frame.bottom {
            let room = Area {
                left: at.x - Pixels::whole(2),
                top: at.y - Pixels::whole(10),
                right: at.x + words_width(words.as_str(), SMALL) + Pixels::whole(2),
                bottom: at.y + Pixels::whole(2),
            };
            sketch.add_area(room, Pixels::whole(2), Ink::of_area(GROUND))?;
            sketch.add_words(
                words.as_str(),
                at,
                SMALL,
                SOFT,
                Anchor::Start,
                Weight::Plain,
            )?;
        }
    }
    Ok(())
}

/// Returns the length that the scale shows, in millimetres.
fn length_of_scale(scene: &MapScene<'_>) -> i64 {
    round_step(scene.view.width() / 5)
}

/// Returns where the scale stands.
pub fn area_of_scale(scene: &MapScene<'_>) -> Area {
    let frame = scene.frame();
    let right = frame.right - Pixels::whole(18);
    Area {
        left: right - scene.view.length(length_of_scale(scene)) - Pixels::whole(8),
        top: frame.bottom - Pixels::whole(34),
        right: right + Pixels::whole(8),
        bottom: frame.bottom - Pixels::whole(6),
    }
}

/// Draws the scale: a length, and how many metres it is.
fn add_scale(sketch: &mut Sketch, scene: &MapScene<'_>) -> Result<(), AllocError> {
    let alloc = sketch.allocator();
    let area = area_of_scale(scene);
    let metres = round_metres(alloc, length_of_scale(scene))?;
    let words = format!(in alloc; "{metres} m")?;
    let (left, right) = (area.left + Pixels::whole(8), area.right - Pixels::whole(8));
    let (high, low) = (
        area.bottom - Pixels::whole(14),
        area.bottom - Pixels::whole(8),
    );
    sketch.add_area(area, Pixels::whole(4), Ink::of_area(GROUND))?;
    let mut steps = Vec::with_capacity(alloc, 4)?;
    steps.push(PathCommand::Begin(PagePoint { x: left, y: high }))?;
    steps.push(PathCommand::Line(PagePoint { x: left, y: low }))?;
    steps.push(PathCommand::Line(PagePoint { x: right, y: low }))?;
    steps.push(PathCommand::Line(PagePoint { x: right, y: high }))?;
    sketch.add_path(steps, Ink::of_line(INK, Pixels::of_tenths(16)))?;
    let at = PagePoint {
        x: area.middle().x,
        y: high - Pixels::whole(1),
    };
    sketch.add_words(
        words.as_str(),
        at,
        Pixels::whole(12),
        INK,
        Anchor::Middle,
        Weight::Plain,
    )
}

/// Draws the numbers, the frame and the scale.
pub fn add_axes(sketch: &mut Sketch, scene: &MapScene<'_>) -> Result<(), AllocError> {
    add_numbers_below(sketch, scene)?;
    add_numbers_beside(sketch, scene)?;
    let frame = Ink::of_line(FAINT, Pixels::whole(1));
    sketch.add_area(scene.frame(), Pixels::whole(6), frame)?;
    add_scale(sketch, scene)?;
    let at = PagePoint {
        x: LEFT,
        y: scene.frame().bottom + Pixels::whole(34),
    };
    sketch.add_words(
        "metres, y upwards",
        at,
        SMALL,
        SOFT,
        Anchor::Start,
        Weight::Plain,
    )
}
