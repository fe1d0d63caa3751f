//! A small plan of everything, with the map's window in it.

ghost use Rattle.std.specs.Prelude.{◌≡◌, true, IfSome, OnOk};
ghost use Rattle.clr_viewports.specs.Areas.{greater_length, holds, lesser_length};
ghost use Rattle.clr_map_frames.specs.Insets.{DrawsInset, DrawsWithin, IsBeside};

use clr_drawing::{
    ALARM, Area, FAINT, GROUND, INK, PLAIN, SOFT, Sketch, Viewport, add_shape, grow_box, join_boxes,
};
use clr_map_scenes::{BESIDE, EDGE, MapScene, extent_with_row};
use clr_segments::Bounds;
use clr_svg::{Anchor, Ink, PagePoint, PathCommand, Pixels, Weight};
use std::alloc::{AllocError, Global};

/// The least and the greatest height of the small plan, in tenths of a pixel.
const HEIGHTS: (i64, i64) = (900, 2000);

/// Returns whether the map shows so little of everything that a small plan helps.
fn helps(scene: &MapScene<'_>) -> bool {
    let whole = scene.whole.most.x.saturating_sub(scene.whole.least.x);
    let tall = scene.whole.most.y.saturating_sub(scene.whole.least.y);
    scene.view.width().saturating_mul(100) < whole.max(tall).saturating_mul(55)
}

/// Returns where the small plan stands below this height, if there is room.
fn area_below(scene: &MapScene<'_>, down: Pixels) -> Option<Area>
    ensures { IfSome result (IsBeside scene.now) }
{
    let bottom = scene.frame().bottom;
    let room = (bottom - down).tenths;
    if room < HEIGHTS.0 {
        return None;
    }
    Some(Area {
        left: BESIDE,
        top: bottom - Pixels::of_tenths(room.min(HEIGHTS.1)),
        right: EDGE,
        bottom,
    })
}

/// Returns the spot on whole pixels.
fn on_pixels(spot: PagePoint) -> PagePoint {
    PagePoint {
        x: Pixels::whole(spot.x.tenths / 10),
        y: Pixels::whole(spot.y.tenths / 10),
    }
}

/// Returns the steps of a path moved to whole pixels, without the lines that then have no length.
fn coarse_steps(alloc: Global, steps: &[PathCommand]) -> Result<Vec<PathCommand>, AllocError> {
    let mut coarse = Vec::new(alloc);
    let mut last = None;
    for step in steps {
        match step {
            PathCommand::Begin(spot) => last = Some(on_pixels(*spot)),
            PathCommand::Line(spot) => {
                let to = on_pixels(*spot);
                if let Some(from) = last {
                    clr_drawing::add_line(&mut coarse, from, to)?;
                }
                last = Some(to);
            }
            PathCommand::Close => {}
        }
    }
    Ok(coarse)
}

/// Returns the view of everything and of the map's window in a box.
fn view_in(scene: &MapScene<'_>, area: Area) -> Viewport
    ensures { result.frame ≡ area }
{
    let everything = join_boxes(Some(scene.whole), scene.view.world);
    Viewport::new(grow_box(everything, 106, 1000), area)
}

/// Draws the lines of all rows.
fn add_rows(sketch: &mut Sketch, scene: &MapScene<'_>, view: &Viewport) -> Result<(), AllocError>
    ensures { OnOk result (DrawsWithin view.now.frame sketch.old.elements.items sketch.new.elements.items) }
{
    let alloc = sketch.allocator();
    let mut steps = Vec::new(alloc);
    for (_, row) in scene.field.rows.iter() {
        add_shape(&mut steps, view, &row.shape)?;
    }
    let steps = coarse_steps(alloc, steps.as_slice())?;
    sketch.add_path(steps, Ink::of_line(PLAIN, Pixels::of_tenths(6)))?;
    Ok(())
}

fn lesser_length(a: Pixels, b: Pixels) -> Pixels
    ensures { result ≡ lesser_length a b }
{
    Pixels::of_tenths(a.tenths.min(b.tenths))
}

fn greater_length(a: Pixels, b: Pixels) -> Pixels
    ensures { result ≡ greater_length a b }
{
    Pixels::of_tenths(a.tenths.max(b.tenths))
}

/// Returns the part of an area that is within a box.
fn part_within(boundary: Area, area: Area) -> Area
    ensures { holds boundary result ≡ true }
{
    Area {
        left: greater_length(boundary.left, area.left),
        top: greater_length(boundary.top, area.top),
        right: lesser_length(boundary.right, area.right),
        bottom: lesser_length(boundary.bottom, area.bottom),
    }
}

/// Draws the part of an area that is within the small plan.
fn add_part(
    sketch: &mut Sketch,
    view: &Viewport,
    area: Area,
    radius: Pixels,
    ink: Ink,
) -> Result<(), AllocError>
    ensures { OnOk result (DrawsWithin view.now.frame sketch.old.elements.items sketch.new.elements.items) }
{
    sketch.add_area(part_within(view.frame, area), radius, ink)?;
    Ok(())
}

/// Returns an area that is at least this wide and high.
fn at_least(area: Area, width: i64, height: i64) -> Area {
    let width = area.width().tenths.max(width.saturating_mul(10));
    let height = area.height().tenths.max(height.saturating_mul(10));
    Area::around(
        area.middle(),
        Pixels::of_tenths(width),
        Pixels::of_tenths(height),
    )
}

/// Returns the box of what a design changes, if it changes something that has a shape.
fn extent_of_design(scene: &MapScene<'_>, at: usize) -> Option<Bounds> {
    let set = scene.field.designs.changes(at)?;
    let mut extent = None;
    for (_, change) in set.iter() {
        extent = extent_with_row(extent, change.before.as_ref());
        extent = extent_with_row(extent, change.after.as_ref());
    }
    extent
}

/// Draws a box where a design changes something.
fn add_design(
    sketch: &mut Sketch,
    scene: &MapScene<'_>,
    view: &Viewport,
    at: usize,
) -> Result<(), AllocError>
    ensures { OnOk result (DrawsWithin view.now.frame sketch.old.elements.items sketch.new.elements.items) }
{
    let Some(bounds) = extent_of_design(scene, at) else {
        return Ok(());
    };
    let colours = scene.field.designs.colours(at);
    let colour = if scene.is_aside(at) {
        colours.pale
    } else {
        colours.line
    };
    let area = at_least(view.area(bounds), 5, 5);
    add_part(
        sketch,
        view,
        area,
        Pixels::of_tenths(15),
        Ink::of_area(colour),
    )
}

/// Draws a box for each design that changes something, those that are told first over the others.
fn add_designs(sketch: &mut Sketch, scene: &MapScene<'_>, view: &Viewport) -> Result<(), AllocError>
    ensures { OnOk result (DrawsWithin view.now.frame sketch.old.elements.items sketch.new.elements.items) }
{
    for at in scene.field.designs.order().iter().rev() {
        add_design(sketch, scene, view, *at)?;
    }
    Ok(())
}

/// Draws the window of the map.
fn add_window(sketch: &mut Sketch, scene: &MapScene<'_>, view: &Viewport) -> Result<(), AllocError>
    ensures { OnOk result (DrawsWithin view.now.frame sketch.old.elements.items sketch.new.elements.items) }
{
    let colour = if scene.cause.is_some() { ALARM } else { INK };
    let area = at_least(view.area(scene.view.world), 12, 9);
    let ink = Ink::of_line(colour, Pixels::whole(2));
    add_part(sketch, view, area, Pixels::whole(2), ink)
}

/// Says below the small plan what it is.
fn add_caption(sketch: &mut Sketch, view: &Viewport) -> Result<(), AllocError>
    ensures { OnOk result (DrawsWithin view.now.frame sketch.old.elements.items sketch.new.elements.items) }
{
    let at = PagePoint {
        x: BESIDE,
        y: view.frame.bottom + Pixels::whole(17),
    };
    sketch.add_words(
        "everything; the frame is the map",
        at,
        Pixels::of_tenths(115),
        SOFT,
        Anchor::Start,
        Weight::Plain,
    )?;
    Ok(())
}

/// Draws the small plan in its box.
fn add_plan(sketch: &mut Sketch, scene: &MapScene<'_>, view: &Viewport) -> Result<(), AllocError>
    ensures { OnOk result (DrawsWithin view.now.frame sketch.old.elements.items sketch.new.elements.items) }
{
    let frame = Ink::of_line(FAINT, Pixels::whole(1)).over(GROUND);
    add_part(sketch, view, view.frame, Pixels::whole(6), frame)?;
    add_rows(sketch, scene, view)?;
    add_designs(sketch, scene, view)?;
    add_window(sketch, scene, view)?;
    add_caption(sketch, view)?;
    Ok(())
}

/// Draws a small plan of everything below this height, where it helps and there is room. Each of its frames is within its box.
pub fn add_inset(sketch: &mut Sketch, scene: &MapScene<'_>, down: Pixels) -> Result<(), AllocError>
    ensures drawn { OnOk result (DrawsInset scene.now sketch.old.elements.items sketch.new.elements.items) }
{
    if !helps(scene) {
        return Ok(());
    }
    let Some(area) = area_below(scene, down) else {
        return Ok(());
    };
    add_plan(sketch, scene, &view_in(scene, area))?;
    Ok(())
}
