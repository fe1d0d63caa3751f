//! What designs add, change and remove of lines.

ghost use Rattle.std.specs.Prelude.{◌≡◌, ◌++◌, IfOk, OnOk};
ghost use Rattle.clr_rows.specs.Same.{same_shape};
ghost use Rattle.clr_map_marks.specs.Lines.{DrawsKinds, DrawsTwice, is_point, kinds_of_lines, lines_drawn, middle_spots, with_change, with_changed, with_left};
ghost use Rattle.clr_map_marks.specs.Lines.{with_removed};
ghost use Rattle.clr_map_marks.specs.LineMarks.{DrawsCrossAt, DrawsDesign, DrawsEach, DrawsLineMarks, DrawsLines, dash_of, mark_width};

use clr_change::ChangeSet;
use clr_drawing::{GROUND, PAPER, Sketch, Viewport, add_cross, add_shape, middle_of};
use clr_map_scenes::MapScene;
use clr_rows::{Change, Row, Shape};
use clr_svg::{Colour, Dash, Ink, PagePoint, PathCommand, Pixels};
use std::alloc::{AllocError, Global};

/// The lines of a design, by what becomes of them.
#[derive(Drop)]
struct Lines {
    added: Vec<PathCommand>,
    changed: Vec<PathCommand>,
    removed: Vec<PathCommand>,
    crosses: Vec<PagePoint>,
}

/// Returns how broad the lines of designs are.
fn mark_width(scene: &MapScene<'_>) -> Pixels
    ensures { result ≡ mark_width scene.now.detail scene.now.changes }
{
    if !scene.changes.is_fine() {
        Pixels::of_tenths(20)
    } else if scene.detail.is_fine() {
        Pixels::of_tenths(46)
    } else {
        Pixels::of_tenths(32)
    }
}

/// Returns whether a shape is a point.
fn is_point(shape: &Shape) -> bool
    ensures { result ≡ is_point shape.now }
{
    match shape {
        Shape::At(_) => true,
        _ => false,
    }
}

/// Adds a cross in the middle of a shape, where it has one.
fn add_middle(
    crosses: &mut Vec<PagePoint>,
    view: &Viewport,
    shape: &Shape,
) -> Result<(), AllocError>
    ensures { OnOk result (crosses.new.items ≡ crosses.old.items ++ middle_spots view.now shape.now) }
{
    if let Some(place) = middle_of(shape) {
        crosses.push(view.spot(place))?;
    }
    Ok(())
}

/// Adds the lines of a row that goes, with a cross in its middle.
fn add_removed(lines: &mut Lines, view: &Viewport, row: &Row) -> Result<(), AllocError>
    ensures { OnOk result (kinds_of_lines lines.new ≡ with_removed view.now (kinds_of_lines lines.old) row.now.shape) }
{
    if is_point(&row.shape) {
        return Ok(());
    }
    add_shape(&mut lines.removed, view, &row.shape)?;
    add_middle(&mut lines.crosses, view, &row.shape)
}

/// Returns whether both shapes are the same.
fn are_same(a: &Shape, b: &Shape) -> bool
    ensures { result ≡ same_shape a.now b.now }
{
    a.same(b)
}

/// Adds the lines of a shape that a row had, unless it still has it.
fn add_left(
    steps: &mut Vec<PathCommand>,
    view: &Viewport,
    before: &Shape,
    after: &Shape,
) -> Result<(), AllocError>
    ensures { OnOk result (steps.new.items ≡ with_left view.now steps.old.items before.now after.now) }
{
    if are_same(before, after) {
        return Ok(());
    }
    add_shape(steps, view, before)
}

/// Adds the lines of a row that stays in another form.
fn add_changed(
    lines: &mut Lines,
    view: &Viewport,
    before: &Row,
    after: &Row,
) -> Result<(), AllocError>
    ensures { OnOk result (kinds_of_lines lines.new ≡ with_changed view.now (kinds_of_lines lines.old) before.now.shape after.now.shape) }
{
    add_left(&mut lines.removed, view, &before.shape, &after.shape)?;
    add_shape(&mut lines.changed, view, &after.shape)
}

/// Adds the lines of a change.
fn add_change(lines: &mut Lines, view: &Viewport, change: &Change) -> Result<(), AllocError>
    ensures { OnOk result (kinds_of_lines lines.new ≡ with_change view.now (kinds_of_lines lines.old) change.now) }
{
    match (&change.before, &change.after) {
        (None, Some(after)) => add_shape(&mut lines.added, view, &after.shape),
        (Some(before), None) => add_removed(lines, view, before),
        (Some(before), Some(after)) => add_changed(lines, view, before, after),
        (None, None) => Ok(()),
    }
}

/// Returns the lines of a design.
fn lines_of(alloc: Global, view: &Viewport, set: &ChangeSet) -> Result<Lines, AllocError>
    ensures { IfOk result (λ lines. kinds_of_lines lines ≡ lines_drawn view.now set.now) }
{
    let mut lines = Lines {
        added: Vec::new(alloc),
        changed: Vec::new(alloc),
        removed: Vec::new(alloc),
        crosses: Vec::new(alloc),
    };
    for (_, change) in set.iter() {
        add_change(&mut lines, view, change)?;
    }
    Ok(lines)
}

/// Draws a path twice: broad, and narrower over that.
fn add_twice(
    sketch: &mut Sketch,
    steps: Vec<PathCommand>,
    below: Ink,
    above: Ink,
) -> Result<(), AllocError>
    ensures { OnOk result (DrawsTwice steps.items below above sketch.old.elements.items sketch.new.elements.items) }
{
    let again = Vec::from_slice(sketch.allocator(), steps.as_slice())?;
    sketch.add_path(steps, below)?;
    sketch.add_path(again, above)
}

/// Draws the lines of a design: full, double and with dashes.
fn add_kinds(
    sketch: &mut Sketch,
    lines: Lines,
    width: Pixels,
    dash: Dash,
    colour: Colour,
) -> Result<(), AllocError>
    ensures { OnOk result (DrawsKinds (kinds_of_lines lines) width dash colour sketch.old.elements.items sketch.new.elements.items) }
{
    let broad = Ink::of_line(colour, width + Pixels::of_tenths(16));
    let hollow = Ink::of_line(PAPER, width - Pixels::of_tenths(16));
    let cleared = Ink::of_line(GROUND, width + Pixels::whole(1));
    let dashed = Ink::of_line(colour, width - Pixels::of_tenths(10)).with_dashes(
        dash.dash, dash.gap,
    );
    sketch.add_path(lines.added, Ink::of_line(colour, width))?;
    add_twice(sketch, lines.changed, broad, hollow)?;
    add_twice(sketch, lines.removed, cleared, dashed)
}

/// Returns how long the dashes of lines that go are, and the gaps between them.
fn dash_of(scene: &MapScene<'_>) -> Dash
    ensures { result ≡ dash_of scene.now.changes }
{
    if scene.changes.is_fine() {
        Dash {
            dash: Pixels::whole(7),
            gap: Pixels::whole(6),
        }
    } else {
        Dash {
            dash: Pixels::whole(4),
            gap: Pixels::whole(3),
        }
    }
}

/// Draws a cross at each of some points of the page.
fn add_crosses(sketch: &mut Sketch, spots: &[PagePoint], colour: Colour) -> Result<(), AllocError>
    ensures { OnOk result (DrawsEach (DrawsCrossAt colour) spots.now sketch.old.elements.items sketch.new.elements.items) }
{
    for spot in spots {
        add_cross(sketch, *spot, Pixels::whole(5), colour, PAPER)?;
    }
    Ok(())
}

/// Draws the lines of a design in a colour, and crosses over those that go if there is room.
fn add_lines(
    sketch: &mut Sketch,
    scene: &MapScene<'_>,
    lines: Lines,
    colour: Colour,
) -> Result<(), AllocError>
    ensures { OnOk result (DrawsLines scene.now.detail scene.now.changes (kinds_of_lines lines) colour sketch.old.elements.items sketch.new.elements.items) }
{
    let crosses = Vec::from_slice(sketch.allocator(), lines.crosses.as_slice())?;
    add_kinds(sketch, lines, mark_width(scene), dash_of(scene), colour)?;
    if scene.changes.is_fine() {
        add_crosses(sketch, crosses.as_slice(), colour)
    } else {
        Ok(())
    }
}

/// Draws what the design at a position changes of lines.
fn add_design(sketch: &mut Sketch, scene: &MapScene<'_>, at: usize) -> Result<(), AllocError>
    ensures { OnOk result (DrawsDesign scene.now at sketch.old.elements.items sketch.new.elements.items) }
{
    let designs = scene.field.designs;
    match designs.changes(at) {
        Some(set) => {
            let lines = lines_of(sketch.allocator(), &scene.view, set)?;
            add_lines(sketch, scene, lines, designs.colours(at).line)
        }
        None => Ok(()),
    }
}

/// Draws what designs change of lines, those that a cause names last.
pub fn add_line_marks(sketch: &mut Sketch, scene: &MapScene<'_>) -> Result<(), AllocError>
    ensures { OnOk result (DrawsLineMarks scene.now sketch.old.elements.items sketch.new.elements.items) }
{
    let order = scene.field.designs.order();
    for number in 0..order.len() {
        add_design(sketch, scene, order[order.len() - 1 - number])?;
    }
    Ok(())
}
