//! What designs add, change and remove of points.

ghost use Rattle.std.specs.Prelude.{◌≡◌, min, OnOk};
ghost use Rattle.std.specs.Option.{option_copied};
ghost use Rattle.clr_drawing.specs.Sketches.{Draws};
ghost use Rattle.clr_drawing.specs.Signs.{IsSign};
ghost use Rattle.clr_map_marks.specs.Points.{DrawsMark, count_at, ink_of, is_at, mark_radius, marks_at, most_marks, points_by, small_ink_of, stands_at};
ghost use Rattle.clr_map_scenes.specs.Designs.{sets_of};

use crate::grounds::sign_of_table;
use clr_change::ChangeSet;
use clr_drawing::{GROUND, PAPER, Sign, Sketch, add_cross, add_sign};
use clr_map_scenes::{Designs, MapScene};
use clr_rows::{CellId, Change, Place, Row, Shape};
use clr_svg::{Colour, Ink, PagePoint, Pixels};
use std::alloc::AllocError;

/// What becomes of a point: it goes, it moves away, it comes, or it is another row at its place.
#[derive(Clone, Copy, PartialEq, Eq, PartialOrd, Ord)]
enum PointChange {
    Goes,
    Leaves,
    Comes,
    Changes,
}

/// A point that a design adds, changes or removes.
#[derive(Clone, Copy)]
struct PointMark {
    at: usize,
    change: PointChange,
    sign: Sign,
    place: Place,
}

/// Returns how large the signs of designs are.
pub fn mark_radius(scene: &MapScene<'_>) -> Pixels
    ensures { result ≡ mark_radius scene.now.changes }
{
    if scene.changes.is_fine() {
        Pixels::of_tenths(66)
    } else {
        Pixels::of_tenths(27)
    }
}

/// Adds a mark for a row that is a point and is seen.
fn add_point(
    marks: &mut Vec<PointMark>,
    scene: &MapScene<'_>,
    at: usize,
    cell: CellId,
    row: &Row,
    change: PointChange,
) -> Result<(), AllocError> {
    if let Shape::At(place) = &row.shape
        && scene.view.sees(&row.shape)
    {
        marks.push(PointMark {
            at,
            change,
            sign: sign_of_table(scene.field.schema, cell.table),
            place: *place,
        })?;
    }
    Ok(())
}

/// Adds the marks of a change.
fn add_change(
    marks: &mut Vec<PointMark>,
    scene: &MapScene<'_>,
    at: usize,
    cell: CellId,
    change: &Change,
) -> Result<(), AllocError> {
    match (&change.before, &change.after) {
        (None, Some(after)) => add_point(marks, scene, at, cell, after, PointChange::Comes),
        (Some(before), None) => add_point(marks, scene, at, cell, before, PointChange::Goes),
        (Some(before), Some(after)) => {
            if !before.shape.same(&after.shape) {
                add_point(marks, scene, at, cell, before, PointChange::Leaves)?;
            }
            add_point(marks, scene, at, cell, after, PointChange::Changes)
        }
        (None, None) => Ok(()),
    }
}

fn add_set(
    marks: &mut Vec<PointMark>,
    scene: &MapScene<'_>,
    at: usize,
    set: &ChangeSet,
) -> Result<(), AllocError> {
    for (cell, change) in set.iter() {
        add_change(marks, scene, at, *cell, change)?;
    }
    Ok(())
}

/// Returns the marks of all designs, those at one place beside one another.
fn marks_of(scene: &MapScene<'_>) -> Result<Vec<PointMark>, AllocError> {
    let mut marks = Vec::new(scene.field.alloc);
    for at in scene.field.designs.order() {
        if let Some(set) = scene.field.designs.changes(*at) {
            add_set(&mut marks, scene, *at, set)?;
        }
    }
    marks.sort_by_key(|mark| (mark.place.x, mark.place.y, mark.change, mark.at))?;
    Ok(marks)
}

/// Returns whether a row is a point at a place.
fn stands_at(row: Option<&Row>, place: Place) -> bool
    ensures { result ≡ stands_at (option_copied row.entry) place }
{
    match row {
        Some(row) => match &row.shape {
            Shape::At(other) => other.same(&place),
            _ => false,
        },
        None => false,
    }
}

/// Returns whether a change has a point at a place, before or after.
fn is_at(change: &Change, place: Place) -> bool
    ensures { result ≡ is_at change.now place }
{
    stands_at(change.before.as_ref(), place) || stands_at(change.after.as_ref(), place)
}

/// Returns how many changes of a set have a point at a place.
fn count_at(set: &ChangeSet, place: Place) -> usize
    ensures { result ≡ count_at set.now place }
{
    let mut count = 0usize;
    for (_, change) in set.iter() {
        if is_at(change, place) {
            count = count.saturating_add(1);
        }
    }
    count
}

/// Returns how many points at a place the design at a position changes, at most the greatest `u32`.
fn points_by(designs: &Designs<'_>, at: usize, place: Place) -> u32
    ensures { result ≡ min (points_by (sets_of designs.now) place at) most_marks }
{
    match designs.changes(at) {
        Some(set) => u32::try_from(count_at(set, place)).unwrap_or(u32::MAX),
        None => 0,
    }
}

/// Returns how many points at a place designs change, at most the greatest `u32`.
pub fn marks_at(scene: &MapScene<'_>, place: Place) -> u32
    ensures { let designs = scene.now.field.designs.now in result ≡ marks_at (sets_of designs) designs.order.items place }
{
    let designs = scene.field.designs;
    let order = designs.order();
    let mut count = 0u32;
    for at in order {
        count = count.saturating_add(points_by(designs, *at, place));
    }
    count
}

/// Returns how many marks stand at the place of the one at a position, before it and in all.
fn neighbours(marks: &[PointMark], at: usize, place: Place) -> (i64, i64) {
    let (mut before, mut all) = (0i64, 0i64);
    let first = at.saturating_sub(8);
    for (number, mark) in marks.iter().enumerate().skip(first).take(17) {
        if mark.place.same(&place) {
            all = all.saturating_add(1);
            if number < at {
                before = before.saturating_add(1);
            }
        }
    }
    (before, all)
}

/// Returns the spot of a mark, beside others at its place.
fn spot_of(scene: &MapScene<'_>, marks: &[PointMark], at: usize, mark: &PointMark) -> PagePoint {
    let spot = scene.view.spot(mark.place);
    let (before, all) = neighbours(marks, at, mark.place);
    let shift = before
        .saturating_mul(2)
        .saturating_sub(all)
        .saturating_add(1);
    let by = mark_radius(scene)
        .tenths
        .saturating_mul(shift)
        .saturating_mul(115)
        / 100;
    PagePoint {
        x: spot.x + Pixels::of_tenths(by),
        y: spot.y,
    }
}

/// Returns how a sign is filled and drawn: full, hollow, or with dashes.
fn ink_of(change: PointChange, colour: Colour) -> Ink
    ensures { result ≡ ink_of change colour }
{
    match change {
        PointChange::Goes | PointChange::Leaves => {
            let hollow = Ink::of_line(colour, Pixels::of_tenths(17)).over(GROUND);
            hollow.with_dashes(Pixels::of_tenths(25), Pixels::of_tenths(20))
        }
        PointChange::Comes => Ink::of_line(PAPER, Pixels::of_tenths(15)).over(colour),
        PointChange::Changes => Ink::of_line(colour, Pixels::of_tenths(26)).over(PAPER),
    }
}

/// Returns how a small sign is filled and drawn.
fn small_ink_of(change: PointChange, colour: Colour) -> Ink
    ensures { result ≡ small_ink_of change colour }
{
    match change {
        PointChange::Comes => Ink::of_area(colour),
        PointChange::Changes => Ink::of_line(colour, Pixels::of_tenths(12)).over(PAPER),
        PointChange::Goes | PointChange::Leaves => {
            let thin = Ink::of_line(colour, Pixels::of_tenths(12)).over(GROUND);
            thin.with_dashes(Pixels::of_tenths(20), Pixels::of_tenths(15))
        }
    }
}

/// Draws a mark in its colour.
fn add_mark(
    sketch: &mut Sketch,
    mark: &PointMark,
    spot: PagePoint,
    radius: Pixels,
    colour: Colour,
) -> Result<(), AllocError>
    ensures { OnOk result (DrawsMark mark.now.change mark.now.sign spot radius colour sketch.old.elements.items sketch.new.elements.items) }
{
    add_sign(sketch, mark.sign, spot, radius, ink_of(mark.change, colour))?;
    match mark.change {
        PointChange::Goes => {
            let cross = Pixels::of_tenths(radius.tenths.saturating_mul(62) / 100);
            add_cross(sketch, spot, cross, colour, PAPER)
        }
        PointChange::Leaves | PointChange::Comes | PointChange::Changes => Ok(()),
    }
}

/// Draws a small mark, full or hollow.
fn add_small_mark(
    sketch: &mut Sketch,
    mark: &PointMark,
    spot: PagePoint,
    radius: Pixels,
    colour: Colour,
) -> Result<(), AllocError>
    ensures { OnOk result (Draws (IsSign mark.now.sign spot radius (small_ink_of mark.now.change colour)) sketch.old.elements.items sketch.new.elements.items) }
{
    add_sign(
        sketch,
        mark.sign,
        spot,
        radius,
        small_ink_of(mark.change, colour),
    )
}

/// Returns the square of the page, of the size of a sign, in which a mark stands, and which mark of that
/// square it is.
fn square_of(scene: &MapScene<'_>, mark: &PointMark) -> (i64, i64, usize, PointChange) {
    let side = mark_radius(scene).tenths.saturating_mul(2).max(1);
    let spot = scene.view.spot(mark.place);
    let x = spot.x.tenths.checked_div(side).unwrap_or(0);
    let y = spot.y.tenths.checked_div(side).unwrap_or(0);
    (x, y, mark.at, mark.change)
}

/// Draws one mark for each square of the page, design and change.
fn add_small_marks(
    sketch: &mut Sketch,
    scene: &MapScene<'_>,
    mut marks: Vec<PointMark>,
) -> Result<(), AllocError> {
    marks.sort_by_key(|mark| square_of(scene, mark))?;
    let mut last = None;
    for mark in &marks {
        let square = square_of(scene, mark);
        if last != Some(square) {
            let colour = scene.field.designs.colours(mark.at).line;
            add_small_mark(
                sketch,
                mark,
                scene.view.spot(mark.place),
                mark_radius(scene),
                colour,
            )?;
        }
        last = Some(square);
    }
    Ok(())
}

/// Draws what designs change of points. Where there is little room, marks of one kind that are nearer than their size are drawn once.
pub fn add_point_marks(sketch: &mut Sketch, scene: &MapScene<'_>) -> Result<(), AllocError> {
    let marks = marks_of(scene)?;
    if !scene.changes.is_fine() {
        return add_small_marks(sketch, scene, marks);
    }
    for (at, mark) in marks.iter().enumerate() {
        let spot = spot_of(scene, marks.as_slice(), at, mark);
        let colour = scene.field.designs.colours(mark.at).line;
        add_mark(sketch, mark, spot, mark_radius(scene), colour)?;
    }
    Ok(())
}
