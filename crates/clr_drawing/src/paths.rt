//! Shapes as paths of the page, and spots along them.

ghost use Rattle.std.specs.Prelude.{◌≡◌, OnOk};
ghost use Rattle.clr_drawing.specs.Paths.{are_one, beginning, ends_at, halfway_number, halfway_place, middle_of_parts, middle_place};
ghost use Rattle.clr_drawing.specs.Paths.{with_found, with_line, with_shape};

use clr_rows::{Place, Shape};
use clr_segments::{part, parts};
use clr_svg::{PagePoint, PathCommand, Pixels};
use clr_viewports::Viewport;
use std::alloc::{AllocError, Global};

/// The most spots that are taken along one part of a shape.
const MOST_SPOTS: i64 = 60;

/// Returns whether both spots are one.
fn are_one(a: PagePoint, b: PagePoint) -> bool
    ensures { result ≡ are_one a b }
{
    a.x.tenths == b.x.tenths && a.y.tenths == b.y.tenths
}

/// Returns whether the last step led to a spot.
fn ends_at(steps: &[PathCommand], spot: PagePoint) -> bool
    ensures { result ≡ ends_at steps.now spot }
{
    match steps.last() {
        Some(PathCommand::Line(last)) => are_one(*last, spot),
        _ => false,
    }
}

/// Adds a step to the spot where a figure begins, unless the last line led there.
fn add_beginning(steps: &mut Vec<PathCommand>, spot: PagePoint) -> Result<(), AllocError>
    ensures { OnOk result (steps.new.items ≡ beginning steps.old.items spot) }
{
    if !ends_at(steps.as_slice(), spot) {
        steps.push(PathCommand::Begin(spot))?;
    }
    Ok(())
}

/// Adds a line from one spot to another, unless both are one.
#[tactic(auto, unfolding(crate::specs::Paths::with_line))]
pub fn add_line(
    steps: &mut Vec<PathCommand>,
    from: PagePoint,
    to: PagePoint,
) -> Result<(), AllocError>
    ensures { OnOk result (steps.new.items ≡ with_line steps.old.items from to) }
{
    if are_one(from, to) {
        return Ok(());
    }
    add_beginning(steps, from)?;
    steps.push(PathCommand::Line(to))?;
    Ok(())
}

/// Adds the line of a part, where there is one.
fn add_part(
    steps: &mut Vec<PathCommand>,
    view: &Viewport,
    part: Option<(Place, Place)>,
) -> Result<(), AllocError>
    ensures { OnOk result (steps.new.items ≡ with_found view.now steps.old.items part) }
{
    match part {
        Some((from, to)) => add_line(steps, view.spot(from), view.spot(to)),
        None => Ok(()),
    }
}

/// Adds the lines of a shape; a point has none.
pub fn add_shape(
    steps: &mut Vec<PathCommand>,
    view: &Viewport,
    shape: &Shape,
) -> Result<(), AllocError>
    ensures { OnOk result (steps.new.items ≡ with_shape view.now steps.old.items shape.now) }
{
    for at in 0..parts(shape) {
        add_part(steps, view, part(shape, at + 1))?;
    }
    Ok(())
}

/// Returns the spot that is this many parts of the way from one spot to another.
fn spot_between(from: PagePoint, to: PagePoint, share: i64, of: i64) -> PagePoint {
    let x = (to.x - from.x).tenths.saturating_mul(share);
    let y = (to.y - from.y).tenths.saturating_mul(share);
    PagePoint {
        x: from.x + Pixels::of_tenths(x.checked_div(of).unwrap_or(0)),
        y: from.y + Pixels::of_tenths(y.checked_div(of).unwrap_or(0)),
    }
}

/// Adds spots along a line that are in the frame, this far apart.
fn add_samples(
    spots: &mut Vec<PagePoint>,
    view: &Viewport,
    from: PagePoint,
    to: PagePoint,
    apart: i64,
) -> Result<(), AllocError> {
    let across = (to.x - from.x).tenths.unsigned_abs();
    let along = (to.y - from.y).tenths.unsigned_abs();
    let length = i64::try_from(across.max(along)).unwrap_or(i64::MAX);
    let count = length.checked_div(apart).unwrap_or(0).clamp(1, MOST_SPOTS);
    for share in 0..count {
        let spot = spot_between(from, to, share, count);
        if view.frame.has(spot) {
            spots.push(spot)?;
        }
    }
    Ok(())
}

/// Adds spots along the parts of a shape that are in the frame.
fn add_part_samples(
    spots: &mut Vec<PagePoint>,
    view: &Viewport,
    shape: &Shape,
    apart: i64,
) -> Result<(), AllocError> {
    for at in 0..parts(shape) {
        if let Some((from, to)) = part(shape, at.saturating_add(1)) {
            add_samples(spots, view, view.spot(from), view.spot(to), apart)?;
        }
    }
    Ok(())
}

/// Returns spots of a shape that are in the frame: of a point its own, and of a line some along it that are this far apart, in tenths of a
/// pixel, or farther where it is long.
pub fn samples(
    alloc: Global,
    view: &Viewport,
    shape: &Shape,
    apart: i64,
) -> Result<Vec<PagePoint>, AllocError> {
    let mut spots = Vec::new(alloc);
    if let Shape::At(place) = shape {
        let spot = view.spot(*place);
        if view.frame.has(spot) {
            spots.push(spot)?;
        }
        return Ok(spots);
    }
    add_part_samples(&mut spots, view, shape, apart)?;
    Ok(spots)
}

/// Returns the number halfway between two.
#[tactic(auto, unfolding(crate::specs::Paths::halfway_number))]
fn halfway_number(from: i64, to: i64) -> i64
    ensures { result ≡ halfway_number from to }
{
    from.saturating_add(to.saturating_sub(from) / 2)
}

/// Returns the place halfway between two.
fn halfway(from: Place, to: Place) -> Place
    ensures { result ≡ halfway_place from to }
{
    Place {
        x: halfway_number(from.x, to.x),
        y: halfway_number(from.y, to.y),
    }
}

/// Returns the middle of the middle part of a shape, or none where it has no parts.
fn middle_of_parts(shape: &Shape) -> Option<Place>
    ensures { result ≡ middle_of_parts shape.now }
{
    let count = parts(shape);
    match part(shape, count / 2 + count % 2) {
        Some((from, to)) => Some(halfway(from, to)),
        None => None,
    }
}

/// Returns a place in the middle of a shape: of a point its own, of a line the middle of its middle part; or none where it has no vertices.
pub fn middle_of(shape: &Shape) -> Option<Place>
    ensures { result ≡ middle_place shape.now }
{
    match shape {
        Shape::Bare => None,
        Shape::At(place) => Some(*place),
        Shape::Line(_, _) | Shape::Chain(_) => middle_of_parts(shape),
    }
}
