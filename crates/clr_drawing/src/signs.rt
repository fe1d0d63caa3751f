//! The signs of rows that are points, one for each table.

ghost use Rattle.std.specs.Prelude.{◌≡◌, ◌++◌, ◌∷◌, [], IfOk, OnOk, map};
ghost use Rattle.clr_drawing.specs.Sketches.{Draws, IsPath};
ghost use Rattle.clr_drawing.specs.Signs.{DrawsCross, IsCross, IsSign, away, line_to, outline, sign_of, square_element};

use crate::sketches::Sketch;
use clr_svg::{Colour, Element, Ink, PagePoint, PathCommand, Pixels};
use std::alloc::{AllocError, Global};

/// A sign.
#[derive(Clone, Copy)]
pub enum Sign {
    Circle,
    Square,
    Diamond,
    Triangle,
    Hexagon,
}

/// Where a diamond and a triangle begin, in hundredths of the radius.
const TOP: (i64, i64) = (0, -125);

/// The other corners of a diamond.
const DIAMOND: [(i64, i64); 3] = [(125, 0), (0, 125), (-125, 0)];

/// The other corners of a triangle.
const TRIANGLE: [(i64, i64); 2] = [(115, 80), (-115, 80)];

/// Where a hexagon begins.
const LEFT: (i64, i64) = (-110, 0);

/// The other corners of a hexagon.
const HEXAGON: [(i64, i64); 5] = [(-55, -100), (55, -100), (110, 0), (55, 100), (-55, 100)];

/// Half the side of a square, in hundredths of its radius.
const SQUARE: i64 = 90;

/// Returns the sign of a number, counted from 0. Behind five they begin anew.
pub fn sign_at(number: usize) -> Sign
    ensures { result ≡ sign_of number }
{
    match number % 5 {
        0 => Sign::Circle,
        1 => Sign::Square,
        2 => Sign::Diamond,
        3 => Sign::Triangle,
        _ => Sign::Hexagon,
    }
}

/// Returns the spot at an offset in hundredths of a radius.
fn offset(middle: PagePoint, radius: Pixels, by: (i64, i64)) -> PagePoint
    ensures { result ≡ away middle radius by }
{
    PagePoint {
        x: middle.x + Pixels::of_tenths(radius.tenths.saturating_mul(by.0) / 100),
        y: middle.y + Pixels::of_tenths(radius.tenths.saturating_mul(by.1) / 100),
    }
}

/// Adds lines to these corners, in hundredths of a radius.
fn add_lines(
    steps: &mut Vec<PathCommand>,
    middle: PagePoint,
    radius: Pixels,
    corners: &[(i64, i64)],
) -> Result<(), AllocError>
    ensures { OnOk result (steps.new.items ≡ steps.old.items ++ map (line_to middle radius) corners.now) }
{
    for corner in corners {
        steps.push(PathCommand::Line(offset(middle, radius, *corner)))?;
    }
    Ok(())
}

/// Returns the steps of a figure with these corners, in hundredths of a radius.
fn outline(
    alloc: Global,
    middle: PagePoint,
    radius: Pixels,
    first: (i64, i64),
    others: &[(i64, i64)],
) -> Result<Vec<PathCommand>, AllocError>
    ensures { IfOk result (λ steps. steps.items ≡ outline middle radius first others.now) }
{
    let mut steps = Vec::new(alloc);
    steps.push(PathCommand::Begin(offset(middle, radius, first)))?;
    add_lines(&mut steps, middle, radius, others)?;
    steps.push(PathCommand::Close)?;
    Ok(steps)
}

/// Draws a figure with these corners, in hundredths of a radius.
fn add_figure(
    sketch: &mut Sketch,
    middle: PagePoint,
    radius: Pixels,
    first: (i64, i64),
    others: &[(i64, i64)],
    ink: Ink,
) -> Result<(), AllocError>
    ensures { OnOk result (Draws (IsPath (outline middle radius first others.now) ink) sketch.old.elements.items sketch.new.elements.items) }
{
    let steps = outline(sketch.allocator(), middle, radius, first, others)?;
    sketch.add(Element::Path { steps, ink })
}

fn add_square(
    sketch: &mut Sketch,
    middle: PagePoint,
    radius: Pixels,
    ink: Ink,
) -> Result<(), AllocError>
    ensures { OnOk result (sketch.new.elements.items ≡ sketch.old.elements.items ++ square_element middle radius ink ∷ []) }
{
    let side = Pixels::of_tenths(radius.tenths.saturating_mul(2 * SQUARE) / 100);
    sketch.add(Element::Rectangle {
        corner: offset(middle, radius, (-SQUARE, -SQUARE)),
        width: side,
        height: side,
        radius: Pixels::ZERO,
        ink,
    })
}

/// Draws a sign.
pub fn add_sign(
    sketch: &mut Sketch,
    sign: Sign,
    middle: PagePoint,
    radius: Pixels,
    ink: Ink,
) -> Result<(), AllocError>
    ensures { OnOk result (Draws (IsSign sign middle radius ink) sketch.old.elements.items sketch.new.elements.items) }
{
    match sign {
        Sign::Circle => sketch.add(Element::Circle {
            middle,
            radius,
            ink,
        }),
        Sign::Square => add_square(sketch, middle, radius, ink),
        Sign::Diamond => add_figure(sketch, middle, radius, TOP, &DIAMOND, ink),
        Sign::Triangle => add_figure(sketch, middle, radius, TOP, &TRIANGLE, ink),
        Sign::Hexagon => add_figure(sketch, middle, radius, LEFT, &HEXAGON, ink),
    }
}

/// Draws a cross of lines of this width.
fn add_strokes(
    sketch: &mut Sketch,
    middle: PagePoint,
    radius: Pixels,
    colour: Colour,
    width: Pixels,
) -> Result<(), AllocError>
    ensures { OnOk result (Draws (IsCross middle radius colour width) sketch.old.elements.items sketch.new.elements.items) }
{
    let mut steps = Vec::with_capacity(sketch.allocator(), 4)?;
    steps.push(PathCommand::Begin(offset(middle, radius, (-100, -100))))?;
    steps.push(PathCommand::Line(offset(middle, radius, (100, 100))))?;
    steps.push(PathCommand::Begin(offset(middle, radius, (-100, 100))))?;
    steps.push(PathCommand::Line(offset(middle, radius, (100, -100))))?;
    sketch.add(Element::Path {
        steps,
        ink: Ink::of_line(colour, width),
    })
}

/// Draws a cross in a colour over a broader one in another.
pub fn add_cross(
    sketch: &mut Sketch,
    middle: PagePoint,
    radius: Pixels,
    colour: Colour,
    below: Colour,
) -> Result<(), AllocError>
    ensures { OnOk result (DrawsCross middle radius colour below sketch.old.elements.items sketch.new.elements.items) }
{
    add_strokes(sketch, middle, radius, below, Pixels::of_tenths(54))?;
    add_strokes(sketch, middle, radius, colour, Pixels::of_tenths(24))
}
