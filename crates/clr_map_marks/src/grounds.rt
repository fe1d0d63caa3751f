//! The rows of the root, beneath everything else.

ghost use Rattle.std.specs.Prelude.{◌≡◌, count_by};
ghost use Rattle.clr_map_marks.specs.Tables.{is_of_points, sign_of_table};

use clr_drawing::{Detail, PAPER, PLAIN, SIGN, Sign, Sketch, add_shape, add_sign, sign_at};
use clr_map_scenes::MapScene;
use clr_rows::{CellId, Form, Row, Schema, Shape, TableDef};
use clr_svg::{Ink, PathCommand, Pixels};
use std::alloc::AllocError;

/// Returns whether a table is of points.
fn is_of_points(table: &TableDef) -> bool
    ensures { result ≡ is_of_points table.now }
{
    match table.shape {
        Form::Point => true,
        Form::Bare | Form::Segment | Form::Path => false,
    }
}

/// Returns how many of some tables are of points.
fn tables_of_points(tables: &[TableDef]) -> usize
    ensures { result ≡ count_by is_of_points tables.now }
{
    let mut number = 0usize;
    for table in tables {
        if is_of_points(table) {
            number = number.saturating_add(1);
        }
    }
    number
}

/// Returns the sign of a table's points: the tables of points take the signs in their order.
pub fn sign_of_table(schema: &Schema, table: u16) -> Sign
    ensures { result ≡ sign_of_table schema.now table }
{
    let tables = schema.tables();
    let before = tables.len().min(table as usize);
    sign_at(tables_of_points(&tables[..before]))
}

/// Returns how broad the lines of the root are.
fn line_width(detail: Detail) -> Pixels {
    match detail {
        Detail::Fine => Pixels::of_tenths(32),
        Detail::Middle => Pixels::of_tenths(19),
        Detail::Coarse => Pixels::of_tenths(9),
    }
}

/// Draws the lines of the root that are seen.
pub fn add_lines(sketch: &mut Sketch, scene: &MapScene<'_>) -> Result<(), AllocError> {
    let mut steps = Vec::new(sketch.allocator());
    for (_, row) in scene.field.rows.iter() {
        if scene.view.sees(&row.shape) {
            add_shape(&mut steps, &scene.view, &row.shape)?;
        }
    }
    sketch.add_path(steps, Ink::of_line(PLAIN, line_width(scene.detail)))
}

/// Returns whether a point of the root is drawn by itself: it is seen, and no design changes it.
fn is_drawn(scene: &MapScene<'_>, cell: CellId, row: &Row) -> bool {
    scene.view.sees(&row.shape) && scene.field.designs.changer(cell).is_none()
}

/// Draws the signs of the points of the root.
fn add_large_signs(sketch: &mut Sketch, scene: &MapScene<'_>) -> Result<(), AllocError> {
    let ink = Ink::of_line(SIGN, Pixels::of_tenths(15)).over(PAPER);
    for (cell, row) in scene.field.rows.iter() {
        if let Shape::At(place) = &row.shape
            && is_drawn(scene, *cell, row)
        {
            let sign = sign_of_table(scene.field.schema, cell.table);
            add_sign(
                sketch,
                sign,
                scene.view.spot(*place),
                Pixels::of_tenths(44),
                ink,
            )?;
        }
    }
    Ok(())
}

/// Draws dots for the points of the root, all in one path: lines of no length, whose ends are round.
fn add_dots(sketch: &mut Sketch, scene: &MapScene<'_>) -> Result<(), AllocError> {
    let mut steps = Vec::new(sketch.allocator());
    for (cell, row) in scene.field.rows.iter() {
        if let Shape::At(place) = &row.shape
            && is_drawn(scene, *cell, row)
        {
            let spot = scene.view.spot(*place);
            steps.push(PathCommand::Begin(spot))?;
            steps.push(PathCommand::Line(spot))?;
        }
    }
    sketch.add_path(steps, Ink::of_line(SIGN, Pixels::of_tenths(40)))
}

/// Draws the points of the root that are seen and that no design changes: by signs, or by dots where there is little room, or not at all
/// where there is less.
pub fn add_signs(sketch: &mut Sketch, scene: &MapScene<'_>) -> Result<(), AllocError> {
    match scene.detail {
        Detail::Fine => add_large_signs(sketch, scene),
        Detail::Middle => add_dots(sketch, scene),
        Detail::Coarse => Ok(()),
    }
}
