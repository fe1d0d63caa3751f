//! Cells, rows and sheets as texts, as tests want them answered.

use clr_rows::{CellId, Place, Row, Shape, Sheet, Value};
use std::alloc::Global;

/// Returns so many coordinates, which are 0 and 1 in turn, each behind a comma.
pub fn coordinates(alloc: Global, count: &str) -> Option<String> {
    let mut text = String::new(alloc);
    for n in 0..count.parse::<u16>().ok()? {
        text.push_str(if n % 4 < 2 { ",0" } else { ",1" }).ok()?;
    }
    Some(text)
}

/// Adds a text, after another where it isn't the first.
pub fn add_part(line: &mut String, between: &str, part: &str) -> Option<()> {
    if line.len() > 0 {
        line.push_str(between).ok()?;
    }
    line.push_str(part).ok()
}

fn value_text(alloc: Global, value: &Value) -> Option<String> {
    match value {
        Value::Int(number) => format!(in alloc; "{number}").ok(),
        Value::Words(text) => format!(in alloc; "'{}", text.as_str()).ok(),
    }
}

fn add_places(text: &mut String, alloc: Global, places: &[Place]) -> Option<()> {
    for place in places {
        let pair = format!(in alloc; "{},{}", place.x, place.y).ok()?;
        add_part(text, " ", pair.as_str())?;
    }
    Some(())
}

/// Returns the values of a row, each after a quote where it is a text, and its places, behind `path` where they are a chain.
fn row_text(alloc: Global, row: &Row) -> Option<String> {
    let mut text = String::new(alloc);
    for value in row.values.as_slice() {
        add_part(&mut text, " ", value_text(alloc, value)?.as_str())?;
    }
    match &row.shape {
        Shape::Bare => {}
        Shape::At(place) => add_places(&mut text, alloc, &[*place])?,
        Shape::Line(first, second) => add_places(&mut text, alloc, &[*first, *second])?,
        Shape::Chain(vertices) => {
            add_part(&mut text, " ", "path")?;
            add_places(&mut text, alloc, vertices.as_slice())?;
        }
    }
    Some(text)
}

/// Returns the number of a table and a key, with a dot between them.
pub fn cell_text(alloc: Global, cell: CellId) -> Option<String> {
    format!(in alloc; "{}.{}", cell.table, cell.key).ok()
}

/// Returns a word, a cell, and a row.
pub fn change_text(alloc: Global, word: &str, cell: CellId, row: &Row) -> Option<String> {
    let (cell, row) = (cell_text(alloc, cell)?, row_text(alloc, row)?);
    format!(in alloc; "{word} {} {}", cell.as_str(), row.as_str()).ok()
}

/// Returns the rows of a sheet in the order of their cells.
pub fn sheet_text(alloc: Global, sheet: &Sheet) -> Option<String> {
    let mut text = String::new(alloc);
    for (cell, row) in sheet.iter() {
        add_part(
            &mut text,
            ", ",
            change_text(alloc, "row", *cell, row)?.as_str(),
        )?;
    }
    Some(text)
}
