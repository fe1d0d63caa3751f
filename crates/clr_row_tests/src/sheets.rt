//! Sheets of points, by their kinds, and what is done to them.

use crate::texts::text_in;
use clr_row_test_kit::{add_word, cell, words};
use clr_rows::{CellId, Place, Row, RowView, Shape, Sheet, Value, Values};
use std::alloc::Global;

/// Returns a point of this kind.
fn point(alloc: Global, kind: &str) -> Option<Row> {
    let mut list = Vec::new(alloc);
    list.push(Value::Words(words(alloc, kind)?)).ok()?;
    Some(Row {
        values: Values::new(list),
        shape: Shape::At(Place { x: 5, y: -5 }),
    })
}

fn put(alloc: Global, sheet: &mut Sheet, text: &str) -> Option<String> {
    let (at, kind) = text.split_once(' ')?;
    let before = sheet.put(cell(at)?, point(alloc, kind)?).ok()?;
    String::from_str(alloc, text_in(before.as_ref())).ok()
}

fn take(alloc: Global, sheet: &mut Sheet, text: &str) -> Option<String> {
    let before = sheet.take(cell(text)?);
    String::from_str(alloc, text_in(before.as_ref())).ok()
}

/// Adds a cell with a point, or with none.
fn add(list: &mut Vec<(CellId, Option<Row>)>, alloc: Global, text: &str) -> Option<()> {
    let (at, kind) = text.split_once(' ')?;
    let row = if kind == "none" {
        None
    } else {
        Some(point(alloc, kind)?)
    };
    list.push((cell(at)?, row)).ok()
}

/// Puts points and none, all at once.
fn put_all(alloc: Global, sheet: &mut Sheet, text: &str) -> Option<String> {
    let mut list = Vec::new(alloc);
    if text != "none" {
        for part in text.split(';') {
            add(&mut list, alloc, part)?;
        }
    }
    sheet.put_all(list).ok()?;
    sheet_text(alloc, sheet)
}

/// Returns the kind at a cell, which is the same as that of the view's row.
fn kind_text(alloc: Global, sheet: &Sheet, text: &str) -> Option<String> {
    let kind = text_in(sheet.get(cell(text)?));
    if text_in(sheet.row(cell(text)?)) != kind {
        return None;
    }
    String::from_str(alloc, kind).ok()
}

/// Returns how many rows a sheet has, and its cells by position, behind which there is none.
fn cells_text(alloc: Global, sheet: &Sheet) -> Option<String> {
    let mut text = format!(in alloc; "{}", sheet.len()).ok()?;
    if sheet.cell_at(sheet.len()).is_some() {
        return None;
    }
    for at in 0..sheet.len() {
        let cell = sheet.cell_at(at)?;
        let word = format!(in alloc; "{}.{}", cell.table, cell.key).ok()?;
        add_word(&mut text, word.as_str())?;
    }
    Some(text)
}

/// Returns the cells and kinds of a sheet, one after another.
fn sheet_text(alloc: Global, sheet: &Sheet) -> Option<String> {
    let mut text = String::new(alloc);
    for (cell, row) in sheet.iter() {
        let word = format!(in alloc; "{}.{} {}", cell.table, cell.key, text_in(Some(row))).ok()?;
        add_word(&mut text, word.as_str())?;
    }
    Some(text)
}

fn act(alloc: Global, sheet: &mut Sheet, asked: &str) -> Option<String> {
    let (word, rest) = asked.split_once(' ').unwrap_or((asked, ""));
    match word {
        "put" => put(alloc, sheet, rest),
        "take" => take(alloc, sheet, rest),
        "all" => put_all(alloc, sheet, rest),
        "kind" => kind_text(alloc, sheet, rest),
        "cells" => cells_text(alloc, sheet),
        _ => sheet_text(alloc, sheet),
    }
}

fn is_right(alloc: Global, sheet: &mut Sheet, line: &str) -> Option<bool> {
    let (asked, wanted) = line.split_once(" => ")?;
    let answer = act(alloc, sheet, asked)?;
    Some(answer.as_str() == wanted)
}

/// Returns the first line that isn't answered as it says.
fn first_wrong(alloc: Global, sheet: &mut Sheet, lines: &'static str) -> Option<&'static str> {
    for line in lines.lines() {
        if is_right(alloc, sheet, line) != Some(true) {
            return Some(line);
        }
    }
    None
}

/// Returns the first line that isn't answered as it says, of a sheet that is empty at first.
fn first_wrong_from_none(alloc: Global, lines: &'static str) -> Option<&'static str> {
    let mut sheet = Sheet::new(alloc);
    first_wrong(alloc, &mut sheet, lines)
}

/// One row, put twice and taken.
const ONE: &str = "cells => 0
put 0.9 valve => none
put 0.9 tee => valve
cells => 1 0.9
kind 0.9 => tee
kind 0.10 => none
take 0.10 => none
take 0.9 => tee
cells => 0
kind 0.9 => none";

#[test]
fn puts_and_takes(rt: HostRuntime) {
    assert!(rt; first_wrong_from_none(rt.alloc(), ONE) == None);
}

/// Three points, put in another order than that of their cells.
const POINTS: &str = "put 1.2 post => none
put 0.9 valve => none
put 0.10 tee => none
rows => 0.9 valve 0.10 tee 1.2 post
cells => 3 0.9 0.10 1.2";

#[test]
fn cells_ascend(rt: HostRuntime) {
    assert!(rt; first_wrong_from_none(rt.alloc(), POINTS) == None);
}

/// The last of several rows and none at a cell counts.
const REPEATED: &str = "put 1.2 post => none
put 0.9 valve => none
put 0.10 tee => none
all 1.3 cap;0.9 none;0.10 tap;1.3 none;0.9 hub;1.2 pit;0.10 none;1.2 end => 0.9 hub 1.2 end
cells => 2 0.9 1.2";

#[test]
fn puts_the_last_row_at_a_cell(rt: HostRuntime) {
    assert!(rt; first_wrong_from_none(rt.alloc(), REPEATED) == None);
}

/// Rows and none, and then nothing at all.
const ROWS_AND_NONE: &str = "all 0.9 none;0.10 tap;1.3 cap => 0.10 tap 1.2 post 1.3 cap
cells => 3 0.10 1.2 1.3
all none => 0.10 tap 1.2 post 1.3 cap";

/// What a copy has that was made before them.
const COPY: &str = "rows => 0.9 valve 0.10 tee 1.2 post
cells => 3 0.9 0.10 1.2";

/// Returns the first line that isn't answered as it says, of a sheet that changes and of its copy.
fn first_wrong_of_copy(alloc: Global, sheet: &mut Sheet) -> Option<&'static str> {
    let Ok(mut copy) = sheet.copy() else {
        return Some("no copy");
    };
    match first_wrong(alloc, sheet, ROWS_AND_NONE) {
        Some(line) => Some(line),
        None => first_wrong(alloc, &mut copy, COPY),
    }
}

/// Returns the first line that a sheet of three points, or its copy, doesn't answer as it says, or none.
fn first_wrong_of_points(alloc: Global) -> Option<&'static str> {
    let mut sheet = Sheet::new(alloc);
    match first_wrong(alloc, &mut sheet, POINTS) {
        Some(line) => Some(line),
        None => first_wrong_of_copy(alloc, &mut sheet),
    }
}

#[test]
fn a_copy_stays_as_it_is(rt: HostRuntime) {
    assert!(rt; first_wrong_of_points(rt.alloc()) == None);
}
