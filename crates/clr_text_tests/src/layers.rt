//! Layers as they are read, or why they aren't.

pub(crate) mod cases;

use crate::layers::cases::{FAULTS, HEADERS, LINES, POINTS, ROUNDED};
use crate::networks::schema_of;
use crate::questions::check_of;
use crate::texts::{exchange, unfold};
use clr_layer_text::{read_layer, write_layer};
use std::alloc::Global;

/// Valves with a kind, mains with a code and a size, roads, and notes with a text.
pub(crate) const TABLES: &str = r#"{"format":2,"tables":[
{"name":"valve","columns":[["kind","TEXT"]],"shape":"POINT"},
{"name":"main","columns":[["code","TEXT"],["size","INT"]],"shape":"SEGMENT"},
{"name":"road","columns":[],"shape":"PATH"},
{"name":"note","columns":[["text","TEXT"]],"shape":"NONE"}],"live":[]}"#;

/// Returns the lines of a table's rows behind the header, with strokes in place of line ends.
pub(crate) fn lines_of(alloc: Global, text: &[u8]) -> Option<String> {
    let text = str::from_utf8(text).ok()?;
    let (_, rows) = text.split_once('\n')?;
    exchange(alloc, rows.trim_end_matches('\n'), '\n', '/')
}

/// Returns what is read of a layer, behind the name of its table.
pub(crate) fn answer(alloc: Global, rounded: bool, question: &str) -> Option<String> {
    let (name, layer) = question.split_once(' ')?;
    let schema = schema_of(alloc, TABLES)?;
    let table = schema.table(name).unwrap_or(9);
    let text = unfold(alloc, layer)?;
    match read_layer(alloc, &schema, table, rounded, text.as_bytes()) {
        Ok(rows) => {
            let written = write_layer(alloc, schema.def(table)?, rows.as_slice()).ok()?;
            lines_of(alloc, written.as_slice())
        }
        Err((number, fault)) => format!(in alloc; "{number} {fault:?}").ok(),
    }
}

#[test]
fn points(rt: HostRuntime) {
    check_of(&rt, rt.alloc(), "layer", POINTS);
}

#[test]
fn lines(rt: HostRuntime) {
    check_of(&rt, rt.alloc(), "layer", LINES);
}

#[test]
fn headers(rt: HostRuntime) {
    check_of(&rt, rt.alloc(), "layer", HEADERS);
}

#[test]
fn faults(rt: HostRuntime) {
    check_of(&rt, rt.alloc(), "layer", FAULTS);
}

#[test]
fn what_can_be_read_is_the_same_rounded(rt: HostRuntime) {
    check_of(&rt, rt.alloc(), "rounded", POINTS);
    check_of(&rt, rt.alloc(), "rounded", LINES);
}

#[test]
fn coordinates_that_are_rounded(rt: HostRuntime) {
    check_of(&rt, rt.alloc(), "rounded", ROUNDED);
}
