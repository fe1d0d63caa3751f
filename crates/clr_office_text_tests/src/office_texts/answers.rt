//! Why office texts are refused, by lines that have a part of each.

use crate::office_texts::cases::{CELLS, FLAGS, PATHS, RULES, TEXTS, WORKSPACES};
use crate::questions::check;
use clr_office_reading::{TextFault, read_office};
use clr_row_test_kit::coordinates;
use std::alloc::Global;

/// An office text up to the first cell of LIVE: one table, of nodes with a kind and a size.
const NODES: &str =
    r#"{"format":1,"tables":[{"name":"node","columns":[["kind","TEXT"],["size","INT"]],"shape":"POINT"}],"live":["#;

/// An office text up to its rules.
const TABLES: &str = r#"{"format":1,"tables":[
{"name":"node","columns":[["kind","TEXT"],["size","INT"]],"shape":"POINT"},
{"name":"main","columns":[["code","TEXT"]],"shape":"SEGMENT"}],
"live":[],"rules":["#;

/// A good rule.
const RULE: &str = r#"{"kind":"UNIQUE","subject":{"table":"main"},"columns":["code"]}"#;

/// An office text of format 2 up to the first cell of LIVE: routes, which are paths, and mains.
const ROUTES: &str = r#"{"format":2,"tables":[
{"name":"route","columns":[["code","TEXT"]],"shape":"PATH"},
{"name":"main","columns":[["code","TEXT"]],"shape":"SEGMENT"}],
"live":["#;

/// An office text behind its format, up to its first workspace.
const PARTS: &str =
    r#""tables":[{"name":"node","columns":[],"shape":"NONE"}],"live":[],"workspaces":["#;

/// A workspace up to what stands behind its name and parent.
const PART: &str = r#"{"name":"W1","parent":"LIVE","#;

/// Returns a text as often as a number says, with another between.
fn repeat(alloc: Global, part: &str, between: &str, times: &str) -> Option<String> {
    let mut text = String::new(alloc);
    for n in 0..times.parse::<u16>().ok()? {
        text.push_str(if n == 0 { "" } else { between }).ok()?;
        text.push_str(part).ok()?;
    }
    Some(text)
}

/// Returns an office text with these cells in LIVE, and then more keys.
fn with_cells(alloc: Global, cells: &str, more: &str) -> Option<String> {
    format!(in alloc; "{NODES}{cells}]{more}}}").ok()
}

/// Returns an office text with an unknown key whose value has so many lists within one another.
fn with_lists(alloc: Global, levels: &str) -> Option<String> {
    let (open, close) = (
        repeat(alloc, "[", "", levels)?,
        repeat(alloc, "]", "", levels)?,
    );
    let more = format!(in alloc; r#","note":{}{}"#, open.as_str(), close.as_str()).ok()?;
    with_cells(alloc, "", more.as_str())
}

/// Returns an office text with these rules.
fn with_rules(alloc: Global, rules: &str) -> Option<String> {
    format!(in alloc; "{TABLES}{rules}]}}").ok()
}

/// Returns an office text with a cell of this table, and so many coordinates, which are 0 and 1 in turn.
pub(super) fn with_path(alloc: Global, table: &str, count: &str) -> Option<String> {
    let coordinates = coordinates(alloc, count)?;
    let list = coordinates.as_str().strip_prefix(",").unwrap_or("");
    format!(in alloc; r#"{ROUTES}{{"t":"{table}","k":5,"v":["R"],"s":[{list}]}}]}}"#).ok()
}

/// Returns an office text of a format with a workspace.
fn with_part(alloc: Global, format: &str, part: &str) -> Option<String> {
    format!(in alloc; r#"{{"format":{format},{PARTS}{PART}{part}}}]}}"#).ok()
}

fn office_text(alloc: Global, word: &str, part: &str) -> Option<String> {
    match word {
        "cells" => {
            let (cells, more) = part.split_once('^')?;
            with_cells(alloc, cells, more)
        }
        "path" => {
            let (table, coordinates) = part.split_once(' ')?;
            with_path(alloc, table, coordinates)
        }
        "lists" => with_lists(alloc, part),
        "rules" => with_rules(alloc, part),
        "many" => with_rules(alloc, repeat(alloc, RULE, ",", part)?.as_str()),
        "parts" => format!(in alloc; r#"{{"format":3,{PARTS}{part}]}}"#).ok(),
        "part" => with_part(alloc, "3", part),
        _ => String::from_str(alloc, part).ok(),
    }
}

/// Returns `fits`, or why the office text of a word and a part is refused.
pub(super) fn fault_answer(alloc: Global, word: &str, part: &str) -> Option<String> {
    let text = office_text(alloc, word, part)?;
    match read_office(alloc, text.as_str().as_bytes()) {
        Ok(_) => String::from_str(alloc, "fits").ok(),
        Err(fault) => format!(in alloc; "{fault:?}").ok(),
    }
}

#[test]
fn faults_of_cells_and_lists(rt: HostRuntime) {
    check(&rt, rt.alloc(), CELLS);
}

#[test]
fn faults_of_whole_texts(rt: HostRuntime) {
    check(&rt, rt.alloc(), TEXTS);
}

#[test]
fn faults_of_rules(rt: HostRuntime) {
    check(&rt, rt.alloc(), RULES);
}

#[test]
fn faults_of_workspaces(rt: HostRuntime) {
    check(&rt, rt.alloc(), WORKSPACES);
}

#[test]
fn faults_of_paths(rt: HostRuntime) {
    check(&rt, rt.alloc(), PATHS);
}

/// A byte that is no text, and a byte order mark.
#[test]
fn bytes_that_are_no_json(rt: HostRuntime) {
    let no_text = b"{\"format\":1,\"tables\":[],\"live\":[],\"note\":\"\xff\"}";
    assert!(rt; read_office(rt.alloc(), no_text).err() == Some(TextFault::NotJson));
    let marked = "\u{feff}{\"format\":1,\"tables\":[],\"live\":[]}";
    assert!(rt; read_office(rt.alloc(), marked.as_bytes()).err() == Some(TextFault::NotJson));
}

/// Returns how many workspaces a text has whose flag stands behind its format, and whether the first is kept; or why it is refused.
pub(super) fn flag_answer(alloc: Global, case: &str) -> Option<String> {
    let (format, flag) = case.split_once(' ')?;
    let part = format!(in alloc; r#""kept":{flag}"#).ok()?;
    let text = with_part(alloc, format, part.as_str())?;
    match read_office(alloc, text.as_str().as_bytes()) {
        Ok(parts) => {
            let kept = parts.workspaces.first()?.delta.kept;
            format!(in alloc; "{} {kept}", parts.workspaces.len()).ok()
        }
        Err(fault) => format!(in alloc; "{fault:?}").ok(),
    }
}

#[test]
fn flags_by_format(rt: HostRuntime) {
    check(&rt, rt.alloc(), FLAGS);
}
