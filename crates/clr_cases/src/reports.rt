//! Reports of scripts as lines, by the calls that show what an office has.

use clr_engine::Office;
use clr_lines::{changes_lines, conflicts_lines, rows_lines};
use clr_office_test_kit::picture;
use clr_rows::{Sheet, Words};
use clr_scripts::Word;
use std::alloc::Global;

/// Returns what is answered where there is no workspace of a name.
fn unknown_answer(alloc: Global) -> Option<Vec<u8>> {
    Vec::from_slice(alloc, b"unknown\n").ok()
}

/// Returns whether each of these rows of LIVE or a workspace is read at its cell.
fn are_read(office: &Office, name: &str, rows: &Sheet) -> bool {
    rows.iter().all(|(cell, row)| match office.read(name, *cell) {
        Some(found) => found.same(row),
        None => false,
    })
}

/// Returns the rows of LIVE or a workspace.
fn rows_of(alloc: Global, office: &Office, name: &str) -> Option<Vec<u8>> {
    match office.rows(name).ok()? {
        Some(rows) if are_read(office, name, &rows) => {
            rows_lines(alloc, office.schema(), &rows).ok()
        }
        None if !are_read(office, name, office.live()) => unknown_answer(alloc),
        _ => None,
    }
}

/// Returns what a workspace changed.
fn changes_of(alloc: Global, office: &Office, name: &str) -> Option<Vec<u8>> {
    match office.changes(name).ok()? {
        Some(changes) => changes_lines(alloc, office.schema(), &changes).ok(),
        None => unknown_answer(alloc),
    }
}

/// Returns the cells of a workspace that are in conflict.
fn conflicts_of(alloc: Global, office: &Office, name: &str) -> Option<Vec<u8>> {
    match office.conflicts(name).ok()? {
        Some(cells) => conflicts_lines(alloc, office.schema(), cells.as_slice()).ok(),
        None => unknown_answer(alloc),
    }
}

/// Returns what is told of LIVE or a workspace: its name, its parent, how many differences are stored, and whether it is kept.
fn workspace_line(alloc: Global, office: &Office, name: &str) -> Option<String> {
    let parent = office.parent_of(name).unwrap_or("nothing");
    let stored = office.stored(name)?;
    let flag = if office.kept(name)? { " kept" } else { "" };
    format!(in alloc; "{name} under {parent}, {stored} stored{flag}\n").ok()
}

/// Returns a line for each position, LIVE's being the first.
fn workspace_lines(alloc: Global, office: &Office) -> Option<Vec<u8>> {
    let mut lines = Vec::new(alloc);
    for position in 0..office.len() {
        let line = workspace_line(alloc, office, office.name_at(position)?)?;
        lines.extend_from_slice(line.as_bytes()).ok()?;
    }
    match office.name_at(office.len()) {
        Some(_) => None,
        None => Some(lines),
    }
}

/// Returns what LIVE or a workspace has.
fn lines_of(alloc: Global, office: &Office, word: Word, name: &str) -> Option<Vec<u8>> {
    match word {
        Word::Show => rows_of(alloc, office, name),
        Word::Changes => changes_of(alloc, office, name),
        Word::Conflicts => conflicts_of(alloc, office, name),
        _ => None,
    }
}

/// Returns what the whole office has.
fn whole_lines(alloc: Global, office: &Office, word: Word) -> Option<Vec<u8>> {
    match word {
        Word::Workspaces => workspace_lines(alloc, office),
        Word::Dump => picture(alloc, office),
        _ => None,
    }
}

pub fn report_lines(
    alloc: Global,
    office: &Office,
    word: Word,
    names: &[Words],
) -> Option<Vec<u8>> {
    match names.first() {
        Some(name) => lines_of(alloc, office, word, name.as_str()),
        None => whole_lines(alloc, office, word),
    }
}
