//! Trees as texts.

ghost use Rattle.std.specs.Prelude.{◌<◌, length};

use crate::fixtures::number_of;
use clr_rows::Sheet;
use clr_tree::{ChangeSet, MarkPart, Part, Tree};
use std::alloc::{AllocError, Global};

/// Returns each key of a sheet with the number of its row, after a space.
pub fn rows_text(alloc: Global, rows: &Sheet) -> Result<String, AllocError> {
    let mut text = String::new(alloc);
    for (cell, row) in rows.iter() {
        let row = format!(in alloc; " {}={}", cell.key, number_of(row))?;
        text.push_str(row.as_str())?;
    }
    Ok(text)
}

/// Returns each changed key with the numbers of the rows before and after, or 0 where there is none.
pub fn changes_text(alloc: Global, changed: &ChangeSet) -> Result<String, AllocError> {
    let mut text = String::new(alloc);
    for (cell, change) in changed.iter() {
        let before = change.before.as_ref().map_or(0, number_of);
        let after = change.after.as_ref().map_or(0, number_of);
        let change = format!(in alloc; " {}:{before}>{after}", cell.key)?;
        text.push_str(change.as_str())?;
    }
    Ok(text)
}

fn mark_text(alloc: Global, mark: &MarkPart) -> Result<String, AllocError> {
    match mark {
        MarkPart::Saved(name, rows) => {
            let rows = rows_text(alloc, rows)?;
            format!(in alloc; " saved {}{rows}", name.as_str())
        }
        MarkPart::ChildMark(child) => format!(in alloc; " child {}", child.as_str()),
    }
}

fn marks_text(alloc: Global, marks: &[MarkPart]) -> Result<String, AllocError> {
    let mut text = String::new(alloc);
    for mark in marks {
        text.push_str(mark_text(alloc, mark)?.as_str())?;
    }
    Ok(text)
}

/// Returns a workspace with all that it has: its parent, its base, its current content, its marks in order,
/// and `kept` where every rule is to hold.
pub fn part_text(alloc: Global, part: &Part) -> Result<String, AllocError> {
    let base = rows_text(alloc, &part.base)?;
    let current = rows_text(alloc, &part.current)?;
    let marks = marks_text(alloc, part.marks.as_slice())?;
    let kept = if part.kept { " kept" } else { "" };
    let (name, parent) = (part.name.as_str(), part.parent.as_str());
    format!(in alloc; "{name} under {parent} base{base} now{current}{marks}{kept}\n")
}

fn live_text(alloc: Global, tree: &Tree) -> Result<String, AllocError> {
    let rows = rows_text(alloc, tree.live())?;
    format!(in alloc; "LIVE now{rows}\n")
}

fn space_text(alloc: Global, tree: &Tree, at: usize) -> Result<String, AllocError>
    requires child { 0 < at }
    requires within { at < length tree.now.list }
{
    let part = tree.part(at)?;
    part_text(alloc, &part)
}

/// Returns a line for each workspace of a tree.
pub fn tree_text(alloc: Global, tree: &Tree) -> Result<String, AllocError> {
    let mut text = live_text(alloc, tree)?;
    for at in 1..tree.len() {
        text.push_str(space_text(alloc, tree, at)?.as_str())?;
    }
    Ok(text)
}

/// Returns how many differences are stored of each workspace under LIVE.
pub fn counts_text(alloc: Global, tree: &Tree) -> Result<String, AllocError> {
    let mut text = String::from_str(alloc, "stored")?;
    for at in 1..tree.len() {
        text.push_str(format!(in alloc; " {}", tree.stored(at))?.as_str())?;
    }
    Ok(text)
}

/// Returns the lines of a text that another hasn't.
pub fn new_lines(alloc: Global, text: &str, before: &str) -> Result<String, AllocError> {
    let mut new = String::new(alloc);
    for line in text.lines() {
        if !before.lines().any(|old| old == line) {
            new.push_str(line)?;
            new.push_str("\n")?;
        }
    }
    Ok(new)
}

/// Returns the lines of the text of a tree that another hasn't, and how many differences are stored.
pub fn news_text(alloc: Global, tree: &Tree, before: &str) -> Result<String, AllocError> {
    let all = tree_text(alloc, tree)?;
    let mut text = new_lines(alloc, all.as_str(), before)?;
    text.push_str(counts_text(alloc, tree)?.as_str())?;
    Ok(text)
}
