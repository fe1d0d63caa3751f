//! Edits and steps as texts, and pieces of texts that are read.

use clr_change::Edit;
use clr_row_test_kit::{add_part, cell_text, change_text};
use clr_rows::Words;
use clr_scripts::Step;
use clr_steps::{Command, Keep};
use std::alloc::Global;

/// Returns a text with another character in place of one.
pub(crate) fn exchange(alloc: Global, text: &str, from: char, to: char) -> Option<String> {
    let mut other = String::new(alloc);
    for letter in text.chars() {
        other.push(if letter == from { to } else { letter }).ok()?;
    }
    Some(other)
}

/// Returns a text with line ends in place of strokes.
pub(crate) fn unfold(alloc: Global, line: &str) -> Option<String> {
    exchange(alloc, line, '/', '\n')
}

fn edit_text(alloc: Global, edit: &Edit) -> Option<String> {
    match edit {
        Edit::Insert(cell, row) => change_text(alloc, "insert", *cell, row),
        Edit::Update(cell, row) => change_text(alloc, "update", *cell, row),
        Edit::Delete(cell) => format!(in alloc; "delete {}.{}", cell.table, cell.key).ok(),
    }
}

/// Returns edits in their order.
pub(crate) fn edits_text(alloc: Global, edits: &[Edit]) -> Option<String> {
    let mut text = String::new(alloc);
    for edit in edits {
        add_part(&mut text, ", ", edit_text(alloc, edit)?.as_str())?;
    }
    Some(text)
}

/// Returns a command as its word, its workspace, and its other name or the word that ends it.
fn fields(command: &Command) -> (&str, &str, &str) {
    match command {
        Command::Create { name, parent } => ("create", name.as_str(), parent.as_str()),
        Command::Remove { ws } => ("remove", ws.as_str(), ""),
        Command::Apply { ws, .. } => ("apply", ws.as_str(), ""),
        Command::Mark { ws, name } => ("mark", ws.as_str(), name.as_str()),
        Command::Unmark { ws, name } => ("unmark", ws.as_str(), name.as_str()),
        Command::RollTo { ws, name } => ("rollto", ws.as_str(), name.as_str()),
        Command::RollAll { ws } => ("rollall", ws.as_str(), ""),
        Command::Refresh { ws } => ("refresh", ws.as_str(), ""),
        Command::Merge { ws, remove } => (
            "merge",
            ws.as_str(),
            if *remove { "remove" } else { "keep" },
        ),
        Command::Resolve { ws, keep, .. } => ("resolve", ws.as_str(), keep_word(*keep)),
        Command::Hold { ws } => ("hold", ws.as_str(), ""),
        Command::Release { ws } => ("release", ws.as_str(), ""),
    }
}

fn keep_word(keep: Keep) -> &'static str {
    match keep {
        Keep::Parent => "PARENT",
        Keep::Child => "CHILD",
        Keep::Base => "BASE",
    }
}

/// Returns the edits or the cell of a command.
fn rest_text(alloc: Global, command: &Command) -> Option<String> {
    match command {
        Command::Apply { edits, .. } => edits_text(alloc, edits.as_slice()),
        Command::Resolve { cell, .. } => cell_text(alloc, *cell),
        _ => Some(String::new(alloc)),
    }
}

fn command_text(alloc: Global, command: &Command) -> Option<String> {
    let (word, workspace, other) = fields(command);
    let rest = rest_text(alloc, command)?;
    let space = if rest.len() > 0 { " " } else { "" };
    format!(in alloc; "{word} [{workspace}] [{other}]{space}{}", rest.as_str()).ok()
}

/// Returns names, each behind a stroke.
fn names_text(alloc: Global, names: &[Words]) -> Option<String> {
    let mut text = String::new(alloc);
    for name in names {
        text.push('/').ok()?;
        text.push_str(name.as_str()).ok()?;
    }
    Some(text)
}

fn step_text(alloc: Global, step: &Step) -> Option<String> {
    match step {
        Step::Act(command) => command_text(alloc, command),
        Step::Report(word, names) => {
            let names = names_text(alloc, names.as_slice())?;
            format!(in alloc; "{word:?}{}", names.as_str()).ok()
        }
    }
}

/// Steps in their order.
pub(crate) fn steps_text(alloc: Global, steps: &[Step]) -> Option<String> {
    let mut text = String::new(alloc);
    for step in steps {
        add_part(&mut text, "; ", step_text(alloc, step)?.as_str())?;
    }
    Some(text)
}
