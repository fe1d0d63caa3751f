//! Schemas, as tests write them.

use crate::fields::{ordinal, words};
use clr_rows::{Columns, Form, Kind, Schema, TableDef, Words};
use std::alloc::Global;

/// Returns a name, or one of many with its number after it.
fn name(alloc: Global, text: &str, many: bool, number: u16) -> Option<Words> {
    if many {
        let text = format!(in alloc; "{text}{number}").ok()?;
        Some(Words::new(text))
    } else {
        words(alloc, text)
    }
}

/// Adds a column, or as many as a number before a star says.
fn add_column(list: &mut Vec<(Words, Kind)>, alloc: Global, text: &str) -> Option<()> {
    let (times, rest) = text.split_once('*').unwrap_or(("1", text));
    let (label, word) = rest.split_once(':')?;
    let kind = if word == "text" {
        Kind::Words
    } else {
        Kind::Int
    };
    let times = ordinal(times)?;
    for i in 0..times {
        list.push((name(alloc, label, times > 1, i)?, kind)).ok()?;
    }
    Some(())
}

/// Returns columns that are parted by commas.
pub fn columns(alloc: Global, text: &str) -> Option<Columns> {
    let mut list = Vec::new(alloc);
    if text == "" {
        return Some(Columns::new(list));
    }
    for part in text.split(',') {
        add_column(&mut list, alloc, part)?;
    }
    Some(Columns::new(list))
}

fn form(word: &str) -> Option<Form> {
    match word {
        "none" => Some(Form::Bare),
        "point" => Some(Form::Point),
        "segment" => Some(Form::Segment),
        "path" => Some(Form::Path),
        _ => None,
    }
}

fn table(alloc: Global, name: Words, text: &str) -> Option<TableDef> {
    let (word, rest) = text.split_once('/')?;
    Some(TableDef {
        name,
        columns: columns(alloc, rest)?,
        shape: form(word)?,
    })
}

/// Adds a table, or as many as a number before a star says.
fn add_table(list: &mut Vec<TableDef>, alloc: Global, text: &str) -> Option<()> {
    let (label, rest) = text.split_once('/')?;
    let (times, label) = label.split_once('*').unwrap_or(("1", label));
    let times = ordinal(times)?;
    for i in 0..times {
        let name = name(alloc, label, times > 1, i)?;
        list.push(table(alloc, name, rest)?).ok()?;
    }
    Some(())
}

/// Returns tables that are parted by semicolons: of each its name, its form and its columns by name and kind,
/// parted by strokes. Names after a number and a star stand so often, with numbers.
pub fn tables(alloc: Global, text: &str) -> Option<Vec<TableDef>> {
    let mut list = Vec::new(alloc);
    for part in text.split(';') {
        add_table(&mut list, alloc, part)?;
    }
    Some(list)
}

/// Returns the schema of a text.
pub fn schema(alloc: Global, text: &str) -> Option<Schema> {
    Schema::new(tables(alloc, text)?).ok()
}
