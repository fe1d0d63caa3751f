//! Answers to the lines of `cases`, as texts.

use crate::changes::{
    between_text, changes_text, conflict_text, edits_text, over_text, stage_text,
};
use crate::copies::{
    columns_text, place_text, row_text, value_text, values_text, vertices_text, words_text,
};
use crate::places;
use crate::schemas::{network_text, schema_text};
use crate::segments::{box_text, part_text, parts_text};
use clr_rows::{
    GREATEST_COORDINATE, GREATEST_KEY, LEAST_VERTICES, MOST_COLUMNS, MOST_NAME_BYTES, MOST_TABLES,
    MOST_TEXT_BYTES, MOST_VERTICES, good_name,
};
use clr_segments::GREATEST_DISTANCE;
use std::alloc::Global;
use std::process::Abort;

/// Returns the greatest lists and texts, the vertices of a path, and the greatest numbers.
fn limit_text(alloc: Global, word: &str) -> Option<String> {
    let (one, two, three) = match word {
        "lists" => (
            MOST_TABLES as i64,
            MOST_COLUMNS as i64,
            MOST_NAME_BYTES as i64,
        ),
        "texts" => (
            MOST_TEXT_BYTES as i64,
            LEAST_VERTICES as i64,
            MOST_VERTICES as i64,
        ),
        _ => (GREATEST_KEY, GREATEST_COORDINATE as i64, GREATEST_DISTANCE),
    };
    format!(in alloc; "{one} {two} {three}").ok()
}

/// Returns what is asked of tables and rows.
fn row_answer(alloc: Global, word: &str, text: &str) -> Option<String> {
    match word {
        "limits" => limit_text(alloc, text),
        "good" => format!(in alloc; "{}", good_name(text)).ok(),
        "schema" => schema_text(alloc, text),
        _ => network_text(alloc, word, text),
    }
}

/// Returns what is asked of two things that a bar parts.
fn same_answer(alloc: Global, word: &str, one: &str, other: &str) -> Option<String> {
    match word {
        "words" => words_text(alloc, one, other),
        "value" => value_text(alloc, one, other),
        "values" => values_text(alloc, one, other),
        "rows" => row_text(alloc, one, other),
        "places" => place_text(alloc, one, other),
        _ => None,
    }
}

/// Returns what is asked of shapes and lists.
fn shape_answer(alloc: Global, word: &str, text: &str) -> Option<String> {
    match word {
        "vertices" => vertices_text(alloc, text),
        "columns" => columns_text(alloc, text),
        "parts" => parts_text(alloc, text),
        "part" => part_text(alloc, text),
        "bounds" => box_text(alloc, text),
        _ => places::answer(alloc, word, text),
    }
}

/// Returns what is asked of edits.
fn change_answer(alloc: Global, word: &str, text: &str) -> Option<String> {
    match word {
        "stage" => stage_text(alloc, text),
        "between" => between_text(alloc, text),
        "over" => over_text(alloc, text),
        "conflict" => conflict_text(alloc, text),
        "edits" => edits_text(alloc, text),
        _ => changes_text(alloc, text),
    }
}

/// Returns what one of the words of a group is asked.
fn answer(alloc: Global, group: Group, asked: &str) -> Option<String> {
    let (word, rest) = asked.split_once(' ')?;
    match group {
        Group::Rows => row_answer(alloc, word, rest),
        Group::Shapes => shape_answer(alloc, word, rest),
        Group::Changes => change_answer(alloc, word, rest),
        Group::Pairs => {
            let (one, other) = rest.split_once(" | ")?;
            same_answer(alloc, word, one, other)
        }
    }
}

/// What a line is about.
#[derive(Clone, Copy)]
pub(crate) enum Group {
    /// Tables and rows.
    Rows,
    /// Two things that a bar parts.
    Pairs,
    /// Shapes, places and lists.
    Shapes,
    /// Edits and changes.
    Changes,
}

fn is_right(alloc: Global, group: Group, line: &str) -> bool {
    let Some((asked, wanted)) = line.split_once(" => ") else {
        return false;
    };
    match answer(alloc, group, asked) {
        Some(text) => text.as_str() == wanted,
        None => false,
    }
}

/// Tests that each line is answered as it says.
pub(crate) fn check(rt: &impl Abort, alloc: Global, group: Group, lines: &str) {
    for line in lines.lines() {
        assert!(rt; is_right(alloc, group, line), "{line}");
    }
}
