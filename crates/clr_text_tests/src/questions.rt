//! Cases as lines: a question, which begins with a word, ` => `, and the answer.

use crate::{layer_streams, layers, record_faults, scripts};
use std::alloc::Global;
use std::process::Abort;

/// Returns what is answered to a word and what stands behind it.
fn answer(alloc: Global, word: &'static str, rest: &'static str) -> Option<String> {
    match word {
        "scriptfault" | "certificatefault" => record_faults::answer(alloc, word, rest),
        "layer" | "rounded" => layers::answer(alloc, word == "rounded", rest),
        "stream" | "rounded stream" => layer_streams::answer(alloc, word == "rounded stream", rest),
        _ => scripts::answer(alloc, word, rest),
    }
}

/// Returns whether a word and what stands behind it are answered so.
pub(crate) fn is_answer(
    alloc: Global,
    word: &'static str,
    rest: &'static str,
    wanted: &str,
) -> bool {
    match answer(alloc, word, rest) {
        Some(text) => text.as_str() == wanted,
        None => false,
    }
}

/// Returns whether a line is answered as it says, behind a word that it doesn't have.
fn is_right(alloc: Global, word: &'static str, line: &'static str) -> bool {
    let (rest, wanted) = line.split_once(" =>").unwrap_or((line, ""));
    is_answer(alloc, word, rest, wanted.trim_start())
}

/// Tests that each line is answered as it says, behind a word that stands in none of them.
pub(crate) fn check_of(rt: &impl Abort, alloc: Global, word: &'static str, lines: &'static str) {
    for line in lines.lines() {
        assert!(rt; is_right(alloc, word, line), "{line}");
    }
}

/// Tests that each line, which begins with a word, is answered as it says.
pub(crate) fn check(rt: &impl Abort, alloc: Global, lines: &'static str) {
    for line in lines.lines() {
        let (word, rest) = line.split_once(' ').unwrap_or((line, ""));
        assert!(rt; is_right(alloc, word, rest), "{line}");
    }
}
