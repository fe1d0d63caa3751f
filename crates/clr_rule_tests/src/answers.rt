//! Answers to the lines of `cases`, as texts.

use crate::lists::{columns_text, distances_text, filter_text};
use crate::one_rule::{OneRule, Parts};
use crate::rule_texts::rules;
use crate::texts::{RowAt, rows};
use clr_row_test_kit::{add_word, schema};
use clr_rows::Value;
use clr_rules::RuleBook;
use clr_spots::{Spot, Spots};
use std::alloc::Global;
use std::process::Abort;

/// The numbers of parts that are asked.
const NUMBERS: [u16; 7] = [0, 1, 2, 3, 4, 5, 65_535];

/// Returns `fits`, or the number of the first rule that doesn't fit and why.
fn book_text(alloc: Global, network: &str, text: &str) -> Option<String> {
    let schema = schema(alloc, network)?;
    match RuleBook::new(&schema, rules(alloc, text)?) {
        Ok(_) => String::from_str(alloc, "fits").ok(),
        Err((number, fault)) => format!(in alloc; "{number} {fault:?}").ok(),
    }
}

fn value_text(alloc: Global, value: &Value) -> Option<String> {
    match value {
        Value::Int(number) => format!(in alloc; "{number}").ok(),
        Value::Words(text) => format!(in alloc; "'{}", text.as_str()).ok(),
    }
}

fn values_text(alloc: Global, values: &[Value]) -> Option<String> {
    let mut text = String::new(alloc);
    for value in values {
        add_word(&mut text, value_text(alloc, value)?.as_str())?;
    }
    format!(in alloc; "({})", text.as_str()).ok()
}

/// Returns a square by its place, or values in parentheses.
fn spot_text(alloc: Global, spot: &Spot) -> Option<String> {
    match spot {
        Spot::Square(i, j) => format!(in alloc; "{i},{j}").ok(),
        Spot::Values(values) => values_text(alloc, values.as_slice()),
    }
}

/// Spots in their order, and `wide` where a row is wide.
fn spots_text(alloc: Global, spots: &Spots) -> Option<String> {
    let mut text = String::new(alloc);
    for spot in spots.list.as_slice() {
        add_word(&mut text, spot_text(alloc, spot)?.as_str())?;
    }
    if spots.wide {
        add_word(&mut text, "wide")?;
    }
    Some(text)
}

/// Returns how many spots, and whether the row is wide.
fn count_text(alloc: Global, spots: &Spots) -> Option<String> {
    let count = spots.list.as_slice().len();
    let wide = if spots.wide { " wide" } else { "" };
    format!(in alloc; "{count}{wide}").ok()
}

/// Returns what two orders of subjects are answered alike.
fn answer_of_both(first: bool, second: bool) -> Option<bool> {
    if first == second { Some(first) } else { None }
}

/// Returns whether parts of rows call, or whether the last row serves them. Two subjects are asked in both
/// orders.
fn is_so(rule: &OneRule, word: &str, parts: Parts, rows: &[RowAt]) -> Option<bool> {
    let (m, n) = parts;
    match (word, rows) {
        ("calls", [one, other]) => answer_of_both(
            rule.calls_two((m, n), one, other)?,
            rule.calls_two((n, m), other, one)?,
        ),
        ("serves", [one, server]) => rule.serves_one((m, n), one, server),
        ("serves", [one, other, server]) => answer_of_both(
            rule.serves_two((m, n), one, other, server)?,
            rule.serves_two((n, m), other, one, server)?,
        ),
        _ => None,
    }
}

/// Returns the pairs of parts that call, or that are served, out of all numbers.
fn parts_text(alloc: Global, rule: &OneRule, word: &str, rows: &[RowAt]) -> Option<String> {
    let mut text = String::new(alloc);
    for m in NUMBERS {
        for n in NUMBERS {
            if is_so(rule, word, (m, n), rows)? {
                add_word(&mut text, format!(in alloc; "{m},{n}").ok()?.as_str())?;
            }
        }
    }
    Some(text)
}

/// Returns what is asked of a rule and one row.
fn row_text(alloc: Global, rule: &OneRule, word: &str, row: &RowAt) -> Option<String> {
    match word {
        "calls" => format!(in alloc; "{}", rule.calls_one(row)?).ok(),
        "parts" => format!(in alloc; "{}", rule.part_count(row)?).ok(),
        "spots" => spots_text(alloc, &rule.spots_of(alloc, row)?),
        "count" => count_text(alloc, &rule.spots_of(alloc, row)?),
        _ => None,
    }
}

/// Returns what is asked of a rule and rows.
fn rule_text(alloc: Global, network: &str, word: &str, text: &str) -> Option<String> {
    let (rule, rest) = text.split_once(" | ")?;
    let rule = OneRule::of(alloc, network, rule)?;
    let rows = rows(alloc, rest)?;
    match rows.as_slice() {
        [row] => row_text(alloc, &rule, word, row),
        rows => parts_text(alloc, &rule, word, rows),
    }
}

fn answer(alloc: Global, network: &str, asked: &str) -> Option<String> {
    let (word, rest) = asked.split_once(' ')?;
    match word {
        "book" => book_text(alloc, network, rest),
        "distances" => distances_text(alloc, network, rest),
        "columns" => columns_text(alloc, rest),
        "filter" => filter_text(alloc, rest),
        _ => rule_text(alloc, network, word, rest),
    }
}

/// Returns whether a line is answered as it says.
fn is_right(alloc: Global, network: &str, line: &str) -> bool {
    let Some((asked, wanted)) = line.split_once(" => ") else {
        return false;
    };
    match answer(alloc, network, asked) {
        Some(text) if text.len() == 0 => wanted == "none",
        Some(text) => text.as_str() == wanted,
        None => false,
    }
}

/// Tests that each line is answered as it says.
pub(crate) fn check(rt: &impl Abort, alloc: Global, network: &str, lines: &str) {
    for line in lines.lines() {
        assert!(rt; is_right(alloc, network, line), "{line}");
    }
}
