//! Rules of texts, by `cases`. A text that can't be read is none.

use clr_row_test_kit::{number, ordinal, value};
use clr_rows::Value;
use clr_rules::{Col, ColumnList, Filter, Rule, Side, Tip};
use std::alloc::Global;

/// Returns columns that are parted by plus signs: numbers, K for the key, or none for a hyphen.
pub(crate) fn columns(alloc: Global, text: &str) -> Option<ColumnList> {
    let mut list = Vec::new(alloc);
    for part in text.split('+') {
        match part {
            "-" => {}
            "K" => list.push(Col::Key).ok()?,
            _ => list.push(Col::At(ordinal(part)?)).ok()?,
        }
    }
    Some(ColumnList::new(list))
}

fn literals(alloc: Global, text: &str) -> Option<Vec<(u16, Value)>> {
    let mut list = Vec::new(alloc);
    for part in text.split(':') {
        let (column, literal) = part.split_once('=')?;
        list.push((ordinal(column)?, value(alloc, literal)?)).ok()?;
    }
    Some(list)
}

/// Returns the number of a table, and literals after colons.
pub(crate) fn side(alloc: Global, text: &str) -> Option<Side> {
    match text.split_once(':') {
        Some((table, rest)) => Some(Side {
            table: ordinal(table)?,
            filter: Filter::new(literals(alloc, rest)?),
        }),
        None => Some(Side {
            table: ordinal(text)?,
            filter: Filter::new(Vec::new(alloc)),
        }),
    }
}

fn partner(alloc: Global, subject: Side, text: &str) -> Option<Rule> {
    let (names, rest) = text.split_once(' ')?;
    let (server, others) = rest.split_once(' ')?;
    Some(Rule::Partner {
        subject,
        columns: columns(alloc, names)?,
        server: side(alloc, server)?,
        server_columns: columns(alloc, others)?,
    })
}

fn crossing(alloc: Global, a: Side, text: &str) -> Option<Rule> {
    let (b, server) = text.split_once(' ')?;
    Some(Rule::Crossing {
        a,
        b: side(alloc, b)?,
        server: side(alloc, server)?,
    })
}

fn near(alloc: Global, a: Side, text: &str) -> Option<Rule> {
    let (b, d) = text.split_once(' ')?;
    Some(Rule::Near {
        a,
        b: side(alloc, b)?,
        d: number(d)?,
    })
}

fn end_node(alloc: Global, subject: Side, tip: Tip, server: &str) -> Option<Rule> {
    Some(Rule::EndNode {
        subject,
        tip,
        server: side(alloc, server)?,
    })
}

fn unique(alloc: Global, subject: Side, names: &str) -> Option<Rule> {
    Some(Rule::Unique {
        subject,
        columns: columns(alloc, names)?,
    })
}

/// Returns the rule of a word, its first side, and what else it has.
fn rule(alloc: Global, text: &str) -> Option<Rule> {
    let (word, rest) = text.split_once(' ')?;
    let (first, rest) = rest.split_once(' ')?;
    let first = side(alloc, first)?;
    match word {
        "unique" => unique(alloc, first, rest),
        "partner" => partner(alloc, first, rest),
        "first" => end_node(alloc, first, Tip::First, rest),
        "second" => end_node(alloc, first, Tip::Second, rest),
        "crossing" => crossing(alloc, first, rest),
        "near" => near(alloc, first, rest),
        _ => None,
    }
}

/// Adds a rule, as often as the number before a star says.
fn add(rules: &mut Vec<Rule>, alloc: Global, text: &str) -> Option<()> {
    let (times, text) = text.split_once('*').unwrap_or(("1", text));
    for _ in 0..ordinal(times)? {
        rules.push(rule(alloc, text)?).ok()?;
    }
    Some(())
}

/// Returns the rules of a text, which semicolons part; none where one of them can't be read.
pub(crate) fn rules(alloc: Global, text: &str) -> Option<Vec<Rule>> {
    let mut list = Vec::new(alloc);
    for part in text.split(';') {
        add(&mut list, alloc, part.trim())?;
    }
    Some(list)
}
