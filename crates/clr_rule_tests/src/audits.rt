//! Contents under rules, row by row, and the broken needs that an audit is to list.
ghost use Rattle.clr_rows.specs.Schemas.{FitsSchema};
ghost use Rattle.clr_rules.specs.Books.{FitsBook};

use crate::cases::audits::{CONTENTS, CROSSINGS, PARTNERS, PATHS};
use crate::networks::NETWORK;
use crate::rule_texts::rules;
use crate::texts::{RowAt, row_at};
use clr_audit::{audit, is_seen_to_hold};
use clr_grid::finder_of;
use clr_row_test_kit::schema;
use clr_rows::{CellId, Schema, Sheet};
use clr_rules::{Broken, RuleBook};
use std::alloc::Global;
use std::process::Abort;
use std::test::Fail;

/// Rules over a content of the network.
#[derive(Drop)]
struct Content {
    schema: Schema,
    book: RuleBook,
    sheet: Sheet,
    ghost book_fits: { FitsBook schema book },
    ghost rows_fit: { FitsSchema schema sheet },
}

impl Content {
    /// Returns a content without rows.
    fn of(alloc: Global, text: &str) -> Option<Content> {
        let schema = schema(alloc, NETWORK)?;
        let book = RuleBook::new(&schema, rules(alloc, text)?).ok()?;
        Some(Content {
            schema,
            book,
            sheet: Sheet::new(alloc),
        })
    }

    /// Puts a row in.
    fn put(&mut self, row: RowAt) -> Result<(), Fail> {
        self.schema.fits(row.cell, &row.row)?;
        self.sheet.put(row.cell, row.row)?;
        Ok(())
    }

    fn audit(&self, alloc: Global) -> Option<Vec<Broken>> {
        audit(alloc, &self.book, &self.sheet).ok()
    }

    /// Returns whether a quick audit over a finder of the rows sees that every rule holds.
    fn is_seen_to_hold(&self, alloc: Global) -> Option<bool> {
        let finder = finder_of(alloc, &self.book, &self.sheet).ok()?;
        is_seen_to_hold(&self.book, &self.sheet, &finder).ok()
    }
}

fn cell_text(alloc: Global, cell: CellId) -> Option<String> {
    format!(in alloc; "{}.{}", cell.table, cell.key).ok()
}

/// Returns a rule's number, the cells of the subjects, and their parts.
fn need_text(alloc: Global, need: &Broken) -> Option<String> {
    let first = cell_text(alloc, need.first)?;
    let second = match need.second {
        Some(cell) => cell_text(alloc, cell)?,
        None => String::from_str(alloc, "alone").ok()?,
    };
    let (first, second) = (first.as_str(), second.as_str());
    let (rule, m, n) = (need.rule, need.first_part, need.second_part);
    format!(in alloc; "{rule} {first} {second} {m},{n}").ok()
}

/// Returns the needs in their order.
fn needs_text(alloc: Global, needs: &[Broken]) -> Option<String> {
    let mut text = String::new(alloc);
    for need in needs {
        if text.len() > 0 {
            text.push_str("; ").ok()?;
        }
        text.push_str(need_text(alloc, need)?.as_str()).ok()?;
    }
    Some(text)
}

/// Returns whether the audit lists just these needs, or none, and whether the quick audit sees that all holds exactly where it is to.
fn has_broken(alloc: Global, content: &Content, wanted: &str, is_seen: bool) -> Option<bool> {
    if content.is_seen_to_hold(alloc)? != is_seen {
        return Some(false);
    }
    let needs = content.audit(alloc)?;
    if needs.len() == 0 {
        return Some(wanted == "none");
    }
    let text = needs_text(alloc, needs.as_slice())?;
    Some(text.as_str() == wanted)
}

/// Puts the row of a line in, or sees whether the audit is as the line says. After `unseen`, nothing is broken, and the quick audit doesn't see it.
fn is_right(alloc: Global, content: &mut Content, line: &str) -> Result<bool, Fail> {
    if line == "unseen" {
        return Ok(has_broken(alloc, content, "none", false) == Some(true));
    }
    match line.strip_prefix("broken ") {
        Some(wanted) => Ok(has_broken(alloc, content, wanted, wanted == "none") == Some(true)),
        None => {
            content.put(row_at(alloc, line).ok_or("no row")?)?;
            Ok(true)
        }
    }
}

/// Returns the first line of a case that isn't right. The first of all has its rules.
fn first_wrong(alloc: Global, case: &'static str) -> Result<Option<&'static str>, Fail> {
    let (rules, lines) = case.split_once('\n').unwrap_or((case, ""));
    let mut content = Content::of(alloc, rules).ok_or("no rules")?;
    for line in lines.lines() {
        if !is_right(alloc, &mut content, line)? {
            return Ok(Some(line));
        }
    }
    Ok(None)
}

/// Tests that each line of cases, which empty lines part, is right.
fn check(rt: &impl Abort, alloc: Global, cases: &'static str) -> Result<(), Fail> {
    for case in cases.split("\n\n") {
        assert_eq!(rt; first_wrong(alloc, case)?, None);
    }
    Ok(())
}

#[test]
fn broken_needs_of_contents(rt: HostRuntime) -> Result<(), Fail> {
    check(&rt, rt.alloc(), CONTENTS)
}

#[test]
fn broken_needs_of_crossings(rt: HostRuntime) -> Result<(), Fail> {
    check(&rt, rt.alloc(), CROSSINGS)
}

#[test]
fn broken_needs_of_partners(rt: HostRuntime) -> Result<(), Fail> {
    check(&rt, rt.alloc(), PARTNERS)
}

#[test]
fn broken_needs_of_paths(rt: HostRuntime) -> Result<(), Fail> {
    check(&rt, rt.alloc(), PATHS)
}
