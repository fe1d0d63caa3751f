//! All broken needs of a content, and the least of them.

ghost use Rattle.std.specs.Prelude.{◌≡◌, ◌<◌, length, map, slice_get, IfOk, MatchOption, OnOk};
ghost use Rattle.clr_rows.specs.Contents.{row_at};
ghost use Rattle.clr_rows.specs.Held.{held_of};
ghost use Rattle.clr_rules.specs.Books.{FitsContent, FitTogether};
ghost use Rattle.clr_rules.specs.Needs.{IsAudit, broken_needs, rows_in};
ghost use Rattle.clr_audit.specs.Searches.{AreInCellOrder, GainsBroken, IsLeastAmong, IsOfRule};

use crate::role_index::RoleIndex;
use crate::searching::Search;
use clr_rows::{Held, Sheet};
use clr_rules::{Broken, RuleBook};
use clr_spots::put_in_order;
use std::alloc::{AllocError, Global};

/// Returns all rows of a sheet, in the order of cells.
fn rows_of<'a>(alloc: Global, sheet: &'a Sheet) -> Result<Vec<Held<'a>>, AllocError>
    ensures { IfOk result (λ rows. map held_of rows.items ≡ rows_in sheet.now) }
{
    let mut rows = Vec::with_capacity(alloc, sheet.len())?;
    for (cell, row) in sheet.iter() {
        rows.push(Held { cell: *cell, row })?;
    }
    Ok(rows)
}

/// Adds the broken needs of a rule among rows in the order of their cells.
fn add_of_rule(
    alloc: Global,
    book: &RuleBook,
    rule: u16,
    rows: &[Held],
    list: &mut Vec<Broken>,
) -> Result<(), AllocError>
    requires number { rule < length book.now }
    requires fit { FitTogether book.now (map held_of rows.now) }
    ensures { OnOk result (GainsBroken book.now (map held_of rows.now) (IsOfRule rule) list.old.items list.new.items) }
{
    let index = RoleIndex::of_rows(alloc, book, rule, rows)?;
    let search = Search {
        book,
        rule,
        rows,
        index: &index,
    };
    search.add_all(alloc, list)
}

/// Returns the broken needs of a content, each once, ascending by rule, first cell, second cell,
/// first part and second part. Every rule holds where there is none. The book and the rows fit one
/// schema.
/// For example, where mains may cross only at nodes, and main 1 from (0, 0) to (10, 10) and main 2 from (0, 10) to
/// (10, 0) are all the rows, the list has one need, that of mains 1 and 2. A node at (5, 5) makes it empty.
pub fn audit(alloc: Global, book: &RuleBook, sheet: &Sheet) -> Result<Vec<Broken>, AllocError>
    requires { FitsContent book.now sheet.now }
    ensures list { IfOk result (λ list. list.items ≡ broken_needs book.now sheet.now) }
    ensures lists { IfOk result (λ list. IsAudit book.now (row_at sheet.now) list.items) }
{
    let rows = rows_of(alloc, sheet)?;
    let mut list = Vec::new(alloc);
    for rule in 0..book.len() {
        add_of_rule(alloc, book, rule as u16, rows.as_slice(), &mut list)?;
    }
    put_in_order(&mut list);
    Ok(list)
}

/// Adds the broken needs of a rule among rows in the order of their cells, until the least of the
/// list is known to be the least of all.
fn add_of_rule_until_least(
    alloc: Global,
    book: &RuleBook,
    rule: u16,
    rows: &[Held],
    list: &mut Vec<Broken>,
) -> Result<Option<Broken>, AllocError>
    requires number { rule < length book.now }
    requires fit { FitTogether book.now (map held_of rows.now) }
    requires in_order { AreInCellOrder (map held_of rows.now) }
    ensures { IfOk result (λ found. MatchOption found (GainsBroken book.now (map held_of rows.now) (IsOfRule rule) list.old.items list.new.items)
        (IsLeastAmong book.now (map held_of rows.now) rule list.old.items)) }
{
    let index = RoleIndex::of_rows(alloc, book, rule, rows)?;
    let search = Search {
        book,
        rule,
        rows,
        index: &index,
    };
    search.add_until_least(alloc, list)
}

/// Returns the least broken need of a content, or none where every rule holds: the first that
/// `audit` would list. No other need is kept for it than those of the row that has it. The book and
/// the rows fit one schema.
/// For example, where mains 1 and 2 break rule 0, and mains 1 and 3 break rule 1, it returns the need of mains 1 and 2.
pub fn first_broken(
    alloc: Global,
    book: &RuleBook,
    sheet: &Sheet,
) -> Result<Option<Broken>, AllocError>
    requires { FitsContent book.now sheet.now }
    ensures { IfOk result (λ need. need ≡ slice_get (broken_needs book.now sheet.now) 0) }
{
    let rows = rows_of(alloc, sheet)?;
    let mut list = Vec::new(alloc);
    for rule in 0..book.len() {
        if let Some(need) = add_of_rule_until_least(
            alloc,
            book,
            rule as u16,
            rows.as_slice(),
            &mut list,
        )? {
            return Ok(Some(need));
        }
    }
    put_in_order(&mut list);
    Ok(list.as_slice().first().copied())
}
