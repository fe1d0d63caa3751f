//! Why members are blocked.

ghost use Rattle.std.specs.Prelude.{◌≡◌, ◌++◌, map, IfOk, OnOk};
ghost use Rattle.clr_html.specs.Words.{words_of_row};
ghost use Rattle.clr_page_parts.specs.Causes.{cause_heads, cause_row, cause_shown};
ghost use Rattle.clr_page_parts.specs.Shown.{heads_of, rows_of, shown};

use crate::sections::{Builder, row_of, table_of};
use clr_html::{Table, TableRow};
use clr_plan_sentences::{CauseWords, RowWords};
use std::alloc::{AllocError, Global};

/// Returns a row that a cause names, as a row of a table.
fn cause_row(alloc: Global, row: &RowWords) -> Result<TableRow, AllocError>
    ensures { IfOk result (λ told. words_of_row told ≡ cause_row row.now) }
{
    let cells = [
        row.label.as_str(),
        row.standing.as_str(),
        row.words.as_str(),
    ];
    row_of(alloc, &cells)
}

/// Adds rows that a cause names.
fn add_rows(alloc: Global, rows: &mut Vec<TableRow>, named: &[RowWords]) -> Result<(), AllocError>
    ensures { OnOk result (map words_of_row rows.new.items ≡ map words_of_row rows.old.items ++ map cause_row named.now) }
{
    for row in named {
        rows.push(cause_row(alloc, row)?)?;
    }
    Ok(())
}

/// Returns the table of the rows that a cause names.
fn rows_table(alloc: Global, named: &[RowWords]) -> Result<Table, AllocError>
    ensures heads { IfOk result (λ table. heads_of table ≡ cause_heads) }
    ensures rows { IfOk result (λ table. rows_of table ≡ map cause_row named.now) }
{
    let mut table = table_of(alloc, &["Row", "Stands", "Values and place, in metres"])?;
    add_rows(alloc, &mut table.rows, named)?;
    Ok(table)
}

/// Adds why members are blocked: the reason, the rows that the cause names, and where they meet.
pub fn add_cause(section: &mut Builder, cause: &CauseWords) -> Result<(), AllocError>
    ensures { OnOk result (map shown section.new.blocks.items ≡ map shown section.old.blocks.items ++ cause_shown cause.now) }
{
    section.add_paragraph(cause.reason.as_str())?;
    let table = rows_table(section.alloc, cause.rows.as_slice())?;
    section.add_table(table)?;
    section.add_paragraph(cause.place.as_str())
}
