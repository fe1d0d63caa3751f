//! Tables.

ghost use Rattle.std.specs.Prelude.{◌≡◌, ◌++◌, codes, OnOk};
ghost use Rattle.std.specs.List.{flat_map};
ghost use Rattle.clr_html.specs.Tables.{fold_text, framed_text, framed_texts, heads_text, html_rows_text, row_text, summary_text, table_text};

use crate::marks::{END_OF_HEADS, END_OF_TABLE, HEADS};
use crate::texts::{InlineText, add_between, add_text};
use std::alloc::AllocError;

/// The cells of a row, in the order of the table's columns.
#[derive(Drop)]
pub struct TableRow {
    pub cells: Vec<InlineText>,
}

/// A table: the heads of its columns, and its rows.
#[derive(Drop)]
pub struct Table {
    pub heads: Vec<InlineText>,
    pub rows: Vec<TableRow>,
}

/// A table that is folded: what is seen of it until it is unfolded is a name and a few words.
#[derive(Drop)]
pub struct Fold {
    pub name: InlineText,
    pub words: Vec<u8>,
    pub table: Table,
}

/// Adds a text between two marks.
#[tactic(auto, unfolding(crate::specs::Tables::framed_text))]
pub(crate) fn add_framed(
    page: &mut Vec<u8>,
    begin: &str,
    text: &InlineText,
    end: &str,
) -> Result<(), AllocError>
    ensures { OnOk result (page.new.items ≡ page.old.items ++ framed_text begin.now end.now text.now) }
{
    page.extend_from_slice(begin.as_bytes())?;
    add_text(page, text)?;
    page.extend_from_slice(end.as_bytes())
}

/// Adds texts, each between two marks.
#[tactic(auto, unfolding(crate::specs::Tables::framed_texts))]
pub(crate) fn add_each_framed(
    page: &mut Vec<u8>,
    begin: &str,
    texts: &[InlineText],
    end: &str,
) -> Result<(), AllocError>
    ensures { OnOk result (page.new.items ≡ page.old.items ++ framed_texts begin.now end.now texts.now) }
{
    for text in texts {
        add_framed(page, begin, text, end)?;
    }
    Ok(())
}

fn add_row(page: &mut Vec<u8>, row: &TableRow) -> Result<(), AllocError>
    ensures { OnOk result (page.new.items ≡ page.old.items ++ row_text row.now) }
{
    page.extend_from_slice(b"<tr>")?;
    add_each_framed(page, "<td>", row.cells.as_slice(), "</td>")?;
    page.extend_from_slice(b"</tr>\n")
}

#[tactic(auto, unfolding(crate::specs::Tables::html_rows_text))]
fn add_rows(page: &mut Vec<u8>, rows: &[TableRow]) -> Result<(), AllocError>
    ensures { OnOk result (page.new.items ≡ page.old.items ++ html_rows_text rows.now) }
{
    for row in rows {
        add_row(page, row)?;
    }
    Ok(())
}

fn add_heads(page: &mut Vec<u8>, heads: &[InlineText]) -> Result<(), AllocError>
    ensures { OnOk result (page.new.items ≡ page.old.items ++ heads_text heads.now) }
{
    page.extend_from_slice(HEADS.as_bytes())?;
    add_each_framed(page, "<th>", heads, "</th>")?;
    page.extend_from_slice(END_OF_HEADS.as_bytes())
}

/// Adds a table.
#[tactic(auto, unfolding(crate::specs::Tables::table_text))]
pub(crate) fn add_table(page: &mut Vec<u8>, table: &Table) -> Result<(), AllocError>
    ensures { OnOk result (page.new.items ≡ page.old.items ++ table_text table.now) }
{
    add_heads(page, table.heads.as_slice())?;
    add_rows(page, table.rows.as_slice())?;
    page.extend_from_slice(END_OF_TABLE.as_bytes())
}

fn add_summary(page: &mut Vec<u8>, fold: &Fold) -> Result<(), AllocError>
    ensures { OnOk result (page.new.items ≡ page.old.items ++ summary_text fold.now) }
{
    page.extend_from_slice(b"<summary>")?;
    add_text(page, &fold.name)?;
    add_between(
        page,
        " <small>",
        fold.words.as_slice(),
        "</small></summary>\n",
    )
}

/// Adds a table that is folded.
#[tactic(auto, unfolding(crate::specs::Tables::fold_text))]
pub(crate) fn add_fold(page: &mut Vec<u8>, fold: &Fold) -> Result<(), AllocError>
    ensures { OnOk result (page.new.items ≡ page.old.items ++ fold_text fold.now) }
{
    page.extend_from_slice(b"<details>\n")?;
    add_summary(page, fold)?;
    add_table(page, &fold.table)?;
    page.extend_from_slice(b"</details>\n")
}
