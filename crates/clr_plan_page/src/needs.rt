//! What serves each need that cleared members touch.

ghost use Rattle.std.specs.Prelude.{◌≡◌, ◌++◌, map, take, IfOk, OnOk};
ghost use Rattle.clr_html.specs.Words.{words_of_row};
ghost use Rattle.clr_merge_sets.specs.MemberChanges.{set_of};
ghost use Rattle.clr_plan_page.specs.Needs.{entry_row, more_needs, need_heads, need_row, need_rows, needs_shown, some_needs};
ghost use Rattle.clr_page_parts.specs.Shown.{heads_of, rows_of, shown};

use clr_cert::Entry;
use clr_html::{Table, TableRow};
use clr_page_parts::{Builder, row_of, table_of};
use clr_plan_sentences::{NeedWords, Setting};
use std::alloc::{AllocError, Global};

/// How many needs are told one by one.
const MOST_NEEDS: usize = 400;

/// Returns a need in words, as a row of a table.
fn need_row(alloc: Global, need: &NeedWords) -> Result<TableRow, AllocError>
    ensures { IfOk result (λ row. words_of_row row ≡ need_row need.now) }
{
    let cells = [
        need.rule.as_str(),
        need.rows.as_str(),
        need.servers.as_str(),
    ];
    row_of(alloc, &cells)
}

/// Returns the row of an entry of a certificate.
fn entry_row(setting: Setting<'_>, entry: &Entry) -> Result<TableRow, AllocError>
    ensures { IfOk result (λ row. words_of_row row ≡ entry_row setting.entry.office.now
        (set_of setting.entry.members.now).members setting.entry.members.now.changes.items entry.now) }
{
    let need = setting.need_words(entry)?;
    need_row(setting.alloc, &need)
}

/// Adds the rows of entries of a certificate.
fn add_entries(
    setting: Setting<'_>,
    rows: &mut Vec<TableRow>,
    entries: &[Entry],
) -> Result<(), AllocError>
    ensures { OnOk result (map words_of_row rows.new.items ≡ map words_of_row rows.old.items ++ map (entry_row setting.entry.office.now
        (set_of setting.entry.members.now).members setting.entry.members.now.changes.items) entries.now) }
{
    for entry in entries {
        rows.push(entry_row(setting, entry)?)?;
    }
    Ok(())
}

/// Returns the entries that are told one by one.
fn first_entries(entries: &[Entry]) -> &[Entry]
    ensures { result.now ≡ take 400 entries.now }
{
    if entries.len() <= MOST_NEEDS {
        entries
    } else {
        &entries[..MOST_NEEDS]
    }
}

/// Returns the table of the first needs.
fn needs_table(setting: Setting<'_>, entries: &[Entry]) -> Result<Table, AllocError>
    ensures heads { IfOk result (λ table. heads_of table ≡ need_heads) }
    ensures rows { IfOk result (λ table. rows_of table ≡ need_rows setting.entry.office.now
        (set_of setting.entry.members.now).members setting.entry.members.now.changes.items entries.now) }
{
    let mut table = table_of(setting.alloc, &["Rule", "Asked by", "Served by"])?;
    let told = first_entries(entries);
    add_entries(setting, &mut table.rows, told)?;
    Ok(table)
}

/// Adds the sentence that says how many needs are left out, if some are.
fn add_rest(section: &mut Builder, count: usize) -> Result<(), AllocError>
    ensures { OnOk result (map shown section.new.blocks.items ≡ map shown section.old.blocks.items ++ more_needs count) }
{
    if count <= MOST_NEEDS {
        return Ok(());
    }
    let rest = count - MOST_NEEDS;
    let words = format!(in section.alloc;
        "And {rest} more, which the certificate at the end names."
    )?;
    section.add_paragraph(words.as_str())
}

/// Adds the first needs of a certificate, and how many are left out.
fn add_some_needs(
    section: &mut Builder,
    setting: Setting<'_>,
    entries: &[Entry],
) -> Result<(), AllocError>
    ensures { OnOk result (map shown section.new.blocks.items ≡ map shown section.old.blocks.items ++ some_needs setting.entry.office.now
        (set_of setting.entry.members.now).members setting.entry.members.now.changes.items entries.now) }
{
    section.add_paragraph("Each need that the designs touch is served, whatever is merged first.")?;
    let table = needs_table(setting, entries)?;
    section.add_table(table)?;
    add_rest(section, entries.len())
}

/// Adds the needs of a certificate, each with what serves it and until when.
pub(crate) fn add_needs(
    section: &mut Builder,
    setting: Setting<'_>,
    entries: &[Entry],
) -> Result<(), AllocError>
    ensures { OnOk result (map shown section.new.blocks.items ≡ map shown section.old.blocks.items ++ needs_shown setting.entry.office.now
        (set_of setting.entry.members.now).members setting.entry.members.now.changes.items entries.now) }
{
    if entries.is_empty() {
        return section.add_paragraph("No rule is touched.");
    }
    add_some_needs(section, setting, entries)
}
