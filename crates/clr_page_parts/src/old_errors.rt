//! The needs that a root breaks already, counted by rule.

ghost use Rattle.std.specs.Prelude.{◌≡◌, ◌++◌, map, IfOk, OnOk};
ghost use Rattle.std.specs.List.{enumerate_from, flat_map};
ghost use Rattle.clr_html.specs.Words.{words_of_row};
ghost use Rattle.clr_page_parts.specs.OldErrors.{error_heads, error_rows, errors_section, old_errors_shown, rows_of_errors};
ghost use Rattle.clr_page_parts.specs.Shown.{heads_of, rows_of, section_shown};

use crate::sections::{Builder, row_of, table_of};
use clr_html::{Section, Table, TableRow};
use clr_old_errors::count_of_rule;
use clr_phrases::rule_sentence;
use clr_plan_sentences::Setting;
use clr_rows::Schema;
use clr_rules::{Broken, Rule, RuleBook};
use std::alloc::{AllocError, Global};

/// Adds the row of a rule that some needs are of: its number, how many they are, and its sentence; and nothing of another rule.
fn add_rule(
    alloc: Global,
    rows: &mut Vec<TableRow>,
    schema: &Schema,
    needs: &[Broken],
    number: u16,
    rule: &Rule,
) -> Result<(), AllocError>
    ensures { OnOk result (map words_of_row rows.new.items ≡ map words_of_row rows.old.items ++ error_rows schema.now needs.now (number, rule.now)) }
{
    let count = count_of_rule(needs, number);
    if count == 0 {
        return Ok(());
    }
    let digits = format!(in alloc; "{number}")?;
    let count = format!(in alloc; "{count}")?;
    let sentence = rule_sentence(alloc, schema, rule)?;
    let cells = [digits.as_str(), count.as_str(), sentence.as_str()];
    rows.push(row_of(alloc, &cells)?)?;
    Ok(())
}

/// Adds the rows of the rules that some needs are of.
fn add_rules(
    alloc: Global,
    rows: &mut Vec<TableRow>,
    schema: &Schema,
    book: &RuleBook,
    needs: &[Broken],
) -> Result<(), AllocError>
    ensures { OnOk result (map words_of_row rows.new.items ≡ map words_of_row rows.old.items ++ rows_of_errors schema.now book.now needs.now) }
{
    let _small = book.len();
    let rules = book.rules();
    for at in 0..rules.len() {
        add_rule(alloc, rows, schema, needs, at as u16, &rules[at])?;
    }
    Ok(())
}

/// Returns the table of the rules that some needs are of.
fn errors_table(
    alloc: Global,
    schema: &Schema,
    book: &RuleBook,
    needs: &[Broken],
) -> Result<Table, AllocError>
    ensures heads { IfOk result (λ table. heads_of table ≡ error_heads) }
    ensures rows { IfOk result (λ table. rows_of table ≡ rows_of_errors schema.now book.now needs.now) }
{
    let mut table = table_of(alloc, &["Rule", "Errors", "What it asks for"])?;
    add_rules(alloc, &mut table.rows, schema, book, needs)?;
    Ok(table)
}

/// Returns the section of some needs, counted by rule.
fn errors_section(setting: Setting<'_>, needs: &[Broken]) -> Result<Section, AllocError>
    ensures { IfOk result (λ section. section_shown section
        ≡ errors_section setting.entry.office.now.schema setting.entry.office.now.book needs.now) }
{
    let mut section = Builder::new(setting.alloc);
    section.add_heading("Old errors")?;
    let (schema, book) = (setting.office.schema(), setting.office.book());
    let table = errors_table(setting.alloc, schema, book, needs)?;
    section.add_table(table)?;
    Ok(section.into_section())
}

/// Returns the section of the needs that the root breaks, counted by rule, and none where it breaks none.
pub fn old_errors_of(setting: Setting<'_>) -> Result<Vec<Section>, AllocError>
    ensures { IfOk result (λ sections. map section_shown sections.items
        ≡ old_errors_shown setting.entry.office.now setting.entry.members.now.root.now) }
{
    let needs = setting.old_errors()?;
    let mut sections = Vec::new(setting.alloc);
    if needs.is_empty() {
        return Ok(sections);
    }
    let section = errors_section(setting, needs.as_slice())?;
    sections.push(section)?;
    Ok(sections)
}
