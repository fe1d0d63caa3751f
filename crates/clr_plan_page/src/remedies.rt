//! What would help.

ghost use Rattle.std.specs.Prelude.{◌≡◌, ◌++◌, map, string_bytes, IfOk, OnOk};
ghost use Rattle.std.specs.List.{flat_map};
ghost use Rattle.clr_html.specs.Words.{words_of_row};
ghost use Rattle.clr_plan_page.specs.Causes.{answer_words, rows_of_trials, trial_heads, trial_rows, trial_words, trials_shown};
ghost use Rattle.clr_page_parts.specs.Shown.{heads_of, rows_of, shown};

use clr_html::{Table, TableRow};
use clr_page_parts::{Builder, row_of, table_of};
use clr_work_orders::{Answer, Trial};
use std::alloc::{AllocError, Global};

/// Returns what the planner says of a trial, and behind a no why.
fn answer_words(alloc: Global, answer: &Answer) -> Result<String, AllocError>
    ensures { IfOk result (λ text. string_bytes text ≡ answer_words answer.now) }
{
    if answer.is_cleared {
        return String::from_str(alloc, "cleared");
    }
    let mut text = String::from_str(alloc, "not cleared: ")?;
    text.push_str(answer.why.as_str())?;
    Ok(text)
}

/// Returns the row of a trial.
fn trial_row(alloc: Global, trial: &Trial) -> Result<TableRow, AllocError>
    ensures { IfOk result (λ row. words_of_row row ≡ trial_words trial.now) }
{
    let answer = answer_words(alloc, &trial.answer)?;
    row_of(alloc, &[trial.words.as_str(), answer.as_str()])
}

/// Adds the row of a trial, where it has this answer.
fn add_trial(
    alloc: Global,
    rows: &mut Vec<TableRow>,
    trial: &Trial,
    is_cleared: bool,
) -> Result<(), AllocError>
    ensures { OnOk result (map words_of_row rows.new.items ≡ map words_of_row rows.old.items ++ trial_rows is_cleared trial.now) }
{
    if trial.answer.is_cleared == is_cleared {
        rows.push(trial_row(alloc, trial)?)?;
    }
    Ok(())
}

/// Adds the rows of the trials that have this answer.
fn add_trials(
    alloc: Global,
    rows: &mut Vec<TableRow>,
    trials: &[Trial],
    is_cleared: bool,
) -> Result<(), AllocError>
    ensures { OnOk result (map words_of_row rows.new.items ≡ map words_of_row rows.old.items ++ flat_map (trial_rows is_cleared) trials.now) }
{
    for trial in trials {
        add_trial(alloc, rows, trial, is_cleared)?;
    }
    Ok(())
}

/// Returns the table of trials, the cleared ones first.
fn trials_table(alloc: Global, trials: &[Trial]) -> Result<Table, AllocError>
    ensures heads { IfOk result (λ table. heads_of table ≡ trial_heads) }
    ensures rows { IfOk result (λ table. rows_of table ≡ rows_of_trials trials.now) }
{
    let mut table = table_of(alloc, &["Tried", "Then they are"])?;
    add_trials(alloc, &mut table.rows, trials, true)?;
    add_trials(alloc, &mut table.rows, trials, false)?;
    Ok(table)
}

/// Adds among whom trials were made, what was tried and what the planner says of it, the cleared ones first; nothing where nothing was tried.
pub(crate) fn add_remedies(
    section: &mut Builder,
    among: &str,
    trials: &[Trial],
) -> Result<(), AllocError>
    ensures { OnOk result (map shown section.new.blocks.items ≡ map shown section.old.blocks.items ++ trials_shown among.now trials.now) }
{
    if trials.is_empty() {
        return Ok(());
    }
    section.add_heading("What would help")?;
    section.add_paragraph(among)?;
    let table = trials_table(section.alloc, trials)?;
    section.add_table(table)
}
