//! The broken needs of LIVE as lines.

ghost use Rattle.std.specs.Prelude.{◌≡◌, ◌++◌, map, IfOk, OnOk};
ghost use Rattle.std.specs.List.{flat_map};
ghost use Rattle.clr_desk_error_lists.specs.ErrorLines.{error_line, error_of_rule, error_text, errors_text, known_word, place_words, row_line, rule_errors};
ghost use Rattle.clr_desk_error_lists.specs.ErrorLines.{IsErrorsPrint};
ghost use Rattle.clr_office_reading.specs.Offices.{known_in};
ghost use Rattle.clr_office_texts.specs.Drafts.{draft_in};
ghost use Rattle.clr_desk_errors.specs.Accepting.{IsPrintoutOfDraft};
ghost use Rattle.clr_desk_prints.specs.Printing.{IsMadePrintout, printed};

use clr_desk_errors::open_known;
use clr_desk_prints::{Print, RunFault};
use clr_engine::{Broken, Office};
use clr_lines::{add_cell, add_need, count_line};
use clr_listed_errors::{ListedError, is_any_unknown, list_errors};
use clr_old_errors::add_rule_count;
use clr_phrases::{At, row_words};
use clr_rows::{CellId, Place, Schema, Sheet};
use clr_rules::Rule;
use std::alloc::{AllocError, Global};

/// Returns the word for whether an error is known.
fn known_word(is_known: bool) -> &'static [u8]
    ensures { result.now ≡ known_word is_known }
{
    if is_known { b"known " } else { b"unknown " }
}

/// Adds where an error is, if that is told.
fn add_place(alloc: Global, text: &mut Vec<u8>, place: Option<Place>) -> Result<(), AllocError>
    ensures { OnOk result (text.new.items ≡ text.old.items ++ place_words place) }
{
    let Some(place) = place else {
        return Ok(());
    };
    let place = At(place);
    let words = format!(in alloc; " at {place}")?;
    text.extend_from_slice(words.as_bytes())
}

/// Adds the line of an error: whether it is known, its need, where it is, and a few words.
fn add_error_line(
    alloc: Global,
    text: &mut Vec<u8>,
    schema: &Schema,
    error: &ListedError,
) -> Result<(), AllocError>
    ensures { OnOk result (text.new.items ≡ text.old.items ++ error_line schema.now error.now) }
{
    text.extend_from_slice(known_word(error.is_known))?;
    add_need(text, schema, &error.need)?;
    add_place(alloc, text, error.place)?;
    text.extend_from_slice(b": ")?;
    text.extend_from_slice(error.says.as_str().as_bytes())?;
    text.extend_from_slice(b"\n")
}

/// Adds the line of the row at a cell, and nothing where none stands there.
fn add_row_line(
    alloc: Global,
    text: &mut Vec<u8>,
    schema: &Schema,
    live: &Sheet,
    cell: CellId,
) -> Result<(), AllocError>
    ensures { OnOk result (text.new.items ≡ text.old.items ++ row_line schema.now live.now cell) }
{
    let Some(row) = live.get(cell) else {
        return Ok(());
    };
    let words = row_words(alloc, schema, cell, row)?;
    text.extend_from_slice(b"  ")?;
    add_cell(text, schema, cell)?;
    text.extend_from_slice(b": ")?;
    text.extend_from_slice(words.as_bytes())?;
    text.extend_from_slice(b"\n")
}

/// Adds an error: its line, and those of its rows.
fn add_error(
    alloc: Global,
    text: &mut Vec<u8>,
    office: &Office,
    error: &ListedError,
) -> Result<(), AllocError>
    ensures { OnOk result (text.new.items ≡ text.old.items ++ error_text office.now error.now) }
{
    let schema = office.schema();
    add_error_line(alloc, text, schema, error)?;
    add_row_line(alloc, text, schema, office.live(), error.need.first)?;
    match error.need.second {
        Some(cell) => add_row_line(alloc, text, schema, office.live(), cell),
        None => Ok(()),
    }
}

/// Adds an error if it is of a rule, and nothing otherwise.
fn add_error_of_rule(
    alloc: Global,
    text: &mut Vec<u8>,
    office: &Office,
    number: u16,
    error: &ListedError,
) -> Result<(), AllocError>
    ensures { OnOk result (text.new.items ≡ text.old.items ++ error_of_rule office.now number error.now) }
{
    if error.need.rule == number {
        return add_error(alloc, text, office, error);
    }
    Ok(())
}

/// Adds those of some errors that are of a rule.
fn add_errors_of_rule(
    alloc: Global,
    text: &mut Vec<u8>,
    office: &Office,
    number: u16,
    errors: &[ListedError],
) -> Result<(), AllocError>
    ensures { OnOk result (text.new.items ≡ text.old.items ++ flat_map (error_of_rule office.now number) errors.now) }
{
    for error in errors {
        add_error_of_rule(alloc, text, office, number, error)?;
    }
    Ok(())
}

/// Adds a rule that has errors: how many, its sentence, and each of them.
fn add_rule(
    alloc: Global,
    text: &mut Vec<u8>,
    office: &Office,
    needs: &[Broken],
    errors: &[ListedError],
    number: u16,
    rule: &Rule,
) -> Result<(), AllocError>
    requires { map (λ e. e.need) errors.now ≡ needs.now }
    ensures { OnOk result (text.new.items ≡ text.old.items ++ rule_errors office.now errors.now (number, rule.now)) }
{
    add_rule_count(alloc, text, office.schema(), needs, number, rule)?;
    add_errors_of_rule(alloc, text, office, number, errors)
}

/// Returns the needs of errors.
fn needs_of(alloc: Global, errors: &[ListedError]) -> Result<Vec<Broken>, AllocError>
    ensures { IfOk result (λ needs. map (λ e. e.need) errors.now ≡ needs.items) }
{
    let mut needs = Vec::with_capacity(alloc, errors.len())?;
    for error in errors {
        needs.push(error.need)?;
    }
    Ok(needs)
}

/// Returns the lines of errors, rule by rule.
#[tactic(auto, unfolding(crate::specs::ErrorLines::errors_text))]
fn errors_text(
    alloc: Global,
    office: &Office,
    errors: &[ListedError],
) -> Result<Vec<u8>, AllocError>
    ensures { IfOk result (λ text. text.items ≡ errors_text office.now errors.now) }
{
    let mut text = count_line(alloc, "errors", errors.len())?;
    let needs = needs_of(alloc, errors)?;
    let _small = office.book().len();
    let rules = office.book().rules();
    for at in 0..rules.len() {
        add_rule(
            alloc,
            &mut text,
            office,
            needs.as_slice(),
            errors,
            at as u16,
            &rules[at],
        )?;
    }
    Ok(text)
}

/// Returns what is printed of the errors of LIVE, beside needs that are known.
fn errors_print(alloc: Global, office: &Office, known: &[Broken]) -> Result<Print, AllocError>
    ensures { IfOk result (λ p. IsErrorsPrint known.now office.now (printed p)) }
{
    let errors = list_errors(alloc, office, known)?;
    let text = errors_text(alloc, office, errors.as_slice())?;
    let is_refused = is_any_unknown(errors.as_slice());
    Ok(Print::new(text, Vec::new(alloc), is_refused, false))
}

/// Returns the broken needs of LIVE, rule by rule, each with its rows, its place, and whether it is known. It counts as a refusal where one
/// isn't known. Fails with `BadOffice` where the text is no office, and with `OutOfMemory` for want of memory, which may come in place of any
/// other answer.
pub fn answer_errors(alloc: Global, office: &[u8]) -> Result<Print, RunFault>
    ensures { IsMadePrintout (IsPrintoutOfDraft (IsErrorsPrint (known_in office.now)) (draft_in office.now)) result }
{
    let opened = open_known(alloc, office)?;
    Ok(errors_print(alloc, &opened.office, opened.known.as_slice())?)
}
