//! The edits between two office texts.

ghost use Rattle.std.specs.Prelude.{◌≡◌, Ok, Some, IfOk};
ghost use Rattle.std.specs.Option.{option_copied};
ghost use Rattle.clr_office_texts.specs.Drafts.{opened_in};
ghost use Rattle.clr_desk_prints.specs.Printing.{IsMadePrintout, IsPrintoutIn, printed};
ghost use Rattle.clr_desk_edits.specs.declared.forms.EditsForm.TheVariants.{Records, Sql};
ghost use Rattle.clr_desk_edits.specs.Edits.{IsEditsAnswer, IsEditsPrint, IsSqlEditsAnswer, edits_text, target_of, why_not};

use crate::forms::{EditsForm, database};
use crate::refusals::unsayable;
use clr_designs::edit_counts_line;
use clr_desk_layers::{first_other, other_schema};
use clr_desk_prints::{Print, RunFault, Words, notes_of, print_of_no_system, system_of};
use clr_engine::{Draft, Office};
use clr_guarded_edits::{Unsayable, why_unsayable, write_records, write_sql};
use clr_layer_changes::edits_between;
use clr_office_reports::{draft_of, open_office};
use clr_rows::{Place, Schema, Sheet};
use clr_sql::Dialect;
use std::alloc::{AllocError, Global};

/// Returns why the edits between two contents can't be said in a form, or none.
fn why_not(form: &EditsForm, schema: &Schema, old: &Sheet, new: &Sheet) -> Option<Unsayable>
    ensures { result ≡ why_not form.now schema.now old.now new.now }
{
    match form {
        EditsForm::Records => None,
        EditsForm::Sql(_) => why_unsayable(schema, old, new),
    }
}

/// Returns the text of the edits between two contents.
fn text_of(
    alloc: Global,
    form: &EditsForm,
    schema: &Schema,
    old: &Sheet,
    new: &Sheet,
) -> Result<Vec<u8>, AllocError>
    ensures { IfOk result (λ text. text.items ≡ edits_text form.now schema.now old.now new.now) }
{
    match form {
        EditsForm::Records => write_records(alloc, schema, old, new),
        EditsForm::Sql(target) => write_sql(alloc, target, schema, old, new),
    }
}

/// Returns what is printed of the edits between two offices of one schema.
fn print_of_edits(
    alloc: Global,
    form: &EditsForm,
    old: &Draft,
    new: &Office,
) -> Result<Print, AllocError>
    requires { old.now.schema ≡ new.now.schema }
    ensures { IfOk result (λ p. IsEditsPrint form.now old.now new.now (printed p)) }
{
    let (schema, before, after) = (new.schema(), old.live(), new.live());
    if let Some(why) = why_not(form, schema, before, after) {
        return unsayable(alloc, schema, why);
    }
    let edits = edits_between(alloc, before, after)?;
    let counts = edit_counts_line(alloc, edits.as_slice())?;
    let text = text_of(alloc, form, schema, before, after)?;
    Ok(Print::new(text, counts, false, false))
}

/// Returns what is printed of two offices: the edits, or which table isn't the same.
fn edits_print(
    alloc: Global,
    form: &EditsForm,
    old: &Draft,
    new: &Office,
) -> Result<Print, AllocError>
    ensures { IfOk result (λ p. IsEditsPrint form.now old.now new.now (printed p)) }
{
    match first_other(new.schema().tables(), old.schema().tables()) {
        Some(table) => other_schema(alloc, table),
        None => print_of_edits(alloc, form, old, new),
    }
}

/// Returns what is printed of an office and the text of another.
fn answer_over(alloc: Global, form: &EditsForm, old: &Draft, new: &[u8]) -> Result<Print, RunFault>
    ensures { IsMadePrintout (IsPrintoutIn (IsEditsPrint form.now old.now) (opened_in new.now)) result }
{
    match open_office(alloc, new) {
        Ok(office) => Ok(edits_print(alloc, form, old, &office)?),
        Err(answer) => notes_of(alloc, answer),
    }
}

/// Returns what is printed of two office texts.
fn answer_in(alloc: Global, form: &EditsForm, old: &[u8], new: &[u8]) -> Result<Print, RunFault>
    ensures { IsMadePrintout (IsEditsAnswer form.now old.now new.now) result }
{
    let read = draft_of(alloc, old)?;
    answer_over(alloc, form, &read.draft, new)
}

/// Returns the edits that take LIVE of one office text to LIVE of another, as CSV: each edit as a script has it behind `apply`, and before it, where there was
/// a row, `was,TABLE,KEY,value..,coordinate..`. How many rows they add, change and remove is a note. Where the offices don't have the same tables there is no
/// text, and the first table that isn't the same is the only note, with status 1. In the first office rules may be broken; where a need is broken in the second
/// that it doesn't name as known, the line that says so is the only note, and there is no text. Fails with `BadOffice` where one of the texts is no office, and
/// with `OutOfMemory` for want of memory, which may come in place of any other answer.
pub fn answer_edits(alloc: Global, old: &[u8], new: &[u8]) -> Result<Print, RunFault>
    ensures { IsMadePrintout (IsEditsAnswer Records old.now new.now) result }
{
    answer_in(alloc, &EditsForm::Records, old, new)
}

/// Returns that edits are written for a database whose coordinates are of this system, if one is given.
fn sql_for(dialect: Dialect, origin: Place, code: Option<u32>) -> EditsForm
    ensures { result ≡ Sql (target_of dialect origin code) }
{
    EditsForm::Sql(database(dialect, origin, code))
}

/// Returns the same edits as a transaction in SQL of a dialect, for a database in whose system of coordinates the place (0, 0) of the office is at the origin,
/// in millimetres. Where a text is given that names no system of coordinates there is no text, and one note, with status 2. Where a column of a table with
/// shapes is called `WKT`, or a row of one of the offices has a text with a byte 0 or a carriage return, there is no text, and which table or row that is is
/// the only note, with status 1. All else is as for `answer_edits`.
pub fn answer_sql_edits(
    alloc: Global,
    dialect: Dialect,
    origin: Place,
    system: Option<&Words>,
    old: &[u8],
    new: &[u8],
) -> Result<Print, RunFault>
    ensures { IsMadePrintout (IsSqlEditsAnswer dialect origin (option_copied system.entry) old.now new.now) result }
{
    let Some(text) = system else {
        return answer_in(alloc, &sql_for(dialect, origin, None), old, new);
    };
    match system_of(text.as_str()) {
        Some(code) => answer_in(alloc, &sql_for(dialect, origin, Some(code)), old, new),
        None => Ok(print_of_no_system(alloc, text.as_str())?),
    }
}
