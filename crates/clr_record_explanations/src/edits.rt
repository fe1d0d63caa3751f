//! Records of a script that are edits.
ghost use Rattle.std.specs.Prelude.{◌≡◌, slice_get, string_bytes, IfOk};
ghost use Rattle.std.specs.Option.{option_copied};
ghost use Rattle.csv.specs.Records.{fields_of};
ghost use Rattle.clr_record_explanations.specs.EditSlips.{count_sentence_of, delete_count, edit_slip, find_number_place, is_number_column};
ghost use Rattle.clr_record_explanations.specs.EditSlips.{is_number_field, lacks_number, listed_columns, number_place, row_count, wrong_edit_count};
ghost use Rattle.clr_record_explanations.specs.EditSlips.{wrong_edit_word};
ghost use Rattle.clr_record_explanations.specs.RecordSlips.{said};

use crate::numbers::no_number;
use crate::record_slips::RecordSlip;
use crate::tables::no_table;
use clr_hints::{column_names, join_names, name_hint, table_of};
use clr_records::{field, read_number};
use clr_rows::{Kind, Schema, TableDef};
use clr_scripts::RecordFault;
use csv::StringRecord;
use std::alloc::{AllocError, Global};

const WORDS: &[&str] = &["insert", "update", "delete"];

/// Where the table of an edit stands.
const TABLE: usize = 1;

/// How many fields stand before the values of an edit: its word, the table and the key.
const FIRST_VALUE: usize = 3;

/// Returns the slip that an edit begins with another word.
fn bad_word(alloc: Global, fields: &StringRecord) -> Result<RecordSlip, AllocError>
    ensures { IfOk result (λ slip. said slip ≡ wrong_edit_word (fields_of fields.now)) }
{
    let word = field(fields, 0);
    let sentence = format!(in alloc;
        "'{word}' is none of insert, update and delete, and apply asks for an edit here"
    )?;
    let hint = name_hint(alloc, word, WORDS)?;
    Ok(RecordSlip::new(0, sentence).with_hint(hint))
}

/// Returns the names of the columns of a table, with commas between them.
#[tactic(auto, using(crate::proofs::SlipLemmas::joined_names))]
fn listed_columns(alloc: Global, table: &TableDef) -> Result<String, AllocError>
    ensures { IfOk result (λ listed. string_bytes listed ≡ listed_columns table.now) }
{
    let columns = column_names(alloc, table)?;
    join_names(alloc, columns.as_slice())
}

/// Returns what is said of a deletion that has another count of fields than it must have.
fn delete_count(alloc: Global, name: &str, count: usize) -> Result<String, AllocError>
    ensures { IfOk result (λ sentence. string_bytes sentence ≡ delete_count name.now count) }
{
    let mut sentence = String::from_str(alloc, "delete,")?;
    sentence.push_str(name)?;
    write!(sentence, ",KEY has 3 fields, and here are {count}")?;
    Ok(sentence)
}

/// Returns what is said of an insertion or an update that has another count of fields than it must
/// have.
fn row_count(
    alloc: Global,
    word: &str,
    table: &TableDef,
    count: usize,
) -> Result<String, AllocError>
    ensures { IfOk result (λ sentence. string_bytes sentence ≡ row_count word.now table.now count) }
{
    let columns = listed_columns(alloc, table)?;
    let mut sentence = String::from_str(alloc, "behind ")?;
    sentence.push_str(word)?;
    sentence.push_str(",")?;
    sentence.push_str(table.name.as_str())?;
    sentence.push_str(",KEY stand the values of ")?;
    sentence.push_str(columns.as_str())?;
    write!(
        sentence,
        " and then the coordinates; here are {count} fields in all"
    )?;
    Ok(sentence)
}

/// Returns what is said of an edit of a table that has another count of fields than it must have.
fn count_sentence(
    alloc: Global,
    fields: &StringRecord,
    table: &TableDef,
) -> Result<String, AllocError>
    ensures { IfOk result (λ sentence. string_bytes sentence ≡ count_sentence_of (fields_of fields.now) table.now) }
{
    match field(fields, 0) {
        "delete" => delete_count(alloc, table.name.as_str(), fields.len()),
        word => row_count(alloc, word, table, fields.len()),
    }
}

/// Returns the slip that an edit has another count of fields than it must have.
fn bad_count(
    alloc: Global,
    schema: &Schema,
    fields: &StringRecord,
) -> Result<RecordSlip, AllocError>
    ensures { IfOk result (λ slip. said slip ≡ wrong_edit_count schema.now (fields_of fields.now)) }
{
    if let Some(table) = table_of(schema, field(fields, 1)) {
        let sentence = count_sentence(alloc, fields, table)?;
        return Ok(RecordSlip::new(0, sentence));
    }
    let count = fields.len();
    let sentence = format!(in alloc; "an edit has at least 3 fields, and here are {count}")?;
    Ok(RecordSlip::new(0, sentence))
}

/// Returns whether what stands at a place behind the key of an edit must be a number: a value of a
/// column INT, and each coordinate.
fn is_number_behind_key(table: &TableDef, at: usize) -> bool
    ensures { result ≡ is_number_column (slice_get table.now.columns at) }
{
    match table.columns.as_slice().get(at) {
        Some(column) => column.1 == Kind::Int,
        None => true,
    }
}

/// Returns whether a field of an edit must be a number: the key, a value of a column INT, a
/// coordinate.
fn is_number_field(table: Option<&TableDef>, at: usize) -> bool
    ensures { result ≡ is_number_field (option_copied table.entry) at }
{
    if at < FIRST_VALUE {
        return at == 2;
    }
    match table {
        Some(table) => is_number_behind_key(table, at - FIRST_VALUE),
        None => false,
    }
}

/// Returns whether a field of an edit must be a number and is none.
fn lacks_number(table: Option<&TableDef>, fields: &StringRecord, at: usize) -> bool
    ensures { result ≡ lacks_number (option_copied table.entry) (fields_of fields.now) at }
{
    is_number_field(table, at) && read_number(field(fields, at)).is_none()
}

/// Returns the first field of an edit that must be a number and is none, if any.
fn find_number_place(table: Option<&TableDef>, fields: &StringRecord) -> Option<usize>
    ensures { result ≡ find_number_place (option_copied table.entry) (fields_of fields.now) }
{
    (2..fields.len()).find(|at| lacks_number(table, fields, *at))
}

/// Returns the first field of an edit that must be a number and is none, else its key.
#[tactic(auto, using(crate::proofs::SlipLemmas::number_place_of))]
fn number_place(schema: &Schema, fields: &StringRecord) -> usize
    ensures { result ≡ number_place schema.now (fields_of fields.now) }
{
    find_number_place(table_of(schema, field(fields, 1)), fields).unwrap_or(2)
}

/// Returns what is wrong with a record that is read as an edit, for the fault that it has.
pub fn explain_edit(
    alloc: Global,
    schema: &Schema,
    fields: &StringRecord,
    fault: RecordFault,
) -> Result<RecordSlip, AllocError>
    ensures { IfOk result (λ slip. said slip ≡ edit_slip schema.now fault (fields_of fields.now)) }
{
    match fault {
        RecordFault::FieldCount => bad_count(alloc, schema, fields),
        RecordFault::NoTable => no_table(alloc, schema, fields, TABLE),
        RecordFault::BadNumber => no_number(alloc, fields, number_place(schema, fields)),
        _ => bad_word(alloc, fields),
    }
}
