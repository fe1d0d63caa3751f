//! Edits as CSV.

ghost use Rattle.std.specs.Prelude.{◌≡◌, ◌++◌, ◌∷◌, [], IfOk, OnOk};
ghost use Rattle.std.specs.FinMap as finite;
ghost use Rattle.std.specs.List.{flat_map};
ghost use Rattle.std.specs.Option.{option_copied};
ghost use Rattle.csv.specs.Records.{fields_of, partial_of};
ghost use Rattle.csv.specs.Writing.{row_text};
ghost use Rattle.clr_lines.specs.Rows.{IsBetweenRows, cell_fields, row_fields, rows_writer};
ghost use Rattle.clr_records.specs.Writing.{written_by};
ghost use Rattle.clr_guarded_edits.specs.Records.{change_lines, edit_fields, records_text, was_records};

use clr_change::ChangeSet;
use clr_lines::{add_cell_fields, add_row_fields};
use clr_records::add_field;
use clr_rows::{CellId, Change, Row, Schema, Sheet};
use csv::{ByteRecord, Writer, WriterBuilder};
use std::alloc::{AllocError, Global};

/// Returns the record of a word and a cell.
fn cell_record(
    alloc: Global,
    schema: &Schema,
    word: &str,
    cell: CellId,
) -> Result<ByteRecord, AllocError>
    ensures fields { IfOk result (λ made. fields_of made ≡ word.now ∷ cell_fields schema.now cell) }
    ensures whole { IfOk result (λ made. partial_of made ≡ []) }
{
    let mut fields = ByteRecord::new(alloc);
    add_field(&mut fields, word.as_bytes())?;
    add_cell_fields(&mut fields, schema, cell)?;
    Ok(fields)
}

/// Returns the record of a word and a row.
fn row_record(
    alloc: Global,
    schema: &Schema,
    word: &str,
    cell: CellId,
    row: &Row,
) -> Result<ByteRecord, AllocError>
    ensures { IfOk result (λ made. fields_of made ≡ word.now ∷ row_fields schema.now cell row.now) }
{
    let mut fields = cell_record(alloc, schema, word, cell)?;
    add_row_fields(&mut fields, row)?;
    Ok(fields)
}

/// Returns the record of the edit that leads from one row, or none, to another, or none.
fn edit_record(
    alloc: Global,
    schema: &Schema,
    cell: CellId,
    before: Option<&Row>,
    after: Option<&Row>,
) -> Result<ByteRecord, AllocError>
    ensures { IfOk result (λ made. fields_of made ≡ edit_fields schema.now cell (option_copied before.entry) (option_copied after.entry)) }
{
    match (before, after) {
        (_, None) => cell_record(alloc, schema, "delete", cell),
        (None, Some(row)) => row_record(alloc, schema, "insert", cell, row),
        (Some(_), Some(row)) => row_record(alloc, schema, "update", cell, row),
    }
}

/// Writes a record by a writer that is between two records.
fn add_record(writer: &mut Writer<Vec<u8>>, fields: &ByteRecord) -> Result<(), AllocError>
    requires { IsBetweenRows writer.old }
    ensures between { OnOk result (IsBetweenRows writer.new) }
    ensures written { OnOk result (written_by writer.new ≡ written_by writer.old ++ row_text rows_writer (fields_of fields.now)) }
{
    match writer.write_byte_record(fields) {
        Ok(()) => Ok(()),
        Err(_) => Err(AllocError),
    }
}

/// Writes the record of the row as it was, if there was one.
fn add_was(
    alloc: Global,
    writer: &mut Writer<Vec<u8>>,
    schema: &Schema,
    cell: CellId,
    before: Option<&Row>,
) -> Result<(), AllocError>
    requires { IsBetweenRows writer.old }
    ensures between { OnOk result (IsBetweenRows writer.new) }
    ensures written { OnOk result (written_by writer.new
        ≡ written_by writer.old ++ flat_map (row_text rows_writer) (was_records schema.now cell (option_copied before.entry))) }
{
    let Some(row) = before else {
        return Ok(());
    };
    let fields = row_record(alloc, schema, "was", cell, row)?;
    add_record(writer, &fields)
}

/// Writes the lines of a change.
fn add_change(
    alloc: Global,
    writer: &mut Writer<Vec<u8>>,
    schema: &Schema,
    cell: CellId,
    change: &Change,
) -> Result<(), AllocError>
    requires { IsBetweenRows writer.old }
    ensures between { OnOk result (IsBetweenRows writer.new) }
    ensures written { OnOk result (written_by writer.new ≡ written_by writer.old ++ change_lines schema.now (cell, change.now)) }
{
    let (before, after) = (change.before.as_ref(), change.after.as_ref());
    add_was(alloc, writer, schema, cell, before)?;
    let fields = edit_record(alloc, schema, cell, before, after)?;
    add_record(writer, &fields)
}

/// Returns the edits that take one content to another, in the order of cells, as CSV: each edit as a script has it behind `apply`, and before it, where there
/// was a row, `was,TABLE,KEY,value..,coordinate..` with the row as it was. Each record is a line, ended by `\n`; coordinates are whole millimetres.
pub fn write_records(
    alloc: Global,
    schema: &Schema,
    old: &Sheet,
    new: &Sheet,
) -> Result<Vec<u8>, AllocError>
    ensures text { IfOk result (λ text. text.items ≡ records_text schema.now old.now new.now) }
{
    let changes = ChangeSet::between(alloc, old, new)?;
    let mut writer = WriterBuilder::new()
        .flexible(true)
        .from_writer(Vec::new(alloc));
    for (cell, change) in changes.iter() {
        add_change(alloc, &mut writer, schema, *cell, change)?;
    }
    match writer.into_inner() {
        Ok(text) => Ok(text),
        Err(_) => Err(AllocError),
    }
}
