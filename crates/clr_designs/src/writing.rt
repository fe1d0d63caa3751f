//! The scripts that make a design and bring one again, written as CSV.

ghost use Rattle.std.specs.Prelude.{◌≡◌, ◌++◌, ◌∷◌, [], Ok, IfOk, OnOk, map};
ghost use Rattle.std.specs.List.{All};
ghost use Rattle.csv.specs.Records.{fields_of, partial_of};
ghost use Rattle.csv.specs.Writing.{row_text};
ghost use Rattle.clr_lines.specs.Rows.{IsBetweenRows, cell_fields, row_fields, rows_writer};
ghost use Rattle.clr_scripts.specs.Scripts.{script_in_text};
ghost use Rattle.clr_records.specs.Writing.{written_by};
ghost use Rattle.clr_designs.specs.Scripts.{again_script, again_steps, design_script, design_steps, edit_fields, script_text};
ghost use Rattle.clr_records.specs.Values.{IsText};
ghost use Rattle.clr_designs.specs.ReadBack.{Fits, HasTexts};

use clr_change::Edit;
use clr_lines::{add_cell_fields, add_row_fields};
use clr_records::add_field;
use clr_rows::{CellId, Row, Schema};
use csv::{ByteRecord, Writer, WriterBuilder};
use itoa::Buffer;
use std::alloc::{AllocError, Global};

/// Returns the record of a word and a cell.
fn cell_record(
    alloc: Global,
    schema: &Schema,
    word: &str,
    cell: CellId,
) -> Result<ByteRecord, AllocError>
    ensures fields { IfOk result (λ made. fields_of made ≡ word.now ∷ cell_fields schema.now cell) }
    ensures whole { IfOk result (λ made. partial_of made ≡ []) }
{
    let mut fields = ByteRecord::new(alloc);
    add_field(&mut fields, word.as_bytes())?;
    add_cell_fields(&mut fields, schema, cell)?;
    Ok(fields)
}

/// Returns the record of a word and a row.
fn row_record(
    alloc: Global,
    schema: &Schema,
    word: &str,
    cell: CellId,
    row: &Row,
) -> Result<ByteRecord, AllocError>
    ensures fields { IfOk result (λ made. fields_of made ≡ word.now ∷ row_fields schema.now cell row.now) }
    ensures texts { OnOk result (All IsText row.now.values) }
{
    let mut fields = cell_record(alloc, schema, word, cell)?;
    add_row_fields(&mut fields, row)?;
    Ok(fields)
}

/// Returns the record of an edit.
fn edit_record(alloc: Global, schema: &Schema, edit: &Edit) -> Result<ByteRecord, AllocError>
    ensures fields { IfOk result (λ made. fields_of made ≡ edit_fields schema.now edit.now) }
    ensures texts { OnOk result (HasTexts edit.now) }
{
    match edit {
        Edit::Insert(cell, row) => row_record(alloc, schema, "insert", *cell, row),
        Edit::Update(cell, row) => row_record(alloc, schema, "update", *cell, row),
        Edit::Delete(cell) => cell_record(alloc, schema, "delete", *cell),
    }
}

/// Writes a record by a writer that is between two records.
fn add_record(writer: &mut Writer<Vec<u8>>, fields: &ByteRecord) -> Result<(), AllocError>
    requires { IsBetweenRows writer.old }
    ensures between { OnOk result (IsBetweenRows writer.new) }
    ensures written { OnOk result (written_by writer.new ≡ written_by writer.old ++ row_text rows_writer (fields_of fields.now)) }
{
    match writer.write_byte_record(fields) {
        Ok(()) => Ok(()),
        Err(_) => Err(AllocError),
    }
}

/// Writes the record of a command with two words behind its own.
fn add_command(
    alloc: Global,
    writer: &mut Writer<Vec<u8>>,
    command: &str,
    first: &str,
    second: &str,
) -> Result<(), AllocError>
    requires { IsBetweenRows writer.old }
    ensures between { OnOk result (IsBetweenRows writer.new) }
    ensures written { OnOk result (written_by writer.new ≡ written_by writer.old ++ row_text rows_writer (command.now ∷ first.now ∷ second.now ∷ [])) }
{
    let mut fields = ByteRecord::new(alloc);
    add_field(&mut fields, command.as_bytes())?;
    add_field(&mut fields, first.as_bytes())?;
    add_field(&mut fields, second.as_bytes())?;
    add_record(writer, &fields)
}

/// Writes the record of a command with one word behind its own.
fn add_short_command(
    alloc: Global,
    writer: &mut Writer<Vec<u8>>,
    command: &str,
    word: &str,
) -> Result<(), AllocError>
    requires { IsBetweenRows writer.old }
    ensures between { OnOk result (IsBetweenRows writer.new) }
    ensures written { OnOk result (written_by writer.new ≡ written_by writer.old ++ row_text rows_writer (command.now ∷ word.now ∷ [])) }
{
    let mut fields = ByteRecord::new(alloc);
    add_field(&mut fields, command.as_bytes())?;
    add_field(&mut fields, word.as_bytes())?;
    add_record(writer, &fields)
}

fn add_edits(
    alloc: Global,
    writer: &mut Writer<Vec<u8>>,
    schema: &Schema,
    edits: &[Edit],
) -> Result<(), AllocError>
    requires { IsBetweenRows writer.old }
    ensures between { OnOk result (IsBetweenRows writer.new) }
    ensures written { OnOk result (written_by writer.new ≡ written_by writer.old ++ script_text (map (edit_fields schema.now) edits.now)) }
    ensures texts { OnOk result (All HasTexts edits.now) }
{
    for edit in edits {
        let fields = edit_record(alloc, schema, edit)?;
        add_record(writer, &fields)?;
    }
    Ok(())
}

/// Returns the text of the script that makes a design.
fn design_text(
    alloc: Global,
    schema: &Schema,
    name: &str,
    root: &str,
    edits: &[Edit],
) -> Result<Vec<u8>, AllocError>
    ensures written { IfOk result (λ text. text.items ≡ design_script schema.now name.now root.now edits.now) }
    ensures texts { OnOk result (All HasTexts edits.now) }
{
    let mut writer = WriterBuilder::new()
        .flexible(true)
        .from_writer(Vec::new(alloc));
    add_command(alloc, &mut writer, "create", name, root)?;
    let mut digits = Buffer::new();
    let count = digits.format(edits.len());
    add_command(alloc, &mut writer, "apply", name, count)?;
    add_edits(alloc, &mut writer, schema, edits)?;
    match writer.into_inner() {
        Ok(text) => Ok(text),
        Err(_) => Err(AllocError),
    }
}

/// Returns the text of the script that makes a design: `create,NAME,ROOT`, then `apply,NAME,N` and
/// the N edits in their order, as `insert,TABLE,KEY,value..,coordinate..`, `update` alike, or
/// `delete,TABLE,KEY`. Each record is a line of CSV, ended by `\n`; coordinates are whole
/// millimetres. The name of a table that the schema hasn't is empty. Where each edit fits the
/// schema, the text is read as a step that creates the workspace and one that applies these edits.
#[tactic(auto, using(crate::proofs::ScriptAgain::written_again))]
pub fn write_design_script(
    alloc: Global,
    schema: &Schema,
    name: &str,
    root: &str,
    edits: &[Edit],
) -> Result<Vec<u8>, AllocError>
    ensures written { IfOk result (λ text. text.items ≡ design_script schema.now name.now root.now edits.now) }
    ensures read_back { IfOk result (λ text. All (Fits schema.now) edits.now
        → script_in_text schema.now text.items ≡ Ok (design_steps name.now root.now edits.now)) }
{
    let _sound = schema.tables();
    let text = design_text(alloc, schema, name, root, edits)?;
    Ok(text)
}

/// Returns the text of the script that brings a design again.
fn again_text(
    alloc: Global,
    schema: &Schema,
    name: &str,
    edits: &[Edit],
) -> Result<Vec<u8>, AllocError>
    ensures written { IfOk result (λ text. text.items ≡ again_script schema.now name.now edits.now) }
    ensures texts { OnOk result (All HasTexts edits.now) }
{
    let mut writer = WriterBuilder::new()
        .flexible(true)
        .from_writer(Vec::new(alloc));
    add_short_command(alloc, &mut writer, "rollall", name)?;
    let mut digits = Buffer::new();
    let count = digits.format(edits.len());
    add_command(alloc, &mut writer, "apply", name, count)?;
    add_edits(alloc, &mut writer, schema, edits)?;
    match writer.into_inner() {
        Ok(text) => Ok(text),
        Err(_) => Err(AllocError),
    }
}

/// Returns the text of the script that brings a design again: `rollall,NAME`, then `apply,NAME,N` and the N edits in their order, as
/// `write_design_script` writes them. Where each edit fits the schema, the text is read as a step that rolls the workspace back to its base and one
/// that applies these edits.
#[tactic(auto, using(crate::proofs::ScriptAgain::again_written))]
pub fn write_again_script(
    alloc: Global,
    schema: &Schema,
    name: &str,
    edits: &[Edit],
) -> Result<Vec<u8>, AllocError>
    ensures written { IfOk result (λ text. text.items ≡ again_script schema.now name.now edits.now) }
    ensures read_back { IfOk result (λ text. All (Fits schema.now) edits.now → script_in_text schema.now text.items ≡ Ok (again_steps name.now edits.now)) }
{
    let _sound = schema.tables();
    let text = again_text(alloc, schema, name, edits)?;
    Ok(text)
}
