//! Records, written one behind another.

ghost use Rattle.std.specs.Prelude.{◌≡◌, ◌++◌, ◌∷◌, [], IfOk, OnOk};
ghost use Rattle.csv.specs.Records.{fields_of, partial_of};
ghost use Rattle.csv.specs.Writing.{default_writer, row_text};
ghost use Rattle.clr_records.specs.Writing.{IsBetween, written_by};

use clr_records::{add_field, field};
use csv::{ByteRecord, StringRecord, Writer, WriterBuilder};
use std::alloc::{AllocError, Global};

/// Writes a record by a writer that is between two records.
pub(crate) fn add_record(writer: &mut Writer<Vec<u8>>, line: &ByteRecord) -> Result<(), AllocError>
    requires { IsBetween writer.old }
    ensures between { OnOk result (IsBetween writer.new) }
    ensures written { OnOk result (written_by writer.new ≡ written_by writer.old ++ row_text default_writer (fields_of line.now)) }
{
    match writer.write_byte_record(line) {
        Ok(()) => Ok(()),
        Err(_) => Err(AllocError),
    }
}

/// Returns all that a writer has written.
pub(crate) fn all_written(writer: Writer<Vec<u8>>) -> Result<Vec<u8>, AllocError>
    ensures { IfOk result (λ text. text.items ≡ written_by writer) }
{
    match writer.into_inner() {
        Ok(text) => Ok(text),
        Err(_) => Err(AllocError),
    }
}

/// Returns a record as a line.
fn line_of(alloc: Global, fields: &ByteRecord) -> Result<Vec<u8>, AllocError>
    ensures { IfOk result (λ line. line.items ≡ row_text default_writer (fields_of fields.now)) }
{
    let mut writer = WriterBuilder::new().from_writer(Vec::new(alloc));
    add_record(&mut writer, fields)?;
    match writer.into_inner() {
        Ok(line) => Ok(line),
        Err(_) => Err(AllocError),
    }
}

/// Adds a record to a text, as a line.
pub(crate) fn add_line(
    alloc: Global,
    text: &mut Vec<u8>,
    fields: &ByteRecord,
) -> Result<(), AllocError>
    ensures { OnOk result (text.new.items ≡ text.old.items ++ row_text default_writer (fields_of fields.now)) }
{
    let line = line_of(alloc, fields)?;
    text.extend_from_slice(line.as_slice())
}

/// Returns a copy of a record.
fn copied(alloc: Global, fields: &StringRecord) -> Result<ByteRecord, AllocError>
    ensures fields { IfOk result (λ made. fields_of made ≡ fields_of fields.now) }
    ensures whole { IfOk result (λ made. partial_of made ≡ []) }
{
    let mut made = ByteRecord::new(alloc);
    for at in 0..fields.len() {
        add_field(&mut made, field(fields, at).as_bytes())?;
    }
    Ok(made)
}

/// Returns a record with one more field behind its own.
pub(crate) fn with_field(
    alloc: Global,
    fields: &StringRecord,
    last: &[u8],
) -> Result<ByteRecord, AllocError>
    ensures { IfOk result (λ made. fields_of made ≡ fields_of fields.now ++ last.now ∷ []) }
{
    let mut made = copied(alloc, fields)?;
    add_field(&mut made, last)?;
    Ok(made)
}
