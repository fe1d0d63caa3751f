//! The lines of rows, each a CSV record.

ghost use Rattle.std.specs.Prelude.{◌≡◌, ◌++◌, IfOk, OnOk};
ghost use Rattle.csv.specs.Records.{fields_of};
ghost use Rattle.csv.specs.Writing.{writer_pending, writer_under};
ghost use Rattle.clr_lines.specs.Rows.{IsBetweenRows, row_fields, row_line, rows_text};

use crate::pieces::add_count;
use crate::row_fields::{add_cell_fields, add_row_fields};
use clr_rows::{CellId, Row, Schema, Sheet};
use csv::{ByteRecord, Writer, WriterBuilder};
use std::alloc::{AllocError, Global};

/// Returns the record of a row: its table, its key, its values and its coordinates.
fn row_record(
    alloc: Global,
    schema: &Schema,
    cell: CellId,
    row: &Row,
) -> Result<ByteRecord, AllocError>
    ensures { IfOk result (λ made. fields_of made ≡ row_fields schema.now cell row.now) }
{
    let mut fields = ByteRecord::new(alloc);
    add_cell_fields(&mut fields, schema, cell)?;
    add_row_fields(&mut fields, row)?;
    Ok(fields)
}

/// Writes a row's line by a writer that is between two records.
fn write_row(
    alloc: Global,
    writer: &mut Writer<Vec<u8>>,
    schema: &Schema,
    cell: CellId,
    row: &Row,
) -> Result<(), AllocError>
    requires { IsBetweenRows writer.old }
    ensures between { OnOk result (IsBetweenRows writer.new) }
    ensures written { OnOk result ((writer_under writer.new).items ++ writer_pending writer.new
        ≡ (writer_under writer.old).items ++ writer_pending writer.old ++ row_line schema.now (cell, row.now)) }
{
    let fields = row_record(alloc, schema, cell, row)?;
    match writer.write_byte_record(&fields) {
        Ok(()) => Ok(()),
        Err(_) => Err(AllocError),
    }
}

/// Returns the lines of a sheet: `rows N` and then each row as a CSV record, in the order of cells,
/// with the name of its table, its key, its values and its coordinates in millimetres. Each line
/// ends with `\n`. The name of a table that the schema hasn't is empty.
///
/// For example, of two nodes they are
///
/// ```text
/// rows 2
/// node,9,tap,5,5
/// node,10,tee,7,7
/// ```
pub fn rows_lines(alloc: Global, schema: &Schema, sheet: &Sheet) -> Result<Vec<u8>, AllocError>
    ensures { IfOk result (λ lines. lines.items ≡ rows_text schema.now sheet.now) }
{
    let mut lines = Vec::from_slice(alloc, b"rows ")?;
    add_count(&mut lines, sheet.len())?;
    lines.extend_from_slice(b"\n")?;
    let mut writer = WriterBuilder::new().flexible(true).from_writer(lines);
    for (cell, row) in sheet.iter() {
        write_row(alloc, &mut writer, schema, *cell, row)?;
    }
    match writer.into_inner() {
        Ok(lines) => Ok(lines),
        Err(_) => Err(AllocError),
    }
}
