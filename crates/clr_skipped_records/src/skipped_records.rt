//! The records of a layer that have a fault, written with what is wrong with them.

ghost use Rattle.std.specs.Prelude.{◌≡◌, ◌++◌, IfOk, OnOk, map};
ghost use Rattle.csv.specs.Records.{fields_of};
ghost use Rattle.csv.specs.Writing.{default_writer, row_text};
ghost use Rattle.clr_records.specs.Writing.{records_text};
ghost use Rattle.clr_layer_faults.specs.FoundFaults.{header_in};
ghost use Rattle.clr_skipped_records.specs.SkippedRecords.{skipped_header, skipped_record, skipped_text};

use crate::record_writing::{add_line, with_field};
use clr_layer_faults::FoundFault;
use clr_layer_reports::{fault_words, record_at};
use clr_rows::{TableDef, Words};
use csv::{ByteRecord, StringRecord};
use std::alloc::{AllocError, Global};

/// Returns the record that has a fault, and behind its own fields what is wrong with it.
fn skipped_record(
    alloc: Global,
    table: &TableDef,
    names: &[Words],
    records: &[StringRecord],
    found: &FoundFault,
) -> Result<ByteRecord, AllocError>
    requires { names.now ≡ header_in (map fields_of records.now) }
    ensures { IfOk result (λ made. fields_of made ≡ skipped_record table.now (map fields_of records.now) found.now) }
{
    let none = StringRecord::new(alloc);
    let fields = record_at(records, &none, found.number);
    let why = fault_words(alloc, table, names, fields, found)?;
    let made = with_field(alloc, fields, why.as_slice())?;
    Ok(made)
}

/// Adds the line of the record that has a fault.
fn add_skipped(
    alloc: Global,
    text: &mut Vec<u8>,
    table: &TableDef,
    names: &[Words],
    records: &[StringRecord],
    found: &FoundFault,
) -> Result<(), AllocError>
    requires { names.now ≡ header_in (map fields_of records.now) }
    ensures { OnOk result (text.new.items ≡ text.old.items ++ row_text default_writer (skipped_record table.now (map fields_of records.now) found.now)) }
{
    let made = skipped_record(alloc, table, names, records, found)?;
    add_line(alloc, text, &made)
}

/// Adds the lines of the records that have these faults.
fn add_all_skipped(
    alloc: Global,
    text: &mut Vec<u8>,
    table: &TableDef,
    names: &[Words],
    records: &[StringRecord],
    faults: &[FoundFault],
) -> Result<(), AllocError>
    requires { names.now ≡ header_in (map fields_of records.now) }
    ensures { OnOk result (text.new.items
        ≡ text.old.items ++ records_text (map (skipped_record table.now (map fields_of records.now)) faults.now)) }
{
    for found in faults {
        add_skipped(alloc, text, table, names, records, found)?;
    }
    Ok(())
}

/// Returns the line of the header, with one more name.
fn header_line(alloc: Global, header: &StringRecord) -> Result<Vec<u8>, AllocError>
    ensures { IfOk result (λ line. line.items ≡ row_text default_writer (skipped_header (fields_of header.now))) }
{
    let mut line = Vec::new(alloc);
    let made = with_field(alloc, header, b"WHY")?;
    add_line(alloc, &mut line, &made)?;
    Ok(line)
}

/// Returns the text of the records that have these faults, in their order, with the names of their header: each as it stands in its layer, and behind its
/// own fields what is wrong with it, below the name WHY. The header is the first of the records.
pub(crate) fn skipped_text(
    alloc: Global,
    table: &TableDef,
    header: &StringRecord,
    names: &[Words],
    records: &[StringRecord],
    faults: &[FoundFault],
) -> Result<Vec<u8>, AllocError>
    requires names { names.now ≡ header_in (map fields_of records.now) }
    requires header { fields_of header.now ≡ header_in (map fields_of records.now) }
    ensures { IfOk result (λ text. text.items ≡ skipped_text table.now (map fields_of records.now) faults.now) }
{
    let mut text = header_line(alloc, header)?;
    add_all_skipped(alloc, &mut text, table, names, records, faults)?;
    Ok(text)
}
