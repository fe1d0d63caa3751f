//! The faults of records: the first of each.

ghost use Rattle.std.specs.Prelude.{◌≡◌, [], ◌+◌, ◌<◌, ◌^◌, IfOk, length, map};
ghost use Rattle.csv.specs.Records.{fields_of};
ghost use Rattle.clr_layer_text.specs.Headings.{seen_headings};
ghost use Rattle.clr_layer_text.specs.Layers.{row_of};
ghost use Rattle.clr_layer_faults.specs.FoundFaults.{faults_from};
ghost use Rattle.clr_layer_faults.specs.KeySets.{NotesKey, NotesRecord};

use crate::columns::faulty_column;
use crate::found::FoundFault;
use crate::header_faults::add_found;
use clr_layer_changes::LayersFault;
use clr_layer_text::{Headings, LayerFault, read_row};
use clr_rows::{Schema, TableDef, Words};
use csv::StringRecord;
use std::alloc::{AllocError, Global};
use std::collections::BTreeSet;

/// Returns the fault of a row that has the key of a row before it, and notes its key.
fn key_fault(
    keys: &mut BTreeSet<i64>,
    number: usize,
    key: Option<i64>,
) -> Result<Option<FoundFault>, AllocError>
    ensures { IfOk result (NotesKey number key keys.old keys.new) }
{
    let Some(key) = key else {
        return Ok(None);
    };
    if keys.insert(key)? {
        return Ok(None);
    }
    Ok(Some(FoundFault {
        number,
        column: Some(0),
        fault: LayersFault::KeyTwice,
    }))
}

/// Returns the fault of a record, if it has one, and notes the key of its row.
fn record_fault(
    alloc: Global,
    schema: &Schema,
    at: u16,
    table: &TableDef,
    rounded: bool,
    headings: &Headings,
    names: &[Words],
    keys: &mut BTreeSet<i64>,
    number: usize,
    fields: &StringRecord,
) -> Result<Option<FoundFault>, AllocError>
    ensures { let read = row_of schema.now at rounded (seen_headings headings.now) (fields_of fields.now) in
        IfOk result (NotesRecord table.now names.now number (fields_of fields.now) read keys.old keys.new) }
{
    match read_row(alloc, schema, at, rounded, headings, fields) {
        Ok(row) => key_fault(keys, number, row.key),
        Err(LayerFault::OutOfMemory) => Err(AllocError),
        Err(fault) => Ok(Some(FoundFault {
            number,
            column: faulty_column(table, names, fields, fault),
            fault: LayersFault::Unread(fault),
        })),
    }
}

/// Returns the faults of records that are numbered from 2 on, in their order.
pub(crate) fn faults_of_records(
    alloc: Global,
    schema: &Schema,
    at: u16,
    table: &TableDef,
    rounded: bool,
    headings: &Headings,
    names: &[Words],
    records: &[StringRecord],
) -> Result<Vec<FoundFault>, AllocError>
    requires { length records.now + 2 < 2 ^ 64 }
    ensures { IfOk result (λ found. found.items
        ≡ faults_from (row_of schema.now at rounded (seen_headings headings.now)) table.now names.now [] 2 (map fields_of records.now)) }
{
    let mut found = Vec::new(alloc);
    let mut keys = BTreeSet::new(alloc);
    for (i, fields) in records.iter().enumerate() {
        let one = record_fault(
            alloc,
            schema,
            at,
            table,
            rounded,
            headings,
            names,
            &mut keys,
            2 + i,
            fields,
        )?;
        add_found(&mut found, one)?;
    }
    Ok(found)
}
