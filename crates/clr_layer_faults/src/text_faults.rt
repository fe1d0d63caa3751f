//! All faults of the records of a layer.

ghost use Rattle.std.specs.Prelude.{◌≡◌, ◌+◌, ◌<◌, ◌^◌, IfOk, length, map};
ghost use Rattle.csv.specs.Records.{fields_of};
ghost use Rattle.clr_layer_faults.specs.FoundFaults.{faults_in, faults_under, header_in};

use crate::found::FoundFault;
use crate::header_faults::{header_faults, names_of};
use crate::record_faults::faults_of_records;
use clr_layer_text::{LayerFault, find_headings};
use clr_rows::{Schema, TableDef, Words};
use csv::StringRecord;
use std::alloc::{AllocError, Global};

/// Returns the names of the header of records, which is the first of them; none where there is no record.
pub fn header_names(alloc: Global, records: &[StringRecord]) -> Result<Vec<Words>, AllocError>
    ensures { IfOk result (λ names. names.items ≡ header_in (map fields_of records.now)) }
{
    match records {
        [header, ..] => names_of(alloc, header),
        [] => Ok(Vec::new(alloc)),
    }
}

/// Returns the faults of a header and of the records below it: those of the header, or else the first of each record, in their order.
fn faults_under(
    alloc: Global,
    schema: &Schema,
    at: u16,
    table: &TableDef,
    rounded: bool,
    header: &StringRecord,
    names: &[Words],
    records: &[StringRecord],
) -> Result<Vec<FoundFault>, AllocError>
    requires names { names.now ≡ fields_of header.now }
    requires bound { length records.now + 2 < 2 ^ 64 }
    ensures { IfOk result (λ found. found.items ≡ faults_under schema.now at table.now rounded names.now (map fields_of records.now)) }
{
    match find_headings(alloc, header, Some(table)) {
        Ok(headings) => faults_of_records(
            alloc, schema, at, table, rounded, &headings, names, records,
        ),
        Err(LayerFault::OutOfMemory) => Err(AllocError),
        Err(fault) => header_faults(alloc, table, names, fault),
    }
}

/// Returns the faults of all records of a text, the first of which is the header: those of the header, or else the first of each record
/// below it, where a row with the key of a row before it has a fault too.
pub fn faults_in(
    alloc: Global,
    schema: &Schema,
    at: u16,
    table: &TableDef,
    rounded: bool,
    names: &[Words],
    records: &[StringRecord],
) -> Result<Vec<FoundFault>, AllocError>
    requires names { names.now ≡ header_in (map fields_of records.now) }
    requires bound { length records.now + 2 < 2 ^ 64 }
    ensures { IfOk result (λ found. found.items ≡ faults_in schema.now at table.now rounded (map fields_of records.now)) }
{
    match records {
        [header, below @ ..] => faults_under(
            alloc, schema, at, table, rounded, header, names, below,
        ),
        [] => {
            let none = StringRecord::new(alloc);
            faults_under(alloc, schema, at, table, rounded, &none, names, &[])
        }
    }
}
