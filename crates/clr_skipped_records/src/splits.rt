//! Layers, split into the records that have no fault and those that have one.

ghost use Rattle.std.specs.Prelude.{◌≡◌, ◌+◌, ◌<◌, ◌^◌, IfOk, None, false, length, map, slice_get};
ghost use Rattle.csv.specs.Records.{fields_of};
ghost use Rattle.clr_records.specs.Records.{records_in};
ghost use Rattle.clr_layer_text.specs.Faults.{layer_lacks_memory};
ghost use Rattle.clr_layer_faults.specs.FoundFaults.{below_header, header_in};
ghost use Rattle.clr_skipped_records.specs.Splits.{IsMade, IsSplitAt, IsSplitBelow, IsSplitLayer, IsSplitText};

use crate::skipped_records::skipped_text;
use crate::sound_records::sound_text;
use clr_layer_changes::GivenLayer;
use clr_layer_faults::{faults_in, header_names};
use clr_layer_text::{LayerFault, find_headings};
use clr_records::records_of;
use clr_rows::{Schema, TableDef};
use csv::StringRecord;
use std::alloc::{AllocError, Global};

/// A layer, split into the records that have no fault and those that have one.
#[derive(Debug, Drop)]
pub struct SplitLayer {
    /// The text of a layer that has the header and the records without a fault.
    pub taken: Vec<u8>,
    /// The text of the others, each with what is wrong with it behind its fields.
    pub skipped: Vec<u8>,
    /// How many these others are.
    pub count: usize,
}

/// Returns both parts of a layer of a table, by its records, the first of which is the header.
fn split_records(
    alloc: Global,
    schema: &Schema,
    at: u16,
    table: &TableDef,
    rounded: bool,
    header: &StringRecord,
    below: &[StringRecord],
    records: &[StringRecord],
) -> Result<SplitLayer, AllocError>
    requires header { fields_of header.now ≡ header_in (map fields_of records.now) }
    requires below { map fields_of below.now ≡ below_header (map fields_of records.now) }
    requires few { length below.now + 2 < 2 ^ 64 }
    requires bound { length records.now + 2 < 2 ^ 64 }
    ensures { IfOk result (IsMade schema.now at table.now rounded (map fields_of records.now)) }
{
    let names = header_names(alloc, records)?;
    let names = names.as_slice();
    let faults = faults_in(alloc, schema, at, table, rounded, names, records)?;
    let faults = faults.as_slice();
    let taken = sound_text(alloc, header, faults, below)?;
    let skipped = skipped_text(alloc, table, header, names, records, faults)?;
    Ok(SplitLayer {
        taken,
        skipped,
        count: faults.len(),
    })
}

/// Returns that a layer whose header has this fault isn't split.
fn unsplit(fault: LayerFault) -> Result<Option<SplitLayer>, AllocError>
    ensures { IfOk result (λ split. (split ≡ None) × (layer_lacks_memory fault ≡ false)) }
{
    match fault {
        LayerFault::OutOfMemory => Err(AllocError),
        _ => Ok(None),
    }
}

/// Returns both parts of a layer of a table, by its records, where its header has the columns of the table.
fn split_below(
    alloc: Global,
    schema: &Schema,
    at: u16,
    table: &TableDef,
    rounded: bool,
    header: &StringRecord,
    below: &[StringRecord],
    records: &[StringRecord],
) -> Result<Option<SplitLayer>, AllocError>
    requires header { fields_of header.now ≡ header_in (map fields_of records.now) }
    requires below { map fields_of below.now ≡ below_header (map fields_of records.now) }
    requires few { length below.now + 2 < 2 ^ 64 }
    requires bound { length records.now + 2 < 2 ^ 64 }
    ensures { IfOk result (IsSplitBelow schema.now at table.now rounded (map fields_of records.now)) }
{
    match find_headings(alloc, header, Some(table)) {
        Ok(_) => {
            let split = split_records(alloc, schema, at, table, rounded, header, below, records)?;
            Ok(Some(split))
        }
        Err(fault) => unsplit(fault),
    }
}

/// Returns both parts of the text of a layer of a table.
fn split_text(
    alloc: Global,
    schema: &Schema,
    at: u16,
    table: &TableDef,
    rounded: bool,
    text: &[u8],
) -> Result<Option<SplitLayer>, AllocError>
    ensures { IfOk result (λ split. IsSplitText schema.now at table.now rounded split (records_in text.now)) }
{
    let Some(records) = records_of(alloc, text)? else {
        return Ok(None);
    };
    let records = records.as_slice();
    match records {
        [header, below @ ..] => split_below(
            alloc, schema, at, table, rounded, header, below, records,
        ),
        [] => Ok(None),
    }
}

/// Returns both parts of the layer of the table at a position, if that is there.
fn split_at(
    alloc: Global,
    schema: &Schema,
    at: u16,
    rounded: bool,
    text: &[u8],
) -> Result<Option<SplitLayer>, AllocError>
    ensures { IfOk result (λ split. IsSplitAt schema.now at rounded text.now split (slice_get schema.now at)) }
{
    match schema.def(at) {
        Some(table) => split_text(alloc, schema, at, table, rounded, text),
        None => Ok(None),
    }
}

/// Returns a layer split into the records that have no fault, as a layer of their own, and the others, each with what is wrong with it behind its fields;
/// or nothing where the layer as a whole has a fault: where there is no table of its name, the text isn't UTF-8, or the header hasn't the columns of the
/// table. A record has a fault where it can't be read as a row of the table, or where a row before it has its key.
/// For example, where the second of three rows of main has no number in column dn, the first part is a layer of the first and the third, and the other
/// one is the header with the name WHY behind its own, and the second row with
/// `BadNumber: column dn is INT, and the field is empty, main 2; hint: COALESCE(dn, 0) puts a number there` behind its own fields.
pub fn split_layer(
    alloc: Global,
    schema: &Schema,
    rounded: bool,
    layer: &GivenLayer,
) -> Result<Option<SplitLayer>, AllocError>
    ensures split { IfOk result (IsSplitLayer schema.now rounded layer.now) }
{
    match schema.table(layer.table.as_str()) {
        Some(at) => split_at(alloc, schema, at, rounded, layer.text.as_slice()),
        None => Ok(None),
    }
}
