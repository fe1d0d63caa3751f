//! The records of a layer that have no fault, written as a layer of their own.

ghost use Rattle.std.specs.Prelude.{◌≡◌, ◌+◌, ◌++◌, ◌<◌, ◌^◌, if◌then◌else◌, length, map, slice_get, IfOk, OnOk};
ghost use Rattle.std.specs.Str.{is_utf8};
ghost use Rattle.csv.specs.Records.{fields_of};
ghost use Rattle.clr_records.specs.Writing.{IsBetween, records_text, written_by};
ghost use Rattle.clr_skipped_records.specs.SoundRecords.{AddsSound, is_of, unless};
ghost use Rattle.clr_skipped_records.specs.Splits.{IsSoundText, mark};

use crate::record_writing::{add_record, all_written};
use clr_layer_faults::FoundFault;
use csv::{StringRecord, Writer, WriterBuilder};
use std::alloc::{AllocError, Global};

/// Returns whether the fault at a position is that of the record of a number.
fn is_of_record(faults: &[FoundFault], at: usize, number: usize) -> bool
    ensures { result ≡ is_of (slice_get faults.now at) number }
{
    match faults.get(at) {
        Some(found) => found.number == number,
        None => false,
    }
}

/// Returns a count, with one more where a test holds.
fn one_more_if(test: bool, count: usize) -> usize
    requires { count + 1 < 2 ^ 64 }
    ensures { result ≡ (if test then count + 1 else count) }
{
    if test { count + 1 } else { count }
}

/// Writes a record, unless it has a fault.
#[tactic(auto, using(crate::proofs::WalkLemmas::none_written, crate::proofs::WalkLemmas::one_written))]
fn add_unless(
    writer: &mut Writer<Vec<u8>>,
    has_fault: bool,
    fields: &StringRecord,
) -> Result<(), AllocError>
    requires { IsBetween writer.old }
    ensures between { OnOk result (IsBetween writer.new) }
    ensures written { OnOk result (written_by writer.new ≡ written_by writer.old ++ records_text (unless has_fault (fields_of fields.now))) }
{
    if has_fault {
        return Ok(());
    }
    add_record(writer, fields.as_byte_record())
}

/// Writes those of records that have none of these faults, where the records are numbered from 2 on and the faults are all of theirs.
fn add_sound(
    writer: &mut Writer<Vec<u8>>,
    faults: &[FoundFault],
    records: &[StringRecord],
) -> Result<(), AllocError>
    requires between { IsBetween writer.old }
    requires bound { length records.now + 2 < 2 ^ 64 }
    ensures between { OnOk result (IsBetween writer.new) }
    ensures written { OnOk result (AddsSound faults.now (map fields_of records.now) (written_by writer.old) (written_by writer.new)) }
{
    let mut next = 0;
    for (i, fields) in records.iter().enumerate() {
        let has_fault = is_of_record(faults, next, 2 + i);
        add_unless(writer, has_fault, fields)?;
        next = one_more_if(has_fault, next);
    }
    Ok(())
}

/// Returns a writer that has written a byte order mark.
fn marked_writer(alloc: Global) -> Result<Writer<Vec<u8>>, AllocError>
    ensures between { IfOk result IsBetween }
    ensures written { IfOk result (λ writer. written_by writer ≡ mark) }
{
    let text = Vec::from_slice(alloc, b"\xEF\xBB\xBF")?;
    Ok(WriterBuilder::new().from_writer(text))
}

/// Returns whether the bytes are UTF-8.
fn is_text(bytes: &[u8]) -> bool
    ensures { result ≡ is_utf8 bytes.now }
{
    match str::from_utf8(bytes) {
        Ok(_) => true,
        Err(_) => false,
    }
}

/// Returns the text of a layer that has a header and those of records that have none of these faults. It begins with a byte order mark, so that a name
/// that begins with one stays as it is.
pub(crate) fn sound_text(
    alloc: Global,
    header: &StringRecord,
    faults: &[FoundFault],
    records: &[StringRecord],
) -> Result<Vec<u8>, AllocError>
    requires { length records.now + 2 < 2 ^ 64 }
    ensures { IfOk result (λ text. IsSoundText (fields_of header.now) faults.now (map fields_of records.now) text.items) }
{
    let mut writer = marked_writer(alloc)?;
    add_record(&mut writer, header.as_byte_record())?;
    add_sound(&mut writer, faults, records)?;
    let text = all_written(writer)?;
    // (the fields of records that were read from UTF-8 are UTF-8)
    if is_text(text.as_slice()) {
        Ok(text)
    } else {
        Err(AllocError)
    }
}
