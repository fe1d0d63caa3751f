//! The records of a text, and faults beside their numbers.

ghost use Rattle.std.specs.Prelude.{◌≡◌, map};
ghost use Rattle.csv.specs.Records.{fields_of};
ghost use Rattle.clr_readings.specs.Readings.{GivesAt, numbered_fault};
ghost use Rattle.clr_scripts.specs.Records.{record_lacks_memory, records_or_fault};

use crate::faults::RecordFault;
use clr_records::records_of;
use csv::StringRecord;
use std::alloc::Global;

/// Returns a fault beside the number of its record; `OutOfMemory` stands beside 0.
pub(crate) fn with_number(number: usize, fault: RecordFault) -> (usize, RecordFault)
    ensures { result ≡ numbered_fault record_lacks_memory number fault }
{
    match fault {
        RecordFault::OutOfMemory => (0, fault),
        _ => (number, fault),
    }
}

/// Returns every record of a CSV text. Fails with `NotCsv` at 1 where the bytes aren't UTF-8, and
/// with `OutOfMemory` at 0 if memory runs out.
pub(crate) fn records_in_text(
    alloc: Global,
    bytes: &[u8],
) -> Result<Vec<StringRecord>, (usize, RecordFault)>
    ensures { GivesAt record_lacks_memory (λ v. map fields_of v.items) result (records_or_fault bytes.now) }
{
    match records_of(alloc, bytes) {
        Ok(Some(records)) => Ok(records),
        Ok(None) => Err((1, RecordFault::NotCsv)),
        Err(_) => Err((0, RecordFault::OutOfMemory)),
    }
}
