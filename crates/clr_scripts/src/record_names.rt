//! Names in the fields of records.

ghost use Rattle.std.specs.Prelude.{◌≡◌, ◌++◌, Ok, drop};
ghost use Rattle.csv.specs.Records.{fields_of};
ghost use Rattle.clr_records.specs.Records.{field_of};
ghost use Rattle.clr_readings.specs.Readings.{Gives};
ghost use Rattle.clr_scripts.specs.Records.{record_lacks_memory};
ghost use Rattle.clr_scripts.specs.Scripts.{only_name_of, two_names_of};

use crate::faults::RecordFault;
use clr_records::field;
use clr_rows::{Names, Words};
use csv::StringRecord;
use std::alloc::Global;

/// Returns a copy of a record's field.
pub fn words(alloc: Global, fields: &StringRecord, at: usize) -> Result<Words, RecordFault>
    ensures { Gives record_lacks_memory (λ x. x) result (Ok (field_of (fields_of fields.now) at)) }
{
    Ok(Words::from_str(alloc, field(fields, at))?)
}

/// Returns the name of a record of two fields.
pub fn only_name(alloc: Global, fields: &StringRecord) -> Result<Words, RecordFault>
    ensures { Gives record_lacks_memory (λ x. x) result (only_name_of (fields_of fields.now)) }
{
    if fields.len() != 2 {
        return Err(RecordFault::FieldCount);
    }
    words(alloc, fields, 1)
}

/// Returns the names of a record of three fields.
pub fn two_names(alloc: Global, fields: &StringRecord) -> Result<(Words, Words), RecordFault>
    ensures { Gives record_lacks_memory (λ x. x) result (two_names_of (fields_of fields.now)) }
{
    if fields.len() != 3 {
        return Err(RecordFault::FieldCount);
    }
    let first = words(alloc, fields, 1)?;
    let second = words(alloc, fields, 2)?;
    Ok((first, second))
}

/// Returns the fields of a record behind its first, as names.
pub fn names(alloc: Global, fields: &StringRecord) -> Result<Names, RecordFault>
    ensures { Gives record_lacks_memory (λ x. x) result (Ok (drop 1 (fields_of fields.now))) }
{
    let mut list = Vec::new(alloc);
    for at in 1..fields.len() {
        list.push(words(alloc, fields, at)?)?;
    }
    Ok(Names::new(list))
}
