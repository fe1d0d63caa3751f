//! The record of a number.
ghost use Rattle.std.specs.Prelude.{◌≡◌, ◌≤◌, ◌<◌, Some, length, map};
ghost use Rattle.csv.specs.Records.{fields_of};
ghost use Rattle.clr_record_explanations.specs.FirstFaults.{record_numbered};

use csv::StringRecord;

/// Returns the record of a number, which counts from 1.
#[tactic(auto, using(crate::proofs::Firsts::numbered_at))]
pub fn take_record(records: Vec<StringRecord>, number: usize) -> StringRecord
    requires first { 0 < number }
    requires last { number ≤ length records.items }
    ensures { Some (fields_of result) ≡ record_numbered (map fields_of records.items) number }
{
    let mut records = records;
    records.swap_remove(number - 1)
}
