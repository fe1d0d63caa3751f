//! What a record of a script is read as.
ghost use Rattle.std.specs.Prelude.{◌≡◌, ◌<◌, length, map};
ghost use Rattle.csv.specs.Records.{fields_of};
ghost use Rattle.clr_record_explanations.specs.ScriptFaults.{edits_asked, edits_left, left_after, role_in};

use clr_records::{field, read_number};
use csv::StringRecord;

/// What a record of a script is read as.
#[derive(Clone, Copy, Debug, PartialEq, Eq)]
pub enum Role {
    /// No record: the bytes of the text aren't UTF-8.
    Text,
    /// A step of its own, which may be an `apply`.
    Step,
    /// One of the edits that an `apply` before it asks for.
    Edit,
    /// An `apply` that asks for more edits than records stand behind it.
    ShortApply,
}

/// Returns how many edits a record asks for: those of an `apply` whose count can be read, and else
/// none.
fn edits_asked(fields: &StringRecord) -> usize
    ensures { result ≡ edits_asked (fields_of fields.now) }
{
    if field(fields, 0) != "apply" || fields.len() != 3 {
        return 0;
    }
    match read_number(field(fields, 2)) {
        Some(count) if count >= 0 => count as usize,
        _ => 0,
    }
}

/// Returns how many edits are to come behind a record, where so many are to come before it.
fn left_after(fields: &StringRecord, left: usize) -> usize
    ensures { result ≡ left_after (fields_of fields.now) left }
{
    match left {
        0 => edits_asked(fields),
        more => more - 1,
    }
}

/// Returns how many edits are to come behind the first records of a script.
fn edits_left(records: &[StringRecord]) -> usize
    ensures { result ≡ edits_left (map fields_of records.now) 0 }
{
    let mut left = 0;
    for fields in records {
        left = left_after(fields, left);
    }
    left
}

/// Returns what the record at a place, counted from 0, is read as.
pub fn role_at(records: &[StringRecord], at: usize) -> Role
    requires { at < length records.now }
    ensures { result ≡ role_in (map fields_of records.now) at }
{
    if edits_left(&records[..at]) > 0 {
        Role::Edit
    } else if edits_asked(&records[at]) > records.len() - at - 1 {
        Role::ShortApply
    } else {
        Role::Step
    }
}
