//! Records of a certificate.
ghost use Rattle.std.specs.Prelude.{◌≡◌, string_bytes, IfOk};
ghost use Rattle.csv.specs.Records.{fields_of};
ghost use Rattle.clr_record_explanations.specs.EntrySlips.{entry_count_sentence, entry_slip, is_root_live, place_behind_name, wrong_entry_count};
ghost use Rattle.clr_record_explanations.specs.EntrySlips.{no_good_name, place_behind_names, wrong_kind, wrong_name, wrong_named_record, wrong_names};
ghost use Rattle.clr_record_explanations.specs.EntrySlips.{wrong_reference};
ghost use Rattle.clr_record_explanations.specs.RecordSlips.{said};

use crate::record_slips::RecordSlip;
use crate::references::{RECORD_FIELDS, bad_need};
use clr_cert::CertFault;
use clr_hints::{GOOD_NAME, name_hint};
use clr_records::field;
use clr_rows::{LIVE, Schema, good_name};
use csv::StringRecord;
use std::alloc::{AllocError, Global};

const KINDS: &[&str] = &["root", "member", "before", "need"];

/// Returns what is said of a record that has so many fields.
fn count_sentence(alloc: Global, count: usize) -> Result<String, AllocError>
    ensures { IfOk result (λ sentence. string_bytes sentence ≡ entry_count_sentence count) }
{
    format!(in alloc; "a record has 6 fields, and here are {count}")
}

/// Returns a hint at the first line of a plan, if a record is one.
fn plan_hint(alloc: Global, fields: &StringRecord) -> Result<Option<String>, AllocError> {
    if !field(fields, 0).starts_with("cleared ") {
        return Ok(None);
    }
    let hint = String::from_str(alloc, "the first line of a plan is no record; leave it out")?;
    Ok(Some(hint))
}

/// Returns the slip that a record has another count of fields than six.
fn bad_count(alloc: Global, fields: &StringRecord) -> Result<RecordSlip, AllocError>
    ensures { IfOk result (λ slip. said slip ≡ wrong_entry_count (fields_of fields.now)) }
{
    let sentence = count_sentence(alloc, fields.len())?;
    let hint = plan_hint(alloc, fields)?;
    Ok(RecordSlip::new(0, sentence).with_hint(hint))
}

/// Returns the slip that a record begins with none of the four words.
fn bad_kind(alloc: Global, fields: &StringRecord) -> Result<RecordSlip, AllocError>
    ensures { IfOk result (λ slip. said slip ≡ wrong_kind (fields_of fields.now)) }
{
    let word = field(fields, 0);
    let sentence = format!(in alloc; "'{word}' is none of root, member, before and need")?;
    let hint = name_hint(alloc, word, KINDS)?;
    Ok(RecordSlip::new(0, sentence).with_hint(hint))
}

/// Returns the first field behind the name of a record that isn't empty.
fn place_behind_name(fields: &StringRecord) -> Option<usize>
    ensures { result ≡ place_behind_name (fields_of fields.now) }
{
    (2..RECORD_FIELDS).find(|at| !field(fields, *at).is_empty())
}

fn is_root_live(fields: &StringRecord) -> bool
    ensures { result ≡ is_root_live (fields_of fields.now) }
{
    field(fields, 0) == "root" && field(fields, 1) == LIVE
}

/// Returns what is wrong with a record of a good name.
fn bad_record_of_name(alloc: Global, fields: &StringRecord) -> Result<RecordSlip, AllocError>
    ensures { IfOk result (λ slip. said slip ≡ wrong_named_record (place_behind_name (fields_of fields.now))) }
{
    match place_behind_name(fields) {
        Some(at) => RecordSlip::of_words(alloc, at, "a field behind the name must be empty"),
        None => RecordSlip::of_words(alloc, 0, "a root record stands before this one"),
    }
}

/// Returns the slip that a name is no good one.
fn no_good_name(alloc: Global, at: usize, name: &str) -> Result<RecordSlip, AllocError>
    ensures { IfOk result (λ slip. said slip ≡ (at, no_good_name name.now)) }
{
    let sentence = format!(in alloc; "'{name}' is no good name of a workspace: {GOOD_NAME}")?;
    Ok(RecordSlip::new(at, sentence))
}

/// Returns what is wrong with a record of a name.
fn bad_name(alloc: Global, fields: &StringRecord) -> Result<RecordSlip, AllocError>
    ensures { IfOk result (λ slip. said slip ≡ wrong_name (fields_of fields.now)) }
{
    if is_root_live(fields) {
        return RecordSlip::of_words(alloc, 1, "LIVE is the root where no record names one");
    }
    let name = field(fields, 1);
    if good_name(name) {
        return bad_record_of_name(alloc, fields);
    }
    no_good_name(alloc, 1, name)
}

/// Returns the first field behind the two names of a record that isn't empty.
fn place_behind_names(fields: &StringRecord) -> Option<usize>
    ensures { result ≡ place_behind_names (fields_of fields.now) }
{
    (3..RECORD_FIELDS).find(|at| !field(fields, *at).is_empty())
}

/// Returns what is wrong with a record of two names.
fn bad_names(alloc: Global, fields: &StringRecord) -> Result<RecordSlip, AllocError>
    ensures { IfOk result (λ slip. said slip ≡ wrong_names (fields_of fields.now)) }
{
    let (earlier, later) = (field(fields, 1), field(fields, 2));
    if !good_name(earlier) {
        return no_good_name(alloc, 1, earlier);
    }
    if !good_name(later) {
        return no_good_name(alloc, 2, later);
    }
    let at = place_behind_names(fields).unwrap_or(3);
    RecordSlip::of_words(alloc, at, "a field behind the two names must be empty")
}

/// Returns what is wrong with a record that refers to what can't be.
fn bad_reference(
    alloc: Global,
    schema: &Schema,
    fields: &StringRecord,
) -> Result<RecordSlip, AllocError>
    ensures { IfOk result (λ slip. said slip ≡ wrong_reference schema.now (fields_of fields.now)) }
{
    match field(fields, 0) {
        "need" => bad_need(alloc, schema, fields),
        "before" => bad_names(alloc, fields),
        _ => bad_name(alloc, fields),
    }
}

/// Returns what is wrong with a record of a certificate, for the fault that it has.
pub fn explain_entry(
    alloc: Global,
    schema: &Schema,
    fields: &StringRecord,
    fault: CertFault,
) -> Result<RecordSlip, AllocError>
    ensures { IfOk result (λ slip. said slip ≡ entry_slip schema.now fault (fields_of fields.now)) }
{
    match fault {
        CertFault::FieldCount => bad_count(alloc, fields),
        CertFault::BadReference => bad_reference(alloc, schema, fields),
        _ => bad_kind(alloc, fields),
    }
}
