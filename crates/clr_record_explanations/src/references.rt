//! Rules and versions of rows that a need of a certificate names.
ghost use Rattle.std.specs.Prelude.{◌≡◌, option_map, IfOk};
ghost use Rattle.csv.specs.Records.{fields_of};
ghost use Rattle.clr_cert.specs.Versions.{slash_cut_of};
ghost use Rattle.clr_record_explanations.specs.EntrySlips.{is_key_and_rest, is_no_version, is_rule_number, is_version, is_version_word, is_word_and_part};
ghost use Rattle.clr_record_explanations.specs.EntrySlips.{may_be_missing, no_rule, version_place, wrong_need, wrong_version};
ghost use Rattle.clr_record_explanations.specs.RecordSlips.{said};

use crate::record_slips::RecordSlip;
use clr_hints::{name_hint, table_names};
use clr_records::{field, read_number};
use clr_rows::Schema;
use csv::StringRecord;
use std::alloc::{AllocError, Global};

/// The count of fields of each record.
pub(crate) const RECORD_FIELDS: usize = 6;

/// The field of the first witness; those between it and the rule are subjects.
const FIRST_WITNESS: usize = 4;

/// Returns what stands before and behind the first `/` of a text.
#[tactic(auto, unfolding(clr_cert::specs::Versions::slash_cut_of))]
fn cut(text: &str) -> Option<(&str, &str)>
    ensures { option_map (λ parts. (parts.0.now, parts.1.now)) result ≡ slash_cut_of text.now }
{
    text.split_once('/')
}

fn is_version_word(word: &str) -> bool
    ensures { result ≡ is_version_word word.now }
{
    word == "old" || word == "new"
}

/// Returns whether the word of a version is right, with the number of a part behind it where there may
/// be one.
fn is_word_and_part(text: &str, may_have_part: bool) -> bool
    ensures { result ≡ is_word_and_part may_have_part text.now (slash_cut_of text.now) }
{
    match cut(text) {
        Some((word, part)) => is_version_word(word) && may_have_part && read_number(part).is_some(),
        None => is_version_word(text),
    }
}

/// Returns whether a key stands before what stands behind it in a version.
fn is_key_and_rest(text: &str, may_have_part: bool) -> bool
    ensures { result ≡ is_key_and_rest may_have_part (slash_cut_of text.now) }
{
    match cut(text) {
        Some((key, rest)) => read_number(key).is_some() && is_word_and_part(rest, may_have_part),
        None => false,
    }
}

/// Returns whether a text has the form of a version of a row of a known table, with a part behind it where it is a
/// subject.
fn is_version(schema: &Schema, text: &str, may_have_part: bool) -> bool
    ensures { result ≡ is_version schema.now may_have_part text.now }
{
    match cut(text) {
        Some((table, rest)) => schema.table(table).is_some()
            && is_key_and_rest(rest, may_have_part),
        None => false,
    }
}

/// Returns whether a version may be missing: the second subject and the second witness.
fn may_be_missing(at: usize) -> bool
    ensures { result ≡ may_be_missing at }
{
    at == 3 || at == 5
}

/// Returns whether a field of a need has no form that it can have.
fn is_no_version(schema: &Schema, fields: &StringRecord, at: usize) -> bool
    ensures { result ≡ is_no_version schema.now (fields_of fields.now) at }
{
    let text = field(fields, at);
    !(is_version(schema, text, at < FIRST_WITNESS) || text.is_empty() && may_be_missing(at))
}

/// Returns a hint at the table of a version, where it isn't known.
fn table_hint(alloc: Global, schema: &Schema, text: &str) -> Result<Option<String>, AllocError> {
    let Some((table, _)) = text.split_once('/') else {
        return Ok(None);
    };
    if schema.table(table).is_some() {
        return Ok(None);
    }
    let names = table_names(alloc, schema)?;
    name_hint(alloc, table, names.as_slice())
}

/// Returns the slip that a field of a need is no version of a row, or, where there is no such field, that a number in
/// one is out of range.
fn bad_version(
    alloc: Global,
    schema: &Schema,
    fields: &StringRecord,
    place: Option<usize>,
) -> Result<RecordSlip, AllocError>
    ensures { IfOk result (λ slip. said slip ≡ wrong_version (fields_of fields.now) place) }
{
    let Some(at) = place else {
        return RecordSlip::of_words(alloc, 2, "a key or a part is out of range");
    };
    let text = field(fields, at);
    let sentence = format!(in alloc;
        "'{text}' is no version of a row, which is TABLE/KEY/old or TABLE/KEY/new"
    )?;
    let hint = table_hint(alloc, schema, text)?;
    Ok(RecordSlip::new(at, sentence).with_hint(hint))
}

fn is_rule_number(number: Option<i64>) -> bool
    ensures { result ≡ is_rule_number number }
{
    match number {
        Some(number) => 0 <= number && number <= 65535,
        None => false,
    }
}

/// Returns the first field behind the rule of a need that has no form that it can have, if any.
fn version_place(schema: &Schema, fields: &StringRecord) -> Option<usize>
    ensures { result ≡ version_place schema.now (fields_of fields.now) }
{
    (2..RECORD_FIELDS).find(|at| is_no_version(schema, fields, *at))
}

/// Returns the slip that the rule of a need is no number of one.
fn bad_rule(alloc: Global, fields: &StringRecord) -> Result<RecordSlip, AllocError>
    ensures { IfOk result (λ slip. said slip ≡ no_rule (fields_of fields.now)) }
{
    let rule = field(fields, 1);
    let sentence = format!(in alloc; "'{rule}' is no number of a rule, which is 0 to 65535")?;
    Ok(RecordSlip::new(1, sentence))
}

/// Returns what is wrong with a need, whose rule or one of whose versions can't be.
pub(crate) fn bad_need(
    alloc: Global,
    schema: &Schema,
    fields: &StringRecord,
) -> Result<RecordSlip, AllocError>
    ensures { IfOk result (λ slip. said slip ≡ wrong_need schema.now (fields_of fields.now)) }
{
    if is_rule_number(read_number(field(fields, 1))) {
        bad_version(alloc, schema, fields, version_place(schema, fields))
    } else {
        bad_rule(alloc, fields)
    }
}
