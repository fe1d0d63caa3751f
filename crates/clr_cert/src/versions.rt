//! The versions, the subjects and the needs that fields name.

ghost use Rattle.std.specs.Prelude.{◌≡◌, option_map};
ghost use Rattle.csv.specs.Records.{fields_of};
ghost use Rattle.clr_cert.specs.Versions.{cell_and_rest, slash_cut_of, entry_of, fresh_of, if_named, written_part_of};
ghost use Rattle.clr_cert.specs.Versions.{rule_of, second_of, subject_of, two_of, written_version_of, word_and_part};

use crate::certificates::Entry;
use crate::limits::GREATEST_PART;
use clr_needs::{Need, VersionId};
use clr_records::{field, read_number};
use clr_rows::{CellId, Schema};
use csv::StringRecord;

/// Returns what stands before and behind the first `/` of a text.
#[tactic(auto, unfolding(crate::specs::Versions::slash_cut_of))]
fn cut(text: &str) -> Option<(&str, &str)>
    ensures { option_map (λ parts. (parts.0.now, parts.1.now)) result ≡ slash_cut_of text.now }
{
    text.split_once('/')
}

/// Returns a cell, if the schema names it.
fn known_cell(schema: &Schema, cell: CellId) -> Option<CellId>
    ensures { result ≡ if_named schema.now cell }
{
    match schema.names_cell(cell) {
        Ok(()) => Some(cell),
        Err(_) => None,
    }
}

/// Returns the cell of a text `TABLE/KEY/..`, and what stands behind it.
#[tactic(auto, unfolding(crate::specs::Versions::cell_and_rest))]
fn cell<'a>(schema: &Schema, text: &'a str) -> Option<(CellId, &'a str)>
    ensures { option_map (λ found. (found.0, found.1.now)) result ≡ cell_and_rest schema.now text.now }
{
    let (name, behind) = cut(text)?;
    let (digits, rest) = cut(behind)?;
    let table = schema.table(name)?;
    let key = read_number(digits)?;
    let cell = known_cell(schema, CellId { table, key })?;
    Some((cell, rest))
}

/// Returns whether a word says the new version, or none for a word that says neither.
fn fresh_in_word(word: &str) -> Option<bool>
    ensures { result ≡ fresh_of word.now }
{
    match word {
        "old" => Some(false),
        "new" => Some(true),
        _ => None,
    }
}

/// Returns the version that a witness names.
#[tactic(auto, unfolding(crate::specs::Versions::written_version_of))]
fn version(schema: &Schema, text: &str) -> Option<VersionId>
    ensures { result ≡ written_version_of schema.now text.now }
{
    let (cell, word) = cell(schema, text)?;
    let fresh = fresh_in_word(word)?;
    Some(VersionId { cell, fresh })
}

/// Returns the part that a number above 1 names, if a path can have it.
fn part(number: i64) -> Option<u16>
    ensures { result ≡ written_part_of number }
{
    if 1 < number && number <= GREATEST_PART as i64 {
        Some(number as u16)
    } else {
        None
    }
}

/// Returns the word of a version, and the part behind it, which is 1 where none is written.
fn word_with_part(text: &str) -> Option<(&str, u16)>
    ensures { option_map (λ found. (found.0.now, found.1)) result ≡ word_and_part text.now }
{
    match cut(text) {
        None => Some((text, 1)),
        Some((word, digits)) => Some((word, part(read_number(digits)?)?)),
    }
}

/// Returns the version that a subject names, and its part.
#[tactic(auto, unfolding(crate::specs::Versions::subject_of))]
fn subject(schema: &Schema, text: &str) -> Option<(VersionId, u16)>
    ensures { result ≡ subject_of schema.now text.now }
{
    let (cell, last) = cell(schema, text)?;
    let (word, part) = word_with_part(last)?;
    let fresh = fresh_in_word(word)?;
    Some((VersionId { cell, fresh }, part))
}

/// Returns the version that a second subject names, or none, and its part, which is 1 then.
fn second(schema: &Schema, text: &str) -> Option<(Option<VersionId>, u16)>
    ensures { result ≡ second_of schema.now text.now }
{
    if text.is_empty() {
        return Some((None, 1));
    }
    let (version, part) = subject(schema, text)?;
    Some((Some(version), part))
}

/// Returns the version that a second witness names, or none.
fn two(schema: &Schema, text: &str) -> Option<Option<VersionId>>
    ensures { result ≡ two_of schema.now text.now }
{
    if text.is_empty() {
        Some(None)
    } else {
        Some(Some(version(schema, text)?))
    }
}

/// Returns the number of a rule, if it is 0 to 65,535.
fn rule(number: i64) -> Option<u16>
    ensures { result ≡ rule_of number }
{
    u16::try_from(number).ok()
}

/// Returns the need of a record, and its witnesses.
#[tactic(auto, unfolding(crate::specs::Versions::entry_of))]
pub(crate) fn read_entry(schema: &Schema, fields: &StringRecord) -> Option<Entry>
    ensures { result ≡ entry_of schema.now (fields_of fields.now) }
{
    let rule = rule(read_number(field(fields, 1))?)?;
    let (first, first_part) = subject(schema, field(fields, 2))?;
    let (second, second_part) = second(schema, field(fields, 3))?;
    let one = version(schema, field(fields, 4))?;
    let two = two(schema, field(fields, 5))?;
    let need = Need {
        rule,
        first,
        second,
        first_part,
        second_part,
    };
    Some(Entry { need, one, two })
}
