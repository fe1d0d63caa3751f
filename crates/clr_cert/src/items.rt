//! What one record of a certificate says.

ghost use Rattle.std.specs.Prelude.{◌≡◌, IfOk, option_map};
ghost use Rattle.csv.specs.Records.{fields_of};
ghost use Rattle.clr_cert.specs.Certificates.{is_empty_behind, is_empty_behind_two, is_root_item, item_by_word, item_of};
ghost use Rattle.clr_cert.specs.Certificates.{record_name_of, record_names_of, record_root_of};
ghost use Rattle.clr_readings.specs.Readings.{Gives};
ghost use Rattle.clr_cert.specs.Faults.{cert_lacks_memory};

use crate::certificates::{Entry, Precedence};
use crate::faults::CertFault;
use crate::limits::RECORD_FIELDS;
use crate::versions::read_entry;
use clr_records::field;
use clr_rows::{LIVE, Schema, Words, good_name};
use csv::StringRecord;
use std::alloc::{AllocError, Global};

/// What a record says.
#[derive(Debug, Drop)]
pub(crate) enum Item {
    Root(Words),
    Member(Words),
    Before(Precedence),
    Need(Entry),
}

impl Item {
    pub(crate) fn is_root(&self) -> bool
        ensures { result ≡ is_root_item self.now }
    {
        matches!(self, Item::Root(_))
    }
}

/// Returns whether all fields of a record behind its name are empty.
fn ends_empty(fields: &StringRecord) -> bool
    ensures { result ≡ is_empty_behind (fields_of fields.now) }
{
    field(fields, 2).is_empty() && ends_empty_behind_two(fields)
}

/// Returns whether all fields of a record behind its two names are empty.
fn ends_empty_behind_two(fields: &StringRecord) -> bool
    ensures { result ≡ is_empty_behind_two (fields_of fields.now) }
{
    field(fields, 3).is_empty() && field(fields, 4).is_empty() && field(fields, 5).is_empty()
}

/// Returns the name in a record, if it is good and the fields behind it are empty.
fn name(fields: &StringRecord) -> Option<&str>
    ensures { option_map (λ name. name.now) result ≡ record_name_of (fields_of fields.now) }
{
    let name = field(fields, 1);
    (good_name(name) && ends_empty(fields)).then_some(name)
}

/// Returns the two names in a record, if they are good and the fields behind them are empty.
fn names(fields: &StringRecord) -> Option<(&str, &str)>
    ensures { option_map (λ names. (names.0.now, names.1.now)) result ≡ record_names_of (fields_of fields.now) }
{
    let (earlier, later) = (field(fields, 1), field(fields, 2));
    let are_right = good_name(earlier) && good_name(later) && ends_empty_behind_two(fields);
    are_right.then_some((earlier, later))
}

/// Returns the root that a record names, if it may name one. `rooted` says whether a root record
/// stands before it.
fn root(rooted: bool, fields: &StringRecord) -> Option<&str>
    ensures { option_map (λ name. name.now) result ≡ record_root_of rooted (fields_of fields.now) }
{
    if rooted {
        return None;
    }
    if field(fields, 1) == LIVE {
        return None;
    }
    name(fields)
}

/// Returns what a record of the right count of fields says. `rooted` says whether a root record
/// stands before it.
fn item_of_six(
    alloc: Global,
    schema: &Schema,
    rooted: bool,
    fields: &StringRecord,
) -> Result<Item, CertFault>
    ensures { Gives cert_lacks_memory (λ x. x) result (item_by_word schema.now rooted (fields_of fields.now)) }
{
    match field(fields, 0) {
        "root" => {
            let name = root(rooted, fields).ok_or(CertFault::BadReference)?;
            Ok(Item::Root(Words::from_str(alloc, name)?))
        }
        "member" => {
            let name = name(fields).ok_or(CertFault::BadReference)?;
            Ok(Item::Member(Words::from_str(alloc, name)?))
        }
        "before" => {
            let (earlier, later) = names(fields).ok_or(CertFault::BadReference)?;
            Ok(Item::Before(Precedence {
                earlier: Words::from_str(alloc, earlier)?,
                later: Words::from_str(alloc, later)?,
            }))
        }
        "need" => {
            let entry = read_entry(schema, fields).ok_or(CertFault::BadReference)?;
            Ok(Item::Need(entry))
        }
        _ => Err(CertFault::BadKind),
    }
}

/// Returns what a record says. `rooted` says whether a root record stands before it.
#[tactic(auto, unfolding(crate::specs::Certificates::item_of))]
pub(crate) fn read_item(
    alloc: Global,
    schema: &Schema,
    rooted: bool,
    fields: &StringRecord,
) -> Result<Item, CertFault>
    ensures { Gives cert_lacks_memory (λ x. x) result (item_of schema.now rooted (fields_of fields.now)) }
{
    if fields.len() == RECORD_FIELDS {
        item_of_six(alloc, schema, rooted, fields)
    } else {
        Err(CertFault::FieldCount)
    }
}
