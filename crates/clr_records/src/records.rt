//! The records of a CSV text, and their fields.

ghost use Rattle.std.specs.Prelude.{◌≡◌, IfOk, map, option_map};
ghost use Rattle.std.specs.Str.{is_utf8};
ghost use Rattle.csv.specs.Reading.{default_config, records, strip_bom};
ghost use Rattle.csv.specs.Records.{fields_of};
ghost use Rattle.clr_records.specs.Records.{field_of, records_in};

use csv::{ReaderBuilder, StringRecord};
use std::alloc::{AllocError, Global};

/// Returns whether the bytes are UTF-8.
fn is_text(bytes: &[u8]) -> bool
    ensures { result ≡ is_utf8 bytes.now }
{
    match str::from_utf8(bytes) {
        Ok(_) => true,
        Err(_) => false,
    }
}

/// Returns every record of a text in UTF-8. It fails only if memory runs out: the fields of such a
/// text are UTF-8, and a reader that takes any number of fields refuses nothing else.
fn records_of_text(alloc: Global, text: &[u8]) -> Result<Vec<StringRecord>, AllocError>
    ensures { IfOk result (λ v. records default_config (strip_bom text.now) ≡ map fields_of v.items) }
{
    let reader = ReaderBuilder::new()
        .has_headers(false)
        .flexible(true)
        .from_reader(alloc, text);
    let mut rows = Vec::new(alloc);
    for row in reader.into_records() {
        match row {
            Ok(row) => rows.push(row)?,
            Err(_) => return Err(AllocError),
        }
    }
    Ok(rows)
}

/// Returns every record of a CSV text, or none where the bytes aren't UTF-8. There are no headers,
/// each record may have any number of fields, and a byte order mark at the beginning is left out.
/// Blank lines are no records.
pub fn records_of(alloc: Global, bytes: &[u8]) -> Result<Option<Vec<StringRecord>>, AllocError>
    ensures { IfOk result (λ found. option_map (λ v. map fields_of v.items) found ≡ records_in bytes.now) }
{
    if !is_text(bytes) {
        return Ok(None);
    }
    Ok(Some(records_of_text(alloc, bytes)?))
}

/// Returns the field at a position, counted from 0, or the empty text where there is none.
pub fn field(fields: &StringRecord, at: usize) -> &str
    ensures { result.now ≡ field_of (fields_of fields.now) at }
{
    match fields.get(at) {
        Some(text) => text,
        None => "",
    }
}
