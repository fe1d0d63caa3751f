//! Where records and their fields begin in a text of CSV.

ghost use Rattle.std.specs.Prelude.{◌≡◌, ◌++◌, ◌∷◌, [], ◌+◌, ◌<◌, ◌≤◌, ◌^◌, IfOk, OnOk, length, if◌then◌else◌};
ghost use Rattle.csv.specs.Machine.{in_field, start_field, start_record, step};
ghost use Rattle.csv.specs.Reading.{default_config, strip_bom};
ghost use Rattle.clr_layer_faults.specs.FieldPlaces.{begins_record, ends_field, field_offset, field_place, next_state, record_start, record_starts, seen};

use clr_hints::has_byte_order_mark;
use std::alloc::{AllocError, Global};

/// Where a reader of records is.
#[derive(Clone, Copy, PartialEq, Eq, Debug)]
pub(crate) enum Reading {
    /// Before a record.
    Between,
    /// Before a record, behind a carriage return.
    BehindReturn,
    /// Before a field.
    Before,
    /// In a field without quotes.
    Bare,
    /// In a field in quotes.
    Quoted,
    /// Behind a quote in a field in quotes, which is its closing one or the first of two.
    Closing,
}

/// Returns where a reader is behind a byte of a field without quotes, and whether the byte ends the field before another one.
fn behind_bare(byte: u8) -> (Reading, bool)
    ensures state { seen result.0 ≡ (in_field default_config byte).0 }
    ensures ends { result.1 ≡ ends_field (in_field default_config byte).1 }
{
    if byte == b',' {
        (Reading::Before, true)
    } else if byte == b'\r' {
        (Reading::BehindReturn, false)
    } else if byte == b'\n' {
        (Reading::Between, false)
    } else {
        (Reading::Bare, false)
    }
}

/// Returns the same behind the first byte of a field.
fn behind_first(byte: u8) -> (Reading, bool)
    ensures state { seen result.0 ≡ (start_field default_config byte).0 }
    ensures ends { result.1 ≡ ends_field (start_field default_config byte).1 }
{
    if byte == b'"' {
        (Reading::Quoted, false)
    } else {
        behind_bare(byte)
    }
}

/// Returns the same behind a byte that stands before a record or begins one.
fn behind_between(byte: u8) -> (Reading, bool)
    ensures state { seen result.0 ≡ (start_record default_config byte).0 }
    ensures ends { result.1 ≡ ends_field (start_record default_config byte).1 }
{
    if byte == b'\r' || byte == b'\n' {
        (Reading::Between, false)
    } else {
        behind_first(byte)
    }
}

/// Returns where a reader is behind one more byte, and whether the byte ends a field before another one.
fn behind(reading: Reading, byte: u8) -> (Reading, bool)
    ensures state { seen result.0 ≡ next_state (seen reading) byte }
    ensures ends { result.1 ≡ ends_field (step default_config (seen reading) byte).1 }
{
    match reading {
        Reading::Between => behind_between(byte),
        Reading::BehindReturn if byte == b'\n' => (Reading::Between, false),
        Reading::BehindReturn => behind_between(byte),
        Reading::Before => behind_first(byte),
        Reading::Bare => behind_bare(byte),
        Reading::Quoted if byte == b'"' => (Reading::Closing, false),
        Reading::Quoted => (Reading::Quoted, false),
        Reading::Closing if byte == b'"' => (Reading::Quoted, false),
        Reading::Closing => behind_bare(byte),
    }
}

/// Returns whether a record begins at a byte.
fn begins_record(reading: Reading, byte: u8) -> bool
    ensures { result ≡ begins_record (seen reading) byte }
{
    match reading {
        Reading::Between | Reading::BehindReturn => byte != b'\r' && byte != b'\n',
        _ => false,
    }
}

/// Adds an offset behind others where a test holds.
fn add_if(starts: &mut Vec<usize>, test: bool, at: usize) -> Result<(), AllocError>
    ensures { OnOk result (starts.new.items ≡ starts.old.items ++ (if test then at ∷ [] else [])) }
{
    if test {
        starts.push(at)?;
    }
    Ok(())
}

/// Returns the offsets at which the records of a text begin, ascending.
pub fn record_starts(alloc: Global, bytes: &[u8]) -> Result<Vec<usize>, AllocError>
    ensures { IfOk result (λ starts. starts.items ≡ record_starts bytes.now) }
{
    let mut starts = Vec::new(alloc);
    let mut reading = Reading::Between;
    for at in 0..bytes.len() {
        let byte = bytes[at];
        add_if(&mut starts, begins_record(reading, byte), at)?;
        reading = behind(reading, byte).0;
    }
    Ok(starts)
}

/// Returns a count, with one more where a test holds.
fn one_more_if(test: bool, count: usize) -> usize
    requires { count + 1 < 2 ^ 64 }
    ensures { result ≡ (if test then count + 1 else count) }
{
    if test { count + 1 } else { count }
}

/// Returns where a field begins of the record that begins at the front of some bytes, counted from 0; their front where there is none.
fn field_offset(bytes: &[u8], field: usize) -> usize
    ensures value { result ≡ field_offset bytes.now field }
    ensures within { result ≤ length bytes.now }
{
    let mut reading = Reading::Between;
    let mut ended = 0;
    for at in 0..bytes.len() {
        if ended == field {
            return at;
        }
        let (next, ends) = behind(reading, bytes[at]);
        reading = next;
        ended = one_more_if(ends, ended);
    }
    if ended == field { bytes.len() } else { 0 }
}

/// Returns where the record of a number begins, or the front of the text where there is none.
fn record_start(bytes: &[u8], starts: &[usize], number: usize) -> usize
    requires { starts.now ≡ record_starts bytes.now }
    ensures value { result ≡ record_start bytes.now number }
    ensures within { result ≤ length bytes.now }
{
    match starts.get(number.saturating_sub(1)) {
        Some(start) => *start,
        None => 0,
    }
}

/// Returns where a field of the record of a number begins in a text. Records are counted from 1, and fields from 0. What is given beside the text
/// is where its records begin.
pub fn field_place(bytes: &[u8], starts: &[usize], number: usize, field: usize) -> usize
    requires { starts.now ≡ record_starts bytes.now }
    ensures place { result ≡ field_place bytes.now number field }
    ensures within { result ≤ length bytes.now }
{
    let start = record_start(bytes, starts, number);
    start + field_offset(&bytes[start..], field)
}

/// Returns a text without the byte order mark that it may begin with.
pub fn without_mark(text: &[u8]) -> &[u8]
    ensures { result.now ≡ strip_bom text.now }
{
    if has_byte_order_mark(text) {
        &text[3..]
    } else {
        text
    }
}
