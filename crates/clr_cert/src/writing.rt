//! Writing certificates.

ghost use Rattle.std.specs.Prelude.{◌≡◌, ◌++◌, Ok, None, IfOk, OnOk, MatchOption, IfSome, map};
ghost use Rattle.std.specs.List.{All};
ghost use Rattle.csv.specs.Writing.{default_writer, row_text};
ghost use Rattle.clr_rows.specs.Beginnings.{IsBegun};
ghost use Rattle.clr_rows.specs.Schemas.{schema_fault};
ghost use Rattle.clr_cert.specs.Certificates.{certificate_in};
ghost use Rattle.clr_records.specs.Writing.{IsBetween, records_text, written_by};
ghost use Rattle.clr_cert.specs.Texts.{IsReadBackWhereNamed, IsWellFormed, before_fields, certificate_text, entry_fields, member_fields, name_fields};
ghost use Rattle.clr_cert.specs.Texts.{fresh_word, entry_part_text, root_records};
ghost use Rattle.clr_cert.specs.Texts.{entry_second_text, entry_subject_text, two_text, version_text};

use crate::certificates::{Certificate, Entry, Precedence};
use clr_needs::VersionId;
use clr_rows::{LIVE, Schema, Words};
use csv::{Writer, WriterBuilder};
use itoa::Buffer;
use std::alloc::{AllocError, Global};

/// Returns the word of an old version or of a new one.
fn fresh_text(fresh: bool) -> &'static str
    ensures { result.now ≡ fresh_word fresh }
{
    if fresh { "new" } else { "old" }
}

/// Adds a version, as `main/20/new`. If memory runs out, the text keeps what stood in it, with a
/// beginning of the version behind it.
fn add_version(text: &mut Vec<u8>, schema: &Schema, version: VersionId) -> Result<(), AllocError>
    ensures added { OnOk result (text.new.items ≡ text.old.items ++ version_text schema.now version) }
    ensures begun { IsBegun text.old.items (version_text schema.now version) text.new.items }
    ensures sound { OnOk result (schema_fault schema.now ≡ None) }
{
    text.extend_from_slice(schema.name_of_table(version.cell.table).as_bytes())?;
    text.extend_from_slice(b"/")?;
    text.extend_from_slice(Buffer::new().format(version.cell.key).as_bytes())?;
    text.extend_from_slice(b"/")?;
    text.extend_from_slice(fresh_text(version.fresh).as_bytes())
}

/// Adds the part of a subject, where it isn't 1.
fn add_part(text: &mut Vec<u8>, part: u16) -> Result<(), AllocError>
    ensures ok { OnOk result (text.new.items ≡ text.old.items ++ entry_part_text part) }
    ensures begun { IsBegun text.old.items (entry_part_text part) text.new.items }
{
    if part == 1 {
        return Ok(());
    }
    text.extend_from_slice(b"/")?;
    text.extend_from_slice(Buffer::new().format(part).as_bytes())
}

/// Adds a subject, as `main/20/old/3`: its version, and its part where that isn't 1. The name of a
/// table that the schema hasn't is empty. If memory runs out, the text keeps what stood in it, with
/// a beginning of the subject behind it.
pub fn add_subject(
    text: &mut Vec<u8>,
    schema: &Schema,
    version: VersionId,
    part: u16,
) -> Result<(), AllocError>
    ensures ok { OnOk result (text.new.items ≡ text.old.items ++ entry_subject_text schema.now version part) }
    ensures begun { IsBegun text.old.items (entry_subject_text schema.now version part) text.new.items }
{
    add_version(text, schema, version)?;
    add_part(text, part)
}

/// Returns a version as it is written.
fn version_in_text(
    alloc: Global,
    schema: &Schema,
    version: VersionId,
) -> Result<Vec<u8>, AllocError>
    ensures value { IfOk result (λ text. text.items ≡ version_text schema.now version) }
    ensures sound { OnOk result (schema_fault schema.now ≡ None) }
{
    let mut text = Vec::new(alloc);
    add_version(&mut text, schema, version)?;
    Ok(text)
}

/// Returns a subject as it is written.
fn subject_in_text(
    alloc: Global,
    schema: &Schema,
    version: VersionId,
    part: u16,
) -> Result<Vec<u8>, AllocError>
    ensures { IfOk result (λ text. text.items ≡ entry_subject_text schema.now version part) }
{
    let mut text = Vec::new(alloc);
    add_subject(&mut text, schema, version, part)?;
    Ok(text)
}

/// Returns a second subject as it is written: nothing where there is none.
fn second_in_text(
    alloc: Global,
    schema: &Schema,
    second: Option<VersionId>,
    part: u16,
) -> Result<Vec<u8>, AllocError>
    ensures { IfOk result (λ text. text.items ≡ entry_second_text schema.now second part) }
{
    match second {
        None => Ok(Vec::new(alloc)),
        Some(version) => subject_in_text(alloc, schema, version, part),
    }
}

/// Returns a second witness as it is written: nothing where there is none.
fn two_in_text(
    alloc: Global,
    schema: &Schema,
    two: Option<VersionId>,
) -> Result<Vec<u8>, AllocError>
    ensures { IfOk result (λ text. text.items ≡ two_text schema.now two) }
{
    match two {
        None => Ok(Vec::new(alloc)),
        Some(version) => version_in_text(alloc, schema, version),
    }
}

/// Writes a record by a writer that is between two records.
fn add_record(writer: &mut Writer<Vec<u8>>, fields: &[&[u8]]) -> Result<(), AllocError>
    requires { IsBetween writer.old }
    ensures between { OnOk result (IsBetween writer.new) }
    ensures written { OnOk result (written_by writer.new ≡ written_by writer.old ++ row_text default_writer (map (λ field. field.now) fields.now)) }
{
    match writer.write_fields(fields) {
        Ok(()) => Ok(()),
        Err(_) => Err(AllocError),
    }
}

/// Writes the record of a word and a name.
fn add_name(writer: &mut Writer<Vec<u8>>, word: &str, name: &str) -> Result<(), AllocError>
    requires { IsBetween writer.old }
    ensures between { OnOk result (IsBetween writer.new) }
    ensures written { OnOk result (written_by writer.new ≡ written_by writer.old ++ row_text default_writer (name_fields word.now name.now)) }
{
    let empty = b"".as_slice();
    add_record(
        writer,
        &[word.as_bytes(), name.as_bytes(), empty, empty, empty, empty],
    )
}

/// Writes the root's record, where one is written.
fn add_root(writer: &mut Writer<Vec<u8>>, root: &str) -> Result<(), AllocError>
    requires { IsBetween writer.old }
    ensures between { OnOk result (IsBetween writer.new) }
    ensures written { OnOk result (written_by writer.new ≡ written_by writer.old ++ records_text (root_records root.now)) }
{
    if root == LIVE {
        return Ok(());
    }
    add_name(writer, "root", root)
}

fn add_members(writer: &mut Writer<Vec<u8>>, members: &[Words]) -> Result<(), AllocError>
    requires { IsBetween writer.old }
    ensures between { OnOk result (IsBetween writer.new) }
    ensures written { OnOk result (written_by writer.new ≡ written_by writer.old ++ records_text (map member_fields members.now)) }
{
    for name in members {
        add_name(writer, "member", name.as_str())?;
    }
    Ok(())
}

fn add_precedence(writer: &mut Writer<Vec<u8>>, precedence: &Precedence) -> Result<(), AllocError>
    requires { IsBetween writer.old }
    ensures between { OnOk result (IsBetween writer.new) }
    ensures written { OnOk result (written_by writer.new ≡ written_by writer.old ++ row_text default_writer (before_fields precedence.now)) }
{
    let empty = b"".as_slice();
    add_record(
        writer,
        &[
            b"before".as_slice(),
            precedence.earlier.as_str().as_bytes(),
            precedence.later.as_str().as_bytes(),
            empty,
            empty,
            empty,
        ],
    )
}

fn add_precedences(
    writer: &mut Writer<Vec<u8>>,
    precedences: &[Precedence],
) -> Result<(), AllocError>
    requires { IsBetween writer.old }
    ensures between { OnOk result (IsBetween writer.new) }
    ensures written { OnOk result (written_by writer.new ≡ written_by writer.old ++ records_text (map before_fields precedences.now)) }
{
    for precedence in precedences {
        add_precedence(writer, precedence)?;
    }
    Ok(())
}

fn add_entry(
    alloc: Global,
    writer: &mut Writer<Vec<u8>>,
    schema: &Schema,
    entry: Entry,
) -> Result<(), AllocError>
    requires { IsBetween writer.old }
    ensures between { OnOk result (IsBetween writer.new) }
    ensures written { OnOk result (written_by writer.new ≡ written_by writer.old ++ row_text default_writer (entry_fields schema.now entry)) }
    ensures read_back { OnOk result (IsReadBackWhereNamed schema.now entry) }
{
    let need = entry.need;
    let mut digits = Buffer::new();
    let rule = digits.format(need.rule);
    let first = subject_in_text(alloc, schema, need.first, need.first_part)?;
    let second = second_in_text(alloc, schema, need.second, need.second_part)?;
    let one = version_in_text(alloc, schema, entry.one)?;
    let two = two_in_text(alloc, schema, entry.two)?;
    add_record(
        writer,
        &[
            b"need".as_slice(),
            rule.as_bytes(),
            first.as_slice(),
            second.as_slice(),
            one.as_slice(),
            two.as_slice(),
        ],
    )
}

fn add_entries(
    alloc: Global,
    writer: &mut Writer<Vec<u8>>,
    schema: &Schema,
    entries: &[Entry],
) -> Result<(), AllocError>
    requires { IsBetween writer.old }
    ensures between { OnOk result (IsBetween writer.new) }
    ensures written { OnOk result (written_by writer.new ≡ written_by writer.old ++ records_text (map (entry_fields schema.now) entries.now)) }
    ensures read_back { OnOk result (All (IsReadBackWhereNamed schema.now) entries.now) }
{
    for entry in entries {
        add_entry(alloc, writer, schema, *entry)?;
    }
    Ok(())
}

/// Returns the text of a certificate, a CSV record of six fields on each line, ended by `\n`: the
/// root where it isn't LIVE, the members in order, the precedences in order, and the entries in
/// order. The name of a table
/// that the schema hasn't is empty. Reading the text gives the same certificate where the names are
/// good, the schema names each cell, and parts are 1 to 31, and 1 where there is no second subject.
/// For example, the text of a certificate without members and entries is empty where the root is LIVE. A member `W1`
/// is written as the line `member,W1,,,,`, and that `W1` goes before `W2` as `before,W1,W2,,,`.
pub fn write_certificate(
    alloc: Global,
    schema: &Schema,
    certificate: &Certificate,
) -> Result<Vec<u8>, AllocError>
    ensures written { IfOk result (λ text. text.items ≡ certificate_text schema.now certificate.now) }
    ensures read_back { IfOk result (λ text. IsWellFormed schema.now certificate.now → certificate_in schema.now text.items ≡ Ok certificate.now) }
{
    let mut writer = WriterBuilder::new().from_writer(Vec::new(alloc));
    add_root(&mut writer, certificate.root.as_str())?;
    add_members(&mut writer, certificate.members.as_slice())?;
    add_precedences(&mut writer, certificate.before.as_slice())?;
    add_entries(alloc, &mut writer, schema, certificate.entries.as_slice())?;
    match writer.into_inner() {
        Ok(text) => Ok(text),
        Err(_) => Err(AllocError),
    }
}
