//! Reading certificates.

ghost use Rattle.std.specs.Prelude.{◌≡◌, IfErr, IfOk, OnErr, OnOk, map};
ghost use Rattle.csv.specs.Records.{fields_of};
ghost use Rattle.clr_cert.specs.Certificates.{certificate_in, certificate_of, nothing_said, with_next};
ghost use Rattle.clr_readings.specs.Readings.{GivesAt};
ghost use Rattle.clr_cert.specs.Faults.{cert_lacks_memory};
ghost use Rattle.clr_cert.specs.Texts.{IsWellFormed};
ghost use Rattle.clr_cert.specs.declared.faults.CertFault.TheVariants as fault;

use crate::certificates::{Certificate, Entries, Precedences};
use crate::faults::{CertFault, numbered_fault};
use crate::items::{Item, read_item};
use clr_records::records_of;
use clr_rows::{LIVE, Names, Schema, Words};
use csv::StringRecord;
use std::alloc::{AllocError, Global};

/// Returns the certificate that no record makes: its root is LIVE, without members, precedences and entries.
fn empty_certificate(alloc: Global) -> Result<Certificate, AllocError>
    ensures { IfOk result (λ certificate. certificate ≡ nothing_said) }
{
    Ok(Certificate {
        root: Words::from_str(alloc, LIVE)?,
        members: Names::new(Vec::new(alloc)),
        before: Precedences::new(Vec::new(alloc)),
        entries: Entries::new(Vec::new(alloc)),
    })
}

/// Adds what the next record says. It fails only with `OutOfMemory`, and then nothing changes.
fn add(certificate: &mut Certificate, item: Item) -> Result<(), CertFault>
    ensures ok { OnOk result (certificate.new ≡ with_next certificate.old item) }
    ensures err { IfErr result (λ e. e ≡ fault.OutOfMemory) }
    ensures kept { OnErr result (certificate.new ≡ certificate.old) }
{
    match item {
        Item::Root(name) => certificate.root = name,
        Item::Member(name) => certificate.members.push(name)?,
        Item::Before(precedence) => certificate.before.push(precedence)?,
        Item::Need(entry) => certificate.entries.push(entry)?,
    }
    Ok(())
}

/// Returns the certificate of all records.
fn read_records(
    alloc: Global,
    schema: &Schema,
    records: &[StringRecord],
) -> Result<Certificate, (usize, CertFault)>
    ensures { GivesAt cert_lacks_memory (λ x. x) result (certificate_of schema.now (map fields_of records.now)) }
{
    let Ok(mut certificate) = empty_certificate(alloc) else {
        return Err((0, CertFault::OutOfMemory));
    };
    let mut rooted = false;
    for (i, fields) in records.iter().enumerate() {
        let item = match read_item(alloc, schema, rooted, fields) {
            Ok(item) => item,
            Err(fault) => return Err(numbered_fault(i + 1, fault)),
        };
        rooted |= item.is_root();
        if add(&mut certificate, item).is_err() {
            return Err((0, CertFault::OutOfMemory));
        }
    }
    Ok(certificate)
}

/// Reads a certificate, a CSV record of six fields each, in any order: `root,NAME,,,,` at most once
/// and never with LIVE, `member,NAME,,,,`, `before,EARLIER,LATER,,,` with two names, and
/// `need,RULE,FIRST,SECOND,ONE,TWO` with a rule's number, one or two subjects and one or two
/// witnesses. A version is `TABLE/KEY/old` or `TABLE/KEY/new`. Behind a subject `/` and the number
/// of its part follow where that is above 1. Without a root record the root is LIVE. Members stand
/// in the order of their records, and so do precedences and entries; nothing is asked of them beyond
/// this form. What is read can be written. The fault is that of the first record that has one,
/// beside the record's number, counted from 1. In each record the count of fields is tested first,
/// then the first field, and then the others.
///
/// For example, this is a certificate of the members `W1` and `W2`, of which `W1` is to be merged first, with an
/// entry of two subjects and two witnesses:
///
/// ```text
/// member,W1,,,,
/// member,W2,,,,
/// before,W1,W2,,,
/// need,1,main/1/old,main/2/old,node/9/old,node/10/new
/// ```
///
/// Fails with `NotCsv` at 1 where the bytes aren't UTF-8, with `FieldCount` where a record hasn't
/// six fields, with `BadKind` where the first field is none of `root`, `member`, `before` and
/// `need`, and with `BadReference` where a name isn't good, a field that must be empty isn't, a root record is
/// the second or names LIVE, a rule isn't a number from 0 to 65,535, a version is of another form,
/// of a table that the schema hasn't or of a key outside 1 to 999,999,999,999,999, a part is
/// outside 2 to 31 or stands behind a witness, or a number isn't decimal in its one form. Fails
/// with `OutOfMemory` at 0 if memory runs out, which may come in place of any other answer.
pub fn read_certificate(
    alloc: Global,
    schema: &Schema,
    bytes: &[u8],
) -> Result<Certificate, (usize, CertFault)>
    ensures value { GivesAt cert_lacks_memory (λ x. x) result (certificate_in schema.now bytes.now) }
    ensures named { IfOk result (λ certificate. IsWellFormed schema.now certificate) }
{
    match records_of(alloc, bytes) {
        Ok(Some(records)) => read_records(alloc, schema, records.as_slice()),
        Ok(None) => Err((1, CertFault::NotCsv)),
        Err(_) => Err((0, CertFault::OutOfMemory)),
    }
}
