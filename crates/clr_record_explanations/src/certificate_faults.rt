//! The fault of a certificate, and the record that has it.
ghost use Rattle.std.specs.Prelude.{◌≡◌, ◌≤◌, IfOk, IfSome, IsOk, MatchOption, Err, length, map, option_map, take};
ghost use Rattle.std.specs.List.{list_any};
ghost use Rattle.csv.specs.Records.{fields_of};
ghost use Rattle.clr_cert.specs.Certificates.{certificate_in};
ghost use Rattle.clr_records.specs.Records.{records_in};
ghost use Rattle.clr_record_explanations.specs.CertificateFaults.{IsFaultOfCertificate, has_root, names_root};
ghost use Rattle.clr_record_explanations.specs.FirstFaults.{record_in};

use crate::numbered_records::take_record;
use clr_cert::{CertFault, read_certificate};
use clr_records::{field, records_of};
use clr_rows::Schema;
use csv::StringRecord;
use std::alloc::{AllocError, Global};

/// The fault of a certificate, and the record that has it.
#[derive(Debug, Drop)]
pub struct CertificateFault {
    /// The fault as `read_certificate` answers it, but want of memory.
    pub fault: CertFault,
    /// The number of the record as `read_certificate` answers it: counted from 1, without blank lines,
    /// and 1 where the bytes aren't UTF-8.
    pub record: usize,
    /// Whether a root record stands before the record.
    pub is_rooted: bool,
    /// The fields of the record, or none where the bytes aren't UTF-8.
    pub fields: Option<StringRecord>,
}

/// Returns whether a record begins as a root record.
fn names_root(fields: &StringRecord) -> bool
    ensures { result ≡ names_root (fields_of fields.now) }
{
    field(fields, 0) == "root"
}

/// Returns whether a root record stands among records.
fn has_root(records: &[StringRecord]) -> bool
    ensures { result ≡ list_any (λ r. names_root (fields_of r)) records.now }
{
    records.iter().any(|fields| names_root(fields))
}

/// Returns whether a root record stands before a place, counted from 0.
fn has_root_before(records: &[StringRecord], at: usize) -> bool
    requires { at ≤ length records.now }
    ensures { result ≡ has_root (take at (map fields_of records.now)) }
{
    has_root(&records[..at])
}

/// Returns the number and the fault that `read_certificate` answers, or none where the certificate can
/// be read.
fn told_fault(
    alloc: Global,
    schema: &Schema,
    bytes: &[u8],
) -> Result<Option<(usize, CertFault)>, AllocError>
    ensures { IfOk result (λ told. MatchOption told (IsOk (certificate_in schema.now bytes.now)) (λ f. certificate_in schema.now bytes.now ≡ Err f)) }
{
    match read_certificate(alloc, schema, bytes) {
        Ok(_) => Ok(None),
        Err((_, CertFault::OutOfMemory)) => Err(AllocError),
        Err((number, fault)) => Ok(Some((number, fault))),
    }
}

/// Returns the fault of a text, with the record of its number.
#[tactic(auto, using(crate::proofs::CertificateFirsts::number_within, crate::proofs::CertificateFirsts::found_as))]
fn fault_in(
    alloc: Global,
    schema: &Schema,
    bytes: &[u8],
    number: usize,
    fault: CertFault,
) -> Result<CertificateFault, AllocError>
    requires { certificate_in schema.now bytes.now ≡ Err (number, fault) }
    ensures told { IfOk result (λ f. certificate_in schema.now bytes.now ≡ Err (f.record, f.fault)) }
    ensures at { IfOk result (λ f. IsFaultOfCertificate schema.now (records_in bytes.now) f.is_rooted f.record f.fault) }
    ensures fields { IfOk result (λ f. option_map fields_of f.fields ≡ record_in bytes.now f.record) }
{
    let _schema = schema;
    match records_of(alloc, bytes) {
        Ok(Some(records)) => Ok(CertificateFault {
            fault,
            record: number,
            is_rooted: has_root_before(records.as_slice(), number - 1),
            fields: Some(take_record(records, number)),
        }),
        Ok(None) => Ok(CertificateFault {
            fault,
            record: number,
            is_rooted: false,
            fields: None,
        }),
        Err(_) => Err(AllocError),
    }
}

/// Finds the fault of a certificate, as `read_certificate` answers it, and the record of the number that it
/// answers; none where the certificate can be read. The record is the first whose own reading answers just
/// this fault, the records before it being read.
pub fn find_certificate_fault(
    alloc: Global,
    schema: &Schema,
    bytes: &[u8],
) -> Result<Option<CertificateFault>, AllocError>
    ensures told { IfOk result (λ found. MatchOption found (IsOk (certificate_in schema.now bytes.now))
        (λ f. certificate_in schema.now bytes.now ≡ Err (f.record, f.fault))) }
    ensures at { IfOk result (λ found. IfSome found (λ f. IsFaultOfCertificate schema.now (records_in bytes.now) f.is_rooted f.record f.fault)) }
    ensures fields { IfOk result (λ found. IfSome found (λ f. option_map fields_of f.fields ≡ record_in bytes.now f.record)) }
{
    match told_fault(alloc, schema, bytes)? {
        Some((number, fault)) => Ok(Some(fault_in(alloc, schema, bytes, number, fault)?)),
        None => Ok(None),
    }
}
