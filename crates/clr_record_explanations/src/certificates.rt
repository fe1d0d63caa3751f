//! What is said of a certificate that can't be read.
ghost use Rattle.std.specs.Prelude.{◌≡◌, ◌≤◌, length, string_bytes, Err, IfOk, IfNone, IfSome, IsOk, option_map};
ghost use Rattle.clr_cert.specs.Certificates.{certificate_in};
ghost use Rattle.csv.specs.Records.{fields_of};
ghost use Rattle.clr_records.specs.Records.{records_in};
ghost use Rattle.clr_record_explanations.specs.FirstFaults.{record_in};
ghost use Rattle.clr_record_explanations.specs.CertificateFaults.{IsFaultOfCertificate};
ghost use Rattle.clr_record_explanations.specs.EntrySlips.{entry_slip};
ghost use Rattle.clr_record_explanations.specs.RecordRemarks.{IsCertificateRemark, IsRecordPlace, sentence_on};

use crate::certificate_faults::{CertificateFault, find_certificate_fault};
use crate::entries::explain_entry;
use crate::records::{remark_on_encoding, remark_on_record};
use clr_cert::CertFault;
use clr_rows::Schema;
use clr_text_positions::Remark;
use std::alloc::{AllocError, Global};

/// The fault of a certificate, the number of its record, counted from 1 without blank lines, and what is said of it.
#[derive(Debug, Drop)]
pub struct ExplainedCertificateFault {
    pub fault: CertFault,
    pub number: usize,
    pub remark: Remark,
}

/// Returns what is said of the fault that is found in a certificate.
#[tactic(auto, using(crate::proofs::RecordLemmas::numbered, crate::proofs::RecordLemmas::unnumbered_entry, crate::proofs::SlipLemmas::said_on))]
fn remark_on(
    alloc: Global,
    schema: &Schema,
    text: &[u8],
    found: &CertificateFault,
) -> Result<Remark, AllocError>
    requires fields { option_map fields_of found.now.fields ≡ record_in text.now found.now.record }
    requires at { IsFaultOfCertificate schema.now (records_in text.now) found.now.is_rooted found.now.record found.now.fault }
    ensures within { IfOk result (λ remark. remark.offset ≤ length text.now) }
    ensures place { IfOk result (λ remark. IsRecordPlace text.now found.now.record (string_bytes remark.place)) }
    ensures sentence { IfOk result (λ remark. string_bytes remark.sentence
        ≡ sentence_on (entry_slip schema.now found.now.fault) (record_in text.now found.now.record)) }
{
    match &found.fields {
        Some(fields) => {
            let slip = explain_entry(alloc, schema, fields, found.fault)?;
            remark_on_record(alloc, text, found.record, slip)
        }
        None => remark_on_encoding(alloc, text),
    }
}

/// Returns the fault of a certificate over a schema, as `read_certificate` answers it, the number of its record and what is said of
/// it: where it stands, what is wrong, and a hint where one helps; or none where it can be read.
pub fn explain_certificate(
    alloc: Global,
    schema: &Schema,
    text: &[u8],
) -> Result<Option<ExplainedCertificateFault>, AllocError>
    ensures none { IfOk result (λ found. IfNone found (IsOk (certificate_in schema.now text.now))) }
    ensures told { IfOk result (λ found. IfSome found (λ f. certificate_in schema.now text.now ≡ Err (f.number, f.fault))) }
    ensures at { IfOk result (λ found. IfSome found (λ f. IsCertificateRemark schema.now text.now f.number f.fault f.remark)) }
{
    match find_certificate_fault(alloc, schema, text)? {
        Some(found) => {
            let remark = remark_on(alloc, schema, text, &found)?;
            Ok(Some(ExplainedCertificateFault {
                fault: found.fault,
                number: found.record,
                remark,
            }))
        }
        None => Ok(None),
    }
}
