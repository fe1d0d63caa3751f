//! Where the fault of a text is, in one line.
ghost use Rattle.std.specs.Prelude.{◌≡◌, Err, IfNone, IfOk, IfSome, IsOk};
ghost use Rattle.clr_cert.specs.Certificates.{certificate_in};
ghost use Rattle.clr_office_texts.specs.Drafts.{draft_in};
ghost use Rattle.clr_record_explanations.specs.RecordRemarks.{IsCertificateRemark};
ghost use Rattle.clr_text_diagnosis.specs.Shorts.{IsShortCertificateFault, IsShortOfficeFault};
ghost use Rattle.clr_text_diagnosis.specs.Whys.{IsRemarkedOfficeFault};

use crate::offices::draft_or_fault;
use clr_explanations::OfficeFault;
use clr_record_explanations::{ExplainedCertificateFault, explain_certificate};
use clr_rows::Schema;
use clr_text_positions::short_line;
use std::alloc::{AllocError, Global};

/// Returns the line of the fault of an office text.
fn office_line(
    alloc: Global,
    text: &[u8],
    file: &str,
    found: &OfficeFault,
) -> Result<Vec<u8>, AllocError>
    requires { IsRemarkedOfficeFault text.now found.now.fault found.now.remark }
    ensures { IfOk result (λ line. IsShortOfficeFault text.now file.now line.items) }
{
    let line = short_line(alloc, text, file, &found.remark)?;
    Ok(line)
}

/// Returns the line of the fault of a certificate.
fn certificate_line(
    alloc: Global,
    schema: &Schema,
    text: &[u8],
    file: &str,
    found: &ExplainedCertificateFault,
) -> Result<Vec<u8>, AllocError>
    requires told { certificate_in schema.now text.now ≡ Err (found.now.number, found.now.fault) }
    requires at { IsCertificateRemark schema.now text.now found.now.number found.now.fault found.now.remark }
    ensures { IfOk result (λ line. IsShortCertificateFault schema.now text.now file.now line.items) }
{
    let _schema = schema;
    let line = short_line(alloc, text, file, &found.remark)?;
    Ok(line)
}

/// Returns the name of the file of an office text, the line and the column of its fault, and what is wrong, or none where it is an
/// office.
pub fn short_office_fault(
    alloc: Global,
    text: &[u8],
    file: &str,
) -> Result<Option<Vec<u8>>, AllocError>
    ensures none { IfOk result (λ found. IfNone found (IsOk (draft_in text.now))) }
    ensures line { IfOk result (λ found. IfSome found (λ line. IsShortOfficeFault text.now file.now line.items)) }
{
    match draft_or_fault(alloc, text)? {
        Ok(_) => Ok(None),
        Err(found) => Ok(Some(office_line(alloc, text, file, &found)?)),
    }
}

/// Returns the line that names the fault of a certificate over a schema and its place, or none where the certificate can be read.
pub fn short_certificate_fault(
    alloc: Global,
    schema: &Schema,
    text: &[u8],
    file: &str,
) -> Result<Option<Vec<u8>>, AllocError>
    ensures none { IfOk result (λ found. IfNone found (IsOk (certificate_in schema.now text.now))) }
    ensures line { IfOk result (λ found. IfSome found (λ line. IsShortCertificateFault schema.now text.now file.now line.items)) }
{
    match explain_certificate(alloc, schema, text)? {
        Some(found) => Ok(Some(certificate_line(alloc, schema, text, file, &found)?)),
        None => Ok(None),
    }
}
