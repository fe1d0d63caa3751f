//! Why a script or a certificate over an office can't be used.
ghost use Rattle.std.specs.Prelude.{◌≡◌, Err, IfOk, Ok};
ghost use Rattle.clr_cert.specs.Certificates.{certificate_in};
ghost use Rattle.clr_office_texts.specs.Drafts.{draft_in};
ghost use Rattle.clr_record_explanations.specs.RecordRemarks.{IsCertificateRemark, IsScriptRemark};
ghost use Rattle.clr_scripts.specs.Scripts.{script_in_text};
ghost use Rattle.clr_text_diagnosis.specs.Whys.{AreCertificateLines, AreScriptLines, IsCertificateWhy, IsScriptWhy};

use crate::offices::{draft_or_fault, office_lines};
use crate::whys::Why;
use clr_engine::Draft;
use clr_record_explanations::{
    ExplainedCertificateFault, ExplainedScriptFault, certificate_fault_words, explain_certificate,
    explain_script, script_fault_words,
};
use clr_rows::Schema;
use clr_text_positions::fault_lines;
use std::alloc::{AllocError, Global};

/// Returns the lines of the fault of a script.
fn script_lines(
    alloc: Global,
    schema: &Schema,
    text: &[u8],
    found: &ExplainedScriptFault,
) -> Result<Vec<u8>, AllocError>
    requires told { script_in_text schema.now text.now ≡ Err (found.now.number, found.now.fault) }
    requires at { IsScriptRemark schema.now text.now found.now.number found.now.fault found.now.remark }
    ensures { IfOk result (λ lines. AreScriptLines schema.now text.now lines.items) }
{
    let _schema = schema;
    let lines = fault_lines(alloc, text, script_fault_words(found.fault), &found.remark)?;
    Ok(lines)
}

/// Returns the lines of the fault of a certificate.
fn certificate_lines(
    alloc: Global,
    schema: &Schema,
    text: &[u8],
    found: &ExplainedCertificateFault,
) -> Result<Vec<u8>, AllocError>
    requires told { certificate_in schema.now text.now ≡ Err (found.now.number, found.now.fault) }
    requires at { IsCertificateRemark schema.now text.now found.now.number found.now.fault found.now.remark }
    ensures { IfOk result (λ lines. AreCertificateLines schema.now text.now lines.items) }
{
    let _schema = schema;
    let lines = fault_lines(
        alloc,
        text,
        certificate_fault_words(found.fault),
        &found.remark,
    )?;
    Ok(lines)
}

/// Returns what is found in a script over the draft of an office text.
fn why_script_over(
    alloc: Global,
    draft: &Draft,
    office: &[u8],
    script: &[u8],
) -> Result<Why, AllocError>
    requires { draft_in office.now ≡ Ok draft.now }
    ensures { IfOk result (IsScriptWhy office.now script.now) }
{
    let _office = office;
    let schema = draft.schema();
    match explain_script(alloc, schema, script)? {
        Some(found) => {
            let lines = script_lines(alloc, schema, script, &found)?;
            Ok(Why::Faulty(lines))
        }
        None => Ok(Why::NoFault),
    }
}

/// Returns what is found in a certificate over the draft of an office text.
fn why_certificate_over(
    alloc: Global,
    draft: &Draft,
    office: &[u8],
    certificate: &[u8],
) -> Result<Why, AllocError>
    requires { draft_in office.now ≡ Ok draft.now }
    ensures { IfOk result (IsCertificateWhy office.now certificate.now) }
{
    let _office = office;
    let schema = draft.schema();
    match explain_certificate(alloc, schema, certificate)? {
        Some(found) => {
            let lines = certificate_lines(alloc, schema, certificate, &found)?;
            Ok(Why::Faulty(lines))
        }
        None => Ok(Why::NoFault),
    }
}

/// Returns what is found in a script over an office text: that it can be read, the lines of its fault, or before it those of the
/// fault of the office. Whether the rules hold isn't asked.
pub fn why_script(alloc: Global, office: &[u8], script: &[u8]) -> Result<Why, AllocError>
    ensures why { IfOk result (IsScriptWhy office.now script.now) }
{
    match draft_or_fault(alloc, office)? {
        Ok(read) => why_script_over(alloc, &read.draft, office, script),
        Err(found) => {
            let lines = office_lines(alloc, office, &found)?;
            Ok(Why::Faulty(lines))
        }
    }
}

/// Returns what is found in a certificate over an office text: that it can be read, the lines of its fault, or before it those of
/// the fault of the office. Whether the rules hold isn't asked.
pub fn why_certificate(alloc: Global, office: &[u8], certificate: &[u8]) -> Result<Why, AllocError>
    ensures why { IfOk result (IsCertificateWhy office.now certificate.now) }
{
    match draft_or_fault(alloc, office)? {
        Ok(read) => why_certificate_over(alloc, &read.draft, office, certificate),
        Err(found) => {
            let lines = office_lines(alloc, office, &found)?;
            Ok(Why::Faulty(lines))
        }
    }
}
