//! An office and a certificate, both read from texts.
ghost use Rattle.std.specs.Prelude.{◌≡◌, Ok, IfOk, IfErr};
ghost use Rattle.clr_engine.specs.Drafts.{unheld_in};
ghost use Rattle.clr_cert.specs.Certificates.{certificate_in};
ghost use Rattle.clr_check.specs.Cases.{IsCaseFault, case_of, where_held, with_certificate};

use clr_cert::{CertFault, Certificate, read_certificate};
use clr_engine::{AdmitFault, Broken, Draft, Office};
use clr_office_texts::{TextFault, read_office};
use std::alloc::Global;

/// Why two texts give no office with a certificate of it.
#[derive(Drop)]
pub enum CaseFault {
    /// The office text is no office.
    BadOffice(TextFault),
    /// The draft of the office text breaks a need that the text doesn't name as known: the position of the first workspace
    /// that breaks one, and its least such need. LIVE has position 0, and then come those that
    /// are kept, in order of creation.
    Unheld {
        draft: Draft,
        position: usize,
        need: Broken,
    },
    /// The second text is no certificate: the number of the first record that can't be read,
    /// counted from 1, and why.
    BadCertificate(usize, CertFault),
    /// No memory was found. This fault may come in place of any other answer.
    OutOfMemory,
}

/// Returns an office with the certificate of a text.
fn with_certificate(
    alloc: Global,
    office: Office,
    text: &[u8],
) -> Result<(Office, Certificate), CaseFault>
    ensures case { IfOk result (λ given. with_certificate office (certificate_in office.schema text.now) ≡ Ok (given.0, given.1)) }
    ensures fault { IfErr result (IsCaseFault (with_certificate office (certificate_in office.schema text.now))) }
{
    match read_certificate(alloc, office.schema(), text) {
        Ok(certificate) => Ok((office, certificate)),
        Err((_, CertFault::OutOfMemory)) => Err(CaseFault::OutOfMemory),
        Err((number, fault)) => Err(CaseFault::BadCertificate(number, fault)),
    }
}

/// Returns the office of a draft, of which some needs are known to be broken, with the certificate of a text.
fn admit_with(
    alloc: Global,
    draft: Draft,
    known: &[Broken],
    text: &[u8],
) -> Result<(Office, Certificate), CaseFault>
    ensures case { IfOk result (λ given. where_held draft text.now (unheld_in draft known.now) ≡ Ok (given.0, given.1)) }
    ensures fault { IfErr result (IsCaseFault (where_held draft text.now (unheld_in draft known.now))) }
{
    match draft.admit(known) {
        Ok(office) => with_certificate(alloc, office, text),
        Err((draft, fault)) => match fault {
            AdmitFault::Broken { position, need } => Err(CaseFault::Unheld {
                draft,
                position,
                need,
            }),
            AdmitFault::OutOfMemory => Err(CaseFault::OutOfMemory),
        },
    }
}

/// Reads an office text, in which each need that is broken in LIVE or in a workspace that is kept is known,
/// and the text of a certificate of it. Fails with the first of `BadOffice`, `Unheld` and
/// `BadCertificate` that applies, or with `OutOfMemory`.
#[tactic(auto, unfolding(crate::specs::Cases::case_of, clr_office_texts::specs::Drafts::opened_in))]
pub fn read_case(
    alloc: Global,
    office: &[u8],
    certificate: &[u8],
) -> Result<(Office, Certificate), CaseFault>
    ensures case { IfOk result (λ given. case_of office.now certificate.now ≡ Ok (given.0, given.1)) }
    ensures fault { IfErr result (IsCaseFault (case_of office.now certificate.now)) }
{
    match read_office(alloc, office) {
        Ok(read) => admit_with(alloc, read.draft, read.known.as_slice(), certificate),
        Err(TextFault::OutOfMemory) => Err(CaseFault::OutOfMemory),
        Err(fault) => Err(CaseFault::BadOffice(fault)),
    }
}
