//! Checks of certificates in offices, both given as texts.

ghost use Rattle.std.specs.Prelude.{◌≡◌, Ok, IfOk, IfErr};
ghost use Rattle.clr_check.specs.Cases.{IsCaseFault, case_of};
ghost use Rattle.clr_check.specs.TextChecks.{IsChecked, IsCheckedVerdict, said_of};

use crate::cases::{CaseFault, read_case};
use crate::checked::Checked;
use crate::checks::check;
use clr_cert::Certificate;
use clr_clearance::Verdict;
use clr_engine::Office;
use std::alloc::Global;

/// An office and a certificate of it, both read from texts, and the verdict.
#[derive(Drop)]
pub struct TextCheck {
    pub office: Office,
    pub certificate: Certificate,
    pub verdict: Verdict,
}

/// Returns the check of a certificate in an office, both given as texts, with the office and the
/// certificate that its line names. Fails as `read_case` does. The verdict may be want of memory;
/// where it is clear, all holds that `check` promises of a clear one. Nothing that the certificate
/// says is taken to be true.
pub fn judge_texts(alloc: Global, office: &[u8], certificate: &[u8]) -> Result<TextCheck, CaseFault>
    ensures case { IfOk result (λ check. case_of office.now certificate.now ≡ Ok (check.office, check.certificate)) }
    ensures verdict { IfOk result (λ check. IsCheckedVerdict check.office check.certificate check.verdict) }
    ensures fault { IfErr result (IsCaseFault (case_of office.now certificate.now)) }
{
    match read_case(alloc, office, certificate) {
        Ok((office, certificate)) => {
            let verdict = check(alloc, &office, &certificate);
            Ok(TextCheck {
                office,
                certificate,
                verdict,
            })
        }
        Err(fault) => Err(fault),
    }
}

/// Returns what is said where two texts don't give an office with a certificate.
fn said_of(fault: CaseFault) -> Checked
    ensures { result ≡ said_of fault }
{
    match fault {
        CaseFault::BadOffice(fault) => Checked::BadOffice(fault),
        CaseFault::Unheld { position, need, .. } => Checked::Unheld { position, need },
        CaseFault::BadCertificate(number, fault) => Checked::BadCertificate(number, fault),
        CaseFault::OutOfMemory => Checked::OutOfMemory,
    }
}

/// Returns what is said of an office and of a certificate, both given as texts: the first of the
/// office text, the rules and the certificate's text that fails, or the verdict. `Answer` comes
/// only where the texts are an office and a certificate, and every rule holds in LIVE and in each
/// workspace that is kept; its verdict may be want of memory. Where the verdict is clear, all holds
/// that `check` promises of a clear one. Nothing that the certificate says is taken to be true.
/// For example, where rule 1 lets mains cross only at nodes, and mains 1 and 2 cross without one in LIVE, the answer is
/// `Unheld` with position 0 and their need, whether the second text is a certificate or not. An empty text is a
/// certificate without members, and its verdict is `Clear` in every office whose rules hold.
pub fn check_texts(alloc: Global, office: &[u8], certificate: &[u8]) -> Checked
    ensures { IsChecked (case_of office.now certificate.now) result }
{
    match judge_texts(alloc, office, certificate) {
        Ok(check) => Checked::Answer(check.verdict),
        Err(fault) => said_of(fault),
    }
}
