//! Verdicts on certificates, and what is printed where texts don't give an office with one.
ghost use Rattle.std.specs.Prelude.{◌≡◌, not, IfOk};
ghost use Rattle.clr_check.specs.Cases.{case_of};
ghost use Rattle.clr_lines.specs.Verdicts.{verdict_text_in_turn};
ghost use Rattle.clr_office.specs.Clearances.{IsCheckPrint, fault_print, is_clear as is_clear_verdict, is_without_memory as is_lost_verdict};
ghost use Rattle.clr_office_reports.specs.Printing.{IsOutput};

use crate::disposals::Disposal;
use clr_cert::Certificate;
use clr_check::{CaseFault, Verdict, judge_texts};
use clr_lines::verdict_line_in_turn;
use clr_merge_sets::texts_of_names;
use clr_office_reports::{Output, unheld_output};
use clr_process_io::RunFault;
use clr_rows::Schema;
use std::alloc::{AllocError, Global};

fn is_clear(verdict: &Verdict) -> bool
    ensures { result ≡ is_clear_verdict verdict.now }
{
    match verdict {
        Verdict::Clear => true,
        _ => false,
    }
}

fn is_out_of_memory(verdict: &Verdict) -> bool
    ensures { result ≡ is_lost_verdict verdict.now }
{
    match verdict {
        Verdict::OutOfMemory => true,
        _ => false,
    }
}

/// Returns the line of a verdict on a certificate.
pub fn verdict_output(
    alloc: Global,
    schema: &Schema,
    certificate: &Certificate,
    verdict: &Verdict,
) -> Result<Output, AllocError>
    ensures lines { IfOk result (λ o. o.lines.items
        ≡ verdict_text_in_turn schema.now certificate.now.members certificate.now.before certificate.now.root verdict.now) }
    ensures refused { IfOk result (λ o. o.refused ≡ not (is_clear_verdict verdict.now)) }
    ensures lost { IfOk result (λ o. o.lost ≡ is_lost_verdict verdict.now) }
{
    let members = texts_of_names(alloc, certificate.members.as_slice())?;
    let before = certificate.before.as_slice();
    let root = certificate.root.as_str();
    Ok(Output {
        lines: verdict_line_in_turn(alloc, schema, members.as_slice(), before, root, verdict)?,
        refused: !is_clear(verdict),
        lost: is_out_of_memory(verdict),
    })
}

/// Returns what is printed where two texts don't give an office with a certificate: the line that
/// says which rule doesn't hold. Otherwise it fails, with `BadOffice`, `BadCertificate` or
/// `OutOfMemory`.
pub fn fault_output(alloc: Global, fault: CaseFault) -> Result<Output, RunFault>
    ensures { IsOutput (λ print. print ≡ fault_print fault) result }
{
    match fault {
        CaseFault::BadOffice(fault) => Err(RunFault::BadOffice(fault)),
        CaseFault::Unheld {
            draft,
            position,
            need,
        } => Ok(unheld_output(alloc, &draft, position, &need)?),
        CaseFault::BadCertificate(number, fault) => Err(RunFault::BadCertificate(number, fault)),
        CaseFault::OutOfMemory => Err(RunFault::OutOfMemory),
    }
}

/// Returns the line of the verdict on a certificate in an office, both given as texts, as
/// `check_texts` says it. Where the texts don't give both, the answer is that of `fault_output`.
pub fn check_output(
    alloc: Global,
    office: &[u8],
    certificate: &[u8],
    disposal: Disposal,
) -> Result<Output, RunFault>
    ensures { IsOutput (IsCheckPrint (case_of office.now certificate.now)) result }
{
    match judge_texts(alloc, office, certificate) {
        Ok(check) => {
            let output = verdict_output(
                alloc,
                check.office.schema(),
                &check.certificate,
                &check.verdict,
            )?;
            disposal.dispose(check);
            Ok(output)
        }
        Err(fault) => fault_output(alloc, fault),
    }
}
