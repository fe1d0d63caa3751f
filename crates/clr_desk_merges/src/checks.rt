//! Verdicts on certificates.
ghost use Rattle.std.specs.Prelude.{◌≡◌, ◌++◌, IfOk, OnOk};
ghost use Rattle.clr_check.specs.Cases.{case_of};
ghost use Rattle.clr_check.specs.TextChecks.{IsCheckedVerdict};
ghost use Rattle.clr_desk_merges.specs.Checks.{IsCheckPrint, counted, remark_on};
ghost use Rattle.clr_desk_prints.specs.Printing.{IsMadePrintout, IsPrintoutOfCase, printed};

use clr_cert::Certificate;
use clr_check::judge_texts;
use clr_desk_prints::{Print, notes_of};
use clr_engine::Office;
use clr_lines::add_count;
use clr_office::{RunFault, Verdict, fault_output, verdict_output};
use std::alloc::{AllocError, Global};

/// Adds how many there are of what a word names.
fn add_counted(line: &mut Vec<u8>, count: usize, word: &str) -> Result<(), AllocError>
    ensures { OnOk result (line.new.items ≡ line.old.items ++ counted count word.now) }
{
    add_count(line, count)?;
    line.extend_from_slice(b" ")?;
    line.extend_from_slice(word.as_bytes())?;
    if count != 1 {
        line.extend_from_slice(b"s")?;
    }
    Ok(())
}

/// Returns the line that says how many designs and needs a certificate has, or that it names no design.
fn remark_on(alloc: Global, certificate: &Certificate) -> Result<Vec<u8>, AllocError>
    ensures { IfOk result (λ line. line.items ≡ remark_on certificate.now) }
{
    let members = certificate.members.as_slice();
    if members.len() == 0 {
        return Vec::from_slice(alloc, b"the certificate names no design\n");
    }
    let mut line = Vec::from_slice(alloc, b"the certificate has ")?;
    add_counted(&mut line, members.len(), "design")?;
    line.extend_from_slice(b" and ")?;
    add_counted(&mut line, certificate.entries.as_slice().len(), "need")?;
    line.extend_from_slice(b"\n")?;
    Ok(line)
}

/// Returns the line of a verdict as a text, and as a note whom its certificate speaks of. It refuses unless the verdict is clear and the
/// certificate names a design. Where the verdict is want of memory, this call fails.
fn print_of_verdict(
    alloc: Global,
    office: &Office,
    certificate: &Certificate,
    verdict: &Verdict,
) -> Result<Print, AllocError>
    requires { IsCheckedVerdict office.now certificate.now verdict.now }
    ensures { IfOk result (λ p. IsCheckPrint office.now certificate.now (printed p)) }
{
    let output = verdict_output(alloc, office.schema(), certificate, verdict)?;
    if output.lost {
        return Err(AllocError);
    }
    let remark = remark_on(alloc, certificate)?;
    let is_refused = output.refused || certificate.members.as_slice().len() == 0;
    Ok(Print::new(output.lines, remark, is_refused, false))
}

/// Returns the verdict on the certificate of a text in the office of another, in the line that `clr_office` prints, and as a note how many
/// designs and needs the certificate has. It counts as a refusal unless the verdict is clear and the certificate names a design. Where a rule
/// doesn't hold the line that says so is the only note, and there is no text. Fails with `BadOffice` where the first text is no office, with
/// `BadCertificate` where the second is no certificate, and with `OutOfMemory` for want of memory, which may come in place of any other answer.
pub fn answer_check(alloc: Global, office: &[u8], certificate: &[u8]) -> Result<Print, RunFault>
    ensures { IsMadePrintout (IsPrintoutOfCase IsCheckPrint (case_of office.now certificate.now)) result }
{
    match judge_texts(alloc, office, certificate) {
        Ok(check) => Ok(print_of_verdict(
            alloc,
            &check.office,
            &check.certificate,
            &check.verdict,
        )?),
        Err(fault) => notes_of(alloc, fault_output(alloc, fault)),
    }
}
