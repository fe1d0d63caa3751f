//! Merges that a certificate clears, and the office that they leave.
ghost use Rattle.std.specs.Prelude.{◌≡◌, IfOk};
ghost use Rattle.clr_check.specs.Cases.{case_of};
ghost use Rattle.clr_desk_merges.specs.Merges.{IsHintedMerge, IsMergePrintout, merge_print};
ghost use Rattle.clr_desk_prints.specs.Printing.{IsMadePrintout, IsPrintoutOfCase, printed};

use crate::waiting::waiting_text;
use clr_cert::Certificate;
use clr_check::{ClearedRun, perform_cleared, read_case};
use clr_desk_prints::{Print, has_unknown, hint_lines, notes_of};
use clr_engine::Office;
use clr_office::{
    RunFault, Words, dump_text, fault_output, merge_commands, replies_output, stop_output,
    verdict_output,
};
use std::alloc::{AllocError, Global};

/// Returns the office that merges left, and as notes the lines of the merges.
fn run_print(
    alloc: Global,
    office: &Office,
    certificate: &Certificate,
    names: &[Words],
    run: &ClearedRun,
) -> Result<Print, AllocError>
    ensures { IfOk result (λ p. printed p ≡ merge_print certificate.now names.now run.now.replies.items run.now.stopped office.now) }
{
    let replies = run.replies.as_slice();
    let mut all = replies_output(alloc, office.schema(), replies)?;
    all.append(&stop_output(alloc, run.stopped)?)?;
    let waiting = waiting_text(alloc, certificate, names, replies)?;
    let mut notes = all.lines;
    notes.extend_from_slice(waiting.as_slice())?;
    Ok(Print::new(dump_text(alloc, office)?, notes, all.refused, all.lost))
}

/// Merges workspaces in the order of their names, as far as that is quiet for a certificate and no member
/// is merged before its turn, where the certificate is clear: the office that is left, and as notes a line
/// for each merge that was performed, one that says where it stopped, and one that names the first member that has
/// to be merged before, where there is one. Where the certificate isn't clear the verdict is the only note, and there is no text.
fn merge_members(
    alloc: Global,
    office: &mut Office,
    certificate: &Certificate,
    names: &[Words],
) -> Result<Print, AllocError>
    ensures { IfOk result (λ p. IsMergePrintout names.now office.old certificate.now (printed p)) }
{
    let commands = merge_commands(alloc, names)?;
    match perform_cleared(alloc, office, certificate, commands.as_slice()) {
        Ok(run) => run_print(alloc, office, certificate, names, &run),
        Err(verdict) => {
            let output = verdict_output(alloc, office.schema(), certificate, &verdict)?;
            Ok(Print::new(Vec::new(alloc), output.lines, output.refused, output.lost))
        }
    }
}

/// Merges that the certificate of a text clears over the office of another.
pub fn answer_merge(
    alloc: Global,
    office: &[u8],
    certificate: &[u8],
    names: &[Words],
) -> Result<Print, RunFault>
    ensures { IsMadePrintout (IsPrintoutOfCase (IsHintedMerge names.now) (case_of office.now certificate.now)) result }
{
    match read_case(alloc, office, certificate) {
        Ok((mut office, certificate)) => {
            let root = certificate.root.as_str();
            let is_unknown = has_unknown(&office, root, names);
            let lines = hint_lines(alloc, &office, root, names)?;
            let bare = merge_members(alloc, &mut office, &certificate, names)?;
            let told = bare.refused_for(is_unknown);
            Ok(told.with_notes(lines.as_slice())?)
        }
        Err(fault) => notes_of(alloc, fault_output(alloc, fault)),
    }
}
