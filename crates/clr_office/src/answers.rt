//! Answers to what is asked of one or two texts.

ghost use Rattle.std.specs.Prelude.{◌≡◌, ◌≢◌, ◌∷◌, List, ℕ, [], false, IfOk, IfErr, OnOk};
ghost use Rattle.std.specs.Io.KnownBytes.{Appends};
ghost use Rattle.clr_check.specs.Cases.{case_of};
ghost use Rattle.clr_merge_sets.specs.MergeSetNames.{merge_set};
ghost use Rattle.clr_command_line.specs.declared.asks.Ask.TheVariants as ask;
ghost use Rattle.clr_office_texts.specs.Drafts.{draft_in, opened_in};
ghost use Rattle.clr_office.specs.Answers.{IsPrintedAnswer, IsAnswerTo, IsAnswerWithin, IsPlanPrint, audit_of, audit_print};
ghost use Rattle.clr_office.specs.NameHints.{AreHintsIn, AreHintsOfCase, AreHintsTo};
ghost use Rattle.clr_office_reports.specs.Printing.{IsOutput, IsPrintIn, print_of};
ghost use Rattle.clr_process_io.specs.declared.faults.RunFault.TheVariants as run_fault;

use crate::certificates::{check_output, fault_output};
use crate::disposals::Disposal;
use crate::merges::merge_members;
use crate::name_hints::hint_lines;
use crate::plans::plan_output;
use crate::run_script::run_text;
use clr_audit::audit;
use clr_check::read_case;
use clr_command_line::{Ask, Orders};
use clr_engine::Draft;
use clr_lines::audit_lines;
use clr_office_reports::{Output, draft_of, open_office};
use clr_process_io::{MOST_INPUT_BYTES, RunFault};
use clr_rows::{LIVE, Words};
use clr_streams::Sink;
use std::alloc::{AllocError, Global};

/// Returns the lines of an audit of LIVE, where rules may be broken.
fn audit_draft(alloc: Global, draft: &Draft) -> Result<Output, AllocError>
    ensures { IfOk result (λ o. print_of o.lines.items o.refused o.lost ≡ audit_print draft.now) }
{
    let needs = audit(alloc, draft.book(), draft.live())?;
    Ok(Output {
        lines: audit_lines(alloc, draft.schema(), needs.as_slice())?,
        refused: needs.len() > 0,
        lost: false,
    })
}

/// Returns the lines of an audit of LIVE in an office text.
#[tactic(auto, unfolding(crate::specs::Answers::audit_of))]
fn answer_audit(alloc: Global, office: &[u8], disposal: Disposal) -> Result<Output, RunFault>
    ensures { IsOutput (λ print. print ≡ audit_of (draft_in office.now)) result }
{
    let draft = match draft_of(alloc, office) {
        Ok(text) => text.draft,
        Err(fault) => return Err(fault),
    };
    let output = audit_draft(alloc, &draft)?;
    disposal.dispose(draft);
    Ok(output)
}

/// Returns what the script of a text prints over the office of another.
pub fn answer_run(
    alloc: Global,
    office: &[u8],
    script: &[u8],
    disposal: Disposal,
) -> Result<Output, RunFault>
    ensures { IsOutput (IsAnswerWithin ask.Run office.now script.now) result }
{
    match open_office(alloc, office) {
        Ok(mut office) => {
            let answer = run_text(alloc, &mut office, script);
            disposal.dispose(office);
            answer
        }
        Err(answer) => answer,
    }
}

/// Returns the plan of members, for the orders in which they are to be merged, over the office of a text, and gives the hints at names that no workspace has.
fn answer_plan(
    alloc: Global,
    office: &[u8],
    orders: Orders,
    root: &str,
    names: &[Words],
    disposal: Disposal,
    hints: &mut Vec<u8>,
) -> Result<Output, RunFault>
    requires { hints.old.items ≡ [] }
    ensures output { IsOutput (IsPrintIn (IsPlanPrint orders (merge_set root.now names.now)) (opened_in office.now)) result }
    ensures hints { OnOk result (AreHintsIn (root.now ∷ names.now) (opened_in office.now) hints.new.items) }
{
    match open_office(alloc, office) {
        Ok(office) => {
            let output = plan_output(alloc, &office, orders, root, names)?;
            *hints = hint_lines(alloc, &office, root, names)?;
            disposal.dispose(office);
            Ok(output)
        }
        Err(answer) => answer,
    }
}

/// Merges that the certificate of a text clears over the office of another, and gives the hints at names that no workspace has.
fn answer_merge(
    alloc: Global,
    office: &[u8],
    certificate: &[u8],
    names: &[Words],
    disposal: Disposal,
    hints: &mut Vec<u8>,
) -> Result<Output, RunFault>
    requires { hints.old.items ≡ [] }
    ensures output { IsOutput (IsAnswerWithin (ask.Merge names.now) office.now certificate.now) result }
    ensures hints { OnOk result (AreHintsOfCase names.now (case_of office.now certificate.now) hints.new.items) }
{
    match read_case(alloc, office, certificate) {
        Ok((mut office, certificate)) => {
            *hints = hint_lines(alloc, &office, certificate.root.as_str(), names)?;
            let output = merge_members(alloc, &mut office, &certificate, names)?;
            disposal.dispose(office);
            Ok(output)
        }
        Err(fault) => fault_output(alloc, fault),
    }
}

/// Returns what is printed for what is asked of two texts, and gives the hints at names that no workspace has.
fn answer_texts(
    alloc: Global,
    ask: &Ask,
    office: &[u8],
    second: &[u8],
    disposal: Disposal,
    hints: &mut Vec<u8>,
) -> Result<Output, RunFault>
    requires { hints.old.items ≡ [] }
    ensures output { IsOutput (IsAnswerWithin ask.now office.now second.now) result }
    ensures hints { OnOk result (AreHintsTo ask.now office.now second.now hints.new.items) }
{
    match ask {
        Ask::Audit => answer_audit(alloc, office, disposal),
        Ask::Run => answer_run(alloc, office, second, disposal),
        Ask::Plan(orders, names) => {
            answer_plan(
                alloc,
                office,
                *orders,
                LIVE,
                names.as_slice(),
                disposal,
                hints,
            )
        }
        Ask::PlanUnder(orders, root, names) => {
            answer_plan(
                alloc,
                office,
                *orders,
                root.as_str(),
                names.as_slice(),
                disposal,
                hints,
            )
        }
        Ask::Check => check_output(alloc, office, second, disposal),
        Ask::Merge(names) => answer_merge(alloc, office, second, names.as_slice(), disposal, hints),
    }
}

/// Writes what is to be printed for what is asked of an office text and of a second text, which is
/// the script or the certificate where there is one, by one put, and returns the exit status: 0 all
/// done, cleared or clear; 1 something refused, a plan that is blocked or unfit, a verdict that
/// isn't clear, a merge that isn't quiet, or a rule that doesn't hold; 3 a command, a plan or a
/// verdict found no memory. Where a rule doesn't hold, that alone is printed, but for an audit. Once
/// the lines are known, the office that they are about is disposed of as asked. Behind the lines hints go out as notes, at the root and
/// the names that are asked for and that no workspace has, where one has a name like them; that they can't be written changes nothing.
///
/// For example, where rule 1 lets mains cross only at nodes, and mains 1 and 2 cross without one in LIVE, an audit writes
/// the lines `broken 1` and `rule 1 main/1 main/2`, a plan the line `unheld rule 1 main/1 main/2`, and both return 1.
///
/// The fault is the first that applies. Nothing is written then, unless the writer failed. Fails
/// with `TooLong` where a text has more than `MOST_INPUT_BYTES`, with `BadOffice` where the first
/// text is no office, with `BadScript` or `BadCertificate` where the second is no script or no
/// certificate, and with `WriteFailed` where the writer fails; how much went out is then not known.
/// Fails with `OutOfMemory` if memory runs out, which may come in place of any other answer.
pub fn answer<W: Sink, N: Sink>(
    alloc: Global,
    disposal: Disposal,
    ask: &Ask,
    office: &[u8],
    second: &[u8],
    writer: &mut W,
    notes: &mut N,
) -> Result<u8, RunFault>
    requires { W.failed writer.old ≡ false }
    ensures answers { IsPrintedAnswer (IsAnswerTo ask.now office.now second.now) (W.contents writer.old) (W.contents writer.new) (W.failed writer.new) result }
    ensures keeps { IfErr result (λ e. e ≢ run_fault.WriteFailed → writer.new ≡ writer.old) }
    ensures hints { IfOk result (λ _. N.failed notes.new ≡ false
        → (lines : List ℕ) × AreHintsTo ask.now office.now second.now lines × Appends (N.contents notes.old) (N.contents notes.new) lines) }
    ensures silent { IfErr result (λ _. notes.new ≡ notes.old) }
{
    if office.len() > MOST_INPUT_BYTES || second.len() > MOST_INPUT_BYTES {
        return Err(RunFault::TooLong);
    }
    let mut hints = Vec::new(alloc);
    let output = match answer_texts(alloc, ask, office, second, disposal, &mut hints) {
        Ok(output) => output,
        Err(fault) => return Err(fault),
    };
    let status = output.status();
    if writer.put(output.lines.as_slice()).is_err() {
        return Err(RunFault::WriteFailed);
    }
    let _ = notes.put(hints.as_slice());
    Ok(status)
}
