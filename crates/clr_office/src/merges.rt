//! Merges that a certificate clears.
ghost use Rattle.std.specs.Prelude.{◌≡◌, ◌++◌, ◌||◌, is_some, false, IfOk};
ghost use Rattle.std.specs.List.{flat_map, list_any};
ghost use Rattle.clr_steps.specs.Steps.{is_lost};
ghost use Rattle.clr_clearance.specs.Plans.{merges};
ghost use Rattle.clr_lines.specs.Replies.{reply_text};
ghost use Rattle.clr_office.specs.Clearances.{IsMergeOutcome, merge_text, stop_text};
ghost use Rattle.clr_office_reports.specs.Outcomes.{is_refused, outcome_of};

use crate::certificates::verdict_output;
use clr_cert::Certificate;
use clr_check::{ClearedRun, perform_cleared};
use clr_engine::Office;
use clr_lines::count_line;
use clr_office_reports::{Output, dump_text, reply_output};
use clr_rows::{Schema, Words};
use clr_steps::{Command, Reply};
use std::alloc::{AllocError, Global};

/// Returns the merges of workspaces in the order of their names, after which they stay.
pub fn merge_commands(alloc: Global, names: &[Words]) -> Result<Vec<Command>, AllocError>
    ensures { IfOk result (λ commands. commands.items ≡ merges names.now) }
{
    let mut commands = Vec::with_capacity(alloc, names.len())?;
    for name in names {
        let ws = name.copy()?;
        commands.push(Command::Merge { ws, remove: false })?;
    }
    Ok(commands)
}

/// Returns the lines of replies.
pub fn replies_output(
    alloc: Global,
    schema: &Schema,
    replies: &[Reply],
) -> Result<Output, AllocError>
    ensures lines { IfOk result (λ o. o.lines.items ≡ flat_map (reply_text schema.now) replies.now) }
    ensures refused { IfOk result (λ o. o.refused ≡ list_any is_refused replies.now) }
    ensures lost { IfOk result (λ o. o.lost ≡ list_any is_lost replies.now) }
{
    let mut all = Output::of_lines(Vec::new(alloc));
    for reply in replies {
        let output = reply_output(alloc, schema, reply)?;
        all.append(&output)?;
    }
    Ok(all)
}

/// Returns the line that says which merge isn't quiet, or comes before its turn, by its number from 1,
/// where there is one.
pub fn stop_output(alloc: Global, stopped: Option<usize>) -> Result<Output, AllocError>
    ensures lines { IfOk result (λ o. o.lines.items ≡ stop_text stopped) }
    ensures refused { IfOk result (λ o. o.refused ≡ is_some stopped) }
    ensures lost { IfOk result (λ o. o.lost ≡ false) }
{
    let Some(number) = stopped else {
        return Ok(Output::of_lines(Vec::new(alloc)));
    };
    Ok(Output {
        lines: count_line(alloc, "notquiet", number)?,
        refused: true,
        lost: false,
    })
}

/// Returns lines with a text behind them. They stand in the memory of the text, so that a long text isn't copied.
fn with_text_behind(lines: &[u8], mut text: Vec<u8>) -> Result<Vec<u8>, AllocError>
    ensures { IfOk result (λ all. all.items ≡ lines.now ++ text.items) }
{
    let length = text.len();
    text.extend_from_slice(lines)?;
    text.rotate_left(length);
    Ok(text)
}

/// Returns the lines of merges that were performed, and the text of the office that they left.
fn run_output(alloc: Global, office: &Office, run: &ClearedRun) -> Result<Output, AllocError>
    ensures lines { IfOk result (λ o. o.lines.items ≡ merge_text run.now.replies.items run.now.stopped office.now) }
    ensures refused { IfOk result (λ o. o.refused ≡ (list_any is_refused run.now.replies.items || is_some run.now.stopped)) }
    ensures lost { IfOk result (λ o. o.lost ≡ list_any is_lost run.now.replies.items) }
{
    let mut all = replies_output(alloc, office.schema(), run.replies.as_slice())?;
    all.append(&stop_output(alloc, run.stopped)?)?;
    let text = dump_text(alloc, office)?;
    let lines = with_text_behind(all.lines.as_slice(), text)?;
    all.lines = lines;
    Ok(all)
}

/// Merges workspaces in the order of their names, as far as that is quiet for a certificate and no member
/// is merged before its turn, where the certificate is clear. There is a line for each merge that was performed, one that says where the merges
/// stopped, and the text of the office. Where the certificate isn't clear the verdict stands alone.
pub fn merge_members(
    alloc: Global,
    office: &mut Office,
    certificate: &Certificate,
    names: &[Words],
) -> Result<Output, AllocError>
    ensures { IfOk result (λ o. IsMergeOutcome office.old certificate.now names.now (outcome_of o office.new)) }
{
    let commands = merge_commands(alloc, names)?;
    match perform_cleared(alloc, office, certificate, commands.as_slice()) {
        Ok(run) => Ok(run_output(alloc, office, &run)?),
        Err(verdict) => Ok(verdict_output(alloc, office.schema(), certificate, &verdict)?),
    }
}
