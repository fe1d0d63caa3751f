//! What commands are answered under a certificate, as lines.

use crate::certificates::line_of;
use crate::offices::{commands_of, reply_lines};
use clr_cert::Certificate;
use clr_check::{ClearedRun, Verdict, perform_cleared};
use clr_engine::Office;
use clr_rows::Schema;
use std::alloc::Global;

/// Returns the lines of the replies of a run, and a line with the number of the command at which it stopped.
fn run_lines(alloc: Global, schema: &Schema, run: &ClearedRun) -> Option<Vec<u8>> {
    let mut lines = reply_lines(alloc, schema, run.replies.as_slice())?;
    if let Some(number) = run.stopped {
        let line = format!(in alloc; "stopped {number}\n").ok()?;
        lines.extend_from_slice(line.as_bytes()).ok()?;
    }
    Some(lines)
}

/// Returns the lines of a run, or that of the verdict on its certificate.
pub fn run_or_verdict_lines(
    alloc: Global,
    schema: &Schema,
    certificate: &Certificate,
    run: &Result<ClearedRun, Verdict>,
) -> Option<Vec<u8>> {
    match run {
        Ok(run) => run_lines(alloc, schema, run),
        Err(verdict) => line_of(alloc, schema, certificate, verdict),
    }
}

/// Returns what commands are answered under a certificate, or the line of its verdict.
pub fn run_under(
    alloc: Global,
    office: &mut Office,
    certificate: &Certificate,
    commands: &str,
) -> Option<Vec<u8>> {
    let commands = commands_of(alloc, office, commands)?;
    let run = perform_cleared(alloc, office, certificate, commands.as_slice());
    run_or_verdict_lines(alloc, office.schema(), certificate, &run)
}
