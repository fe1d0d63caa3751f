//! Reports on an office, by the names of its workspaces.
ghost use Rattle.std.specs.Prelude.{◌≡◌, true, false, None, Ok, IfOk};
ghost use Rattle.clr_steps.specs.declared.commands.Reply.TheVariants.{NoWorkspace};
ghost use Rattle.clr_lines.specs.Replies.{reply_text};
ghost use Rattle.clr_office_texts.specs.Drafts.{draft_in, opened_in};
ghost use Rattle.clr_office_reports.specs.Outcomes.{audit_outcome, changes_outcome, conflicts_outcome, dump_outcome, dump_text, outcome_of, show_outcome};
ghost use Rattle.clr_office_reports.specs.Outcomes.{workspaces_outcome};

use crate::outputs::Output;
use crate::workspaces::workspaces_lines;
use clr_audit::audit;
use clr_engine::Office;
use clr_lines::{audit_lines, changes_lines, conflicts_lines, reply_line, rows_lines};
use clr_office_texts::write_office;
use clr_rows::{LIVE, Schema};
use clr_steps::Reply;
use std::alloc::{AllocError, Global};

/// Returns what a report prints where no workspace has the name.
fn unknown_workspace(alloc: Global, schema: &Schema) -> Result<Output, AllocError>
    ensures lines { IfOk result (λ o. o.lines.items ≡ reply_text schema.now NoWorkspace) }
    ensures refused { IfOk result (λ o. o.refused ≡ true) }
    ensures found { IfOk result (λ o. o.lost ≡ false) }
{
    Ok(Output {
        lines: reply_line(alloc, schema, &Reply::NoWorkspace)?,
        refused: true,
        lost: false,
    })
}

/// Returns the lines of the rows that LIVE or a workspace sees. Those of LIVE are not copied. Where no workspace has the
/// name, it returns the line of NoWorkspace, which counts as a refusal.
#[tactic(auto, unfolding(crate::specs::Outcomes::by_name))]
pub fn rows_output(alloc: Global, office: &Office, name: &str) -> Result<Output, AllocError>
    ensures { IfOk result (λ o. outcome_of o office.now ≡ show_outcome office.now name.now) }
{
    let schema = office.schema();
    if name == LIVE {
        return Ok(Output::of_lines(rows_lines(alloc, schema, office.live())?));
    }
    match office.rows(name)? {
        Some(rows) => Ok(Output::of_lines(rows_lines(alloc, schema, &rows)?)),
        None => unknown_workspace(alloc, schema),
    }
}

/// Returns the lines of what a workspace changed; LIVE changed nothing. Where no workspace has the name, it returns the line
/// of NoWorkspace, which counts as a refusal.
#[tactic(auto, unfolding(crate::specs::Outcomes::changes_outcome))]
pub fn changes_output(alloc: Global, office: &Office, name: &str) -> Result<Output, AllocError>
    ensures { IfOk result (λ o. outcome_of o office.now ≡ changes_outcome office.now name.now) }
{
    let schema = office.schema();
    match office.changes(name)? {
        Some(changes) => Ok(Output::of_lines(changes_lines(alloc, schema, &changes)?)),
        None => unknown_workspace(alloc, schema),
    }
}

/// Returns the lines of the cells of a workspace that are in conflict with its parent. Where no workspace has the name, it
/// returns the line of NoWorkspace, which counts as a refusal.
#[tactic(auto, unfolding(crate::specs::Outcomes::conflicts_outcome))]
pub fn conflicts_output(alloc: Global, office: &Office, name: &str) -> Result<Output, AllocError>
    ensures { IfOk result (λ o. outcome_of o office.now ≡ conflicts_outcome office.now name.now) }
{
    let schema = office.schema();
    match office.conflicts(name)? {
        Some(cells) => Ok(Output::of_lines(conflicts_lines(alloc, schema, cells.as_slice())?)),
        None => unknown_workspace(alloc, schema),
    }
}

/// Returns the lines of the broken needs of the rows that LIVE or a workspace sees. A need counts as a refusal. Where no
/// workspace has the name, it returns the line of NoWorkspace, which counts as a refusal too.
#[tactic(auto, unfolding(crate::specs::Outcomes::audit_outcome))]
pub fn audit_output(alloc: Global, office: &Office, name: &str) -> Result<Output, AllocError>
    ensures { IfOk result (λ o. outcome_of o office.now ≡ audit_outcome office.now name.now) }
{
    let Some(rows) = office.rows(name)? else {
        return unknown_workspace(alloc, office.schema());
    };
    let needs = audit(alloc, office.book(), &rows)?;
    Ok(Output {
        lines: audit_lines(alloc, office.schema(), needs.as_slice())?,
        refused: needs.len() > 0,
        lost: false,
    })
}

/// Returns the report on all workspaces under LIVE.
pub fn workspaces_output(alloc: Global, office: &Office) -> Result<Output, AllocError>
    ensures { IfOk result (λ o. outcome_of o office.now ≡ workspaces_outcome office.now) }
{
    Ok(Output::of_lines(workspaces_lines(alloc, office)?))
}

/// Returns the text of the whole office, ended by `\n`, which is read as the same office. It names just the needs as known that
/// are broken in LIVE or in a kept workspace.
pub fn dump_text(alloc: Global, office: &Office) -> Result<Vec<u8>, AllocError>
    ensures text { IfOk result (λ text. text.items ≡ dump_text office.now) }
    ensures again { IfOk result (λ text. draft_in text.items ≡ Ok office.now) }
    ensures admitted { IfOk result (λ text. opened_in text.items ≡ Ok (office.now, None)) }
{
    let mut text = write_office(alloc, office)?;
    text.push(b'\n')?;
    Ok(text)
}

/// Returns the report that is the text of the whole office.
pub fn dump_output(alloc: Global, office: &Office) -> Result<Output, AllocError>
    ensures { IfOk result (λ o. outcome_of o office.now ≡ dump_outcome office.now) }
{
    Ok(Output::of_lines(dump_text(alloc, office)?))
}
