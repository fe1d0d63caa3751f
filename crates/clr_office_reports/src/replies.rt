//! What is printed of a reply.

ghost use Rattle.std.specs.Prelude.{◌≡◌, IfOk};
ghost use Rattle.clr_steps.specs.Steps.{is_lost as is_lost_reply};
ghost use Rattle.clr_lines.specs.Replies.{reply_text};
ghost use Rattle.clr_office_reports.specs.Outcomes.{is_refused as is_refused_reply};

use crate::outputs::Output;
use clr_lines::reply_line;
use clr_rows::Schema;
use clr_steps::Reply;
use std::alloc::{AllocError, Global};

fn is_refused(reply: &Reply) -> bool
    ensures { result ≡ is_refused_reply reply.now }
{
    match reply {
        Reply::Done => false,
        _ => true,
    }
}

fn is_lost(reply: &Reply) -> bool
    ensures { result ≡ is_lost_reply reply.now }
{
    match reply {
        Reply::OutOfMemory => true,
        _ => false,
    }
}

/// Returns the line of a reply. Something is refused unless the reply is Done, and something found no memory where it is
/// OutOfMemory.
pub fn reply_output(alloc: Global, schema: &Schema, reply: &Reply) -> Result<Output, AllocError>
    ensures lines { IfOk result (λ o. o.lines.items ≡ reply_text schema.now reply.now) }
    ensures refused { IfOk result (λ o. o.refused ≡ is_refused_reply reply.now) }
    ensures lost { IfOk result (λ o. o.lost ≡ is_lost_reply reply.now) }
{
    Ok(Output {
        lines: reply_line(alloc, schema, reply)?,
        refused: is_refused(reply),
        lost: is_lost(reply),
    })
}
