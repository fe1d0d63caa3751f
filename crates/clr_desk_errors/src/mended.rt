//! The known needs that aren't broken any more.

ghost use Rattle.std.specs.Prelude.{◌≡◌, IfOk};
ghost use Rattle.clr_office_reading.specs.Offices.{known_in};
ghost use Rattle.clr_office_texts.specs.Drafts.{draft_in};
ghost use Rattle.clr_desk_errors.specs.Accepting.{IsPrintoutOfDraft};
ghost use Rattle.clr_desk_errors.specs.Mended.{AreMended, IsMendedPrint, mended_text};
ghost use Rattle.clr_desk_prints.specs.Printing.{IsMadePrintout, printed};

use clr_desk_prints::{Print, RunFault};
use clr_engine::{Broken, Draft};
use clr_lines::{add_need, count_line};
use clr_office_reports::draft_of;
use clr_old_errors::needs_beside;
use clr_rows::Schema;
use std::alloc::{AllocError, Global};

/// Returns those of some known needs that aren't broken in a draft.
fn mended_needs(alloc: Global, draft: &Draft, known: &[Broken]) -> Result<Vec<Broken>, AllocError>
    ensures { IfOk result (λ list. AreMended draft.now known.now list.items) }
{
    let needs = draft.broken_needs()?;
    let list = needs_beside(alloc, known, needs.as_slice())?;
    Ok(list)
}

/// Returns the lines of mended needs.
#[tactic(auto, unfolding(crate::specs::Mended::mended_text))]
fn mended_lines(alloc: Global, schema: &Schema, needs: &[Broken]) -> Result<Vec<u8>, AllocError>
    ensures { IfOk result (λ lines. lines.items ≡ mended_text schema.now needs.now) }
{
    let mut lines = count_line(alloc, "mended", needs.len())?;
    for need in needs {
        add_need(&mut lines, schema, need)?;
        lines.extend_from_slice(b"\n")?;
    }
    Ok(lines)
}

/// Returns what is printed of the mended needs of a draft.
fn mended_print(alloc: Global, draft: &Draft, known: &[Broken]) -> Result<Print, AllocError>
    ensures { IfOk result (λ p. IsMendedPrint known.now draft.now (printed p)) }
{
    let needs = mended_needs(alloc, draft, known)?;
    let lines = mended_lines(alloc, draft.schema(), needs.as_slice())?;
    Ok(Print::of_text(alloc, lines))
}

/// Returns `mended N`, and then each known need that is broken neither in LIVE nor in a workspace that is kept, ascending, as an audit has
/// needs. Fails with `BadOffice` where the text is no office, and with `OutOfMemory` for want of memory, which may come in place of any other
/// answer.
pub fn answer_mended(alloc: Global, office: &[u8]) -> Result<Print, RunFault>
    ensures { IsMadePrintout (IsPrintoutOfDraft (IsMendedPrint (known_in office.now)) (draft_in office.now)) result }
{
    let read = draft_of(alloc, office)?;
    Ok(mended_print(alloc, &read.draft, read.known.as_slice())?)
}
