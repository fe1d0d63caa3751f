//! The office of a cut, whatever is broken in it.

ghost use Rattle.std.specs.Prelude.{◌≡◌, Ok, IfErr, IfOk};
ghost use Rattle.clr_office_texts.specs.Drafts.{draft_in};
ghost use Rattle.clr_office_reports.specs.Printing.{IsOfficeFault};
ghost use Rattle.clr_desk_cuts.specs.Listed.{AreListedIn};

use crate::listed::listed_cells;
use clr_deltas::Differences;
use clr_desk_errors::admitted;
use clr_engine::Office;
use clr_office_reports::draft_of;
use clr_process_io::RunFault;
use std::alloc::Global;

/// The office of a cut, and the cells that its text lists.
#[derive(Drop)]
pub(crate) struct OpenedCut {
    pub office: Office,
    pub listed: Differences,
}

/// Returns the office of a text, whatever is broken in it, and the cells that the text lists. A cut that isn't whole yet may break a rule that the
/// network doesn't. Fails with `BadOffice` where the text is no office, and with `OutOfMemory` if memory runs out.
pub(crate) fn open_cut(alloc: Global, text: &[u8]) -> Result<OpenedCut, RunFault>
    ensures office { IfOk result (λ opened. draft_in text.now ≡ Ok opened.office) }
    ensures listed { IfOk result (λ opened. AreListedIn text.now opened.listed) }
    ensures fault { IfErr result (IsOfficeFault (draft_in text.now)) }
{
    let read = draft_of(alloc, text)?;
    let office = admitted(read.draft)?;
    let listed = listed_cells(alloc, text)?;
    Ok(OpenedCut { office, listed })
}
