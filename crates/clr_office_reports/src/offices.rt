//! Office texts: read, and opened where the needs that are broken are known.
ghost use Rattle.std.specs.Prelude.{◌≡◌, None, Ok, IfOk, IfErr};
ghost use Rattle.clr_office_texts.specs.Drafts.{draft_in, opened_in};
ghost use Rattle.clr_office_reading.specs.Offices.{known_in};
ghost use Rattle.clr_office_reports.specs.Printing.{IsOutput, IsNoPrint, IsOfficeFault, IsPrintIn, print_of, unheld_print};

use crate::outputs::Output;
use clr_engine::{AdmitFault, Broken, Draft, Office};
use clr_lines::unheld_line;
use clr_office_texts::{DraftText, TextFault, read_office};
use clr_process_io::RunFault;
use std::alloc::{AllocError, Global};

/// Reads an office text, in which rules may be broken: its draft, and the needs that it names as known. Fails with
/// `BadOffice` where it is no office, and with `OutOfMemory` if memory runs out.
pub fn draft_of(alloc: Global, office: &[u8]) -> Result<DraftText, RunFault>
    ensures draft { IfOk result (λ text. draft_in office.now ≡ Ok text.draft) }
    ensures known { IfOk result (λ text. text.known ≡ known_in office.now) }
    ensures fault { IfErr result (λ e. IsOfficeFault (draft_in office.now) e) }
{
    match read_office(alloc, office) {
        Ok(text) => Ok(text),
        Err(TextFault::OutOfMemory) => Err(RunFault::OutOfMemory),
        Err(fault) => Err(RunFault::BadOffice(fault)),
    }
}

/// Returns the line that says which content breaks a need that isn't known, and the least such need. The position is 0 for LIVE, and else
/// that of a workspace in order of creation. It counts as a refusal.
pub fn unheld_output(
    alloc: Global,
    draft: &Draft,
    position: usize,
    need: &Broken,
) -> Result<Output, AllocError>
    ensures { IfOk result (λ o. print_of o.lines.items o.refused o.lost ≡ unheld_print draft.now position need.now) }
{
    let name = match position {
        0 => None,
        _ => draft.name_at(position),
    };
    Ok(Output {
        lines: unheld_line(alloc, draft.schema(), name, need)?,
        refused: true,
        lost: false,
    })
}

/// Returns the office of a text, in which each broken need is known. Otherwise it fails with what is answered
/// in place of all that may be asked of the office: the line that says which need is broken and isn't known, or
/// `BadOffice` where the text is no office, or `OutOfMemory` if memory runs out.
/// For example, the line is `unheld rule 1 main/1 main/2` where rule 1 lets mains cross only at nodes, and mains 1
/// and 2 cross without one in LIVE, unless the text has `"known":[[1,2]]` in rule 1.
#[tactic(auto, unfolding(clr_office_texts::specs::Drafts::opened_in))]
pub fn open_office(alloc: Global, office: &[u8]) -> Result<Office, Result<Output, RunFault>>
    ensures meant { IfOk result (λ opened. opened_in office.now ≡ Ok (opened, None)) }
    ensures answer { IfErr result (IsOutput (IsPrintIn IsNoPrint (opened_in office.now))) }
{
    let text = match draft_of(alloc, office) {
        Ok(text) => text,
        Err(fault) => return Err(Err(fault)),
    };
    match text.draft.admit(text.known.as_slice()) {
        Ok(office) => Ok(office),
        Err((draft, fault)) => match fault {
            AdmitFault::Broken { position, need } => {
                match unheld_output(alloc, &draft, position, &need) {
                    Ok(output) => Err(Ok(output)),
                    Err(_) => Err(Err(RunFault::OutOfMemory)),
                }
            }
            AdmitFault::OutOfMemory => Err(Err(RunFault::OutOfMemory)),
        },
    }
}
