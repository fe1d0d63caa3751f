//! Cuts with rows put in.

ghost use Rattle.std.specs.Prelude.{◌≡◌, IfOk};
ghost use Rattle.clr_steps.specs.Offices.{Office as WholeOffice};
ghost use Rattle.clr_office_texts.specs.Drafts.{draft_in};
ghost use Rattle.clr_desk_errors.specs.Accepting.{IsPrintoutOfDraft};
ghost use Rattle.clr_desk_prints.specs.Printing.{IsMadePrintout, printed};
ghost use Rattle.clr_desk_edits.specs.Cuts.{IsCutAnswer, IsCutPrint};

use clr_cut_texts::{put_rows, rows_of_layers, write_cut};
use clr_desk_layers::print_of_fault;
use clr_desk_prints::{Print, RunFault};
use clr_layer_changes::GivenLayer;
use clr_office_reading::read_office;
use clr_office_reports::draft_of;
use std::alloc::{AllocError, Global};

/// Returns what is printed of an office text that can be read.
fn cut_print(
    alloc: Global,
    text: &[u8],
    rounded: bool,
    layers: &[GivenLayer],
) -> Result<Print, AllocError>
    ensures { IfOk result (λ p. (o : WholeOffice) → IsCutPrint text.now rounded layers.now o (printed p)) }
{
    // (a text that was read fails only for want of memory)
    let Ok(mut office) = read_office(alloc, text) else {
        return Err(AllocError);
    };
    match rows_of_layers(alloc, &office.schema, rounded, layers)? {
        Ok(rows) => {
            put_rows(alloc, &mut office, &rows)?;
            let mut cut = write_cut(alloc, office)?;
            cut.push(b'\n')?;
            Ok(Print::of_text(alloc, cut))
        }
        Err(faulty) => print_of_fault(alloc, layers, &faulty),
    }
}

/// Returns an office text with the rows of layers put into LIVE, marked as a cut: a row stands in place of the one at its cell, and no row goes. Each row has a
/// key. The workspaces list the cells that they did, also where they remove a row that LIVE doesn't have yet. Rules may be broken before and after. Where a
/// layer has a fault there is no text, and its line is the only note, with status 2. Fails with `BadOffice` where the text is no office, and with `OutOfMemory`
/// for want of memory, which may come in place of any other answer.
pub fn answer_cut(
    alloc: Global,
    office: &[u8],
    rounded: bool,
    layers: &[GivenLayer],
) -> Result<Print, RunFault>
    ensures { IsMadePrintout (IsCutAnswer rounded layers.now office.now) result }
{
    let _read = draft_of(alloc, office)?;
    let print = cut_print(alloc, office, rounded, layers)?;
    Ok(print)
}
