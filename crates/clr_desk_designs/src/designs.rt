//! Several designs of layers, for the office of a text.

ghost use Rattle.std.specs.Prelude.{◌≡◌, Ok};
ghost use Rattle.clr_office_texts.specs.Drafts.{draft_in, opened_in};
ghost use Rattle.clr_desk_designs.specs.InTurn.{IsDesignsPrint, IsDesignsSincePrint};
ghost use Rattle.clr_desk_errors.specs.Accepting.{IsPrintoutOfDraft};
ghost use Rattle.clr_desk_prints.specs.Printing.{IsMadePrintout, IsPrintoutIn};

use crate::designs_prints::{designs_print, designs_since_print};
use clr_design_folders::LayeredDesign;
use clr_desk_prints::{Print, RunFault, notes_of};
use clr_engine::Office;
use clr_layer_changes::LayerOptions;
use clr_office_reports::{draft_of, open_office};
use std::alloc::Global;

/// Returns an office text: that of the given office with a workspace more for each design, as `clr_desk_layers: answer_design` makes it, one after another in
/// their order. The notes say of each, with its name, how many rows it adds, changes and removes. Where a design can't be made, there is no text, and its
/// name and the line that says why are the only note, with the status that the line has there. The office is opened once, and written once. All else is as
/// for `answer_design`; so two designs may get the same key for rows that have none.
pub fn answer_designs(
    alloc: Global,
    office: &[u8],
    options: LayerOptions,
    may_remove: bool,
    designs: &[LayeredDesign],
) -> Result<Print, RunFault>
    ensures { IsMadePrintout (IsPrintoutIn (IsDesignsPrint options may_remove designs.now) (opened_in office.now)) result }
{
    match open_office(alloc, office) {
        Ok(mut office) => Ok(designs_print(alloc, &mut office, options, may_remove, designs)?),
        Err(answer) => notes_of(alloc, answer),
    }
}

/// Returns what is printed of an opened office and designs of layers that were copied from LIVE of another office text. The office is that of the first text.
fn answer_since(
    alloc: Global,
    opened: &Office,
    office: &[u8],
    copied: &[u8],
    options: LayerOptions,
    may_remove: bool,
    designs: &[LayeredDesign],
) -> Result<Print, RunFault>
    requires { draft_in office.now ≡ Ok opened.now }
    ensures { IsMadePrintout (IsDesignsSincePrint copied.now options may_remove designs.now opened.now) result }
{
    let read = draft_of(alloc, copied)?;
    let copied = &read.draft;
    let print = designs_since_print(alloc, opened, office, copied, options, may_remove, designs)?;
    Ok(print)
}

/// Returns an office text as `answer_designs` does, for layers that were copied from LIVE of another office text, in which rules may be broken: each design
/// is made where LIVE had the copied rows, and LIVE has moved on since to what it is in the given office, as `clr_desk_layers: answer_design_since` has it.
/// Where a table isn't the same in both there is no text, and its name is the only note, with status 1. Fails with `BadOffice` where the first text is no
/// office, or else the second.
pub fn answer_designs_since(
    alloc: Global,
    office: &[u8],
    copied: &[u8],
    options: LayerOptions,
    may_remove: bool,
    designs: &[LayeredDesign],
) -> Result<Print, RunFault>
    ensures { IsMadePrintout (IsPrintoutIn (IsDesignsSincePrint copied.now options may_remove designs.now) (opened_in office.now)) result }
{
    match open_office(alloc, office) {
        Ok(opened) => answer_since(alloc, &opened, office, copied, options, may_remove, designs),
        Err(answer) => notes_of(alloc, answer),
    }
}
