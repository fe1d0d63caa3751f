//! Offices and designs that are made of layers, for the office of a text.

ghost use Rattle.std.specs.Prelude.{◌≡◌, Ok};
ghost use Rattle.clr_office_texts.specs.Drafts.{draft_in, opened_in};
ghost use Rattle.clr_desk_prints.specs.Printing.{IsMadePrintout, IsPrintoutIn};
ghost use Rattle.clr_desk_layers.specs.Designs.{IsAcceptedOfficePrint, IsDesignPrint, IsDesignScriptPrint, IsOfficePrint};
ghost use Rattle.clr_desk_layers.specs.Since.{IsDesignSincePrint};
ghost use Rattle.clr_desk_errors.specs.Accepting.{IsPrintoutOfDraft};

use crate::design_prints::{accepted_office_print, design_print, office_print, script_print};
use crate::since_prints::since_print;
use clr_desk_prints::{Print, RunFault, notes_of};
use clr_engine::Office;
use clr_layer_changes::{GivenLayer, LayerOptions};
use clr_office_reports::{draft_of, open_office};
use std::alloc::Global;

/// Returns an office text: that of the given office with one more workspace of this name, a child of LIVE, which sees LIVE's content with the rows of the
/// layers in place of those of their tables. A row without a key gets the least one that is free, from the first key of the options on. How many rows the
/// design adds, changes and removes is its note. Where a layer has a fault there is no text, and its line is the only note, with status 2. Where the design
/// removes a row and mustn't, or where the workspace can't be created, there is no text, and which row that is or the line of that reply is the first note,
/// with status 1.
/// Where a rule doesn't hold the line that says so is the only note, and there is no text. Fails with `BadOffice` where the text is no office, and
/// with `OutOfMemory` for want of memory, which may come in place of any other answer.
pub fn answer_design(
    alloc: Global,
    office: &[u8],
    name: &str,
    options: LayerOptions,
    may_remove: bool,
    layers: &[GivenLayer],
) -> Result<Print, RunFault>
    ensures { IsMadePrintout (IsPrintoutIn (IsDesignPrint name.now options may_remove layers.now) (opened_in office.now)) result }
{
    match open_office(alloc, office) {
        Ok(mut office) => Ok(design_print(alloc, &mut office, name, options, may_remove, layers)?),
        Err(answer) => notes_of(alloc, answer),
    }
}

/// Returns what is printed of an opened office and layers that were copied from LIVE of another office text. The office is that of the first text.
fn answer_since(
    alloc: Global,
    opened: &mut Office,
    office: &[u8],
    copied: &[u8],
    name: &str,
    options: LayerOptions,
    may_remove: bool,
    layers: &[GivenLayer],
) -> Result<Print, RunFault>
    requires { draft_in office.now ≡ Ok opened.old }
    ensures { IsMadePrintout (IsDesignSincePrint copied.now name.now options may_remove layers.now opened.old) result }
{
    let read = draft_of(alloc, copied)?;
    let copied = &read.draft;
    let print = since_print(
        alloc, opened, office, copied, name, options, may_remove, layers,
    )?;
    Ok(print)
}

/// Returns an office text as `answer_design` does, for layers that were copied from LIVE of another office text, in which rules may be broken: the office
/// in which the design was made where LIVE had the copied rows, and LIVE has moved on since to what it is in the given office. So the design adds, changes
/// and removes just what its layers do to the copied rows, and is in conflict just where LIVE changed the same since. A row without a key gets none that
/// LIVE has now or had then. Where a table isn't the same in both there is no text, and its name is the only note, with status 1. Fails with `BadOffice`
/// where the first text is no office, or else the second.
/// For example, where main 6 came into LIVE since, and the layer has mains 1 and 2 as they were copied and main 7, the design adds main 7, and merging it
/// leaves main 6.
pub fn answer_design_since(
    alloc: Global,
    office: &[u8],
    copied: &[u8],
    name: &str,
    options: LayerOptions,
    may_remove: bool,
    layers: &[GivenLayer],
) -> Result<Print, RunFault>
    ensures { IsMadePrintout (IsPrintoutIn (IsDesignSincePrint copied.now name.now options may_remove layers.now) (opened_in office.now)) result }
{
    match open_office(alloc, office) {
        Ok(mut opened) => answer_since(
            alloc,
            &mut opened,
            office,
            copied,
            name,
            options,
            may_remove,
            layers,
        ),
        Err(answer) => notes_of(alloc, answer),
    }
}

/// Returns the script that makes this design: a step that creates the workspace, and one that makes its edits. Both would be done, and leave the same
/// office. All else is as for `answer_design`, so that no script is written of a design that can't be made.
pub fn answer_design_script(
    alloc: Global,
    office: &[u8],
    name: &str,
    options: LayerOptions,
    may_remove: bool,
    layers: &[GivenLayer],
) -> Result<Print, RunFault>
    ensures { IsMadePrintout (IsPrintoutIn (IsDesignScriptPrint name.now options may_remove layers.now) (opened_in office.now)) result }
{
    match open_office(alloc, office) {
        Ok(mut office) => Ok(script_print(alloc, &mut office, name, options, may_remove, layers)?),
        Err(answer) => notes_of(alloc, answer),
    }
}

/// Returns an office text: that of the given office, where LIVE has the rows of the layers in place of those of their tables. Where these rows break a
/// rule there is no text, and the line of that reply is the only note, with status 1. All else is as for `answer_design`.
pub fn answer_office(
    alloc: Global,
    office: &[u8],
    options: LayerOptions,
    layers: &[GivenLayer],
) -> Result<Print, RunFault>
    ensures { IsMadePrintout (IsPrintoutIn (IsOfficePrint options layers.now) (opened_in office.now)) result }
{
    match open_office(alloc, office) {
        Ok(mut office) => Ok(office_print(alloc, &mut office, options, layers)?),
        Err(answer) => notes_of(alloc, answer),
    }
}

/// Returns an office text: that of the given office, where LIVE has the rows of the layers in place of those of their tables, with just those
/// needs as known that are broken then; and as notes how many needs these are, in all and of each rule that has some. What is broken in the
/// given office doesn't count. Where a layer has a fault there is no text, and its line is the only note, with status 2. Fails with `BadOffice`
/// where the text is no office, and with `OutOfMemory` for want of memory, which may come in place of any other answer.
pub fn answer_accepted_office(
    alloc: Global,
    office: &[u8],
    options: LayerOptions,
    layers: &[GivenLayer],
) -> Result<Print, RunFault>
    ensures { IsMadePrintout (IsPrintoutOfDraft (IsAcceptedOfficePrint options layers.now) (draft_in office.now)) result }
{
    let read = draft_of(alloc, office)?;
    Ok(accepted_office_print(alloc, office, &read.draft, options, layers)?)
}
