//! Designs that stand and are brought again, for the office of a text.

ghost use Rattle.std.specs.Prelude.{◌∷◌, []};
ghost use Rattle.clr_office_texts.specs.Drafts.{draft_in, opened_in};
ghost use Rattle.clr_desk_designs.specs.Again.{IsAgainPrint, IsAnewPrint, IsDesignAnewPrint};
ghost use Rattle.clr_desk_errors.specs.Accepting.{IsPrintoutOfDraft};
ghost use Rattle.clr_desk_prints.specs.NameHints.{IsHinted};
ghost use Rattle.clr_desk_prints.specs.Printing.{IsMadePrintout, IsPrintoutIn};

use crate::again_prints::again_print;
use crate::anew_prints::anew_print;
use clr_desk_prints::{Print, RunFault, answer_over_office, has_unknown, hint_lines, notes_of};
use clr_engine::Office;
use clr_layer_changes::{GivenLayer, LayerOptions};
use clr_office_reports::{draft_of, open_office};
use std::alloc::Global;

/// Returns an office text: that of the given office, in which the design of this name, which stands under LIVE, has the base that it had, and sees the
/// base's rows with the rows of the layers in place of those of their tables; or the script that brings the design again so. Its old changes are gone,
/// and so are its savepoints. A row without a key gets the least one from the first key of the options on that neither LIVE nor the base has. How many
/// rows of the base the design adds, changes and removes is a note. Where the workspace stands under another than LIVE, where no workspace has the name,
/// where it has children, or where it is kept and its base or the layers break a need anew, there is no text, and the only note before the counts says
/// so, with status 1, or with status 5 and a hint behind that note where no workspace has the name. All else is as for `clr_desk_layers: answer_design`.
pub fn answer_design_again(
    alloc: Global,
    office: &[u8],
    name: &str,
    is_script: bool,
    options: LayerOptions,
    may_remove: bool,
    layers: &[GivenLayer],
) -> Result<Print, RunFault>
    ensures { IsMadePrintout (IsPrintoutIn (IsHinted (IsAgainPrint is_script name.now options may_remove layers.now) (name.now ∷ []))
        (opened_in office.now)) result }
{
    answer_over_office(alloc, office, name, &[], |office| {
        again_print(alloc, office, name, is_script, options, may_remove, layers)
    })
}

/// Returns what is printed of an opened office and layers that were copied from LIVE of another office text.
fn answer_anew(
    alloc: Global,
    opened: &mut Office,
    copied: &[u8],
    name: &str,
    options: LayerOptions,
    may_remove: bool,
    layers: &[GivenLayer],
) -> Result<Print, RunFault>
    ensures { IsMadePrintout (IsDesignAnewPrint copied.now name.now options may_remove layers.now opened.old) result }
{
    let read = draft_of(alloc, copied)?;
    let copied = &read.draft;
    let print = anew_print(alloc, opened, copied, name, options, may_remove, layers)?;
    Ok(print)
}

/// Returns the same, and behind its notes a hint at the name where no workspace has it.
fn hinted_anew(
    alloc: Global,
    opened: &mut Office,
    copied: &[u8],
    name: &str,
    options: LayerOptions,
    may_remove: bool,
    layers: &[GivenLayer],
) -> Result<Print, RunFault>
    ensures { IsMadePrintout (IsHinted (IsDesignAnewPrint copied.now name.now options may_remove layers.now) (name.now ∷ []) opened.old) result }
{
    let is_unknown = has_unknown(opened, name, &[]);
    let lines = hint_lines(alloc, opened, name, &[])?;
    let bare = answer_anew(alloc, opened, copied, name, options, may_remove, layers)?;
    let told = bare.refused_for(is_unknown);
    let print = told.with_notes(lines.as_slice())?;
    Ok(print)
}

/// Returns an office text as `clr_desk_layers: answer_design_since` does, for the given office without the design of this name, which stands under LIVE: a
/// design of layers that were copied from LIVE of another office text takes its place. Where the workspace stands under another than LIVE, where no
/// workspace has the name, or where it has children, there is no text, and the only note says so, with status 1, or with status 5 and a hint behind that
/// note where no workspace has the name.
pub fn answer_design_anew(
    alloc: Global,
    office: &[u8],
    copied: &[u8],
    name: &str,
    options: LayerOptions,
    may_remove: bool,
    layers: &[GivenLayer],
) -> Result<Print, RunFault>
    ensures { IsMadePrintout (IsPrintoutIn (IsHinted (IsDesignAnewPrint copied.now name.now options may_remove layers.now) (name.now ∷ []))
        (opened_in office.now)) result }
{
    match open_office(alloc, office) {
        Ok(mut opened) => hinted_anew(
            alloc,
            &mut opened,
            copied,
            name,
            options,
            may_remove,
            layers,
        ),
        Err(answer) => notes_of(alloc, answer),
    }
}
