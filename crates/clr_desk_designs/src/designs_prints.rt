//! What is printed of an opened office and several designs of layers.

ghost use Rattle.std.specs.Prelude.{◌≡◌, Ok, IfOk};
ghost use Rattle.clr_rows.specs.Schemas.{FitsSchema};
ghost use Rattle.clr_designs.specs.Designs.{with_live};
ghost use Rattle.clr_layer_changes.specs.Wanted.{united};
ghost use Rattle.clr_office_texts.specs.Drafts.{draft_in};
ghost use Rattle.clr_desk_designs.specs.InTurn.{IsDesignsPrint, IsDesignsSince, IsPrintOfDesigns, IsTextOf};
ghost use Rattle.clr_desk_prints.specs.Printing.{printed};

use crate::in_turn::make_in_turn;
use crate::made_designs::MadeDesigns;
use crate::moved_offices::office_with_live;
use clr_design_folders::LayeredDesign;
use clr_desk_layers::{first_other, other_schema};
use clr_desk_prints::Print;
use clr_engine::{Draft, Office};
use clr_layer_changes::{LayerOptions, united_content};
use clr_office_reports::dump_text;
use clr_rows::Sheet;
use std::alloc::{AllocError, Global};

/// Returns what is printed of designs of layers that were copied from LIVE as it is.
pub(crate) fn designs_print(
    alloc: Global,
    office: &mut Office,
    options: LayerOptions,
    may_remove: bool,
    designs: &[LayeredDesign],
) -> Result<Print, AllocError>
    ensures { IfOk result (λ p. IsDesignsPrint options may_remove designs.now office.old (printed p)) }
{
    let live = office.live().copy()?;
    match make_in_turn(alloc, office, &live, options, may_remove, designs)? {
        MadeDesigns::Made(notes) => {
            let text = dump_text(alloc, office)?;
            Ok(Print::new(text, notes, false, false))
        }
        MadeDesigns::Refused(print) => Ok(print),
    }
}

/// Returns the text of an office in which LIVE has moved on to a content, behind these notes.
fn print_of_moved(
    alloc: Global,
    office: &Office,
    live: &Sheet,
    notes: Vec<u8>,
) -> Result<Print, AllocError>
    requires { FitsSchema office.now.schema live.now }
    ensures { IfOk result (λ p. IsTextOf (with_live office.now live.now) notes.items (printed p)) }
{
    let made = dump_text(alloc, office)?;
    let moved = office_with_live(alloc, made.as_slice(), live)?;
    let text = dump_text(alloc, &moved)?;
    Ok(Print::new(text, notes, false, false))
}

/// Returns what is printed of designs of layers that were copied from this content, from which LIVE has moved on since. The office is that of the text.
fn print_over(
    alloc: Global,
    office: &Office,
    text: &[u8],
    copied: &Sheet,
    options: LayerOptions,
    may_remove: bool,
    designs: &[LayeredDesign],
) -> Result<Print, AllocError>
    requires read { draft_in text.now ≡ Ok office.now }
    requires copied { FitsSchema office.now.schema copied.now }
    ensures { IfOk result (λ p. IsPrintOfDesigns (united office.now.live copied.now) options may_remove designs.now
        (λ left. with_live left office.now.live) (with_live office.now copied.now) (printed p)) }
{
    let live = office.live();
    let taken = united_content(alloc, live, copied)?;
    let mut before = office_with_live(alloc, text, copied)?;
    match make_in_turn(alloc, &mut before, &taken, options, may_remove, designs)? {
        MadeDesigns::Made(notes) => print_of_moved(alloc, &before, live, notes),
        MadeDesigns::Refused(print) => Ok(print),
    }
}

/// Returns what is printed of designs of layers that were copied from LIVE of a draft, or which table isn't the same there. The office is that of the text.
pub(crate) fn designs_since_print(
    alloc: Global,
    office: &Office,
    text: &[u8],
    copied: &Draft,
    options: LayerOptions,
    may_remove: bool,
    designs: &[LayeredDesign],
) -> Result<Print, AllocError>
    requires { draft_in text.now ≡ Ok office.now }
    ensures { IfOk result (λ p. IsDesignsSince options may_remove designs.now office.now copied.now (printed p)) }
{
    match first_other(office.schema().tables(), copied.schema().tables()) {
        Some(table) => other_schema(alloc, table),
        None => print_over(
            alloc,
            office,
            text,
            copied.live(),
            options,
            may_remove,
            designs,
        ),
    }
}
