//! What is printed of an opened office and layers that were copied before, from which LIVE has moved on since.

ghost use Rattle.std.specs.Prelude.{◌≡◌, Ok, IfOk};
ghost use Rattle.clr_rows.specs.Schemas.{FitsSchema};
ghost use Rattle.clr_layer_changes.specs.Changes.{edits_between as edits_from};
ghost use Rattle.clr_office_texts.specs.Drafts.{draft_in};
ghost use Rattle.clr_desk_prints.specs.Printing.{printed};
ghost use Rattle.clr_desk_layers.specs.Counted.{IsCounted, IsPrintUnlessRemoving};
ghost use Rattle.clr_desk_layers.specs.Designs.{IsDesignPrintOver, IsPrintOfDesign};
ghost use Rattle.clr_desk_layers.specs.Since.{IsSincePrint};
ghost use Rattle.clr_layer_changes.specs.Wanted.{united};

use crate::design_counts::{removal_in, with_counts};
use crate::design_prints::{print_of_fault, print_of_refusal};
use crate::layer_refusals::{other_schema, removal};
use crate::schemas::first_other;
use crate::since_drafts::draft_with_design;
use clr_change::Edit;
use clr_designs::make_design;
use clr_desk_errors::admitted;
use clr_desk_prints::Print;
use clr_engine::{Draft, Office};
use clr_layer_changes::{GivenLayer, LayerOptions, edits_between, united_content, wanted_content};
use clr_office_reports::dump_text;
use clr_rows::Sheet;
use std::alloc::{AllocError, Global};

/// Returns the text of the office with the design that took over a copied content and has another, or why the design's workspace can't be created. The
/// office is that of the given text.
fn print_of_design_since(
    alloc: Global,
    office: &mut Office,
    text: &[u8],
    name: &str,
    copied: &Sheet,
    content: &Sheet,
) -> Result<Print, AllocError>
    requires read { draft_in text.now ≡ Ok office.old }
    requires copied { FitsSchema office.old.schema copied.now }
    requires fits { FitsSchema office.old.schema content.now }
    ensures { IfOk result (λ p. IsPrintOfDesign name.now copied.now office.old content.now (printed p)) }
{
    let _sound = office.len();
    let _fit = office.live();
    // (whether the workspace can be created doesn't depend on what LIVE had)
    if let Some(reply) = make_design(alloc, office, name, content)? {
        return print_of_refusal(alloc, office.schema(), &reply);
    }
    let draft = draft_with_design(alloc, text, name, copied, content)?;
    let made = admitted(draft)?;
    Ok(Print::of_text(alloc, dump_text(alloc, &made)?))
}

/// Returns the same of a content to which these edits lead from the copied one, or that it removes a row and mustn't.
fn design_unless_removing(
    alloc: Global,
    office: &mut Office,
    text: &[u8],
    name: &str,
    may_remove: bool,
    edits: &[Edit],
    copied: &Sheet,
    content: &Sheet,
) -> Result<Print, AllocError>
    requires read { draft_in text.now ≡ Ok office.old }
    requires copied { FitsSchema office.old.schema copied.now }
    requires fits { FitsSchema office.old.schema content.now }
    requires edits { edits.now ≡ edits_from copied.now content.now }
    ensures { IfOk result (λ p. IsPrintUnlessRemoving may_remove copied.now (IsPrintOfDesign name.now copied.now) office.old content.now (printed p)) }
{
    match removal_in(may_remove, edits) {
        Some(cell) => removal(alloc, office.schema(), cell),
        None => print_of_design_since(alloc, office, text, name, copied, content),
    }
}

/// Returns the same, and how much of the copied content is changed.
fn counted_design(
    alloc: Global,
    office: &mut Office,
    text: &[u8],
    name: &str,
    may_remove: bool,
    copied: &Sheet,
    content: &Sheet,
) -> Result<Print, AllocError>
    requires read { draft_in text.now ≡ Ok office.old }
    requires copied { FitsSchema office.old.schema copied.now }
    requires fits { FitsSchema office.old.schema content.now }
    ensures { IfOk result (λ p. IsCounted may_remove copied.now (IsPrintOfDesign name.now copied.now) office.old content.now (printed p)) }
{
    let edits = edits_between(alloc, copied, content)?;
    let edits = edits.as_slice();
    let print = design_unless_removing(
        alloc, office, text, name, may_remove, edits, copied, content,
    )?;
    with_counts(alloc, print, edits)
}

/// Returns what is printed of the design that has the rows of layers which were copied from this content.
fn print_over(
    alloc: Global,
    office: &mut Office,
    text: &[u8],
    copied: &Sheet,
    name: &str,
    options: LayerOptions,
    may_remove: bool,
    layers: &[GivenLayer],
) -> Result<Print, AllocError>
    requires read { draft_in text.now ≡ Ok office.old }
    requires copied { FitsSchema office.old.schema copied.now }
    ensures { IfOk result (λ p. IsDesignPrintOver copied.now (united office.old.live copied.now) name.now options
        may_remove layers.now office.old (printed p)) }
{
    let taken = united_content(alloc, office.live(), copied)?;
    match wanted_content(alloc, office.schema(), copied, &taken, options, layers)? {
        Ok(content) => counted_design(alloc, office, text, name, may_remove, copied, &content),
        Err(faulty) => print_of_fault(alloc, layers, &faulty),
    }
}

/// Returns what is printed of the design that has the rows of layers which were copied from LIVE of a draft, or which table isn't the same there.
pub fn since_print(
    alloc: Global,
    office: &mut Office,
    text: &[u8],
    copied: &Draft,
    name: &str,
    options: LayerOptions,
    may_remove: bool,
    layers: &[GivenLayer],
) -> Result<Print, AllocError>
    requires { draft_in text.now ≡ Ok office.old }
    ensures { IfOk result (λ p. IsSincePrint name.now options may_remove layers.now office.old copied.now (printed p)) }
{
    match first_other(office.schema().tables(), copied.schema().tables()) {
        Some(table) => other_schema(alloc, table),
        None => print_over(
            alloc,
            office,
            text,
            copied.live(),
            name,
            options,
            may_remove,
            layers,
        ),
    }
}
