//! What is printed of an opened office and layers.

ghost use Rattle.std.specs.Prelude.{◌≡◌, Ok, IfOk};
ghost use Rattle.clr_rows.specs.Schemas.{FitsSchema};
ghost use Rattle.clr_office_texts.specs.Drafts.{draft_in};
ghost use Rattle.clr_desk_prints.specs.Printing.{printed};
ghost use Rattle.clr_desk_layers.specs.Designs.{IsAcceptedOfficePrint, IsDesignPrint, IsDesignScriptPrint, IsOfficePrint, IsPrintOfAccepted};
ghost use Rattle.clr_desk_layers.specs.Designs.{IsPrintOfDesign, IsPrintOfLive, IsPrintOfScript, faulty_layer_printout, refusal_print};
ghost use Rattle.clr_desk_layers.specs.Counted.{IsCounted, IsPrintUnlessRemoving};
ghost use Rattle.clr_layer_changes.specs.Changes.{edits_between as edits_from};

use crate::design_counts::{removal_in, with_counts};
use crate::layer_fault_lines::fault_line;
use crate::layer_refusals::removal;
use crate::relaid_drafts::draft_with_live;
use clr_change::Edit;
use clr_designs::{make_design, replace_live, write_design_script};
use clr_desk_errors::accepted_print;
use clr_desk_prints::{Ending, Print};
use clr_engine::{Draft, Office};
use clr_layer_changes::{FaultyLayer, GivenLayer, LayerOptions, edits_between, wanted_content};
use clr_lines::reply_line;
use clr_office_reports::dump_text;
use clr_rows::{LIVE, Schema, Sheet};
use clr_steps::Reply;
use std::alloc::{AllocError, Global};

/// Returns the line of the first layer with a fault as the only note, without a text.
pub fn print_of_fault(
    alloc: Global,
    layers: &[GivenLayer],
    faulty: &FaultyLayer,
) -> Result<Print, AllocError>
    ensures { IfOk result (λ p. printed p ≡ faulty_layer_printout layers.now faulty.now) }
{
    Ok(Print {
        text: Vec::new(alloc),
        notes: fault_line(alloc, layers, faulty)?,
        ending: Ending::Unread,
    })
}

/// Returns the line of a refusal as the only note, without a text.
pub fn print_of_refusal(alloc: Global, schema: &Schema, reply: &Reply) -> Result<Print, AllocError>
    ensures { IfOk result (λ p. printed p ≡ refusal_print schema.now reply.now) }
{
    let line = reply_line(alloc, schema, reply)?;
    Ok(Print::new(Vec::new(alloc), line, true, false))
}

/// Makes the design that has a content, and returns the text of the office, or why the design's workspace can't be created.
fn print_of_design(
    alloc: Global,
    office: &mut Office,
    name: &str,
    content: &Sheet,
) -> Result<Print, AllocError>
    requires { FitsSchema office.old.schema content.now }
    ensures { IfOk result (λ p. IsPrintOfDesign name.now office.old.live office.old content.now (printed p)) }
{
    let _sound = office.len();
    let _fit = office.live();
    match make_design(alloc, office, name, content)? {
        None => Ok(Print::of_text(alloc, dump_text(alloc, office)?)),
        Some(reply) => print_of_refusal(alloc, office.schema(), &reply),
    }
}

/// Makes the design that has a content, and returns the script that makes it, or why the design's workspace can't be created.
fn print_of_script(
    alloc: Global,
    office: &mut Office,
    name: &str,
    content: &Sheet,
) -> Result<Print, AllocError>
    requires { FitsSchema office.old.schema content.now }
    ensures { IfOk result (λ p. IsPrintOfScript name.now office.old content.now (printed p)) }
{
    if let Some(reply) = make_design(alloc, office, name, content)? {
        return print_of_refusal(alloc, office.schema(), &reply);
    }
    let edits = edits_between(alloc, office.live(), content)?;
    let text = write_design_script(alloc, office.schema(), name, LIVE, edits.as_slice())?;
    Ok(Print::of_text(alloc, text))
}

/// Returns what is printed of the design that has a content to which these edits lead, or that it removes a row and mustn't.
fn design_unless_removing(
    alloc: Global,
    office: &mut Office,
    name: &str,
    may_remove: bool,
    edits: &[Edit],
    content: &Sheet,
) -> Result<Print, AllocError>
    requires fits { FitsSchema office.old.schema content.now }
    requires edits { edits.now ≡ edits_from office.old.live content.now }
    ensures { IfOk result (λ p. IsPrintUnlessRemoving may_remove office.old.live (IsPrintOfDesign name.now office.old.live)
        office.old content.now (printed p)) }
{
    match removal_in(may_remove, edits) {
        Some(cell) => removal(alloc, office.schema(), cell),
        None => print_of_design(alloc, office, name, content),
    }
}

/// Returns the same of the script that makes this design.
fn script_unless_removing(
    alloc: Global,
    office: &mut Office,
    name: &str,
    may_remove: bool,
    edits: &[Edit],
    content: &Sheet,
) -> Result<Print, AllocError>
    requires fits { FitsSchema office.old.schema content.now }
    requires edits { edits.now ≡ edits_from office.old.live content.now }
    ensures { IfOk result (λ p. IsPrintUnlessRemoving may_remove office.old.live (IsPrintOfScript name.now) office.old content.now (printed p)) }
{
    match removal_in(may_remove, edits) {
        Some(cell) => removal(alloc, office.schema(), cell),
        None => print_of_script(alloc, office, name, content),
    }
}

/// Returns what is printed of the design that has a content, and how much it changes.
fn counted_design(
    alloc: Global,
    office: &mut Office,
    name: &str,
    may_remove: bool,
    content: &Sheet,
) -> Result<Print, AllocError>
    requires { FitsSchema office.old.schema content.now }
    ensures { IfOk result (λ p. IsCounted may_remove office.old.live (IsPrintOfDesign name.now office.old.live) office.old content.now (printed p)) }
{
    let edits = edits_between(alloc, office.live(), content)?;
    let edits = edits.as_slice();
    let print = design_unless_removing(alloc, office, name, may_remove, edits, content)?;
    with_counts(alloc, print, edits)
}

/// Returns the same of the script that makes this design.
fn counted_script(
    alloc: Global,
    office: &mut Office,
    name: &str,
    may_remove: bool,
    content: &Sheet,
) -> Result<Print, AllocError>
    requires { FitsSchema office.old.schema content.now }
    ensures { IfOk result (λ p. IsCounted may_remove office.old.live (IsPrintOfScript name.now) office.old content.now (printed p)) }
{
    let edits = edits_between(alloc, office.live(), content)?;
    let edits = edits.as_slice();
    let print = script_unless_removing(alloc, office, name, may_remove, edits, content)?;
    with_counts(alloc, print, edits)
}

/// Puts a content in place of LIVE's, and returns the text of the office, or the least need that the content breaks.
fn print_of_live(alloc: Global, office: &mut Office, content: &Sheet) -> Result<Print, AllocError>
    requires { FitsSchema office.old.schema content.now }
    ensures { IfOk result (λ p. IsPrintOfLive office.old content.now (printed p)) }
{
    match replace_live(alloc, office, content)? {
        None => Ok(Print::of_text(alloc, dump_text(alloc, office)?)),
        Some(reply) => print_of_refusal(alloc, office.schema(), &reply),
    }
}

/// Puts a content in place of LIVE's, whatever it breaks, and returns the text of the office with its errors accepted, and how many they are.
/// The draft is that of the given text.
fn print_of_accepted(
    alloc: Global,
    text: &[u8],
    draft: &Draft,
    content: &Sheet,
) -> Result<Print, AllocError>
    requires read { draft_in text.now ≡ Ok draft.now }
    requires fits { FitsSchema draft.now.schema content.now }
    ensures { IfOk result (λ p. IsPrintOfAccepted draft.now content.now (printed p)) }
{
    let relaid = draft_with_live(alloc, text, draft, content)?;
    let print = accepted_print(alloc, relaid)?;
    Ok(print)
}

/// Returns what is printed of the design that has the rows of layers.
pub(crate) fn design_print(
    alloc: Global,
    office: &mut Office,
    name: &str,
    options: LayerOptions,
    may_remove: bool,
    layers: &[GivenLayer],
) -> Result<Print, AllocError>
    ensures { IfOk result (λ p. IsDesignPrint name.now options may_remove layers.now office.old (printed p)) }
{
    let live = office.live();
    match wanted_content(alloc, office.schema(), live, live, options, layers)? {
        Ok(content) => counted_design(alloc, office, name, may_remove, &content),
        Err(faulty) => print_of_fault(alloc, layers, &faulty),
    }
}

/// Returns what is printed of the script that makes this design.
pub(crate) fn script_print(
    alloc: Global,
    office: &mut Office,
    name: &str,
    options: LayerOptions,
    may_remove: bool,
    layers: &[GivenLayer],
) -> Result<Print, AllocError>
    ensures { IfOk result (λ p. IsDesignScriptPrint name.now options may_remove layers.now office.old (printed p)) }
{
    let live = office.live();
    match wanted_content(alloc, office.schema(), live, live, options, layers)? {
        Ok(content) => counted_script(alloc, office, name, may_remove, &content),
        Err(faulty) => print_of_fault(alloc, layers, &faulty),
    }
}

/// Returns what is printed of the office whose LIVE has the rows of layers.
pub(crate) fn office_print(
    alloc: Global,
    office: &mut Office,
    options: LayerOptions,
    layers: &[GivenLayer],
) -> Result<Print, AllocError>
    ensures { IfOk result (λ p. IsOfficePrint options layers.now office.old (printed p)) }
{
    let live = office.live();
    match wanted_content(alloc, office.schema(), live, live, options, layers)? {
        Ok(content) => print_of_live(alloc, office, &content),
        Err(faulty) => print_of_fault(alloc, layers, &faulty),
    }
}

/// Returns what is printed of the office whose LIVE has the rows of layers, with its errors accepted. The draft is that of the given text.
pub(crate) fn accepted_office_print(
    alloc: Global,
    text: &[u8],
    draft: &Draft,
    options: LayerOptions,
    layers: &[GivenLayer],
) -> Result<Print, AllocError>
    requires { draft_in text.now ≡ Ok draft.now }
    ensures { IfOk result (λ p. IsAcceptedOfficePrint options layers.now draft.now (printed p)) }
{
    let live = draft.live();
    match wanted_content(alloc, draft.schema(), live, live, options, layers)? {
        Ok(content) => print_of_accepted(alloc, text, draft, &content),
        Err(faulty) => print_of_fault(alloc, layers, &faulty),
    }
}
