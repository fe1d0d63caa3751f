//! What is printed of an opened office and a design that is brought again.

ghost use Rattle.std.specs.Prelude.{◌≡◌, IfOk};
ghost use Rattle.clr_rows.specs.Schemas.{FitsSchema};
ghost use Rattle.clr_steps.specs.Offices.{content_of};
ghost use Rattle.clr_layer_changes.specs.Changes.{edits_between as edits_from};
ghost use Rattle.clr_desk_designs.specs.Again.{IsAgainPrint, IsPrintOfChange, IsPrintOfContent, IsPrintOfScript, IsPrintOverBase};
ghost use Rattle.clr_desk_layers.specs.Counted.{IsCounted, IsPrintUnlessRemoving};
ghost use Rattle.clr_desk_prints.specs.Printing.{printed};

use crate::positions::{is_elsewhere, print_of_elsewhere};
use clr_change::Edit;
use clr_designs::{roll_back, set_content, write_again_script};
use clr_desk_layers::{print_of_fault, print_of_refusal, removal, removal_in, with_counts};
use clr_desk_prints::Print;
use clr_engine::Office;
use clr_layer_changes::{GivenLayer, LayerOptions, edits_between, united_content, wanted_content};
use clr_office_reports::dump_text;
use clr_rows::Sheet;
use std::alloc::{AllocError, Global};

/// Gives a workspace a content, and returns the text of the office, or why the workspace can't have it.
fn print_of_content(
    alloc: Global,
    office: &mut Office,
    name: &str,
    content: &Sheet,
) -> Result<Print, AllocError>
    requires { FitsSchema office.old.schema content.now }
    ensures { IfOk result (λ p. IsPrintOfContent name.now office.old content.now (printed p)) }
{
    match set_content(alloc, office, name, content)? {
        None => Ok(Print::of_text(alloc, dump_text(alloc, office)?)),
        Some(reply) => print_of_refusal(alloc, office.schema(), &reply),
    }
}

/// Gives a workspace a content, and returns the script that brings the design again, or why the workspace can't have it. Before, it sees its base.
fn print_of_script(
    alloc: Global,
    office: &mut Office,
    name: &str,
    base: &Sheet,
    content: &Sheet,
) -> Result<Print, AllocError>
    requires fits { FitsSchema office.old.schema content.now }
    requires seen { base.now ≡ content_of office.old name.now }
    ensures { IfOk result (λ p. IsPrintOfScript name.now office.old content.now (printed p)) }
{
    let _fit = office.live();
    if let Some(reply) = set_content(alloc, office, name, content)? {
        return print_of_refusal(alloc, office.schema(), &reply);
    }
    let edits = edits_between(alloc, base, content)?;
    let text = write_again_script(alloc, office.schema(), name, edits.as_slice())?;
    Ok(Print::of_text(alloc, text))
}

/// Returns the script, or else the office.
fn print_of_change(
    alloc: Global,
    office: &mut Office,
    name: &str,
    is_script: bool,
    base: &Sheet,
    content: &Sheet,
) -> Result<Print, AllocError>
    requires fits { FitsSchema office.old.schema content.now }
    requires seen { base.now ≡ content_of office.old name.now }
    ensures { IfOk result (λ p. IsPrintOfChange is_script name.now office.old content.now (printed p)) }
{
    if is_script {
        print_of_script(alloc, office, name, base, content)
    } else {
        print_of_content(alloc, office, name, content)
    }
}

/// Returns the same of a content to which these edits lead from the base, or that it removes a row and mustn't.
fn print_unless_removing(
    alloc: Global,
    office: &mut Office,
    name: &str,
    is_script: bool,
    may_remove: bool,
    edits: &[Edit],
    base: &Sheet,
    content: &Sheet,
) -> Result<Print, AllocError>
    requires fits { FitsSchema office.old.schema content.now }
    requires seen { base.now ≡ content_of office.old name.now }
    requires edits { edits.now ≡ edits_from base.now content.now }
    ensures { IfOk result (λ p. IsPrintUnlessRemoving may_remove base.now (IsPrintOfChange is_script name.now) office.old content.now (printed p)) }
{
    match removal_in(may_remove, edits) {
        Some(cell) => removal(alloc, office.schema(), cell),
        None => print_of_change(alloc, office, name, is_script, base, content),
    }
}

/// Returns the same, and how much of the base is changed.
fn counted_print(
    alloc: Global,
    office: &mut Office,
    name: &str,
    is_script: bool,
    may_remove: bool,
    base: &Sheet,
    content: &Sheet,
) -> Result<Print, AllocError>
    requires fits { FitsSchema office.old.schema content.now }
    requires seen { base.now ≡ content_of office.old name.now }
    ensures { IfOk result (λ p. IsCounted may_remove base.now (IsPrintOfChange is_script name.now) office.old content.now (printed p)) }
{
    let edits = edits_between(alloc, base, content)?;
    let edits = edits.as_slice();
    let print = print_unless_removing(
        alloc, office, name, is_script, may_remove, edits, base, content,
    )?;
    with_counts(alloc, print, edits)
}

/// Returns what is printed of an office in which the workspace of a design sees its base, and of layers that were copied from it.
fn print_over_base(
    alloc: Global,
    office: &mut Office,
    name: &str,
    is_script: bool,
    options: LayerOptions,
    may_remove: bool,
    layers: &[GivenLayer],
) -> Result<Print, AllocError>
    ensures { IfOk result (λ p. IsPrintOverBase is_script name.now options may_remove layers.now office.old (printed p)) }
{
    // (a workspace that was rolled back stands)
    let Some(base) = office.rows(name)? else {
        return Err(AllocError);
    };
    let taken = united_content(alloc, office.live(), &base)?;
    match wanted_content(alloc, office.schema(), &base, &taken, options, layers)? {
        Ok(content) => counted_print(alloc, office, name, is_script, may_remove, &base, &content),
        Err(faulty) => print_of_fault(alloc, layers, &faulty),
    }
}

/// Returns what is printed of a design that is brought again with the rows of layers.
pub(crate) fn again_print(
    alloc: Global,
    office: &mut Office,
    name: &str,
    is_script: bool,
    options: LayerOptions,
    may_remove: bool,
    layers: &[GivenLayer],
) -> Result<Print, AllocError>
    ensures { IfOk result (λ p. IsAgainPrint is_script name.now options may_remove layers.now office.old (printed p)) }
{
    let elsewhere = is_elsewhere(office, name);
    if elsewhere {
        return print_of_elsewhere(alloc, name);
    }
    if let Some(reply) = roll_back(alloc, office, name)? {
        return print_of_refusal(alloc, office.schema(), &reply);
    }
    print_over_base(alloc, office, name, is_script, options, may_remove, layers)
}
