//! The clashes of a board.

ghost use Rattle.std.specs.Prelude.{◌≡◌, ◌++◌, map, IfOk, OnOk};
ghost use Rattle.std.specs.List.{flat_map};
ghost use Rattle.std.specs.Option.{option_copied};
ghost use Rattle.clr_merge_clashes.specs.ClashSets.{positions_of};
ghost use Rattle.clr_page_parts.specs.Shown.{section_shown, shown};
ghost use Rattle.clr_board_page.specs.Clashes.{all_clashes, clash_at, clash_by, clash_head, clash_shown, clashes_shown, helps_words};
ghost use Rattle.clr_board_page.specs.Links.{paragraph_text};
ghost use Rattle.clr_board_page.specs.Said.{said_in};

use crate::links::{Anchor, add_designs, add_heading};
use crate::told::Told;
use clr_clash_helpers::HelpedClash;
use clr_html::{Block, Section};
use clr_page_parts::{Builder, add_cause};
use clr_plan_sentences::CauseWords;
use std::alloc::AllocError;

/// Returns the number of a clash, and its designs.
fn clash_head(told: Told<'_>, number: usize, clash: &HelpedClash<'_>) -> Result<Vec<u8>, AllocError>
    ensures { IfOk result (λ text. text.items ≡ clash_head (said_in told.entry).names number clash.now) }
{
    let words = format!(in told.alloc; "Clash {number}")?;
    let mut page = Vec::new(told.alloc);
    add_heading(&mut page, Anchor::ClashSet(number), words.as_str())?;
    page.extend_from_slice(b"<p>")?;
    add_designs(&mut page, told.names, clash.clash.members.as_slice())?;
    page.extend_from_slice(b"</p>\n")?;
    Ok(page)
}

/// Adds who helps a clash.
fn add_helps(page: &mut Vec<u8>, names: &[&str], helpers: &[usize]) -> Result<(), AllocError>
    ensures { OnOk result (page.new.items ≡ page.old.items ++ helps_words (map (λ name. name.now) names.now) helpers.now) }
{
    if helpers.is_empty() {
        return page.extend_from_slice(b"No order of these designs helps.");
    }
    page.extend_from_slice(b"Each of these helps, if it is merged first: ")?;
    add_designs(page, names, helpers)
}

/// Returns who helps a clash, as a paragraph.
fn helps_of(told: Told<'_>, helpers: &[usize]) -> Result<Vec<u8>, AllocError>
    ensures { IfOk result (λ text. text.items ≡ paragraph_text (helps_words (said_in told.entry).names helpers.now)) }
{
    let mut page = Vec::from_slice(told.alloc, b"<p>")?;
    add_helps(&mut page, told.names, helpers)?;
    page.extend_from_slice(b"</p>\n")?;
    Ok(page)
}

/// Adds the clash of a number: its designs, why they can't be merged in every order, and who helps.
fn add_shown(
    section: &mut Builder,
    told: Told<'_>,
    number: usize,
    clash: &HelpedClash<'_>,
    cause: &CauseWords,
) -> Result<(), AllocError>
    ensures { OnOk result (map shown section.new.blocks.items ≡ map shown section.old.blocks.items
        ++ clash_shown (said_in told.entry).names number clash.now cause.now) }
{
    let head = clash_head(told, number, clash)?;
    let helps = helps_of(told, clash.helpers.as_slice())?;
    section.add(Block::Picture(head))?;
    add_cause(section, cause)?;
    section.add(Block::Picture(helps))
}

/// Adds the clash of a number, if there is one and its cause is known.
fn add_clash(
    section: &mut Builder,
    told: Told<'_>,
    number: usize,
    clash: Option<&HelpedClash<'_>>,
    cause: Option<&CauseWords>,
) -> Result<(), AllocError>
    ensures { OnOk result (map shown section.new.blocks.items ≡ map shown section.old.blocks.items
        ++ clash_by (said_in told.entry).names number (option_copied clash.entry) (option_copied cause.entry)) }
{
    match (clash, cause) {
        (Some(clash), Some(cause)) => add_shown(section, told, number, clash, cause),
        _ => Ok(()),
    }
}

/// Adds each clash.
fn add_each(section: &mut Builder, told: Told<'_>, causes: &[CauseWords]) -> Result<(), AllocError>
    ensures { OnOk result (map shown section.new.blocks.items ≡ map shown section.old.blocks.items
        ++ flat_map (clash_at (said_in told.entry).names (said_in told.entry).helped causes.now) (positions_of (said_in told.entry).helped)) }
{
    let helped = told.helped;
    for at in 0..helped.len() {
        add_clash(section, told, at + 1, helped.get(at), causes.get(at))?;
    }
    Ok(())
}

/// Adds each clash, or that there is none.
fn add_clashes(
    section: &mut Builder,
    told: Told<'_>,
    causes: &[CauseWords],
) -> Result<(), AllocError>
    ensures { OnOk result (map shown section.new.blocks.items ≡ map shown section.old.blocks.items
        ++ all_clashes (said_in told.entry).names (said_in told.entry).helped causes.now) }
{
    if told.helped.is_empty() {
        return section.add_paragraph("No set of these designs clashes.");
    }
    add_each(section, told, causes)
}

/// Returns the section of the clashes, which have these causes.
pub(crate) fn clashes_section(told: Told<'_>, causes: &[CauseWords]) -> Result<Section, AllocError>
    ensures { IfOk result (λ section. section_shown section ≡ clashes_shown (said_in told.entry) causes.now) }
{
    let mut section = Builder::new(told.alloc);
    section.add_heading("The clashes")?;
    add_clashes(&mut section, told, causes)?;
    Ok(section.into_section())
}
