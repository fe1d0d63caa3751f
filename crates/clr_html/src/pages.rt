//! Pages, and how they are written.

ghost use Rattle.std.specs.Prelude.{◌≡◌, ◌++◌, IfOk, OnOk};
ghost use Rattle.clr_html.specs.Pages.{blocks_text, html_page_text, section_text, sections_text};

use crate::blocks::{Block, add_block};
use crate::marks::{END_OF_SECTION, SECTION};
use crate::styles::{CLOSING, OPENING, STYLES};
use crate::texts::add_between;
use std::alloc::{AllocError, Global};

/// Blocks that stand together.
#[derive(Drop)]
pub struct Section {
    pub blocks: Vec<Block>,
}

/// A page: its title in UTF-8, and its sections.
#[derive(Drop)]
pub struct HtmlPage {
    pub title: Vec<u8>,
    pub sections: Vec<Section>,
}

#[tactic(auto, unfolding(crate::specs::Pages::blocks_text))]
fn add_blocks(page: &mut Vec<u8>, blocks: &[Block]) -> Result<(), AllocError>
    ensures { OnOk result (page.new.items ≡ page.old.items ++ blocks_text blocks.now) }
{
    for block in blocks {
        add_block(page, block)?;
    }
    Ok(())
}

fn add_section(page: &mut Vec<u8>, section: &Section) -> Result<(), AllocError>
    ensures { OnOk result (page.new.items ≡ page.old.items ++ section_text section.now) }
{
    page.extend_from_slice(SECTION.as_bytes())?;
    add_blocks(page, section.blocks.as_slice())?;
    page.extend_from_slice(END_OF_SECTION.as_bytes())
}

#[tactic(auto, unfolding(crate::specs::Pages::sections_text))]
fn add_sections(page: &mut Vec<u8>, sections: &[Section]) -> Result<(), AllocError>
    ensures { OnOk result (page.new.items ≡ page.old.items ++ sections_text sections.now) }
{
    for section in sections {
        add_section(page, section)?;
    }
    Ok(())
}

/// Returns the text of a page, which is HTML in UTF-8: one file that loads nothing and runs no script. Each text is escaped, and a
/// picture goes out as it is.
#[tactic(auto, unfolding(crate::specs::Pages::html_page_text))]
pub fn write_page(alloc: Global, page: &HtmlPage) -> Result<Vec<u8>, AllocError>
    ensures written { IfOk result (λ text. text.items ≡ html_page_text page.now) }
{
    let mut text = Vec::new(alloc);
    add_between(&mut text, OPENING, page.title.as_slice(), STYLES)?;
    add_sections(&mut text, page.sections.as_slice())?;
    text.extend_from_slice(CLOSING.as_bytes())?;
    Ok(text)
}
