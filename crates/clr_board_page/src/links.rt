//! Links to parts of the same page, and headings that they lead to.

ghost use Rattle.std.specs.Prelude.{◌≡◌, ◌++◌, map, OnOk};
ghost use Rattle.clr_board_page.specs.Links.{anchor_text, clash_link, comma_before, design_link, designs_text, heading_text, link_text, listed_design};

use clr_lines::add_count;
use clr_member_changes::member_name;
use clr_svg::add_escaped;
use std::alloc::{AllocError, Global};

/// A part of a page to which links lead: what is said of a design, by its position, or of a clash, by its number.
#[derive(Clone, Copy)]
pub(crate) enum Anchor {
    Design(usize),
    ClashSet(usize),
}

/// Adds the name of a part of the page.
fn add_anchor(page: &mut Vec<u8>, anchor: Anchor) -> Result<(), AllocError>
    ensures { OnOk result (page.new.items ≡ page.old.items ++ anchor_text anchor) }
{
    match anchor {
        Anchor::Design(at) => {
            page.extend_from_slice(b"design-")?;
            add_count(page, at)
        }
        Anchor::ClashSet(number) => {
            page.extend_from_slice(b"clash-")?;
            add_count(page, number)
        }
    }
}

/// Adds words with a link to a part of the page.
#[tactic(auto, unfolding(crate::specs::Links::link_text))]
pub(crate) fn add_link(page: &mut Vec<u8>, anchor: Anchor, words: &str) -> Result<(), AllocError>
    ensures { OnOk result (page.new.items ≡ page.old.items ++ link_text anchor words.now) }
{
    page.extend_from_slice(b"<a href=\"#")?;
    add_anchor(page, anchor)?;
    page.extend_from_slice(b"\">")?;
    add_escaped(page, words.as_bytes())?;
    page.extend_from_slice(b"</a>")
}

/// Adds a heading to which links lead.
#[tactic(auto, unfolding(crate::specs::Links::heading_text))]
pub(crate) fn add_heading(page: &mut Vec<u8>, anchor: Anchor, words: &str) -> Result<(), AllocError>
    ensures { OnOk result (page.new.items ≡ page.old.items ++ heading_text anchor words.now) }
{
    page.extend_from_slice(b"<h2 id=\"")?;
    add_anchor(page, anchor)?;
    page.extend_from_slice(b"\">")?;
    add_escaped(page, words.as_bytes())?;
    page.extend_from_slice(b"</h2>\n")
}

/// Adds the name of a design, with a link to what is said of it.
pub(crate) fn add_design(page: &mut Vec<u8>, names: &[&str], at: usize) -> Result<(), AllocError>
    ensures { OnOk result (page.new.items ≡ page.old.items ++ design_link (map (λ name. name.now) names.now) at) }
{
    add_link(page, Anchor::Design(at), member_name(names, at))
}

/// Adds a comma, unless it would be the first.
fn add_comma(page: &mut Vec<u8>, index: usize) -> Result<(), AllocError>
    ensures { OnOk result (page.new.items ≡ page.old.items ++ comma_before index) }
{
    if index == 0 {
        return Ok(());
    }
    page.extend_from_slice(b", ")
}

/// Adds a design of a list, behind a comma unless it is the first.
fn add_listed(page: &mut Vec<u8>, names: &[&str], index: usize, at: usize) -> Result<(), AllocError>
    ensures { OnOk result (page.new.items ≡ page.old.items ++ listed_design (map (λ name. name.now) names.now) (index, at)) }
{
    add_comma(page, index)?;
    add_design(page, names, at)
}

/// Adds designs by position, with commas between them.
#[tactic(auto, unfolding(crate::specs::Links::designs_text))]
pub(crate) fn add_designs(
    page: &mut Vec<u8>,
    names: &[&str],
    positions: &[usize],
) -> Result<(), AllocError>
    ensures { OnOk result (page.new.items ≡ page.old.items ++ designs_text (map (λ name. name.now) names.now) positions.now) }
{
    for index in 0..positions.len() {
        add_listed(page, names, index, positions[index])?;
    }
    Ok(())
}

/// Adds a link to the clash of a number.
pub(crate) fn add_clash(page: &mut Vec<u8>, alloc: Global, number: usize) -> Result<(), AllocError>
    ensures { OnOk result (page.new.items ≡ page.old.items ++ clash_link number) }
{
    let words = format!(in alloc; "clash {number}")?;
    add_link(page, Anchor::ClashSet(number), words.as_str())
}
