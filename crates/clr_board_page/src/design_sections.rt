//! What is said of each design.

ghost use Rattle.std.specs.Prelude.{◌≡◌, ◌++◌, ◌∷◌, [], map, option_map, IfOk, OnOk};
ghost use Rattle.std.specs.List.{enumerate_from};
ghost use Rattle.clr_steps.specs.Readings.{changes_in};
ghost use Rattle.clr_small_maps.specs.SmallMaps.{IsSmallMap};
ghost use Rattle.clr_page_parts.specs.Shown.{section_shown, shown};
ghost use Rattle.clr_board_page.specs.Designs.{AreDesignSections, IsDesignSection, design_head, picture_of};
ghost use Rattle.clr_board_page.specs.Said.{said_in};

use crate::links::{Anchor, add_heading};
use crate::states::add_state;
use crate::told::Told;
use clr_change::ChangeSet;
use clr_engine::Office;
use clr_html::{Block, Section};
use clr_member_changes::count_rows;
use clr_merge_sets::read_member_changes;
use clr_page_parts::{Builder, counts_words};
use clr_rows::Sheet;
use clr_small_maps::small_map;
use std::alloc::AllocError;

/// Returns the name of a design, and how it stands.
fn design_head(told: Told<'_>, at: usize, name: &str) -> Result<Vec<u8>, AllocError>
    ensures { IfOk result (λ text. text.items ≡ design_head (said_in told.entry) at name.now) }
{
    let mut page = Vec::new(told.alloc);
    add_heading(&mut page, Anchor::Design(at), name)?;
    page.extend_from_slice(b"<p>")?;
    add_state(&mut page, told, at)?;
    page.extend_from_slice(b"</p>\n")?;
    Ok(page)
}

/// Adds a map, if there is one.
fn add_map(section: &mut Builder, picture: Option<Vec<u8>>) -> Result<(), AllocError>
    ensures { OnOk result (map shown section.new.blocks.items ≡ map shown section.old.blocks.items
        ++ picture_of (option_map (λ text. text.items) picture)) }
{
    match picture {
        Some(text) => section.add(Block::Picture(text)),
        None => Ok(()),
    }
}

/// Returns the map of the design of a name, over these rows of the root.
fn map_of(
    told: Told<'_>,
    office: &Office,
    rows: &Sheet,
    name: &str,
    words: &str,
) -> Result<Option<Vec<u8>>, AllocError>
    ensures { IfOk result (λ map. IsSmallMap name.now words.now (changes_in office.now name.now ∷ []) (option_map (λ text. text.items) map)) }
{
    let names = [name];
    let one = read_member_changes(told.alloc, office, told.root, &names)?;
    small_map(told.alloc, office.schema(), rows, &one, name, words)
}

/// Returns what is said of the design at a position, which has this name and makes these changes, with the map of what it changes of the rows of the root.
fn design_section(
    told: Told<'_>,
    office: &Office,
    rows: &Sheet,
    at: usize,
    name: &str,
    set: &ChangeSet,
) -> Result<Section, AllocError>
    requires { set.now ≡ changes_in office.now name.now }
    ensures { IfOk result (λ section. IsDesignSection office.now (said_in told.entry) (at, name.now) (section_shown section)) }
{
    let alloc = told.alloc;
    let counts = counts_words(alloc, count_rows(set))?;
    let head = design_head(told, at, name)?;
    let map = map_of(told, office, rows, name, counts.as_str())?;
    let mut section = Builder::new(alloc);
    section.add(Block::Picture(head))?;
    section.add_paragraph(counts.as_str())?;
    add_map(&mut section, map)?;
    Ok(section.into_section())
}

/// Returns what is said of each of some designs, which make these changes, with maps over these rows of the root.
pub(crate) fn design_sections(
    told: Told<'_>,
    office: &Office,
    rows: &Sheet,
    names: &[&str],
    sets: &[ChangeSet],
) -> Result<Vec<Section>, AllocError>
    requires { sets.now ≡ map (changes_in office.now) (map (λ name. name.now) names.now) }
    ensures { IfOk result (λ sections. AreDesignSections office.now (said_in told.entry) (enumerate_from 0 (map (λ name. name.now) names.now))
        (map section_shown sections.items)) }
{
    let mut sections = Vec::with_capacity(told.alloc, names.len())?;
    for at in 0..names.len() {
        let section = design_section(told, office, rows, at, names[at], &sets[at])?;
        sections.push(section)?;
    }
    Ok(sections)
}
