//! Who goes before whom.

ghost use Rattle.std.specs.Prelude.{◌≡◌, ◌++◌, map, IfOk, OnOk};
ghost use Rattle.std.specs.List.{flat_map};
ghost use Rattle.clr_page_parts.specs.Shown.{section_shown, shown};
ghost use Rattle.clr_board_page.specs.Orders.{found_shown, order_shown, some_turns, turn_text, turns_shown, turns_text};
ghost use Rattle.clr_board_page.specs.Said.{said_in};

use crate::links::add_design;
use crate::told::Told;
use clr_board::{Turn, is_ordered};
use clr_html::{Block, Section};
use clr_merge_orders::MergeOrder;
use clr_page_parts::Builder;
use std::alloc::AllocError;

/// Adds who goes first, and who next.
fn add_turn(page: &mut Vec<u8>, names: &[&str], turn: Turn) -> Result<(), AllocError>
    ensures { OnOk result (page.new.items ≡ page.old.items ++ turn_text (map (λ name. name.now) names.now) turn) }
{
    page.extend_from_slice(b"<li>")?;
    add_design(page, names, turn.earlier)?;
    page.extend_from_slice(b", then ")?;
    add_design(page, names, turn.later)?;
    page.extend_from_slice(b"</li>\n")
}

/// Adds the turns of an order.
fn add_turns(page: &mut Vec<u8>, names: &[&str], turns: &[Turn]) -> Result<(), AllocError>
    ensures { OnOk result (page.new.items ≡ page.old.items ++ flat_map (turn_text (map (λ name. name.now) names.now)) turns.now) }
{
    for turn in turns {
        add_turn(page, names, *turn)?;
    }
    Ok(())
}

/// Returns the turns of an order as a list.
fn turns_of(told: Told<'_>) -> Result<Vec<u8>, AllocError>
    ensures { IfOk result (λ text. text.items ≡ turns_text (said_in told.entry).names (said_in told.entry).turns) }
{
    let mut page = Vec::from_slice(told.alloc, b"<ul>\n")?;
    add_turns(&mut page, told.names, told.turns)?;
    page.extend_from_slice(b"</ul>\n")?;
    Ok(page)
}

/// Adds the turns of an order.
fn add_some(section: &mut Builder, told: Told<'_>) -> Result<(), AllocError>
    ensures { OnOk result (map shown section.new.blocks.items ≡ map shown section.old.blocks.items
        ++ some_turns (said_in told.entry).names (said_in told.entry).turns) }
{
    let turns = turns_of(told)?;
    section.add_paragraph(
        "The designs that can go, now or after others, can be merged in each order in which:",
    )?;
    section.add(Block::Picture(turns))
}

/// Adds what is said of an order that is found.
fn add_found(section: &mut Builder, told: Told<'_>) -> Result<(), AllocError>
    ensures { OnOk result (map shown section.new.blocks.items ≡ map shown section.old.blocks.items
        ++ found_shown (said_in told.entry).names (said_in told.entry).turns) }
{
    if told.turns.is_empty() {
        return section.add_paragraph("The designs that can go can be merged in every order.");
    }
    add_some(section, told)
}

/// Adds what is said of the orders of the designs that go.
fn add_order(
    section: &mut Builder,
    told: Told<'_>,
    goers: &[usize],
    order: &MergeOrder,
) -> Result<(), AllocError>
    ensures { OnOk result (map shown section.new.blocks.items ≡ map shown section.old.blocks.items
        ++ order_shown (said_in told.entry).names goers.now order.now (said_in told.entry).turns) }
{
    if goers.is_empty() {
        return section.add_paragraph("None of these designs can go.");
    }
    if is_ordered(order) {
        return add_found(section, told);
    }
    section.add_paragraph("No order was found of the designs that can go.")
}

/// Returns the section of who goes before whom.
pub(crate) fn order_section(
    told: Told<'_>,
    goers: &[usize],
    order: &MergeOrder,
) -> Result<Section, AllocError>
    ensures { IfOk result (λ section. section_shown section
        ≡ turns_shown (said_in told.entry).names goers.now order.now (said_in told.entry).turns) }
{
    let mut section = Builder::new(told.alloc);
    section.add_heading("Who goes first")?;
    add_order(&mut section, told, goers, order)?;
    Ok(section.into_section())
}
