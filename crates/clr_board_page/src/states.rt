//! How designs stand, in words with links.

ghost use Rattle.std.specs.Prelude.{◌≡◌, ◌++◌, ◌∷◌, ◌==◌, [], filter, map, not, IfOk, OnOk};
ghost use Rattle.std.specs.Option.{option_copied};
ghost use Rattle.clr_board.specs.States.{has_member, helpers_in, helpers_of};
ghost use Rattle.clr_board_page.specs.Said.{said_in};
ghost use Rattle.clr_board_page.specs.Links.{designs_text};
ghost use Rattle.clr_board_page.specs.States.{clash_of_design, clashes_of_design, designs_table, others_in, row_of_design};
ghost use Rattle.clr_board_page.specs.States.{rows_of_designs, state_text, state_words, waiting_text, with_others};

use crate::links::{add_clash, add_design, add_designs};
use crate::told::Told;
use clr_board::{DesignState, clash_of, earlier_of, state_of};
use clr_change::ChangeSet;
use clr_clash_helpers::HelpedClash;
use clr_member_changes::count_rows;
use clr_page_parts::counts_words;
use clr_svg::add_escaped;
use std::alloc::{AllocError, Global};

/// Returns whether a clash has the design at a position.
fn has_member(clash: &HelpedClash<'_>, at: usize) -> bool
    ensures { result ≡ has_member at clash.now }
{
    clash.clash.members.as_slice().contains(&at)
}

/// Adds another design than the one at a position.
fn add_other(others: &mut Vec<usize>, at: usize, other: usize) -> Result<(), AllocError>
    ensures { OnOk result (others.new.items ≡ others.old.items ++ filter (λ x. not (x == at)) (other ∷ [])) }
{
    if other != at {
        others.push(other)?;
    }
    Ok(())
}

/// Returns the other designs of a clash.
fn others_in(alloc: Global, at: usize, clash: &HelpedClash<'_>) -> Result<Vec<usize>, AllocError>
    ensures { IfOk result (λ others. others.items ≡ others_in at clash.now) }
{
    let mut others = Vec::new(alloc);
    for other in clash.clash.members.as_slice() {
        add_other(&mut others, at, *other)?;
    }
    Ok(others)
}

/// Adds with whom a design clashes, if there are others.
fn add_others(page: &mut Vec<u8>, names: &[&str], others: &[usize]) -> Result<(), AllocError>
    ensures { OnOk result (page.new.items ≡ page.old.items ++ with_others (map (λ name. name.now) names.now) others.now) }
{
    if others.is_empty() {
        return Ok(());
    }
    page.extend_from_slice(b" with ")?;
    add_designs(page, names, others)
}

/// Adds the clash of a number on a line of its own, with the other designs of it, where it has the design at a position.
fn add_clash_of_design(
    page: &mut Vec<u8>,
    told: Told<'_>,
    at: usize,
    number: usize,
    clash: &HelpedClash<'_>,
) -> Result<(), AllocError>
    ensures { OnOk result (page.new.items ≡ page.old.items ++ clash_of_design (said_in told.entry).names at (number, clash.now)) }
{
    if !has_member(clash, at) {
        return Ok(());
    }
    let others = others_in(told.alloc, at, clash)?;
    page.extend_from_slice(b"<br/>")?;
    add_clash(page, told.alloc, number)?;
    add_others(page, told.names, others.as_slice())
}

/// Adds each clash that has the design at a position.
#[tactic(auto, unfolding(crate::specs::States::clashes_of_design))]
fn add_clashes(page: &mut Vec<u8>, told: Told<'_>, at: usize) -> Result<(), AllocError>
    ensures { OnOk result (page.new.items ≡ page.old.items ++ clashes_of_design (said_in told.entry).names (said_in told.entry).helped at) }
{
    let helped = told.helped;
    for index in 0..helped.len() {
        add_clash_of_design(page, told, at, index + 1, &helped[index])?;
    }
    Ok(())
}

/// Adds those that help a clash, if there is one.
#[tactic(auto, unfolding(crate::specs::Links::designs_text))]
fn add_helpers(
    page: &mut Vec<u8>,
    names: &[&str],
    clash: Option<&HelpedClash<'_>>,
) -> Result<(), AllocError>
    ensures { OnOk result (page.new.items ≡ page.old.items ++ designs_text (map (λ name. name.now) names.now) (helpers_in (option_copied clash.entry))) }
{
    match clash {
        Some(clash) => add_designs(page, names, clash.helpers.as_slice()),
        None => Ok(()),
    }
}

/// Adds how the design at a position stands, which waits, and before which these go in the order that is found.
fn add_waiting(
    page: &mut Vec<u8>,
    told: Told<'_>,
    at: usize,
    earlier: &[usize],
) -> Result<(), AllocError>
    ensures { OnOk result (page.new.items ≡ page.old.items
        ++ waiting_text (said_in told.entry).names earlier.now (helpers_of (said_in told.entry).helped at)) }
{
    if earlier.is_empty() {
        page.extend_from_slice(b"<b>waits</b>; each of these helps: ")?;
        return add_helpers(page, told.names, clash_of(told.helped, at));
    }
    page.extend_from_slice(b"<b>goes after</b> ")?;
    add_designs(page, told.names, earlier)
}

/// Adds how a design stands, in a few words.
fn add_state_words(
    page: &mut Vec<u8>,
    told: Told<'_>,
    at: usize,
    state: DesignState,
) -> Result<(), AllocError>
    ensures { OnOk result (page.new.items ≡ page.old.items ++ state_words (said_in told.entry) at state) }
{
    match state {
        DesignState::Free => {
            page.extend_from_slice(b"<b class=\"good\">can go now</b>, in every order")
        }
        DesignState::Waiting => {
            let earlier = earlier_of(told.alloc, told.turns, at)?;
            add_waiting(page, told, at, earlier.as_slice())
        }
        DesignState::Unaided => page.extend_from_slice(
            b"<b class=\"bad\">can't go</b>: alone it is refused, and none of these designs helps",
        ),
        DesignState::Conflicted => {
            page.extend_from_slice(b"<b class=\"bad\">in conflict</b> with ")?;
            add_escaped(page, told.root.as_bytes())
        }
        DesignState::Clashing => page.extend_from_slice(b"<b class=\"bad\">clashes</b>"),
    }
}

/// Adds how the design at a position stands, and then its clashes.
#[tactic(auto, unfolding(crate::specs::States::state_text))]
pub(crate) fn add_state(page: &mut Vec<u8>, told: Told<'_>, at: usize) -> Result<(), AllocError>
    ensures { OnOk result (page.new.items ≡ page.old.items ++ state_text (said_in told.entry) at) }
{
    let state = state_of(told.helped, at);
    add_state_words(page, told, at, state)?;
    add_clashes(page, told, at)
}

/// Adds the row of the design at a position, which makes these changes.
fn add_row(page: &mut Vec<u8>, told: Told<'_>, at: usize, set: &ChangeSet) -> Result<(), AllocError>
    ensures { OnOk result (page.new.items ≡ page.old.items ++ row_of_design (said_in told.entry) (at, set.now)) }
{
    let counts = counts_words(told.alloc, count_rows(set))?;
    page.extend_from_slice(b"<tr><td style=\"min-width:6em\">")?;
    add_design(page, told.names, at)?;
    page.extend_from_slice(b"</td><td>")?;
    add_state(page, told, at)?;
    page.extend_from_slice(b"</td><td>")?;
    page.extend_from_slice(counts.as_bytes())?;
    page.extend_from_slice(b"</td></tr>\n")
}

/// Adds the rows of all designs.
#[tactic(auto, unfolding(crate::specs::States::rows_of_designs))]
fn add_rows(page: &mut Vec<u8>, told: Told<'_>, sets: &[ChangeSet]) -> Result<(), AllocError>
    ensures { OnOk result (page.new.items ≡ page.old.items ++ rows_of_designs (said_in told.entry) sets.now) }
{
    for at in 0..sets.len() {
        add_row(page, told, at, &sets[at])?;
    }
    Ok(())
}

/// Returns the table of all designs: how each stands, and how many rows it adds, changes and removes.
pub(crate) fn designs_table(told: Told<'_>, sets: &[ChangeSet]) -> Result<Vec<u8>, AllocError>
    ensures { IfOk result (λ text. text.items ≡ designs_table (said_in told.entry) sets.now) }
{
    let mut page = Vec::from_slice(
        told.alloc,
        b"<table>\n<thead>\n<tr><th>Design</th><th>How it stands</th><th>Rows</th></tr>\n</thead>\n<tbody>\n",
    )?;
    add_rows(&mut page, told, sets)?;
    page.extend_from_slice(b"</tbody>\n</table>\n")?;
    Ok(page)
}
