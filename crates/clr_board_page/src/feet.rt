//! The foot of a board: the commands that print the same.

ghost use Rattle.std.specs.Prelude.{◌≡◌, ◌++◌, map, IfOk, OnOk};
ghost use Rattle.clr_merge_sets.specs.MergeSetNames.{merge_set};
ghost use Rattle.clr_page_parts.specs.Shown.{section_shown};
ghost use Rattle.clr_board_page.specs.Boards.{command_line, commands_text, foot_shown, under_text};

use clr_html::{Block, Section};
use clr_merge_sets::names_at;
use clr_page_parts::{Builder, add_word, add_words};
use clr_rows::LIVE;
use std::alloc::{AllocError, Global};

/// Adds the root, unless it is LIVE.
fn add_root(line: &mut Vec<u8>, root: &str) -> Result<(), AllocError>
    ensures { OnOk result (line.new.items ≡ line.old.items ++ under_text root.now) }
{
    if root == LIVE {
        return Ok(());
    }
    line.extend_from_slice(b" --under")?;
    add_word(line, root)
}

/// Adds the line of a command about designs of a root.
fn add_command(
    lines: &mut Vec<u8>,
    command: &str,
    root: &str,
    names: &[&str],
) -> Result<(), AllocError>
    ensures { OnOk result (lines.new.items ≡ lines.old.items ++ command_line command.now root.now (map (λ name. name.now) names.now)) }
{
    lines.extend_from_slice(command.as_bytes())?;
    lines.extend_from_slice(b" DB")?;
    add_root(lines, root)?;
    add_words(lines, names)?;
    lines.extend_from_slice(b"\n")
}

/// Returns the lines of the commands that print the clashes, and the order of the designs that go, if some go.
fn commands_of(
    alloc: Global,
    root: &str,
    members: &[&str],
    goers: &[usize],
) -> Result<Vec<u8>, AllocError>
    ensures { IfOk result (λ lines. lines.items ≡ commands_text (merge_set root.now (map (λ name. name.now) members.now)) goers.now) }
{
    let mut lines = Vec::new(alloc);
    add_command(&mut lines, "clr_desk clashes", root, members)?;
    if goers.is_empty() {
        return Ok(lines);
    }
    let names = names_at(alloc, members, goers)?;
    add_command(&mut lines, "clr_desk order", root, names.as_slice())?;
    Ok(lines)
}

/// Returns the foot of a board.
pub(crate) fn foot_of(
    alloc: Global,
    root: &str,
    members: &[&str],
    goers: &[usize],
) -> Result<Section, AllocError>
    ensures { IfOk result (λ section. section_shown section
        ≡ foot_shown (merge_set root.now (map (λ name. name.now) members.now)) goers.now) }
{
    let lines = commands_of(alloc, root, members, goers)?;
    let mut section = Builder::new(alloc);
    section.add_heading("To look again")?;
    section.add_paragraph(
        "These commands print the clashes, and who goes before whom; DB is the file of the office.",
    )?;
    section.add(Block::Lines(lines))?;
    Ok(section.into_section())
}
