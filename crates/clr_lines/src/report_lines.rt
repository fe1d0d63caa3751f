//! The lines of reports: changes, cells in conflict, broken needs and workspaces.

ghost use Rattle.std.specs.Prelude.{◌≡◌, ◌++◌, IfOk, OnOk};
ghost use Rattle.std.specs.Option.{option_copied};
ghost use Rattle.clr_rows.specs.Beginnings.{IsBegun};
ghost use Rattle.clr_lines.specs.Reports.{audit_text, cell_line, change_line, changes_text, conflicts_text, count_line as count_text, counted_text};
ghost use Rattle.clr_lines.specs.Reports.{counts_text, kept_text, names_text, need_line, state_text, unheld_name, unheld_text, verb_name, workspace_text};

use crate::pieces::{add_cell, add_count, add_need};
use clr_change::ChangeSet;
use clr_rows::{CellId, Change, Row, Schema};
use clr_rules::Broken;
use std::alloc::{AllocError, Global};

/// Returns a first line: a word, a space and a count, ended by `\n`. For example, `changes 3`.
pub fn count_line(alloc: Global, word: &str, count: usize) -> Result<Vec<u8>, AllocError>
    ensures { IfOk result (λ line. line.items ≡ count_text word.now count) }
{
    let mut line = Vec::from_slice(alloc, word.as_bytes())?;
    line.extend_from_slice(b" ")?;
    add_count(&mut line, count)?;
    line.extend_from_slice(b"\n")?;
    Ok(line)
}

/// Returns the word of the edit that leads from the row before, or none, to the row after, or none.
fn verb(before: Option<&Row>, after: Option<&Row>) -> &'static str
    ensures { result.now ≡ verb_name (option_copied before.entry) (option_copied after.entry) }
{
    match (before, after) {
        (None, _) => "insert ",
        (Some(_), None) => "delete ",
        (Some(_), Some(_)) => "update ",
    }
}

/// Adds the line of one change.
fn add_change(
    lines: &mut Vec<u8>,
    schema: &Schema,
    cell: CellId,
    change: &Change,
) -> Result<(), AllocError>
    ensures ok { OnOk result (lines.new.items ≡ lines.old.items ++ change_line schema.now (cell, change.now)) }
    ensures begun { IsBegun lines.old.items (change_line schema.now (cell, change.now)) lines.new.items }
{
    let verb = verb(change.before.as_ref(), change.after.as_ref());
    lines.extend_from_slice(verb.as_bytes())?;
    add_cell(lines, schema, cell)?;
    lines.extend_from_slice(b"\n")
}

/// Returns the lines of changes: `changes N`, and then each changed cell in order with `insert`,
/// `update` or `delete` before it, as `insert main/20`. Each line ends with `\n`. The name of a
/// table that the schema hasn't is empty.
///
/// For example, of a deleted node, a main with another code and a new main they are
///
/// ```text
/// changes 3
/// delete node/9
/// update main/3
/// insert main/20
/// ```
#[tactic(auto, unfolding(crate::specs::Reports::changes_text))]
pub fn changes_lines(
    alloc: Global,
    schema: &Schema,
    changes: &ChangeSet,
) -> Result<Vec<u8>, AllocError>
    ensures { IfOk result (λ lines. lines.items ≡ changes_text schema.now changes.now) }
{
    let mut lines = count_line(alloc, "changes", changes.len())?;
    for (cell, change) in changes.iter() {
        add_change(&mut lines, schema, *cell, change)?;
    }
    Ok(lines)
}

fn add_cell_line(lines: &mut Vec<u8>, schema: &Schema, cell: CellId) -> Result<(), AllocError>
    ensures ok { OnOk result (lines.new.items ≡ lines.old.items ++ cell_line schema.now cell) }
    ensures begun { IsBegun lines.old.items (cell_line schema.now cell) lines.new.items }
{
    add_cell(lines, schema, cell)?;
    lines.extend_from_slice(b"\n")
}

/// Returns the lines of cells in conflict: `conflicts N`, and then each cell, as `main/20`, in the
/// order in which they are given. The name of a table that the schema hasn't is empty. Each line ends
/// with `\n`.
/// For example, of node 9 and main 20 they are `conflicts 2`, `node/9` and `main/20`.
#[tactic(auto, unfolding(crate::specs::Reports::conflicts_text))]
pub fn conflicts_lines(
    alloc: Global,
    schema: &Schema,
    cells: &[CellId],
) -> Result<Vec<u8>, AllocError>
    ensures { IfOk result (λ lines. lines.items ≡ conflicts_text schema.now cells.now) }
{
    let mut lines = count_line(alloc, "conflicts", cells.len())?;
    for cell in cells {
        add_cell_line(&mut lines, schema, *cell)?;
    }
    Ok(lines)
}

#[tactic(auto, using(clr_rows::proofs::BeginningLaws::begun_before))]
fn add_need_line(lines: &mut Vec<u8>, schema: &Schema, need: &Broken) -> Result<(), AllocError>
    ensures ok { OnOk result (lines.new.items ≡ lines.old.items ++ need_line schema.now need.now) }
    ensures begun { IsBegun lines.old.items (need_line schema.now need.now) lines.new.items }
{
    add_need(lines, schema, need)?;
    lines.extend_from_slice(b"\n")
}

/// Returns the lines of an audit: `broken N`, and then each need that no row serves, as `rule 1
/// main/20/3 main/21`, in the order in which they are given. The part of a subject stands behind it
/// where it is above 1. The name of a table that the schema hasn't is empty. Each line ends with
/// `\n`.
/// For example, of one need, that of mains 1 and 2 under rule 1, they are `broken 1` and `rule 1 main/1 main/2`.
#[tactic(auto, unfolding(crate::specs::Reports::audit_text))]
pub fn audit_lines(alloc: Global, schema: &Schema, needs: &[Broken]) -> Result<Vec<u8>, AllocError>
    ensures { IfOk result (λ lines. lines.items ≡ audit_text schema.now needs.now) }
{
    let mut lines = count_line(alloc, "broken", needs.len())?;
    for need in needs {
        add_need_line(&mut lines, schema, need)?;
    }
    Ok(lines)
}

/// Adds the name of a workspace and a space, or nothing for LIVE.
fn add_unheld_name(line: &mut Vec<u8>, name: Option<&str>) -> Result<(), AllocError>
    ensures ok { OnOk result (line.new.items ≡ line.old.items ++ unheld_name (option_copied name.entry)) }
    ensures begun { IsBegun line.old.items (unheld_name (option_copied name.entry)) line.new.items }
{
    match name {
        Some(name) => {
            line.extend_from_slice(name.as_bytes())?;
            line.extend_from_slice(b" ")
        }
        None => Ok(()),
    }
}

/// Returns the line which says that a rule doesn't hold: `unheld`, the name of the workspace where
/// it isn't LIVE, and the need that no row serves. The name of a table that the schema hasn't is empty.
/// The line ends with `\n`.
/// For example, it is `unheld rule 1 main/1 main/2` for LIVE and `unheld K rule 1 main/1 main/2` for a workspace `K`.
pub fn unheld_line(
    alloc: Global,
    schema: &Schema,
    workspace: Option<&str>,
    need: &Broken,
) -> Result<Vec<u8>, AllocError>
    ensures { IfOk result (λ line. line.items ≡ unheld_text schema.now (option_copied workspace.entry) need.now) }
{
    let mut line = Vec::from_slice(alloc, b"unheld ")?;
    add_unheld_name(&mut line, workspace)?;
    add_need_line(&mut line, schema, need)?;
    Ok(line)
}

/// Returns what stands at the end of the line of a workspace: whether it is kept.
fn kept_word(is_kept: bool) -> &'static str
    ensures { result.now ≡ kept_text is_kept }
{
    if is_kept { " kept" } else { "" }
}

/// Adds the names of a workspace and of its parent.
fn add_names(lines: &mut Vec<u8>, name: &str, parent: &str) -> Result<(), AllocError>
    ensures ok { OnOk result (lines.new.items ≡ lines.old.items ++ names_text name.now parent.now) }
    ensures begun { IsBegun lines.old.items (names_text name.now parent.now) lines.new.items }
{
    lines.extend_from_slice(name.as_bytes())?;
    lines.extend_from_slice(b" ")?;
    lines.extend_from_slice(parent.as_bytes())
}

/// Adds two counts, each behind a space.
fn add_counts(lines: &mut Vec<u8>, changes: usize, conflicts: usize) -> Result<(), AllocError>
    ensures ok { OnOk result (lines.new.items ≡ lines.old.items ++ counts_text changes conflicts) }
    ensures begun { IsBegun lines.old.items (counts_text changes conflicts) lines.new.items }
{
    lines.extend_from_slice(b" ")?;
    add_count(lines, changes)?;
    lines.extend_from_slice(b" ")?;
    add_count(lines, conflicts)
}

/// Adds the names of a workspace and of its parent, and its counts.
fn add_counted(
    lines: &mut Vec<u8>,
    name: &str,
    parent: &str,
    changes: usize,
    conflicts: usize,
) -> Result<(), AllocError>
    ensures ok { OnOk result (lines.new.items ≡ lines.old.items ++ counted_text name.now parent.now changes conflicts) }
    ensures begun { IsBegun lines.old.items (counted_text name.now parent.now changes conflicts) lines.new.items }
{
    add_names(lines, name, parent)?;
    add_counts(lines, changes, conflicts)
}

/// Adds the names of a workspace and of its parent, its counts, and whether it is kept.
fn add_state(
    lines: &mut Vec<u8>,
    name: &str,
    parent: &str,
    changes: usize,
    conflicts: usize,
    is_kept: bool,
) -> Result<(), AllocError>
    ensures ok { OnOk result (lines.new.items ≡ lines.old.items ++ state_text name.now parent.now changes conflicts is_kept) }
    ensures begun { IsBegun lines.old.items (state_text name.now parent.now changes conflicts is_kept) lines.new.items }
{
    add_counted(lines, name, parent, changes, conflicts)?;
    lines.extend_from_slice(kept_word(is_kept).as_bytes())
}

/// Adds the line of a workspace: its name, its parent, how many changes it has and how many cells
/// are in conflict, and `kept` where it is kept. The line ends with `\n`. If memory runs out, the
/// lines keep what stood in them, with a beginning of the new one behind it.
#[tactic(auto, using(clr_rows::proofs::BeginningLaws::begun_before))]
pub fn add_workspace(
    lines: &mut Vec<u8>,
    name: &str,
    parent: &str,
    changes: usize,
    conflicts: usize,
    is_kept: bool,
) -> Result<(), AllocError>
    ensures ok { OnOk result (lines.new.items ≡ lines.old.items ++ workspace_text name.now parent.now changes conflicts is_kept) }
    ensures begun { IsBegun lines.old.items (workspace_text name.now parent.now changes conflicts is_kept) lines.new.items }
{
    add_state(lines, name, parent, changes, conflicts, is_kept)?;
    lines.extend_from_slice(b"\n")
}
