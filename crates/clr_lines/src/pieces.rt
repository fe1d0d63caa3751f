//! What lines are made of: counts, cells and needs.

ghost use Rattle.std.specs.Prelude.{◌≡◌, ◌++◌, decimal, OnOk, OnErr};
ghost use Rattle.clr_rows.specs.Beginnings.{IsBegun};
ghost use Rattle.clr_lines.specs.Pieces.{cell_text, first_text, need_text, part_text, rule_text, second_text, subject_text};

use clr_rows::{CellId, Schema};
use clr_rules::Broken;
use itoa::Buffer;
use std::alloc::AllocError;

/// Adds a count in decimal digits. If memory runs out, nothing changes.
pub fn add_count(line: &mut Vec<u8>, count: usize) -> Result<(), AllocError>
    ensures ok { OnOk result (line.new.items ≡ line.old.items ++ decimal count) }
    ensures err { OnErr result (line.new.items ≡ line.old.items) }
{
    line.extend_from_slice(Buffer::new().format(count).as_bytes())
}

/// Adds a cell, as `main/20`. The name of a table that the schema hasn't is empty. If memory runs
/// out, the line keeps what stood in it, with a beginning of the cell behind it.
pub fn add_cell(line: &mut Vec<u8>, schema: &Schema, cell: CellId) -> Result<(), AllocError>
    ensures ok { OnOk result (line.new.items ≡ line.old.items ++ cell_text schema.now cell) }
    ensures begun { IsBegun line.old.items (cell_text schema.now cell) line.new.items }
{
    line.extend_from_slice(schema.name_of_table(cell.table).as_bytes())?;
    line.extend_from_slice(b"/")?;
    line.extend_from_slice(Buffer::new().format(cell.key).as_bytes())
}

/// Adds the part of a subject, where it is above 1.
fn add_part(line: &mut Vec<u8>, part: u16) -> Result<(), AllocError>
    ensures ok { OnOk result (line.new.items ≡ line.old.items ++ part_text part) }
    ensures begun { IsBegun line.old.items (part_text part) line.new.items }
{
    if part <= 1 {
        return Ok(());
    }
    line.extend_from_slice(b"/")?;
    line.extend_from_slice(Buffer::new().format(part).as_bytes())
}

/// Adds a subject: its cell, and its part where that is above 1.
fn add_subject(
    line: &mut Vec<u8>,
    schema: &Schema,
    cell: CellId,
    part: u16,
) -> Result<(), AllocError>
    ensures ok { OnOk result (line.new.items ≡ line.old.items ++ subject_text schema.now cell part) }
    ensures begun { IsBegun line.old.items (subject_text schema.now cell part) line.new.items }
{
    add_cell(line, schema, cell)?;
    add_part(line, part)
}

/// Adds the second subject of a need, if it has one.
fn add_second(
    line: &mut Vec<u8>,
    schema: &Schema,
    cell: Option<CellId>,
    part: u16,
) -> Result<(), AllocError>
    ensures ok { OnOk result (line.new.items ≡ line.old.items ++ second_text schema.now cell part) }
    ensures begun { IsBegun line.old.items (second_text schema.now cell part) line.new.items }
{
    match cell {
        Some(cell) => {
            line.extend_from_slice(b" ")?;
            add_subject(line, schema, cell, part)
        }
        None => Ok(()),
    }
}

/// Adds the rule of a need, as `rule 1 ` before its subjects. If memory runs out, the line keeps what
/// stood in it, with a beginning of these bytes behind it.
#[tactic(auto, unfolding(crate::specs::Pieces::rule_text))]
pub(crate) fn add_rule(line: &mut Vec<u8>, rule: u16) -> Result<(), AllocError>
    ensures ok { OnOk result (line.new.items ≡ line.old.items ++ rule_text rule) }
    ensures begun { IsBegun line.old.items (rule_text rule) line.new.items }
{
    line.extend_from_slice(b"rule ")?;
    line.extend_from_slice(Buffer::new().format(rule).as_bytes())?;
    line.extend_from_slice(b" ")
}

/// Adds the rule of a need and its first subject.
fn add_first(line: &mut Vec<u8>, schema: &Schema, need: &Broken) -> Result<(), AllocError>
    ensures ok { OnOk result (line.new.items ≡ line.old.items ++ first_text schema.now need.now) }
    ensures begun { IsBegun line.old.items (first_text schema.now need.now) line.new.items }
{
    add_rule(line, need.rule)?;
    add_subject(line, schema, need.first, need.first_part)
}

/// Adds a need that no row serves, as `rule 1 main/20/3 main/21`: the number of the rule and the
/// cells of its subjects, each with its part where that is above 1. If memory runs out, the line
/// keeps what stood in it, with a beginning of the need behind it.
#[tactic(auto, using(clr_rows::proofs::BeginningLaws::begun_before))]
pub fn add_need(line: &mut Vec<u8>, schema: &Schema, need: &Broken) -> Result<(), AllocError>
    ensures ok { OnOk result (line.new.items ≡ line.old.items ++ need_text schema.now need.now) }
    ensures begun { IsBegun line.old.items (need_text schema.now need.now) line.new.items }
{
    add_first(line, schema, need)?;
    add_second(line, schema, need.second, need.second_part)
}
