//! The lines of replies.

ghost use Rattle.std.specs.Prelude.{◌≡◌, ◌++◌, codes, decimal, IfOk};
ghost use Rattle.clr_lines.specs.Pieces.{cell_text, need_text};
ghost use Rattle.clr_lines.specs.Replies.{edit_fault_name, reply_text, row_fault_name};

use crate::pieces::{add_cell, add_count, add_need};
use clr_change::EditFault;
use clr_rows::{CellId, RowFault, Schema};
use clr_rules::Broken;
use clr_steps::Reply;
use std::alloc::{AllocError, Global};

/// Returns the name of a row's fault, as a refused edit has it.
pub fn row_fault_word(fault: RowFault) -> &'static str
    ensures { result.now ≡ row_fault_name fault }
{
    match fault {
        RowFault::NoTable => "NoTable",
        RowFault::WrongCount => "WrongCount",
        RowFault::WrongKind => "WrongKind",
        RowFault::WordsTooLong => "WordsTooLong",
        RowFault::WrongShape => "WrongShape",
        RowFault::OutOfRange => "OutOfRange",
        RowFault::ZeroSegment => "ZeroSegment",
        RowFault::BadPath => "BadPath",
    }
}

/// Returns the name of an edit's fault. A fault of the row has its own name.
fn edit_fault_word(fault: EditFault) -> &'static str
    ensures { result.now ≡ edit_fault_name fault }
{
    match fault {
        EditFault::OutOfMemory => "OutOfMemory",
        EditFault::Row(fault) => row_fault_word(fault),
        EditFault::KeyTaken => "KeyTaken",
        EditFault::NoRow => "NoRow",
    }
}

/// Returns the line of an edit that can't be made.
fn bad_edit_line(alloc: Global, number: usize, fault: EditFault) -> Result<Vec<u8>, AllocError>
    ensures { IfOk result (λ line. line.items ≡ codes "refused 9 BadEdit " ++ decimal number ++ codes " " ++ edit_fault_name fault ++ codes "\n") }
{
    let mut line = Vec::from_slice(alloc, b"refused 9 BadEdit ")?;
    add_count(&mut line, number)?;
    line.extend_from_slice(b" ")?;
    line.extend_from_slice(edit_fault_word(fault).as_bytes())?;
    line.extend_from_slice(b"\n")?;
    Ok(line)
}

/// Returns the line of cells in conflict.
fn conflict_line(
    alloc: Global,
    schema: &Schema,
    cell: CellId,
    count: usize,
) -> Result<Vec<u8>, AllocError>
    ensures { IfOk result (λ line. line.items ≡ codes "refused 10 Conflict " ++ cell_text schema.now cell ++ codes " " ++ decimal count ++ codes "\n") }
{
    let mut line = Vec::from_slice(alloc, b"refused 10 Conflict ")?;
    add_cell(&mut line, schema, cell)?;
    line.extend_from_slice(b" ")?;
    add_count(&mut line, count)?;
    line.extend_from_slice(b"\n")?;
    Ok(line)
}

/// Returns the line of a broken rule.
fn broken_line(alloc: Global, schema: &Schema, need: &Broken) -> Result<Vec<u8>, AllocError>
    ensures { IfOk result (λ line. line.items ≡ codes "refused 12 RuleBroken " ++ need_text schema.now need.now ++ codes "\n") }
{
    let mut line = Vec::from_slice(alloc, b"refused 12 RuleBroken ")?;
    add_need(&mut line, schema, need)?;
    line.extend_from_slice(b"\n")?;
    Ok(line)
}

/// Returns the line of a reply, ended by `\n`. The line is `done`, or `refused` with the number and
/// the name of the refusal and then its details: the edit's number and its fault's name, the least
/// cell in conflict and how many there are, or the need that no row would serve, as `rule 1
/// main/20/3 main/21`. The name of a table that the schema hasn't is empty.
/// For example, `refused 9 BadEdit 3 KeyTaken` says that the third edit inserts a row where one stands, and
/// `refused 10 Conflict main/1 1` that main 1 is the only cell in conflict.
pub fn reply_line(alloc: Global, schema: &Schema, reply: &Reply) -> Result<Vec<u8>, AllocError>
    ensures { IfOk result (λ line. line.items ≡ reply_text schema.now reply.now) }
{
    match *reply {
        Reply::Done => Vec::from_slice(alloc, b"done\n"),
        Reply::OutOfMemory => Vec::from_slice(alloc, b"refused 0 OutOfMemory\n"),
        Reply::NoWorkspace => Vec::from_slice(alloc, b"refused 1 NoWorkspace\n"),
        Reply::NameTaken => Vec::from_slice(alloc, b"refused 2 NameTaken\n"),
        Reply::BadName => Vec::from_slice(alloc, b"refused 3 BadName\n"),
        Reply::LiveIsFixed => Vec::from_slice(alloc, b"refused 4 LiveIsFixed\n"),
        Reply::NotLeaf => Vec::from_slice(alloc, b"refused 5 NotLeaf\n"),
        Reply::TooMany => Vec::from_slice(alloc, b"refused 6 TooMany\n"),
        Reply::NoSavepoint => Vec::from_slice(alloc, b"refused 7 NoSavepoint\n"),
        Reply::SavepointHeld => Vec::from_slice(alloc, b"refused 8 SavepointHeld\n"),
        Reply::BadEdit(number, fault) => bad_edit_line(alloc, number, fault),
        Reply::Conflict(cell, count) => conflict_line(alloc, schema, cell, count),
        Reply::NotInConflict => Vec::from_slice(alloc, b"refused 11 NotInConflict\n"),
        Reply::RuleBroken(need) => broken_line(alloc, schema, &need),
    }
}
