//! The lines of verdicts.

ghost use Rattle.std.specs.Prelude.{◌≡◌, ◌++◌, codes, map, slice_get, IfOk};
ghost use Rattle.clr_lines.specs.Verdicts.{conflict_text, misplaced_text, name_text, not_before_text, shared_text, uncovered_text};
ghost use Rattle.clr_lines.specs.Verdicts.{verdict_text, verdict_text_in_turn};

use crate::needs::add_need_of_versions;
use crate::pieces::{add_cell, add_count};
use clr_cert::Precedence;
use clr_clearance::Verdict;
use clr_member_changes::member_name;
use clr_needs::Need;
use clr_rows::{CellId, Schema};
use std::alloc::{AllocError, Global};

/// Returns a line that ends with a name.
fn name_line(alloc: Global, front: &str, name: &str) -> Result<Vec<u8>, AllocError>
    ensures { IfOk result (λ line. line.items ≡ name_text front.now name.now) }
{
    let mut line = Vec::from_slice(alloc, front.as_bytes())?;
    line.extend_from_slice(name.as_bytes())?;
    line.extend_from_slice(b"\n")?;
    Ok(line)
}

/// Returns the line of a member in conflict.
fn conflict_line(
    alloc: Global,
    schema: &Schema,
    name: &str,
    cell: CellId,
    count: usize,
) -> Result<Vec<u8>, AllocError>
    ensures { IfOk result (λ line. line.items ≡ conflict_text schema.now name.now cell count) }
{
    let mut line = Vec::from_slice(alloc, b"4 Conflict ")?;
    line.extend_from_slice(name.as_bytes())?;
    line.extend_from_slice(b" ")?;
    add_cell(&mut line, schema, cell)?;
    line.extend_from_slice(b" ")?;
    add_count(&mut line, count)?;
    line.extend_from_slice(b"\n")?;
    Ok(line)
}

/// Returns the line of a cell that two members change.
fn shared_line(
    alloc: Global,
    schema: &Schema,
    cell: CellId,
    first: &str,
    second: &str,
) -> Result<Vec<u8>, AllocError>
    ensures { IfOk result (λ line. line.items ≡ shared_text schema.now cell first.now second.now) }
{
    let mut line = Vec::from_slice(alloc, b"5 SharedCell ")?;
    add_cell(&mut line, schema, cell)?;
    line.extend_from_slice(b" ")?;
    line.extend_from_slice(first.as_bytes())?;
    line.extend_from_slice(b" ")?;
    line.extend_from_slice(second.as_bytes())?;
    line.extend_from_slice(b"\n")?;
    Ok(line)
}

/// Returns the line of a need that no entry covers.
fn uncovered_line(alloc: Global, schema: &Schema, need: &Need) -> Result<Vec<u8>, AllocError>
    ensures { IfOk result (λ line. line.items ≡ uncovered_text schema.now need.now) }
{
    let mut line = Vec::from_slice(alloc, b"6 Uncovered ")?;
    add_need_of_versions(&mut line, schema, need)?;
    line.extend_from_slice(b"\n")?;
    Ok(line)
}

/// Returns the line of two names of which the first isn't listed before the second.
fn not_before_line(alloc: Global, earlier: &str, later: &str) -> Result<Vec<u8>, AllocError>
    ensures { IfOk result (λ line. line.items ≡ not_before_text earlier.now later.now) }
{
    let mut line = Vec::from_slice(alloc, b"8 NotBefore ")?;
    line.extend_from_slice(earlier.as_bytes())?;
    line.extend_from_slice(b" ")?;
    line.extend_from_slice(later.as_bytes())?;
    line.extend_from_slice(b"\n")?;
    Ok(line)
}

/// Returns the line of the precedence of a position, or one without names where there is none.
fn misplaced_line(alloc: Global, before: &[Precedence], at: usize) -> Result<Vec<u8>, AllocError>
    ensures { IfOk result (λ line. line.items ≡ misplaced_text (slice_get before.now at)) }
{
    match before.get(at) {
        Some(Precedence { earlier, later }) => {
            not_before_line(alloc, earlier.as_str(), later.as_str())
        }
        None => not_before_line(alloc, "", ""),
    }
}

/// Returns the line of a verdict on members of a root, ended by `\n`. The line is `clear`, or the
/// number and the name of the verdict with its details: the name of the member or of the root; the
/// member, the least cell in conflict, as `main/20`, and how many there are; the shared cell and
/// the members that change it; or the need that no entry covers, as `rule 1 main/20/old/3
/// main/21/new`. A position past the members, the names of a precedence, and a table that the schema
/// hasn't, have an empty name.
/// For example, `5 SharedCell main/20 W1 W2` says that `W1` and `W2` both change main 20, and
/// `6 Uncovered rule 1 main/1/old main/2/old` that no entry covers the need of the old mains 1 and 2 under rule 1.
pub fn verdict_line(
    alloc: Global,
    schema: &Schema,
    members: &[&str],
    root: &str,
    verdict: &Verdict,
) -> Result<Vec<u8>, AllocError>
    ensures { IfOk result (λ line. line.items ≡ verdict_text schema.now (map (λ name. name.now) members.now) root.now verdict.now) }
{
    match *verdict {
        Verdict::Clear => Vec::from_slice(alloc, b"clear\n"),
        Verdict::OutOfMemory => Vec::from_slice(alloc, b"0 OutOfMemory\n"),
        Verdict::RepeatedMember(at) => name_line(
            alloc,
            "1 RepeatedMember ",
            member_name(members, at),
        ),
        Verdict::NoWorkspace(at) => name_line(alloc, "2 NoWorkspace ", member_name(members, at)),
        Verdict::NotUnderRoot(at) => name_line(alloc, "3 NotUnderRoot ", member_name(members, at)),
        Verdict::Conflict {
            member: at,
            cell,
            count,
        } => conflict_line(alloc, schema, member_name(members, at), cell, count),
        Verdict::SharedCell {
            cell,
            first,
            second,
        } => shared_line(
            alloc,
            schema,
            cell,
            member_name(members, first),
            member_name(members, second),
        ),
        Verdict::Uncovered(need) => uncovered_line(alloc, schema, &need),
        Verdict::NotKept => name_line(alloc, "7 NotKept ", root),
        Verdict::NotBefore(_) => not_before_line(alloc, "", ""),
    }
}

/// Returns the line of a verdict on members of a root, some of whom go before others by these
/// precedences: that of `verdict_line`, but for a precedence whose earlier name isn't listed before its
/// later one. Its line has both names; a position past the precedences has empty names.
/// For example, `8 NotBefore W2 W1` says so of `W2` and `W1`.
pub fn verdict_line_in_turn(
    alloc: Global,
    schema: &Schema,
    members: &[&str],
    before: &[Precedence],
    root: &str,
    verdict: &Verdict,
) -> Result<Vec<u8>, AllocError>
    ensures { IfOk result (λ line. line.items ≡ verdict_text_in_turn schema.now (map (λ name. name.now) members.now) before.now root.now verdict.now) }
{
    match *verdict {
        Verdict::NotBefore(at) => misplaced_line(alloc, before, at),
        _ => verdict_line(alloc, schema, members, root, verdict),
    }
}

/// Returns the line that says why members of a root are unfit, ended by `\n`: `unfit`, and then what `verdict_line` writes of the verdict.
pub fn unfit_line(
    alloc: Global,
    schema: &Schema,
    members: &[&str],
    root: &str,
    verdict: &Verdict,
) -> Result<Vec<u8>, AllocError>
    ensures { IfOk result (λ line. line.items ≡ codes "unfit " ++ verdict_text schema.now (map (λ name. name.now) members.now) root.now verdict.now) }
{
    let mut line = Vec::from_slice(alloc, b"unfit ")?;
    let verdict = verdict_line(alloc, schema, members, root, verdict)?;
    line.extend_from_slice(verdict.as_slice())?;
    Ok(line)
}
