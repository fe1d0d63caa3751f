//! SQL that proposes a cut for the designs of an office text.

ghost use Rattle.std.specs.Prelude.{◌≡◌, Ok, IfOk, map};
ghost use Rattle.std.specs.FinMap as finite;
ghost use Rattle.std.specs.Option.{option_copied};
ghost use Rattle.clr_rules.specs.Sides.{each_side, if_any};
ghost use Rattle.clr_deltas.specs.NamedDeltas.{stored_delta};
ghost use Rattle.clr_steps.specs.Offices.{Office as WholeOffice};
ghost use Rattle.clr_office_texts.specs.Drafts.{draft_in};
ghost use Rattle.clr_desk_errors.specs.Accepting.{IsPrintoutOfDraft};
ghost use Rattle.clr_desk_prints.specs.Printing.{IsMadePrintout, printed};
ghost use Rattle.clr_desk_edits.specs.Edits.{target_of};
ghost use Rattle.clr_desk_edits.specs.Proposals.{
  IsProposalAnswer,
  IsProposalPrint,
  first_unsayable_of,
  first_unsayable_row,
  first_unsayable_rule,
  is_sayable_row,
  is_sayable_side,
};

use crate::forms::database;
use crate::refusals::{lost_byte, lost_byte_of_rule};
use clr_cut_proposals::write_proposal;
use clr_deltas::{Differences, StoredPart};
use clr_desk_prints::{Print, RunFault, Words, print_of_no_system, system_of};
use clr_office_reading::read_office;
use clr_office_reports::draft_of;
use clr_rows::{CellId, Place, Row};
use clr_rules::{Rule, Side};
use clr_sql::{Dialect, Target, has_lost_byte, is_sayable};
use std::alloc::{AllocError, Global};

/// Returns whether a row, if there is one, is handed on as it is.
fn is_sayable_row(row: Option<&Row>) -> bool
    ensures { result ≡ is_sayable_row (option_copied row.entry) }
{
    match row {
        Some(row) => is_sayable(row),
        None => true,
    }
}

/// Returns the cell of the first row of a design with a text that isn't handed on as it is, or none.
fn first_unsayable_row(rows: &Differences) -> Option<CellId>
    ensures { result ≡ first_unsayable_row (finite.entries rows.now) }
{
    for (cell, row) in rows.iter() {
        if !is_sayable_row(row.as_ref()) {
            return Some(*cell);
        }
    }
    None
}

/// Returns the cell of the first such row of all designs, or none.
fn first_unsayable_of(designs: &[StoredPart]) -> Option<CellId>
    ensures { result ≡ first_unsayable_of (map stored_delta designs.now) }
{
    for design in designs {
        if let Some(cell) = first_unsayable_row(&design.delta.current) {
            return Some(cell);
        }
    }
    None
}

/// Returns whether each literal of a side is handed on as it is.
fn is_sayable_side(side: &Side) -> bool
    ensures { result ≡ is_sayable_side side.now }
{
    side.filter
        .as_slice()
        .iter()
        .all(|literal| !has_lost_byte(&literal.1))
}

/// Returns whether there is no side, or its literals are handed on as they are.
fn is_sayable_if_any(side: Option<&Side>) -> bool
    ensures { result ≡ if_any is_sayable_side (option_copied side.entry) }
{
    match side {
        Some(side) => is_sayable_side(side),
        None => true,
    }
}

/// Returns whether each literal of a rule is handed on as it is.
fn is_sayable_rule(rule: &Rule) -> bool
    ensures { result ≡ each_side is_sayable_side rule.now }
{
    let sides = rule.sides();
    is_sayable_if_any(sides.alone)
        && is_sayable_if_any(sides.first)
        && is_sayable_if_any(sides.second)
        && is_sayable_if_any(sides.server)
}

/// Returns the number of the first rule with a literal that isn't, or none.
fn first_unsayable_rule(rules: &[Rule]) -> Option<usize>
    ensures { result ≡ first_unsayable_rule 0 rules.now }
{
    for number in 0..rules.len() {
        if !is_sayable_rule(&rules[number]) {
            return Some(number);
        }
    }
    None
}

/// Returns what is printed of an office text that can be read.
fn proposal_print(alloc: Global, target: &Target, text: &[u8]) -> Result<Print, AllocError>
    ensures { IfOk result (λ p. (o : WholeOffice) → IsProposalPrint target.now text.now o (printed p)) }
{
    // (a text that was read fails only for want of memory)
    let Ok(parts) = read_office(alloc, text) else {
        return Err(AllocError);
    };
    if let Some(number) = first_unsayable_rule(parts.book.rules()) {
        return lost_byte_of_rule(alloc, number);
    }
    let designs = parts.workspaces.as_slice();
    if let Some(cell) = first_unsayable_of(designs) {
        return lost_byte(alloc, &parts.schema, cell);
    }
    let text = write_proposal(alloc, target, &parts.schema, parts.book.rules(), designs)?;
    Ok(Print::of_text(alloc, text))
}

/// Returns what is printed of an office text.
fn answer_for(alloc: Global, target: &Target, office: &[u8]) -> Result<Print, RunFault>
    ensures { IsMadePrintout (IsPrintoutOfDraft (IsProposalPrint target.now office.now) (draft_in office.now)) result }
{
    let _read = draft_of(alloc, office)?;
    let print = proposal_print(alloc, target, office)?;
    Ok(print)
}

/// Returns SQL of a dialect that proposes a cut around the designs of an office text, for a database in whose system of coordinates the place (0, 0) of the
/// office is at the origin, in millimetres. Rules may be broken in the office. Where a text is given that names no system of coordinates there is no text, and
/// one note, with status 2. Where a literal of a rule, or a row that a design brings, has a text with a byte 0 or a carriage return, there is no text, and
/// which rule or row that is is the only note, with status 1. Fails with `BadOffice` where the text is no office, and with `OutOfMemory` for want of memory,
/// which may come in place of any other answer.
pub fn answer_proposal(
    alloc: Global,
    dialect: Dialect,
    origin: Place,
    system: Option<&Words>,
    office: &[u8],
) -> Result<Print, RunFault>
    ensures { IsMadePrintout (IsProposalAnswer dialect origin (option_copied system.entry) office.now) result }
{
    let Some(text) = system else {
        return answer_for(alloc, &database(dialect, origin, None), office);
    };
    match system_of(text.as_str()) {
        Some(code) => answer_for(alloc, &database(dialect, origin, Some(code)), office),
        None => Ok(print_of_no_system(alloc, text.as_str())?),
    }
}
