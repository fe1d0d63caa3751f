//! What a pass over a layer has told so far, and one row more.

ghost use Rattle.std.specs.Prelude.{◌≡◌, ◌++◌, [], true, IfErr, IfOk, OnErr, OnOk};
ghost use Rattle.std.specs.Io.KnownBytes.{Appends};
ghost use Rattle.clr_rules.specs.Books.{FitsBook, FitsCell};
ghost use Rattle.clr_foot.specs.Scenes.{IsReady};
ghost use Rattle.clr_cut_rows.specs.Searches.{aim_of, model_of, setting_in};
ghost use Rattle.clr_cut_rows.specs.Standings.{IsStanding};
ghost use Rattle.clr_cut_passes.specs.Counts.{counts_of};
ghost use Rattle.clr_cut_passes.specs.Passes.{CountsOneMoreRow};
ghost use Rattle.clr_cut_streams.specs.declared.faults.PassFault.TheVariants as pass_fault;
ghost use Rattle.clr_cut_streams.specs.Faults.{IsTellingFault};
ghost use Rattle.clr_cut_streams.specs.Told.{is_shown, line_if_other, line_if_shown, one_more_if, other_line};

use crate::faults::PassFault;
use clr_cut_passes::PassCounts;
use clr_cut_rows::{CutRows, Standing};
use clr_deltas::Differences;
use clr_finders::RowFinder;
use clr_layer_text::{LayerRow, row_line};
use clr_lines::add_cell;
use clr_rows::{CellId, Held, RowView, Schema};
use clr_streams::Sink;
use std::alloc::{AllocError, Global};

/// A cut as its text has it: its rows with what members change there, and differences at the cells that the
/// text lists of its workspaces. A row of the whole at one of these belongs to the cut.
#[derive(Drop)]
pub struct CutText<'a, V, F: RowFinder> {
    pub schema: &'a Schema,
    pub rows: &'a CutRows<'a, V, F>,
    pub listed: &'a Differences,
}

/// How many rows a pass has gone over, by how they stand to the cut, and how many of them it has printed.
/// No count is above 2^64 - 1.
#[derive(Clone, Copy, Debug, PartialEq, Eq)]
pub struct Told {
    pub counts: PassCounts,
    pub printed: u64,
}

impl Told {
    /// Returns what a pass has told that has gone over no row.
    pub fn new() -> Told
        ensures { result ≡ record { counts = counts_of []; printed = 0 } }
    {
        Told {
            counts: PassCounts::new(),
            printed: 0,
        }
    }
}

/// Returns whether a row of the whole is to be printed, by how it stands to the cut.
fn is_shown(listed: &Differences, cell: CellId, standing: Standing) -> bool
    ensures { result ≡ is_shown listed.now cell standing }
{
    match standing {
        Standing::Lacks => true,
        Standing::Beyond => listed.get(cell).is_some(),
        Standing::Has | Standing::HasOther => false,
    }
}

/// Counts one more row that is printed, where it is.
fn count_if(is_shown: bool, printed: u64) -> u64
    ensures { result ≡ one_more_if is_shown printed }
{
    if is_shown {
        printed.saturating_add(1)
    } else {
        printed
    }
}

fn put<W: Sink>(writer: &mut W, line: &[u8]) -> Result<(), PassFault>
    ensures bytes { OnOk result (Appends (W.contents writer.old) (W.contents writer.new) line.now) }
    ensures goes_on { OnOk result (W.failed writer.new ≡ W.failed writer.old) }
    ensures fails { OnErr result (W.failed writer.new ≡ true) }
    ensures fault { IfErr result (λ e. e ≡ pass_fault.WriteFailed) }
{
    match writer.put(line) {
        Ok(()) => Ok(()),
        Err(_) => Err(PassFault::WriteFailed),
    }
}

/// Returns the line of a row, or none where it isn't to be printed.
fn line_if_shown(alloc: Global, is_shown: bool, row: &LayerRow) -> Result<Vec<u8>, AllocError>
    ensures { IfOk result (λ line. line.items ≡ line_if_shown is_shown row.now) }
{
    if is_shown {
        row_line(alloc, row)
    } else {
        Ok(Vec::new(alloc))
    }
}

/// Returns the line that tells that the cut has another row at a cell.
fn other_line(alloc: Global, schema: &Schema, cell: CellId) -> Result<Vec<u8>, AllocError>
    ensures { IfOk result (λ line. line.items ≡ other_line schema.now cell) }
{
    let mut line = Vec::from_slice(alloc, b"otherwise ")?;
    add_cell(&mut line, schema, cell)?;
    line.extend_from_slice(b"\n")?;
    Ok(line)
}

/// Returns that line, or none where the row stands otherwise to the cut.
fn line_if_other(
    alloc: Global,
    schema: &Schema,
    cell: CellId,
    standing: Standing,
) -> Result<Vec<u8>, AllocError>
    ensures { IfOk result (λ line. line.items ≡ line_if_other schema.now cell standing) }
{
    match standing {
        Standing::HasOther => other_line(alloc, schema, cell),
        Standing::Has | Standing::Lacks | Standing::Beyond => Ok(Vec::new(alloc)),
    }
}

/// Writes a line where it isn't empty. Fails with `WriteFailed` where the sink does.
pub fn put_line<W: Sink>(writer: &mut W, line: &[u8]) -> Result<(), PassFault>
    ensures bytes { OnOk result (Appends (W.contents writer.old) (W.contents writer.new) line.now) }
    ensures goes_on { OnOk result (W.failed writer.new ≡ W.failed writer.old) }
    ensures fails { OnErr result (W.failed writer.new ≡ true) }
    ensures fault { IfErr result (λ e. e ≡ pass_fault.WriteFailed) }
{
    if line.is_empty() {
        return Ok(());
    }
    put(writer, line)
}

/// Takes one more row of a table, at its cell, and returns how it stands to the cut. Its line is written where it is
/// to be printed, and a note where the cut has another row at the cell.
pub(crate) fn tell_row<V: RowView, F: RowFinder, W: Sink, N: Sink>(
    alloc: Global,
    cut: &CutText<'_, V, F>,
    told: &mut Told,
    cell: CellId,
    row: &LayerRow,
    writer: &mut W,
    notes: &mut N,
) -> Result<Standing, PassFault>
    requires book { FitsBook cut.now.schema.now (model_of V.content cut.now.rows.now).rules }
    requires row { FitsCell cut.now.schema.now (cell, row.now.row) }
    requires ready { IsReady F.settled (model_of V.content cut.now.rows.now) }
    ensures standing { IfOk result (IsStanding (aim_of cut.now.rows.now) (setting_in V.content cut.now.rows.now) (cell, row.now.row)) }
    ensures counts { OnOk result (CountsOneMoreRow (aim_of cut.now.rows.now) (setting_in V.content cut.now.rows.now) told.old.counts
        (cell, row.now.row) told.new.counts) }
    ensures text { IfOk result (λ x. Appends (W.contents writer.old) (W.contents writer.new)
        (line_if_shown (is_shown cut.now.listed.now cell x) row.now)) }
    ensures notes { IfOk result (λ x. Appends (N.contents notes.old) (N.contents notes.new)
        (line_if_other cut.now.schema.now cell x)) }
    ensures printed { IfOk result (λ x. told.new.printed
        ≡ one_more_if (is_shown cut.now.listed.now cell x) told.old.printed) }
    ensures goes_on { OnOk result ((W.failed writer.new ≡ W.failed writer.old) × (N.failed notes.new ≡ N.failed notes.old)) }
    ensures fault { IfErr result (IsTellingFault (W.failed writer.new) (N.failed notes.new)) }
{
    let held = Held {
        cell,
        row: &row.row,
    };
    let standing = told.counts.note_row(cut.rows, held)?;
    let is_shown = is_shown(cut.listed, cell, standing);
    put_line(writer, line_if_shown(alloc, is_shown, row)?.as_slice())?;
    told.printed = count_if(is_shown, told.printed);
    put_line(
        notes,
        line_if_other(alloc, cut.schema, cell, standing)?.as_slice(),
    )?;
    Ok(standing)
}
