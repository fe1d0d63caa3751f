//! A pass over a layer that is read one record at a time.

ghost use Rattle.std.specs.Prelude.{◌≡◌, false, IfErr, IfOk, OnOk};
ghost use Rattle.clr_rules.specs.Books.{FitsBook};
ghost use Rattle.clr_foot.specs.Scenes.{IsReady};
ghost use Rattle.clr_cut_rows.specs.Searches.{model_of};
ghost use Rattle.clr_layer_streams.specs.Sources.{CanGoOn, is_failed};
ghost use Rattle.clr_layer_streams.specs.Streams.{form_of};
ghost use Rattle.clr_cut_streams.specs.Faults.{is_unreadable};
ghost use Rattle.clr_cut_streams.specs.Passes.{IsPassFault, IsWholePass};
ghost use Rattle.clr_cut_streams.specs.Seen.{with_cell_if};
ghost use Rattle.clr_cut_streams.specs.Sinks.{sinks_between};
ghost use Rattle.clr_cut_streams.specs.Told.{is_row_there};

use crate::faults::PassFault;
use crate::told::{CutText, Told, tell_row};
use clr_cut_rows::Standing;
use clr_deltas::Differences;
use clr_finders::RowFinder;
use clr_layer_changes::LayersFault;
use clr_layer_streams::{LayerSource, LayerStream};
use clr_rows::{CellId, RowView};
use clr_streams::Sink;
use std::alloc::{AllocError, Global};
use std::io::Read;

/// Tests whether the cut has a row at the cell of a row that stands so.
fn is_row_there(standing: Standing) -> bool
    ensures { result ≡ is_row_there standing }
{
    match standing {
        Standing::Has | Standing::HasOther => true,
        Standing::Lacks | Standing::Beyond => false,
    }
}

/// Notes a cell at which the cut has a row. A set of such cells is no larger than the cut.
fn note_cell(seen: &mut Differences, cell: CellId, standing: Standing) -> Result<(), AllocError>
    ensures { OnOk result (seen.new ≡ with_cell_if (is_row_there standing) seen.old cell) }
{
    if is_row_there(standing) {
        seen.put(cell, None)
    } else {
        Ok(())
    }
}

/// Goes over the rows of a layer of which none was read yet, one after another, and returns what was told of
/// them. The line of each row that is to be printed is written at once, and a note of each row that the cut
/// has otherwise. The memory of one row is taken, and that of the keys at which the cut has rows.
///
/// Fails with `Record` where a record can't be read, and where a row has no key, or the key of a row before
/// it at which the cut has a row: then just what is told of the rows before it was written. Fails with
/// `Unreadable` where a read of the source fails, and only there, with `WriteFailed` where a sink fails, and with
/// `OutOfMemory` for want of memory, which may come in place of any other answer: how much was written then is not
/// known.
pub fn pass_over<V: RowView, F: RowFinder, R: Read, W: Sink, N: Sink>(
    alloc: Global,
    cut: &CutText<'_, V, F>,
    stream: &mut LayerStream<'_>,
    source: &mut LayerSource<R>,
    writer: &mut W,
    notes: &mut N,
) -> Result<Told, PassFault>
    requires reading { CanGoOn source.old }
    requires first { stream.old.number ≡ 1 }
    requires schema { (form_of stream.old).tables ≡ cut.now.schema.now }
    requires writer { W.failed writer.old ≡ false }
    requires notes { N.failed notes.old ≡ false }
    requires book { FitsBook cut.now.schema.now (model_of V.content cut.now.rows.now).rules }
    requires ready { IsReady F.settled (model_of V.content cut.now.rows.now) }
    ensures whole { IfOk result (IsWholePass R.remaining V.content source.old stream.old cut.now
        (sinks_between W.contents W.failed N.contents N.failed writer.old writer.new notes.old notes.new)) }
    ensures source { is_failed source.new ≡ is_unreadable result }
    ensures fault { IfErr result (IsPassFault R.remaining V.content source.old stream.old cut.now
        (sinks_between W.contents W.failed N.contents N.failed writer.old writer.new notes.old notes.new) (is_failed source.new)) }
{
    let mut told = Told::new();
    let mut seen = Differences::new(alloc);
    let table = stream.table();
    for _ in 0..u64::MAX {
        let Some(row) = stream.next_row(source)? else {
            return Ok(told);
        };
        let Some(key) = row.key else {
            return Err(PassFault::Record(stream.number(), LayersFault::NoKey));
        };
        let cell = CellId { table, key };
        if seen.get(cell).is_some() {
            return Err(PassFault::Record(stream.number(), LayersFault::KeyTwice));
        }
        let standing = tell_row(alloc, cut, &mut told, cell, &row, writer, notes)?;
        note_cell(&mut seen, cell, standing)?;
    }
    Err(PassFault::OutOfMemory)
}
