//! A pass over the rows of a table, held against a cut.

ghost use Rattle.std.specs.Prelude.{◌≡◌, false, map, IfErr, IfOk, Some, slice_get};
ghost use Rattle.clr_clearance.specs.MergeSets.{change_sets, setting_by_position};
ghost use Rattle.clr_cut_rows.specs.Searches.{aim_of, model_of, setting_in};
ghost use Rattle.clr_foot.specs.Scenes.{IsReady};
ghost use Rattle.clr_layer_streams.specs.Sources.{IsUnread, bytes_of, is_failed};
ghost use Rattle.clr_cut_streams.specs.Faults.{is_unreadable};
ghost use Rattle.clr_cut_streams.specs.Sinks.{sinks_between};
ghost use Rattle.clr_desk_cuts.specs.Inquiries.{asked_by};
ghost use Rattle.clr_desk_cuts.specs.Members.{AreTogether, live_set};
ghost use Rattle.clr_desk_cuts.specs.Reach.{HasPassed, IsPassEnd};

use crate::inquiries::{Inquiry, cut_rows};
use clr_cut_rows::CutRows;
use clr_cut_streams::{CutText, PassFault, Told, pass_over, put_line};
use clr_engine::SpotIndex;
use clr_layer_streams::{LayerSource, LayerStream};
use clr_layer_text::header_line;
use clr_rows::Sheet;
use clr_streams::Sink;
use std::alloc::Global;
use std::io::Read;

/// Goes over the rows of the table, held against these rows of the cut. The header is written first.
fn pass_beside<R: Read, W: Sink, N: Sink>(
    alloc: Global,
    inquiry: &Inquiry<'_>,
    rows: &CutRows<'_, Sheet, SpotIndex>,
    source: &mut LayerSource<R>,
    writer: &mut W,
    notes: &mut N,
) -> Result<Told, PassFault>
    requires aim { aim_of rows.now ≡ inquiry.now.options.aim }
    requires setting { setting_in (λ sheet. sheet) rows.now
        ≡ setting_by_position inquiry.now.opened.now.office (live_set (map (λ name. name.now) inquiry.now.names.now)) }
    requires ready { IsReady (λ finder. finder.settled) (model_of (λ sheet. sheet) rows.now) }
    requires stands { slice_get inquiry.now.opened.now.office.schema inquiry.now.table ≡ Some inquiry.now.def.now }
    requires unread { IsUnread R.remaining source.old }
    requires writer { W.failed writer.old ≡ false }
    requires notes { N.failed notes.old ≡ false }
    ensures whole { IfOk result (HasPassed (asked_by inquiry.now) (bytes_of R.remaining source.old)
        (sinks_between W.contents W.failed N.contents N.failed writer.old writer.new notes.old notes.new)) }
    ensures source { is_failed source.new ≡ is_unreadable result }
    ensures fault { IfErr result (IsPassEnd (asked_by inquiry.now) (bytes_of R.remaining source.old)
        (sinks_between W.contents W.failed N.contents N.failed writer.old writer.new notes.old notes.new) (is_failed source.new)) }
{
    let schema = inquiry.opened.office.schema();
    let cut = CutText {
        schema,
        rows,
        listed: &inquiry.opened.listed,
    };
    let rounded = inquiry.options.rounded;
    let mut stream = LayerStream::open(alloc, schema, inquiry.table, rounded, source)?;
    put_line(writer, header_line(alloc, inquiry.def)?.as_slice())?;
    pass_over(alloc, &cut, &mut stream, source, writer, notes)
}

/// Goes over the rows of the table. The header is written first.
pub(crate) fn pass<R: Read, W: Sink, N: Sink>(
    alloc: Global,
    inquiry: &Inquiry<'_>,
    source: &mut LayerSource<R>,
    writer: &mut W,
    notes: &mut N,
) -> Result<Told, PassFault>
    requires changes { inquiry.now.changes.now ≡ change_sets inquiry.now.opened.now.office (live_set (map (λ name. name.now) inquiry.now.names.now)) }
    requires together { AreTogether inquiry.now.opened.now.office (live_set (map (λ name. name.now) inquiry.now.names.now)) }
    requires stands { slice_get inquiry.now.opened.now.office.schema inquiry.now.table ≡ Some inquiry.now.def.now }
    requires unread { IsUnread R.remaining source.old }
    requires writer { W.failed writer.old ≡ false }
    requires notes { N.failed notes.old ≡ false }
    ensures whole { IfOk result (HasPassed (asked_by inquiry.now) (bytes_of R.remaining source.old)
        (sinks_between W.contents W.failed N.contents N.failed writer.old writer.new notes.old notes.new)) }
    ensures source { is_failed source.new ≡ is_unreadable result }
    ensures fault { IfErr result (IsPassEnd (asked_by inquiry.now) (bytes_of R.remaining source.old)
        (sinks_between W.contents W.failed N.contents N.failed writer.old writer.new notes.old notes.new) (is_failed source.new)) }
{
    let office = &inquiry.opened.office;
    let aim = inquiry.options.aim;
    let rows = cut_rows(alloc, office, aim, inquiry.names, inquiry.changes)?;
    pass_beside(alloc, inquiry, &rows, source, writer, notes)
}
