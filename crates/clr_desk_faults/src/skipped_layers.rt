//! The layer whose records with faults are skipped.
ghost use Rattle.std.specs.Prelude.{IfOk};
ghost use Rattle.clr_office_texts.specs.Drafts.{draft_in};
ghost use Rattle.clr_desk_faults.specs.SkippedLayers.{IsSplitOver};

use crate::layer_faults::is_rounded;
use clr_desk_command_line::DeskAsk;
use clr_layer_changes::GivenLayer;
use clr_office_texts::{TextFault, read_office};
use clr_skipped_records::{SplitLayer, split_layer};
use std::alloc::{AllocError, Global};

/// Returns the layer that is asked for, split into the records that have no fault over the tables of an office text, and the others, each with what is
/// wrong with it; or nothing where the text is no office, or the layer as a whole has a fault.
pub fn split_given(
    alloc: Global,
    ask: &DeskAsk,
    office: &[u8],
    layer: &GivenLayer,
) -> Result<Option<SplitLayer>, AllocError>
    ensures split { IfOk result (λ split. IsSplitOver ask.now layer.now split (draft_in office.now)) }
{
    match read_office(alloc, office) {
        Ok(read) => split_layer(alloc, read.draft.schema(), is_rounded(ask), layer),
        Err(TextFault::OutOfMemory) => Err(AllocError),
        Err(_) => Ok(None),
    }
}
