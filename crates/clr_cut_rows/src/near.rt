//! The rows of a cut that are near a row, by the spots of both.

ghost use Rattle.std.specs.Prelude.{◌≡◌, ◌<◌, ◌∷◌, [], length, IfOk};
ghost use Rattle.clr_rows.specs.Held.{held_of};
ghost use Rattle.clr_rules.specs.Books.{FitTogether};
ghost use Rattle.clr_foot.specs.Scenes.{IsReady};
ghost use Rattle.clr_cut_rows.specs.Searches.{AreNearCells, model_of, setting_in};

use crate::cut_rows::CutRows;
use clr_finders::RowFinder;
use clr_rows::{CellId, Held, RowView};
use std::alloc::AllocError;

/// The cells whose old row shares with a row under a rule, and those whose new row does.
#[derive(Drop)]
pub(crate) struct NearCells {
    pub(crate) old: Vec<CellId>,
    pub(crate) new: Vec<CellId>,
}

impl<V: RowView, F: RowFinder> CutRows<'_, V, F> {
    /// Returns the cells whose old row shares with a row under a rule, and those whose new row does.
    pub(crate) fn cells_near(&self, rule: u16, held: Held) -> Result<NearCells, AllocError>
        requires number { rule < length self.now.book.now }
        requires fit { FitTogether self.now.book.now (held_of held ∷ []) }
        requires ready { IsReady F.settled (model_of V.content self.now) }
        ensures { IfOk result (AreNearCells (setting_in V.content self.now) rule (held_of held.entry)) }
    {
        let old = self.finder.sharing(self.book, rule, held)?;
        let new = self.new_rows.sharing(self.book, rule, held)?;
        Ok(NearCells { old, new })
    }
}
