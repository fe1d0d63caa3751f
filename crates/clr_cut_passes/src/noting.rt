//! One row of a pass after another.

ghost use Rattle.std.specs.Prelude.{◌≡◌, ◌∷◌, [], IfOk, OnErr, OnOk};
ghost use Rattle.clr_rows.specs.Held.{held_of};
ghost use Rattle.clr_rules.specs.Books.{FitTogether};
ghost use Rattle.clr_foot.specs.Scenes.{IsReady};
ghost use Rattle.clr_cut_rows.specs.Searches.{aim_of, model_of, setting_in};
ghost use Rattle.clr_cut_rows.specs.Standings.{IsStanding};
ghost use Rattle.clr_cut_passes.specs.Passes.{CountsOneMoreRow};

use crate::counts::PassCounts;
use clr_cut_rows::{CutRows, Standing};
use clr_finders::RowFinder;
use clr_rows::{Held, RowView};
use std::alloc::AllocError;

impl PassCounts {
    /// Counts one more row of the whole root, by how it stands to the cut, and returns that. The row
    /// fits a schema that the cut's book fits. If memory runs out, the row isn't counted.
    pub fn note_row<V: RowView, F: RowFinder>(
        &mut self,
        cut: &CutRows<'_, V, F>,
        held: Held,
    ) -> Result<Standing, AllocError>
        requires fit { FitTogether (model_of V.content cut.now).rules (held_of held ∷ []) }
        requires ready { IsReady F.settled (model_of V.content cut.now) }
        ensures standing { IfOk result (IsStanding (aim_of cut.now) (setting_in V.content cut.now) (held_of held.entry)) }
        ensures counts { OnOk result (CountsOneMoreRow (aim_of cut.now) (setting_in V.content cut.now) self.old (held_of held.entry) self.new) }
        ensures error { OnErr result (self.new ≡ self.old) }
    {
        let standing = cut.standing(held)?;
        self.note(standing);
        Ok(standing)
    }
}
