//! Whether a row belongs to a cut, and what the cut says of it.

ghost use Rattle.std.specs.Prelude.{◌≡◌, ◌<◌, ◌∷◌, [], IsTrue, ◌↔◌, length, None, IfOk};
ghost use Rattle.clr_rows.specs.Held.{held_of};
ghost use Rattle.clr_rules.specs.Books.{FitTogether};
ghost use Rattle.clr_foot.specs.Scenes.{IsReady};
ghost use Rattle.clr_reach.specs.Found.{IsFound, IsFoundUnder};
ghost use Rattle.clr_cut_rows.specs.Searches.{aim_of, model_of, setting_in};
ghost use Rattle.clr_cut_rows.specs.Standings.{Belongs, IsStanding};

use crate::cut_rows::CutRows;
use crate::standings::Standing;
use crate::touching::may_serve_under;
use clr_finders::RowFinder;
use clr_rows::{Held, RowView};
use std::alloc::AllocError;

impl<V: RowView, F: RowFinder> CutRows<'_, V, F> {
    /// Tests whether a row is found under a rule.
    fn finds_under(&self, rule: u16, held: Held) -> Result<bool, AllocError>
        requires number { rule < length self.now.book.now }
        requires fit { FitTogether self.now.book.now (held_of held ∷ []) }
        requires ready { IsReady F.settled (model_of V.content self.now) }
        ensures { IfOk result (λ yes. IsTrue yes ↔ (IsFoundUnder self.now.aim (setting_in V.content self.now) rule (held_of held.entry))) }
    {
        let near = self.cells_near(rule, held)?;
        if self.is_near_touching(rule, &near) {
            return Ok(true);
        }
        if !may_serve_under(self.book, rule, held) {
            return Ok(false);
        }
        let touched = self.is_near_touched(rule, &near)?;
        Ok(touched)
    }

    /// Tests whether a row is found by its spots from the versions of the cut: under some rule it shares
    /// with one that may touch needs, or it is of the side that serves and shares with one that may be
    /// touched.
    fn finds(&self, held: Held) -> Result<bool, AllocError>
        requires fit { FitTogether self.now.book.now (held_of held ∷ []) }
        requires ready { IsReady F.settled (model_of V.content self.now) }
        ensures { IfOk result (λ yes. IsTrue yes ↔ (IsFound self.now.aim (setting_in V.content self.now) (held_of held.entry))) }
    {
        for rule in 0..self.book.len() {
            if self.finds_under(rule as u16, held)? {
                return Ok(true);
            }
        }
        Ok(false)
    }

    /// Tests whether a row belongs to the cut: a member changes its cell, or it is found.
    fn belongs(&self, held: Held) -> Result<bool, AllocError>
        requires fit { FitTogether self.now.book.now (held_of held ∷ []) }
        requires ready { IsReady F.settled (model_of V.content self.now) }
        ensures { IfOk result (λ yes. IsTrue yes ↔ (Belongs self.now.aim (setting_in V.content self.now) (held_of held.entry))) }
    {
        if self.members.changer(held.cell).is_some() {
            return Ok(true);
        }
        let found = self.finds(held)?;
        Ok(found)
    }

    /// Returns what the cut says of a row at a cell where it has none.
    fn missing_standing(&self, held: Held) -> Result<Standing, AllocError>
        requires fit { FitTogether self.now.book.now (held_of held ∷ []) }
        requires ready { IsReady F.settled (model_of V.content self.now) }
        requires none { (setting_in V.content self.now).root held.cell ≡ None }
        ensures { IfOk result (IsStanding self.now.aim (setting_in V.content self.now) (held_of held.entry)) }
    {
        if self.belongs(held)? {
            Ok(Standing::Lacks)
        } else {
            Ok(Standing::Beyond)
        }
    }

    /// Returns what the cut says of a row of the whole root: that it has it, that it has another row at
    /// its cell, that it lacks it, or that it is beyond the cut. The row fits a schema that the book
    /// fits. Fails only if memory runs out.
    /// For example, where mains may cross only at nodes and a design lays a new main, a cut without other
    /// rows lacks each main of the root that has a square of the new one, and each node there. A hydrant
    /// there is beyond it.
    pub fn standing(&self, held: Held) -> Result<Standing, AllocError>
        requires fit { FitTogether self.now.book.now (held_of held ∷ []) }
        requires ready { IsReady F.settled (model_of V.content self.now) }
        ensures { IfOk result (IsStanding (aim_of self.now) (setting_in V.content self.now) (held_of held.entry)) }
    {
        match self.root.row(held.cell) {
            Some(row) if row.same(held.row) => Ok(Standing::Has),
            Some(_) => Ok(Standing::HasOther),
            None => self.missing_standing(held),
        }
    }
}
