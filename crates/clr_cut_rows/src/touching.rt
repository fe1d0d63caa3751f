//! Which versions of a cut may touch needs of a rule.

ghost use Rattle.std.specs.Prelude.{◌≡◌, ◌<◌, ℕ, IsTrue, ◌↔◌, length};
ghost use Rattle.clr_rows.specs.Held.{Held as OneRow, held_of};
ghost use Rattle.clr_finders.specs.Sharing.{may_serve_under};
ghost use Rattle.clr_needs.specs.Independence.{Names};
ghost use Rattle.clr_needs.specs.Members.{lifetime};
ghost use Rattle.clr_needs.specs.Needs.{IsChanged};
ghost use Rattle.clr_row_versions.specs.Versions.{row_and_life, version_of};
ghost use Rattle.clr_reach.specs.Found.{IsNear, IsTouching, MayTouch};
ghost use Rattle.clr_cut_rows.specs.Searches.{AreNearCells, HasAmong, HasAt, setting_in};

use crate::cut_rows::CutRows;
use crate::near::NearCells;
use clr_finders::{RowFinder, may_serve};
use clr_needs::Life;
use clr_reach::Aim;
use clr_row_versions::{Version, may_be_paired};
use clr_rows::{CellId, Held, RowView};
use clr_rules::RuleBook;

/// Tests whether a member takes a version of this life away.
fn is_taken_away(life: Life) -> bool
    ensures { IsTrue result ↔ (IsChanged (lifetime life)) }
{
    match life {
        Life::Always | Life::With(_) => false,
        Life::Without(_) => true,
    }
}

/// Tests whether a version of this life is one of a member.
fn is_of_member(life: Life) -> bool
    ensures { IsTrue result ↔ ((x : ℕ) × Names (lifetime life) x) }
{
    match life {
        Life::Always => false,
        Life::With(_) | Life::Without(_) => true,
    }
}

/// Tests whether a row is of the side that serves under the rule of a number.
#[tactic(auto, unfolding(clr_finders::specs::Sharing::may_serve_under))]
pub(crate) fn may_serve_under(book: &RuleBook, rule: u16, held: Held) -> bool
    requires { rule < length book.now }
    ensures { result ≡ may_serve_under book.now rule (held_of held.entry) }
{
    may_serve(book.rule(rule), held)
}

/// Tests whether a version touches the needs of which it is a subject.
pub(crate) fn is_touching(aim: Aim, version: Version) -> bool
    ensures { IsTrue result ↔ (IsTouching aim version.entry.id (row_and_life version.entry)) }
{
    match aim {
        Aim::Plans => version.id.fresh,
        Aim::Groups => is_of_member(version.life),
    }
}

/// Tests whether a version may touch needs of a rule.
fn may_touch(aim: Aim, book: &RuleBook, rule: u16, version: Version) -> bool
    requires { rule < length book.now }
    ensures { IsTrue result ↔ (MayTouch aim book.now rule version.entry.id (row_and_life version.entry)) }
{
    let pairs = may_be_paired(book, rule, version);
    let serves = may_serve_under(book, rule, version.as_held());
    match aim {
        Aim::Plans => (version.id.fresh && pairs) || (is_taken_away(version.life) && serves),
        Aim::Groups => is_of_member(version.life) && (pairs || serves),
    }
}

impl<V: RowView, F: RowFinder> CutRows<'_, V, F> {
    /// Tests whether there is an old version of a cell, or a new one, that may touch needs of a rule.
    fn may_touch_at(&self, fresh: bool, rule: u16, cell: CellId) -> bool
        requires number { rule < length self.now.book.now }
        ensures { IsTrue result ↔ (HasAt (MayTouch self.now.aim self.now.book.now rule) (setting_in V.content self.now) (version_of fresh cell)) }
    {
        match self.version(fresh, cell) {
            None => false,
            Some(version) => may_touch(self.aim, self.book, rule, version),
        }
    }

    /// Tests whether the old version of one of some cells, or the new one, may touch needs of a rule.
    fn any_may_touch(&self, fresh: bool, rule: u16, cells: &[CellId]) -> bool
        requires number { rule < length self.now.book.now }
        ensures { IsTrue result ↔ (HasAmong (MayTouch self.now.aim self.now.book.now rule) (setting_in V.content self.now) fresh cells.now) }
    {
        for cell in cells {
            if self.may_touch_at(fresh, rule, *cell) {
                return true;
            }
        }
        false
    }

    /// Tests whether a version that may touch needs of a rule shares with a row, by the cells near it.
    pub(crate) fn is_near_touching(&self, rule: u16, near: &NearCells) -> bool
        requires number { rule < length self.now.book.now }
        ensures { (s : OneRow) → AreNearCells (setting_in V.content self.now) rule s near.now
            → IsTrue result ↔ (IsNear (MayTouch self.now.aim self.now.book.now rule) (setting_in V.content self.now) rule s) }
    {
        let old = self.any_may_touch(false, rule, near.old.as_slice());
        let new = self.any_may_touch(true, rule, near.new.as_slice());
        old || new
    }
}
