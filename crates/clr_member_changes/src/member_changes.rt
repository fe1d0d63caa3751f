//! A root and members, with what each of them changes.

ghost use Rattle.std.specs.Prelude.{◌≡◌, map};
ghost use Rattle.std.specs.Option.{option_copied};
ghost use Rattle.clr_needs.specs.Members.{after_of, positions};
ghost use Rattle.clr_needs.specs.Settings.{first_changer};
ghost use Rattle.clr_member_changes.specs.Names.{member_name as name_of_member};
ghost use Rattle.clr_member_changes.specs.Versions.{new_row_at, set_row, standing_of};

use crate::names::member_name;
use crate::standings::Standing;
use clr_change::ChangeSet;
use clr_needs::VersionId;
use clr_rows::{CellId, Row};

/// A root and members, with what each of them changes.
#[derive(Drop)]
pub struct MemberChanges<'a> {
    pub root: &'a str,
    pub names: &'a [&'a str],
    pub changes: Vec<ChangeSet>,
}

/// Returns the position of the first change set that changes a cell.
fn changer_among(sets: &[ChangeSet], cell: CellId) -> Option<usize>
    ensures { result ≡ first_changer (after_of sets.now) (positions sets.now) cell }
{
    for member in 0..sets.len() {
        if sets[member].get(cell).is_some() {
            return Some(member);
        }
    }
    None
}

impl MemberChanges<'_> {
    /// Returns the name of the member at a position, or an empty one past the end.
    pub fn name(&self, at: usize) -> &str
        ensures { result.now ≡ name_of_member (map (λ name. name.now) self.now.names.now) at }
    {
        member_name(self.names, at)
    }

    /// Returns the first member that changes a cell.
    pub fn changer_of(&self, cell: CellId) -> Option<usize>
        ensures { result ≡ first_changer (after_of self.now.changes.items) (positions self.now.changes.items) cell }
    {
        changer_among(self.changes.as_slice(), cell)
    }

    /// Returns the row that a member brings to a cell that it changes.
    pub fn row_after(&self, at: usize, cell: CellId) -> Option<&Row>
        ensures { option_copied result ≡ set_row (λ e. e.after) self.now.changes.items at cell }
    {
        let set = self.changes.get(at)?;
        let change = set.get(cell)?;
        change.after.as_ref()
    }

    /// Returns the row that a member took over at a cell that it changes.
    pub fn row_before(&self, at: usize, cell: CellId) -> Option<&Row>
        ensures { option_copied result ≡ set_row (λ e. e.before) self.now.changes.items at cell }
    {
        let set = self.changes.get(at)?;
        let change = set.get(cell)?;
        change.before.as_ref()
    }

    /// Returns where a version stands: in the root, where no member changes its cell; else in the first
    /// that does, or where that one has another row or none.
    pub fn standing(&self, version: VersionId) -> Standing
        ensures { result ≡ standing_of self.now.changes.items version }
    {
        match self.changer_of(version.cell) {
            None => Standing::Stays,
            Some(at) if version.fresh => Standing::New(at),
            Some(at) if self.row_after(at, version.cell).is_some() => Standing::Changed(at),
            Some(at) => Standing::Removed(at),
        }
    }

    /// Returns the row that the first member which changes a cell brings there.
    pub fn new_row(&self, cell: CellId) -> Option<&Row>
        ensures { option_copied result ≡ new_row_at self.now.changes.items cell }
    {
        match self.changer_of(cell) {
            Some(at) => self.row_after(at, cell),
            None => None,
        }
    }
}
