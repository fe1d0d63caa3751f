//! Versions that stand after the merge of the one member, and needs by their cells.

ghost use Rattle.std.specs.Prelude.{◌≡◌, ℕ, true, Contains, MatchOption, Option};
ghost use Rattle.clr_needs.specs.Broken.{are_living, broken_of, is_living_at};
ghost use Rattle.clr_needs.specs.Needs.{IsPossible};
ghost use Rattle.clr_needs.specs.Settings.{Lived, version};
ghost use Rattle.clr_needs.specs.declared.needs.VersionId.{VersionId as Id};
ghost use Rattle.clr_row_versions.specs.RootVersions.{setting_in};

use crate::lives::is_living;
use crate::root_versions::RootVersions;
use clr_needs::{Need, VersionId};
use clr_rows::RowView;
use clr_rules::Broken;

/// Returns a need by its cells.
pub fn broken_of(need: &Need) -> Broken
    ensures { result ≡ broken_of need.now }
{
    let second = match need.second {
        None => None,
        Some(second) => Some(second.cell),
    };
    Broken::new(need.ask(), need.first.cell, second)
}

impl<V: RowView> RootVersions<'_, '_, V> {
    /// Tests whether the version of a name stands after the merge.
    pub fn is_living_at(&self, id: VersionId) -> bool
        ensures { result ≡ is_living_at (version (setting_in V.content self.now) id) }
    {
        match self.version(id) {
            None => false,
            Some(version) => is_living(version.life),
        }
    }

    /// Tests whether the subjects of a possible need stand after the merge.
    pub fn are_living(&self, need: &Need) -> bool
        ensures { (a : Lived ℕ) (b : Option (Lived ℕ)) → IsPossible (setting_in V.content self.now) need.now a b → result ≡ are_living a b }
    {
        match need.second {
            None => self.is_living_at(need.first),
            Some(second) => self.is_living_at(need.first) && self.is_living_at(second),
        }
    }

    /// Returns the first of some versions that stands after the merge.
    pub fn first_living(&self, ids: &[VersionId]) -> Option<VersionId>
        ensures { MatchOption result ((v : Id) → Contains ids.now v → is_living_at (version (setting_in V.content self.now) v) ≡ true → ⊥)
            (λ v. Contains ids.now v × (is_living_at (version (setting_in V.content self.now) v) ≡ true)) }
    {
        for id in ids {
            if self.is_living_at(*id) {
                return Some(*id);
            }
        }
        None
    }
}
