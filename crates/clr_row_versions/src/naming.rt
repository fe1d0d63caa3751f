//! Versions whose life names a member.

ghost use Rattle.std.specs.Prelude.{◌≡◌, true, Contains, MatchOption};
ghost use Rattle.clr_needs.specs.Settings.{version};
ghost use Rattle.clr_needs.specs.declared.needs.VersionId.{VersionId as Id};
ghost use Rattle.clr_row_versions.specs.Naming.{names_at, names_by};
ghost use Rattle.clr_row_versions.specs.RootVersions.{setting_in};

use crate::lives::is_named;
use crate::root_versions::RootVersions;
use clr_needs::{Need, VersionId};
use clr_rows::RowView;

impl<V: RowView> RootVersions<'_, '_, V> {
    /// Tests whether there is a version of a name, and its life names a member.
    fn names_at(&self, id: VersionId, position: u16) -> bool
        ensures { result ≡ names_at position (version (setting_in V.content self.now) id) }
    {
        match self.version(id) {
            None => false,
            Some(version) => is_named(version.life, position),
        }
    }

    /// Returns the first of some versions whose life names a member.
    pub fn first_naming(&self, ids: &[VersionId], position: u16) -> Option<VersionId>
        ensures { MatchOption result ((v : Id) → Contains ids.now v → names_at position (version (setting_in V.content self.now) v) ≡ true → ⊥)
            (λ v. Contains ids.now v × (names_at position (version (setting_in V.content self.now) v) ≡ true)) }
    {
        for id in ids {
            if self.names_at(*id, position) {
                return Some(*id);
            }
        }
        None
    }

    /// Tests whether the life of a subject of a possible need names a member.
    pub fn has_named_subject(&self, need: &Need, position: u16) -> bool
        ensures { result ≡ names_by position (setting_in V.content self.now) need.now.first need.now.second }
    {
        match need.second {
            None => self.names_at(need.first, position),
            Some(second) => {
                self.names_at(need.first, position) || self.names_at(second, position)
            }
        }
    }
}
