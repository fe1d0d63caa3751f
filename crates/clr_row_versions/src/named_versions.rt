//! Versions by their names.

ghost use Rattle.std.specs.Prelude.{◌≡◌, false, Some, None, MatchOption};
ghost use Rattle.std.specs.Option.{option_copied};
ghost use Rattle.clr_needs.specs.Settings.{old_version, version};
ghost use Rattle.clr_row_versions.specs.RootVersions.{setting_in};
ghost use Rattle.clr_row_versions.specs.Versions.{IsNamed, row_and_life, version_of};

use crate::root_versions::RootVersions;
use crate::versions::Version;
use clr_needs::{Life, VersionId};
use clr_rows::{CellId, Row, RowView};

/// Returns the old version of a cell, if the root has the row.
fn old_version(cell: CellId, row: Option<&Row>, changer: Option<u16>) -> Option<Version<'_>>
    ensures { MatchOption result (option_copied row.entry ≡ None)
        (λ v. (v.id ≡ version_of false cell) × (old_version changer (option_copied row.entry) ≡ Some (row_and_life v))) }
{
    let row = row?;
    let life = match changer {
        None => Life::Always,
        Some(position) => Life::Without(position),
    };
    Some(Version {
        id: VersionId { cell, fresh: false },
        row,
        life,
    })
}

impl<'s, 'a, V: RowView> RootVersions<'s, 'a, V> {
    /// Returns the version of a name, if there is one.
    #[tactic(auto, unfolding(clr_needs::specs::Settings::version))]
    pub fn version(&self, id: VersionId) -> Option<Version<'s>>
        ensures { MatchOption result (version (setting_in V.content self.now) id ≡ None) (IsNamed (setting_in V.content self.now) id) }
    {
        if id.fresh {
            self.members.new_version(id.cell)
        } else {
            old_version(
                id.cell,
                self.root.row(id.cell),
                self.members.changer(id.cell),
            )
        }
    }
}
