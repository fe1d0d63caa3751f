//! Versions with their rows and lives.

ghost use Rattle.std.specs.Prelude.{◌≡◌, option_map};
ghost use Rattle.clr_rows.specs.Held.{held_of};
ghost use Rattle.clr_row_versions.specs.Versions.{row_of};

use clr_needs::{Life, VersionId};
use clr_rows::{Held, Row};

/// A version with its row and life.
#[derive(Clone, Copy, Debug)]
pub struct Version<'a> {
    pub id: VersionId,
    pub row: &'a Row,
    pub life: Life,
}

impl<'a> Version<'a> {
    /// Returns the row at its cell.
    pub fn as_held(self) -> Held<'a>
        ensures { held_of result ≡ row_of self.entry }
    {
        Held {
            cell: self.id.cell,
            row: self.row,
        }
    }
}

/// Returns the row of a version, if there is one.
pub fn held_if_any(version: Option<Version>) -> Option<Held>
    ensures { option_map held_of result ≡ option_map row_of version.entry }
{
    match version {
        None => None,
        Some(version) => Some(version.as_held()),
    }
}
