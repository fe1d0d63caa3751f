//! How edits are written.

ghost use Rattle.std.specs.Prelude.{◌≡◌};
ghost use Rattle.clr_desk_edits.specs.Edits.{target_of};

use clr_rows::Place;
use clr_sql::{Dialect, Target};

/// How edits are written.
#[derive(Clone, Copy, Debug)]
pub enum EditsForm {
    /// As CSV.
    Records,
    /// As a transaction in SQL, for this database.
    Sql(Target),
}

/// Returns the database whose coordinates are of this system, if one is given.
pub(crate) fn database(dialect: Dialect, origin: Place, code: Option<u32>) -> Target
    ensures { result ≡ target_of dialect origin code }
{
    Target {
        dialect,
        system: code.unwrap_or(0),
        origin,
    }
}
