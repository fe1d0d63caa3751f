//! Conflicts: changed cells where the parent has another row than the base.

ghost use Rattle.std.specs.Prelude.{◌≡◌};
ghost use Rattle.clr_rows.specs.Contents.{conflicts, least_and_count};

use crate::change_sets::{ChangeSet, are_same};
use clr_rows::{CellId, RowView};

/// Returns the least changed cell where the parent's row isn't the row before the change, and the
/// number of such cells. Returns none where there is no such cell. It takes no memory.
/// For example, where the only change gives main 1 the code `W` in place of `A`, and main 1 has the code `L` in the
/// parent, it returns main 1 and 1. So it does where the parent's main 1 has the code `W` too: two equal changes are
/// in conflict.
pub fn first_conflict<V: RowView>(changes: &ChangeSet, parent: &V) -> Option<(CellId, usize)>
    ensures { result ≡ least_and_count (conflicts (V.content parent.now) changes.now) }
{
    let mut first = None;
    for (cell, change) in changes.iter() {
        if !are_same(parent.row(*cell), change.before.as_ref()) {
            first = match first {
                None => Some((*cell, 1)),
                Some((least, count)) => Some((least, count + 1)),
            };
        }
    }
    first
}
