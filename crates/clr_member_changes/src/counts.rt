//! How many rows a change set adds, changes and removes.

ghost use Rattle.std.specs.Prelude.{◌≡◌, count_by};
ghost use Rattle.std.specs.FinMap as finite;
ghost use Rattle.clr_member_changes.specs.Counts.{counts_of, is_row_change};

use clr_change::ChangeSet;
use clr_rows::Change;

/// How many rows a change set adds, changes and removes.
#[derive(Clone, Copy)]
pub struct Counts {
    pub added: usize,
    pub changed: usize,
    pub removed: usize,
}

/// What a change does with a row.
#[derive(Clone, Copy)]
enum RowChange {
    Adds,
    Changes,
    Removes,
}

/// Returns whether a change does this with a row.
fn is_row_change(kind: RowChange, change: &Change) -> bool
    ensures { result ≡ is_row_change kind change.now }
{
    match (kind, &change.before, &change.after) {
        (RowChange::Adds, None, _) => true,
        (RowChange::Changes, Some(_), Some(_)) => true,
        (RowChange::Removes, Some(_), None) => true,
        _ => false,
    }
}

/// Counts the changes of a set that do this with a row.
fn count_of(kind: RowChange, set: &ChangeSet) -> usize
    ensures { result ≡ count_by (λ e. is_row_change kind e.1) (finite.entries set.now) }
{
    let mut count = 0usize;
    for (_, change) in set.iter() {
        if is_row_change(kind, change) {
            count = count.saturating_add(1);
        }
    }
    count
}

/// Counts the rows that a change set adds, changes and removes.
pub fn count_rows(set: &ChangeSet) -> Counts
    ensures { result ≡ counts_of set.now }
{
    Counts {
        added: count_of(RowChange::Adds, set),
        changed: count_of(RowChange::Changes, set),
        removed: count_of(RowChange::Removes, set),
    }
}
