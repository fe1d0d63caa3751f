//! Whether changes stand somewhere.

ghost use Rattle.std.specs.Prelude.{◌≡◌};
ghost use Rattle.std.specs.FinMap as finite;
ghost use Rattle.std.specs.List.{list_any};
ghost use Rattle.std.specs.Option.{option_copied};
ghost use Rattle.clr_small_maps.specs.SmallMaps.{changes_somewhere, is_any_somewhere, is_somewhere, set_is_somewhere, stands_somewhere};

use clr_change::ChangeSet;
use clr_rows::{Change, Row, Shape};

/// Returns whether a shape stands somewhere.
fn is_somewhere(shape: &Shape) -> bool
    ensures { result ≡ is_somewhere shape.now }
{
    match shape {
        Shape::Bare => false,
        Shape::At(_) | Shape::Line(_, _) | Shape::Chain(_) => true,
    }
}

/// Returns whether there is a row, and it stands somewhere.
fn stands_somewhere(row: Option<&Row>) -> bool
    ensures { result ≡ stands_somewhere (option_copied row.entry) }
{
    match row {
        Some(row) => is_somewhere(&row.shape),
        None => false,
    }
}

/// Returns whether a row that is added, changed or removed stands somewhere.
fn changes_somewhere(change: &Change) -> bool
    ensures { result ≡ changes_somewhere change.now }
{
    stands_somewhere(change.before.as_ref()) || stands_somewhere(change.after.as_ref())
}

/// Returns whether one of the rows that a design changes stands somewhere.
fn set_is_somewhere(set: &ChangeSet) -> bool
    ensures { result ≡ set_is_somewhere set.now }
{
    for (_, change) in set.iter() {
        if changes_somewhere(change) {
            return true;
        }
    }
    false
}

/// Returns whether one of the rows that designs change stands somewhere.
pub(crate) fn is_any_somewhere(sets: &[ChangeSet]) -> bool
    ensures { result ≡ is_any_somewhere sets.now }
{
    sets.iter().any(|set| set_is_somewhere(set))
}
