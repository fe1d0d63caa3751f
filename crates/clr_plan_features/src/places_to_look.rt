//! Where a cause is to be looked for.

ghost use Rattle.std.specs.Prelude.{◌≡◌};
ghost use Rattle.clr_plan_features.specs.CausePlaces.{middle_of_first, place_to_look};

use crate::cause_features::place_of_mark;
use clr_drawing::middle_of;
use clr_map_scenes::{Cause, CauseRow};
use clr_rows::Place;

/// Returns the middle of the first of some rows, if it has one.
fn middle_of_first(rows: &[CauseRow]) -> Option<Place>
    ensures { result ≡ middle_of_first rows.now }
{
    match rows.first() {
        Some(first) => middle_of(&first.row.shape),
        None => None,
    }
}

/// Returns where a cause is to be looked for: the place that a map marks, or else the middle of its first row, if that has one.
pub fn place_to_look(cause: &Cause) -> Option<Place>
    ensures { result ≡ place_to_look cause.now }
{
    let rows = cause.rows.as_slice();
    match place_of_mark(cause.mark, rows) {
        Some(place) => Some(place),
        None => middle_of_first(rows),
    }
}
