//! Boxes round what a map shows.

use crate::designs::Designs;
use crate::shown_causes::{Cause, CauseRow, Mark};
use clr_change::ChangeSet;
use clr_drawing::{extent_of, join_boxes};
use clr_rows::{Place, Row, Shape, Sheet};
use clr_segments::Bounds;

/// Returns the box of some rows.
fn extent_of_rows(rows: &Sheet) -> Option<Bounds> {
    let mut extent = None;
    for (_, row) in rows.iter() {
        extent = extent_of(extent, &row.shape);
    }
    extent
}

/// Returns the least box that holds a box and a row, if there are these.
pub fn extent_with_row(extent: Option<Bounds>, row: Option<&Row>) -> Option<Bounds> {
    match row {
        Some(row) => extent_of(extent, &row.shape),
        None => extent,
    }
}

/// Returns the least box that holds a box, if there is one, and what a design changes.
fn extent_of_set(extent: Option<Bounds>, set: &ChangeSet) -> Option<Bounds> {
    let mut extent = extent;
    for (_, change) in set.iter() {
        extent = extent_with_row(extent, change.before.as_ref());
        extent = extent_with_row(extent, change.after.as_ref());
    }
    extent
}

/// Returns the box of what designs change, before and after.
pub(crate) fn extent_of_changes(designs: &Designs<'_>) -> Option<Bounds> {
    let mut extent = None;
    for at in designs.order() {
        if let Some(set) = designs.changes(*at) {
            extent = extent_of_set(extent, set);
        }
    }
    extent
}

/// Returns the least box that holds a box, if there is one, and these rows.
fn extent_of_cause_rows(extent: Option<Bounds>, rows: &[CauseRow]) -> Option<Bounds> {
    let mut extent = extent;
    for row in rows {
        extent = extent_of(extent, &row.row.shape);
    }
    extent
}

/// Returns the box of what a cause is about.
pub(crate) fn extent_of_cause(cause: &Cause) -> Option<Bounds> {
    let extent = extent_of_cause_rows(None, cause.rows.as_slice());
    let extent = extent_of_cause_rows(extent, cause.goers.as_slice());
    match cause.mark {
        Mark::Ring(ring) => extent_of(extent, &Shape::At(ring.place)),
        _ => extent,
    }
}

/// Returns the box of a world in which nothing stands.
fn nowhere() -> Bounds {
    Bounds {
        least: Place { x: 0, y: 0 },
        most: Place { x: 1000, y: 1000 },
    }
}

/// Returns the box of rows and of what is changed of them.
pub(crate) fn extent_of_everything(rows: &Sheet, changed: Option<Bounds>) -> Bounds {
    match (extent_of_rows(rows), changed) {
        (extent, Some(bounds)) => join_boxes(extent, bounds),
        (Some(bounds), None) => bounds,
        (None, None) => nowhere(),
    }
}
