//! What a map shows, and how much of it there is room for.

ghost use Rattle.std.specs.Prelude.{◌≡◌, ◌&&◌, not, is_some};
ghost use Rattle.clr_map_scenes.specs.Designs.{is_among, leaders_of};

use crate::designs::Designs;
use crate::extents::{extent_of_cause, extent_of_changes, extent_of_everything};
use crate::fields::Field;
use crate::layouts::{view_of, world_of_cause, world_of_changes};
use crate::shown_causes::Cause;
use clr_change::ChangeSet;
use clr_drawing::{Area, Detail, Viewport};
use clr_rows::{Row, Sheet};
use clr_segments::Bounds;

/// What a map shows: the rows with their designs, the cause if there is one, the box of everything, the view, and how much detail there is
/// room for in the rows of the root, and in these and the changes together.
#[derive(Clone, Copy)]
pub struct MapScene<'a> {
    pub field: Field<'a>,
    pub cause: Option<&'a Cause>,
    pub whole: Bounds,
    pub view: Viewport,
    pub detail: Detail,
    pub changes: Detail,
}

/// The least height of a map with a cause or of many designs, in tenths of a pixel.
const HIGH: i64 = 5600;

/// How many designs are few.
const FEW: usize = 6;

/// Returns how many rows with a shape are seen.
fn seen_rows(rows: &Sheet, view: &Viewport) -> usize {
    let mut count = 0usize;
    for (_, row) in rows.iter() {
        if view.sees(&row.shape) {
            count = count.saturating_add(1);
        }
    }
    count
}

fn is_seen(view: &Viewport, row: Option<&Row>) -> bool {
    match row {
        Some(row) => view.sees(&row.shape),
        None => false,
    }
}

fn seen_in_set(set: &ChangeSet, view: &Viewport) -> usize {
    let mut count = 0usize;
    for (_, change) in set.iter() {
        if is_seen(view, change.before.as_ref()) || is_seen(view, change.after.as_ref()) {
            count = count.saturating_add(1);
        }
    }
    count
}

/// Returns how many changes are seen.
fn seen_changes(designs: &Designs<'_>, view: &Viewport) -> usize {
    let mut count = 0usize;
    for at in designs.order() {
        if let Some(set) = designs.changes(*at) {
            count = count.saturating_add(seen_in_set(set, view));
        }
    }
    count
}

/// Returns the view of a plan: of what is round a cause, or of the changes.
fn view_of_plan(
    designs: &Designs<'_>,
    cause: Option<&Cause>,
    whole: Bounds,
    changed: Option<Bounds>,
) -> Viewport {
    if let Some(cause) = cause {
        let extent = extent_of_cause(cause).unwrap_or(whole);
        return view_of(world_of_cause(whole, extent), HIGH);
    }
    let least = if designs.len() > FEW { HIGH } else { 0 };
    view_of(world_of_changes(whole, changed.unwrap_or(whole)), least)
}

impl<'a> MapScene<'a> {
    /// Returns the scene of a plan with this cause, if it has one: it shows what is round the cause, or else round the changes, and all where
    /// that isn't much more.
    pub fn new(field: Field<'a>, cause: Option<&'a Cause>) -> MapScene<'a> {
        let changed = extent_of_changes(field.designs);
        let whole = extent_of_everything(field.rows, changed);
        let view = view_of_plan(field.designs, cause, whole, changed);
        let rows = seen_rows(field.rows, &view);
        let all = rows.saturating_add(seen_changes(field.designs, &view));
        MapScene {
            field,
            cause,
            whole,
            view,
            detail: Detail::of(view.frame, rows),
            changes: Detail::of(view.frame, all),
        }
    }

    /// Returns the frame of the map.
    pub fn frame(&self) -> Area
        ensures { result ≡ self.now.view.frame }
    {
        self.view.frame
    }

    /// Returns whether there is a cause that doesn't name this design.
    pub fn is_aside(&self, at: usize) -> bool
        ensures { result ≡ (is_some self.now.cause && not (is_among (leaders_of self.now.field.designs.now) at)) }
    {
        self.cause.is_some() && !self.field.designs.leads(at)
    }
}
