//! Which part of the world a small map shows, and where it stands on its page.

use clr_change::ChangeSet;
use clr_drawing::{Area, Viewport, grow_box};
use clr_map_scenes::{LEFT, extent_with_row};
use clr_rows::Place;
use clr_segments::Bounds;
use clr_svg::Pixels;

/// The top of the map.
const TOP: Pixels = Pixels { tenths: 140 };

/// The width of the map.
const WIDTH: Pixels = Pixels { tenths: 5600 };

/// The least and the greatest height of the map, in tenths of a pixel.
const HEIGHTS: (i64, i64) = (1800, 4200);

/// How many percent of the changes' box the map shows, and how many millimetres at least.
const ROUND: (i64, i64) = (160, 12000);

/// Returns the least box that holds a box, if there is one, and what a design changes, before and after.
fn extent_with_set(extent: Option<Bounds>, set: &ChangeSet) -> Option<Bounds> {
    let mut extent = extent;
    for (_, change) in set.iter() {
        extent = extent_with_row(extent, change.before.as_ref());
        extent = extent_with_row(extent, change.after.as_ref());
    }
    extent
}

/// Returns the box of what designs change, or a square metre where this has none.
fn extent_of_sets(sets: &[ChangeSet]) -> Bounds {
    let mut extent = None;
    for set in sets {
        extent = extent_with_set(extent, set);
    }
    match extent {
        Some(bounds) => bounds,
        None => Bounds {
            least: Place { x: 0, y: 0 },
            most: Place { x: 1000, y: 1000 },
        },
    }
}

/// Returns how high the map of a part of the world is.
fn height_of(world: Bounds) -> i64 {
    let width = world.most.x.saturating_sub(world.least.x).max(1);
    let height = world.most.y.saturating_sub(world.least.y).max(1);
    let wanted = WIDTH.tenths.saturating_mul(height);
    let wanted = wanted.checked_div(width).unwrap_or(0);
    wanted.max(HEIGHTS.0).min(HEIGHTS.1)
}

/// Returns the view of what is round the changes of designs.
pub(crate) fn view_of_sets(sets: &[ChangeSet]) -> Viewport {
    let world = grow_box(extent_of_sets(sets), ROUND.0, ROUND.1);
    let frame = Area {
        left: LEFT,
        top: TOP,
        right: LEFT + WIDTH,
        bottom: TOP + Pixels::of_tenths(height_of(world)),
    };
    Viewport::new(world, frame)
}
