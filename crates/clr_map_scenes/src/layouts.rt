//! Where things stand on the page.

use clr_drawing::{Area, Viewport, grow_box, longer_side};
use clr_segments::Bounds;
use clr_svg::Pixels;

/// The width of the page.
pub const PAGE_WIDTH: Pixels = Pixels { tenths: 12400 };

/// The left side of the map, and of what stands above it.
pub const LEFT: Pixels = Pixels { tenths: 280 };

/// The top of the map.
pub const TOP: Pixels = Pixels { tenths: 1040 };

/// The right side of the map.
pub const RIGHT: Pixels = Pixels { tenths: 8800 };

/// The left side of what stands beside the map.
pub const BESIDE: Pixels = Pixels { tenths: 9060 };

/// The right side of what stands beside the map.
pub const EDGE: Pixels = Pixels { tenths: 12120 };

/// The room below the map.
pub const FOOT: Pixels = Pixels { tenths: 400 };

/// The least and the greatest height of the map, in tenths of a pixel.
const HEIGHTS: (i64, i64) = (4300, 6760);

/// Returns the view of a box on the page, where the map is at least this high, in tenths of a pixel.
pub(crate) fn view_of(world: Bounds, least: i64) -> Viewport {
    let width = world.most.x.saturating_sub(world.least.x).max(1);
    let height = world.most.y.saturating_sub(world.least.y).max(1);
    let wanted = (RIGHT - LEFT).tenths.saturating_mul(height);
    let wanted = wanted.checked_div(width).unwrap_or(0);
    let height = wanted.max(least).max(HEIGHTS.0).min(HEIGHTS.1);
    let frame = Area {
        left: LEFT,
        top: TOP,
        right: RIGHT,
        bottom: TOP + Pixels::of_tenths(height),
    };
    Viewport::new(world, frame)
}

/// Returns the part of the world that a map round a cause shows: all of it where that isn't much more, and otherwise what is round
/// the cause.
pub(crate) fn world_of_cause(whole: Bounds, cause: Bounds) -> Bounds {
    let side = longer_side(cause).max(1);
    if longer_side(whole) <= side.saturating_mul(6) {
        grow_box(whole, 116, 4000)
    } else {
        grow_box(cause, 200, 12000)
    }
}

/// Returns the part of the world that a map of changes shows: all of it where that isn't much more, and otherwise what is round the
/// changes.
pub(crate) fn world_of_changes(whole: Bounds, changes: Bounds) -> Bounds {
    let side = longer_side(changes).max(1);
    if longer_side(whole).saturating_mul(10) < side.saturating_mul(16) {
        grow_box(whole, 108, 4000)
    } else {
        grow_box(changes, 112, 12000)
    }
}
