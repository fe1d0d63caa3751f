//! Rectangles of a page.

ghost use Rattle.std.specs.Prelude.{◌≡◌, int_le, int_lt};
ghost use Rattle.clr_viewports.specs.Areas.{area_around, corner_of, grown_area, has_spot, height_of, holds, joined_area, middle_spot, nearest_spot};
ghost use Rattle.clr_viewports.specs.Areas.{greater_length, lesser_length, overlaps, width_of};

use clr_svg::{PagePoint, Pixels};

/// A rectangle of a page, by the distances of its sides from the left edge and from the top.
#[derive(Clone, Copy)]
pub struct Area {
    pub left: Pixels,
    pub top: Pixels,
    pub right: Pixels,
    pub bottom: Pixels,
}

impl Area {
    /// Returns the area of this size round a spot.
    pub fn around(middle: PagePoint, width: Pixels, height: Pixels) -> Area
        ensures { result ≡ area_around middle width height }
    {
        let left = middle.x - width.half();
        let top = middle.y - height.half();
        Area {
            left,
            top,
            right: left + width,
            bottom: top + height,
        }
    }

    /// Returns the area that goes farther by a length at each side.
    pub fn grow(self, by: Pixels) -> Area
        ensures { result ≡ grown_area self by }
    {
        Area {
            left: self.left - by,
            top: self.top - by,
            right: self.right + by,
            bottom: self.bottom + by,
        }
    }

    /// Returns the least area that holds this one and another.
    pub fn join(self, other: Area) -> Area
        ensures { result ≡ joined_area self other }
    {
        Area {
            left: lesser_length(self.left, other.left),
            top: lesser_length(self.top, other.top),
            right: greater_length(self.right, other.right),
            bottom: greater_length(self.bottom, other.bottom),
        }
    }

    /// Returns the width of the area.
    pub fn width(self) -> Pixels
        ensures { result ≡ width_of self }
    {
        self.right - self.left
    }

    /// Returns the height of the area.
    pub fn height(self) -> Pixels
        ensures { result ≡ height_of self }
    {
        self.bottom - self.top
    }

    /// Returns the upper left corner.
    pub fn corner(self) -> PagePoint
        ensures { result ≡ corner_of self }
    {
        PagePoint {
            x: self.left,
            y: self.top,
        }
    }

    /// Returns the middle of the area.
    pub fn middle(self) -> PagePoint
        ensures { result ≡ middle_spot self }
    {
        PagePoint {
            x: self.left + self.width().half(),
            y: self.top + self.height().half(),
        }
    }

    /// Returns the spot of the area that is nearest to another spot.
    pub fn nearest(self, spot: PagePoint) -> PagePoint
        ensures { result ≡ nearest_spot self spot }
    {
        PagePoint {
            x: greater_length(self.left, lesser_length(spot.x, self.right)),
            y: greater_length(self.top, lesser_length(spot.y, self.bottom)),
        }
    }

    /// Returns whether both areas have a point within them, their edges aside.
    #[tactic(auto, unfolding(crate::specs::Areas::overlaps))]
    pub fn overlaps(self, other: Area) -> bool
        ensures { result ≡ overlaps self other }
    {
        is_less(self.left, other.right)
            && is_less(other.left, self.right)
            && is_less(self.top, other.bottom)
            && is_less(other.top, self.bottom)
    }

    /// Returns whether another area is within this one, edges included.
    #[tactic(auto, unfolding(crate::specs::Areas::holds))]
    pub fn holds(self, other: Area) -> bool
        ensures { result ≡ holds self other }
    {
        is_at_most(self.left, other.left)
            && is_at_most(other.right, self.right)
            && is_at_most(self.top, other.top)
            && is_at_most(other.bottom, self.bottom)
    }

    /// Returns whether a spot is in the area, edges included.
    #[tactic(auto, unfolding(crate::specs::Areas::has_spot))]
    pub fn has(self, spot: PagePoint) -> bool
        ensures { result ≡ has_spot self spot }
    {
        is_at_most(self.left, spot.x)
            && is_at_most(spot.x, self.right)
            && is_at_most(self.top, spot.y)
            && is_at_most(spot.y, self.bottom)
    }
}

fn is_less(a: Pixels, b: Pixels) -> bool
    ensures { result ≡ int_lt a.tenths b.tenths }
{
    a.tenths < b.tenths
}

fn is_at_most(a: Pixels, b: Pixels) -> bool
    ensures { result ≡ int_le a.tenths b.tenths }
{
    a.tenths <= b.tenths
}

fn lesser_length(a: Pixels, b: Pixels) -> Pixels
    ensures { result ≡ lesser_length a b }
{
    Pixels::of_tenths(a.tenths.min(b.tenths))
}

fn greater_length(a: Pixels, b: Pixels) -> Pixels
    ensures { result ≡ greater_length a b }
{
    Pixels::of_tenths(a.tenths.max(b.tenths))
}
