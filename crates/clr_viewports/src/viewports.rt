//! Which part of the world a picture shows, and where on the page it stands.

ghost use Rattle.std.specs.Prelude.{◌≡◌, ◌↔◌, IsTrue};
ghost use Rattle.clr_viewports.specs.Extents.{height_of_box, width_of_box};
ghost use Rattle.clr_viewports.specs.Viewports.{Sees, area_on, fitting_height, fitting_width, high_for, length_on, scaled_by_ratio, side, spot_on};
ghost use Rattle.clr_viewports.specs.Viewports.{view_of, view_width};
ghost use Rattle.clr_viewports.specs.Viewports.{wide_for};

use crate::areas::Area;
use crate::extents::{box_about, height_of_box, length_between, width_of_box};
use clr_rows::{Place, Shape};
use clr_segments::{Bounds, box_of_shape, boxes_touch};
use clr_svg::{PagePoint, Pixels};

/// A part of the world, in millimetres with y upwards, and the frame of the page that shows it.
#[derive(Clone, Copy)]
pub struct Viewport {
    pub world: Bounds,
    pub frame: Area,
}

/// Returns a number in the ratio of a part to a whole, or 0 where the whole is nothing.
#[tactic(auto, unfolding(crate::specs::Viewports::scaled_by_ratio))]
fn scaled_by_ratio(number: i64, part: i64, of: i64) -> i64
    ensures { result ≡ scaled_by_ratio number part of }
{
    if of <= 0 {
        return 0;
    }
    number.saturating_mul(part) / of
}

/// Returns a length, and at least 1.
#[tactic(auto, unfolding(crate::specs::Viewports::side))]
fn side(length: i64) -> i64
    ensures { result ≡ side length }
{
    length.max(1)
}

/// Returns how wide a box is, and at least 1.
fn wide_side(bounds: Bounds) -> i64
    ensures { result ≡ side (width_of_box bounds) }
{
    side(width_of_box(bounds))
}

/// Returns how high a box is, and at least 1.
fn high_side(bounds: Bounds) -> i64
    ensures { result ≡ side (height_of_box bounds) }
{
    side(height_of_box(bounds))
}

/// Returns how wide a box of this height would be that has the proportions of a frame.
#[tactic(auto, unfolding(crate::specs::Viewports::fitting_width))]
fn fitting_width(bounds: Bounds, frame: Area) -> i64
    ensures { result ≡ fitting_width bounds frame }
{
    let (width, height) = (frame.width(), frame.height());
    scaled_by_ratio(high_side(bounds), width.tenths, height.tenths)
}

/// Returns how high a box of this width would be that has the proportions of a frame.
#[tactic(auto, unfolding(crate::specs::Viewports::fitting_height))]
fn fitting_height(bounds: Bounds, frame: Area) -> i64
    ensures { result ≡ fitting_height bounds frame }
{
    let (width, height) = (frame.width(), frame.height());
    scaled_by_ratio(wide_side(bounds), height.tenths, width.tenths)
}

/// Returns how wide a box is made that has the proportions of a frame.
#[tactic(auto, unfolding(crate::specs::Viewports::wide_for))]
fn wide_for(bounds: Bounds, frame: Area) -> i64
    ensures { result ≡ wide_for bounds frame }
{
    wide_side(bounds).max(fitting_width(bounds, frame))
}

/// Returns how high it is made.
#[tactic(auto, unfolding(crate::specs::Viewports::high_for))]
fn high_for(bounds: Bounds, frame: Area) -> i64
    ensures { result ≡ high_for bounds frame }
{
    high_side(bounds).max(fitting_height(bounds, frame))
}

impl Viewport {
    /// Returns the view of a box in a frame: the box is made higher or wider round its middle until both have the same proportions.
    #[tactic(auto, unfolding(crate::specs::Viewports::view_of))]
    pub fn new(bounds: Bounds, frame: Area) -> Viewport
        ensures { result ≡ view_of bounds frame }
    {
        Viewport {
            world: box_about(bounds, wide_for(bounds, frame), high_for(bounds, frame)),
            frame,
        }
    }

    /// Returns how wide the part of the world is, in millimetres.
    pub fn width(&self) -> i64
        ensures { result ≡ view_width self.now }
    {
        width_of_box(self.world)
    }

    /// Returns how long a length of the world is on the page; it is given in millimetres.
    #[tactic(auto, unfolding(crate::specs::Viewports::length_on))]
    pub fn length(&self, millimetres: i64) -> Pixels
        ensures { result ≡ length_on self.now millimetres }
    {
        Pixels::of_tenths(scaled_by_ratio(millimetres, self.frame.width().tenths, self.width()))
    }

    /// Returns where a place stands on the page.
    #[tactic(auto, unfolding(crate::specs::Viewports::spot_on))]
    pub fn spot(&self, place: Place) -> PagePoint
        ensures { result ≡ spot_on self.now place }
    {
        PagePoint {
            x: self.frame.left + self.length(length_between(self.world.least.x, place.x)),
            y: self.frame.bottom - self.length(length_between(self.world.least.y, place.y)),
        }
    }

    /// Returns the area of the page on which a box of the world stands.
    #[tactic(auto, unfolding(crate::specs::Viewports::area_on))]
    pub fn area(&self, bounds: Bounds) -> Area
        ensures { result ≡ area_on self.now bounds }
    {
        let low = self.spot(bounds.least);
        let high = self.spot(bounds.most);
        Area {
            left: low.x,
            top: high.y,
            right: high.x,
            bottom: low.y,
        }
    }

    /// Returns whether the box of a shape touches the part of the world that is seen.
    pub fn sees(&self, shape: &Shape) -> bool
        ensures { IsTrue result ↔ Sees self.now shape.now }
    {
        match box_of_shape(shape) {
            Some(bounds) => boxes_touch(bounds, self.world),
            None => false,
        }
    }
}
