//! Labels: words on a small ground, with a line to the spot that they stand for.

use clr_drawing::{ALARM, Area, Labels, PAPER, Placed, Sketch, words_width};
use clr_svg::{Anchor, Colour, Ink, PagePoint, Pixels, Weight};
use std::alloc::AllocError;

/// How far a label keeps from others.
const MARGIN: Pixels = Pixels { tenths: 30 };

/// How a label looks: its colour, the size of its letters, and whether it is filled with its colour.
#[derive(Clone, Copy)]
pub(crate) struct Look {
    colour: Colour,
    size: Pixels,
    is_filled: bool,
    /// How far from the spot that it stands for its leader ends.
    reach: Pixels,
}

impl Look {
    /// Returns the look of what fails.
    pub(crate) fn alarm(reach: Pixels) -> Look {
        Look {
            colour: ALARM,
            size: Pixels::whole(15),
            is_filled: true,
            reach,
        }
    }

    /// Returns the look of a row.
    pub(crate) fn row(colour: Colour) -> Look {
        Look {
            colour,
            size: Pixels::whole(13),
            is_filled: false,
            reach: Pixels::whole(3),
        }
    }

    /// Returns how wide a label of these words is. Strong letters are about as wide as plain ones that are two pixels
    /// higher.
    fn width(self, words: &str) -> Pixels {
        words_width(words, self.size + Pixels::whole(2)) + self.size + Pixels::whole(8)
    }

    /// Returns how high a label is.
    fn height(self) -> Pixels {
        self.size + Pixels::whole(if self.is_filled { 15 } else { 11 })
    }
}

/// Returns how far two spots are apart, along the axis in which they are farther.
pub(crate) fn distance(from: PagePoint, to: PagePoint) -> i64 {
    let across = (to.x - from.x).tenths.saturating_abs();
    across.max((to.y - from.y).tenths.saturating_abs())
}

/// Returns the spot that is this far from one spot on the way to another.
fn spot_towards(from: PagePoint, to: PagePoint, reach: Pixels) -> PagePoint {
    let whole = distance(from, to);
    let x = (to.x - from.x).tenths.saturating_mul(reach.tenths);
    let y = (to.y - from.y).tenths.saturating_mul(reach.tenths);
    PagePoint {
        x: from.x + Pixels::of_tenths(x.checked_div(whole).unwrap_or(0)),
        y: from.y + Pixels::of_tenths(y.checked_div(whole).unwrap_or(0)),
    }
}

/// Draws the line from a label to the spot that it stands for, unless the label stands there.
fn add_leader(
    sketch: &mut Sketch,
    area: Area,
    anchor: PagePoint,
    look: Look,
) -> Result<(), AllocError> {
    let start = area.grow(Pixels::whole(-4)).nearest(anchor);
    if distance(start, anchor) <= (look.reach + Pixels::whole(6)).tenths {
        return Ok(());
    }
    let end = spot_towards(anchor, start, look.reach);
    let width = Pixels::of_tenths(if look.is_filled { 22 } else { 13 });
    sketch.add_line(start, end, Ink::of_line(look.colour, width))
}

/// Draws a label.
fn add_chip(
    sketch: &mut Sketch,
    placed: &Placed,
    words: &str,
    look: Look,
) -> Result<(), AllocError> {
    let area = placed.area.grow(Pixels::ZERO - MARGIN);
    add_leader(sketch, area, placed.anchor, look)?;
    let (ground, ink) = if look.is_filled {
        (look.colour, PAPER)
    } else {
        (PAPER, look.colour)
    };
    let outline = Ink::of_line(look.colour, Pixels::of_tenths(14)).over(ground);
    sketch.add_area(area, Pixels::whole(5), outline)?;
    let middle = area.middle();
    let at = PagePoint {
        x: middle.x,
        y: middle.y + Pixels::of_tenths(look.size.tenths.saturating_mul(36) / 100),
    };
    sketch.add_words(words, at, look.size, ink, Anchor::Middle, Weight::Strong)
}

/// Finds a place for a label near one of these spots, takes it, and draws the label there; where there is none, it draws nothing.
pub(crate) fn add_label(
    sketch: &mut Sketch,
    labels: &mut Labels,
    anchors: &[PagePoint],
    words: &str,
    look: Look,
    gap: Pixels,
) -> Result<(), AllocError> {
    let width = look.width(words) + MARGIN * 2;
    let height = look.height() + MARGIN * 2;
    match labels.put(anchors, width, height, gap)? {
        Some(placed) => add_chip(sketch, &placed, words, look),
        None => Ok(()),
    }
}
