//! How elements are filled and drawn.

ghost use Rattle.std.specs.Prelude.{◌≡◌, ◌++◌, OnOk};
ghost use Rattle.clr_svg.specs.Inks.{dash_text, dashed_ink, drawn_ink, drawn_text, fill_text, filled_ink, ink_over, ink_text, stroke_text};

use crate::colours::Colour;
use crate::numbers::{add_length, add_lengths, add_tint, add_word};
use crate::pixels::Pixels;
use std::alloc::AllocError;

/// Dashes of one length with gaps of another.
#[derive(Clone, Copy)]
pub struct Dash {
    pub dash: Pixels,
    pub gap: Pixels,
}

/// How a line is drawn: its colour, its width and its dashes.
#[derive(Clone, Copy)]
pub struct Stroke {
    pub colour: Colour,
    pub width: Pixels,
    pub dash: Option<Dash>,
}

/// How an element is filled, if it is, and how its outline is drawn, if it is.
#[derive(Clone, Copy)]
pub struct Ink {
    pub fill: Option<Colour>,
    pub stroke: Option<Stroke>,
}

impl Ink {
    /// Returns an ink that fills and draws no outline.
    pub fn of_area(colour: Colour) -> Ink
        ensures { result ≡ filled_ink colour }
    {
        Ink {
            fill: Some(colour),
            stroke: None,
        }
    }

    /// Returns an ink that draws a full line of this width and fills nothing.
    pub fn of_line(colour: Colour, width: Pixels) -> Ink
        ensures { result ≡ drawn_ink colour width }
    {
        Ink {
            fill: None,
            stroke: Some(Stroke {
                colour,
                width,
                dash: None,
            }),
        }
    }

    /// Returns this ink with its line drawn in dashes, if it draws one.
    pub fn with_dashes(self, dash: Pixels, gap: Pixels) -> Ink
        ensures { result ≡ dashed_ink self dash gap }
    {
        Ink {
            fill: self.fill,
            stroke: match self.stroke {
                Some(stroke) => Some(Stroke {
                    colour: stroke.colour,
                    width: stroke.width,
                    dash: Some(Dash { dash, gap }),
                }),
                None => None,
            },
        }
    }

    /// Returns this ink, filling with a colour.
    pub fn over(self, colour: Colour) -> Ink
        ensures { result ≡ ink_over self colour }
    {
        Ink {
            fill: Some(colour),
            stroke: self.stroke,
        }
    }
}

/// Adds how an element is filled.
pub(crate) fn add_fill(text: &mut Vec<u8>, fill: Option<Colour>) -> Result<(), AllocError>
    ensures { OnOk result (text.new.items ≡ text.old.items ++ fill_text fill) }
{
    match fill {
        Some(colour) => add_tint(text, "fill", colour),
        None => add_word(text, "fill", "none"),
    }
}

fn add_dash(text: &mut Vec<u8>, dash: Option<Dash>) -> Result<(), AllocError>
    ensures { OnOk result (text.new.items ≡ text.old.items ++ dash_text dash) }
{
    match dash {
        Some(dash) => {
            add_word(text, "stroke-linecap", "butt")?;
            add_lengths(text, "stroke-dasharray", dash.dash, dash.gap)
        }
        None => Ok(()),
    }
}

#[tactic(auto, unfolding(crate::specs::Inks::drawn_text))]
fn add_drawn(text: &mut Vec<u8>, stroke: Stroke) -> Result<(), AllocError>
    ensures { OnOk result (text.new.items ≡ text.old.items ++ drawn_text stroke) }
{
    add_tint(text, "stroke", stroke.colour)?;
    add_length(text, "stroke-width", stroke.width)?;
    add_dash(text, stroke.dash)
}

fn add_stroke(text: &mut Vec<u8>, stroke: Option<Stroke>) -> Result<(), AllocError>
    ensures { OnOk result (text.new.items ≡ text.old.items ++ stroke_text stroke) }
{
    match stroke {
        Some(stroke) => add_drawn(text, stroke),
        None => Ok(()),
    }
}

/// Adds how an element is filled and drawn.
#[tactic(auto, unfolding(crate::specs::Inks::ink_text))]
pub(crate) fn add_ink(text: &mut Vec<u8>, ink: &Ink) -> Result<(), AllocError>
    ensures { OnOk result (text.new.items ≡ text.old.items ++ ink_text ink.now) }
{
    add_fill(text, ink.fill)?;
    add_stroke(text, ink.stroke)
}
