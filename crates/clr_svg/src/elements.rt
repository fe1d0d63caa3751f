//! The elements of a page.

ghost use Rattle.std.specs.Prelude.{◌≡◌, ◌++◌, codes, OnOk};
ghost use Rattle.clr_svg.specs.Elements.{anchor_word, circle_text, element_text, label_attributes, label_text, path_text, rectangle_text};
ghost use Rattle.clr_svg.specs.Elements.{step_text, steps_text, weight_word};
ghost use Rattle.clr_svg.specs.Numbers.{attribute};

use crate::colours::Colour;
use crate::escapes::add_escaped;
use crate::inks::{Ink, add_fill, add_ink};
use crate::numbers::{add_length, add_pair, add_word};
use crate::pixels::Pixels;
use std::alloc::AllocError;

/// A point of a page: its distance from the left edge and from the top.
#[derive(Clone, Copy, PartialEq, Eq)]
pub struct PagePoint {
    pub x: Pixels,
    pub y: Pixels,
}

/// A step of a path.
#[derive(Clone, Copy)]
pub enum PathCommand {
    /// A new figure begins at this spot.
    Begin(PagePoint),
    /// A straight line leads to this spot.
    Line(PagePoint),
    /// A straight line leads back to where the figure began.
    Close,
}

/// Which part of a label stands at its spot.
#[derive(Clone, Copy)]
pub enum Anchor {
    Start,
    Middle,
    End,
}

/// How bold a label is.
#[derive(Clone, Copy)]
pub enum Weight {
    Plain,
    Strong,
}

/// A line of text, in UTF-8.
#[derive(Drop)]
pub struct Label {
    pub at: PagePoint,
    pub anchor: Anchor,
    pub size: Pixels,
    pub weight: Weight,
    pub colour: Colour,
    pub words: String,
}

/// An element of a page.
#[derive(Drop)]
pub enum Element {
    Path {
        steps: Vec<PathCommand>,
        ink: Ink,
    },
    Circle {
        middle: PagePoint,
        radius: Pixels,
        ink: Ink,
    },
    /// A rectangle by its upper left corner, with corners of this radius.
    Rectangle {
        corner: PagePoint,
        width: Pixels,
        height: Pixels,
        radius: Pixels,
        ink: Ink,
    },
    Words(Label),
}

fn add_step(text: &mut Vec<u8>, step: PathCommand) -> Result<(), AllocError>
    ensures { OnOk result (text.new.items ≡ text.old.items ++ step_text step) }
{
    match step {
        PathCommand::Begin(spot) => {
            text.extend_from_slice(b"M")?;
            add_pair(text, spot.x, spot.y)
        }
        PathCommand::Line(spot) => {
            text.extend_from_slice(b"L")?;
            add_pair(text, spot.x, spot.y)
        }
        PathCommand::Close => text.extend_from_slice(b"Z"),
    }
}

#[tactic(auto, unfolding(crate::specs::Elements::steps_text))]
fn add_steps(text: &mut Vec<u8>, steps: &[PathCommand]) -> Result<(), AllocError>
    ensures { OnOk result (text.new.items ≡ text.old.items ++ steps_text steps.now) }
{
    for step in steps {
        add_step(text, *step)?;
    }
    Ok(())
}

/// Adds the attribute of steps.
#[tactic(auto, unfolding(crate::specs::Numbers::attribute))]
fn add_route(text: &mut Vec<u8>, steps: &[PathCommand]) -> Result<(), AllocError>
    ensures { OnOk result (text.new.items ≡ text.old.items ++ attribute (codes "d") (steps_text steps.now)) }
{
    text.extend_from_slice(b" d=\"")?;
    add_steps(text, steps)?;
    text.extend_from_slice(b"\"")
}

fn add_path(text: &mut Vec<u8>, steps: &[PathCommand], ink: &Ink) -> Result<(), AllocError>
    ensures { OnOk result (text.new.items ≡ text.old.items ++ path_text steps.now ink.now) }
{
    text.extend_from_slice(b"<path")?;
    add_route(text, steps)?;
    add_ink(text, ink)?;
    text.extend_from_slice(b"/>\n")
}

fn add_circle(
    text: &mut Vec<u8>,
    middle: PagePoint,
    radius: Pixels,
    ink: &Ink,
) -> Result<(), AllocError>
    ensures { OnOk result (text.new.items ≡ text.old.items ++ circle_text middle radius ink.now) }
{
    text.extend_from_slice(b"<circle")?;
    add_length(text, "cx", middle.x)?;
    add_length(text, "cy", middle.y)?;
    add_length(text, "r", radius)?;
    add_ink(text, ink)?;
    text.extend_from_slice(b"/>\n")
}

fn add_rectangle(
    text: &mut Vec<u8>,
    corner: PagePoint,
    width: Pixels,
    height: Pixels,
    radius: Pixels,
    ink: &Ink,
) -> Result<(), AllocError>
    ensures { OnOk result (text.new.items ≡ text.old.items ++ rectangle_text corner width height radius ink.now) }
{
    text.extend_from_slice(b"<rect")?;
    add_length(text, "x", corner.x)?;
    add_length(text, "y", corner.y)?;
    add_length(text, "width", width)?;
    add_length(text, "height", height)?;
    add_length(text, "rx", radius)?;
    add_ink(text, ink)?;
    text.extend_from_slice(b"/>\n")
}

#[tactic(auto, unfolding(crate::specs::Elements::anchor_word))]
fn add_anchor(text: &mut Vec<u8>, anchor: Anchor) -> Result<(), AllocError>
    ensures { OnOk result (text.new.items ≡ text.old.items ++ attribute (codes "text-anchor") (anchor_word anchor)) }
{
    match anchor {
        Anchor::Start => add_word(text, "text-anchor", "start"),
        Anchor::Middle => add_word(text, "text-anchor", "middle"),
        Anchor::End => add_word(text, "text-anchor", "end"),
    }
}

#[tactic(auto, unfolding(crate::specs::Elements::weight_word))]
fn add_weight(text: &mut Vec<u8>, weight: Weight) -> Result<(), AllocError>
    ensures { OnOk result (text.new.items ≡ text.old.items ++ attribute (codes "font-weight") (weight_word weight)) }
{
    match weight {
        Weight::Plain => add_word(text, "font-weight", "400"),
        Weight::Strong => add_word(text, "font-weight", "600"),
    }
}

#[tactic(auto, unfolding(crate::specs::Elements::label_attributes))]
fn add_label_attributes(text: &mut Vec<u8>, label: &Label) -> Result<(), AllocError>
    ensures { OnOk result (text.new.items ≡ text.old.items ++ label_attributes label.now) }
{
    add_length(text, "x", label.at.x)?;
    add_length(text, "y", label.at.y)?;
    add_length(text, "font-size", label.size)?;
    add_weight(text, label.weight)?;
    add_anchor(text, label.anchor)?;
    add_fill(text, Some(label.colour))
}

fn add_label(text: &mut Vec<u8>, label: &Label) -> Result<(), AllocError>
    ensures { OnOk result (text.new.items ≡ text.old.items ++ label_text label.now) }
{
    text.extend_from_slice(b"<text")?;
    add_label_attributes(text, label)?;
    text.extend_from_slice(b">")?;
    add_escaped(text, label.words.as_bytes())?;
    text.extend_from_slice(b"</text>\n")
}

/// Adds an element.
pub(crate) fn add_element(text: &mut Vec<u8>, element: &Element) -> Result<(), AllocError>
    ensures { OnOk result (text.new.items ≡ text.old.items ++ element_text element.now) }
{
    match element {
        Element::Path { steps, ink } => add_path(text, steps.as_slice(), ink),
        Element::Circle {
            middle,
            radius,
            ink,
        } => add_circle(text, *middle, *radius, ink),
        Element::Rectangle {
            corner,
            width,
            height,
            radius,
            ink,
        } => add_rectangle(text, *corner, *width, *height, *radius, ink),
        Element::Words(label) => add_label(text, label),
    }
}
