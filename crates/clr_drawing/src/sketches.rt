//! Elements in the order in which they are drawn.

ghost use Rattle.std.specs.Prelude.{◌≡◌, ◌++◌, ◌∷◌, [], Some, None, IfOk, OnOk};
ghost use Rattle.clr_svg.specs.declared.elements.Element.TheVariants.{Circle};
ghost use Rattle.clr_drawing.specs.Sketches.{Draws, DrawsPath, DrawsWords, IsPath, IsWords, line_steps, rectangle_of, window_of};

use clr_svg::{
    Anchor, Colour, Element, Ink, Label, Layer, PagePoint, PathCommand, Pixels, Weight, Window,
};
use clr_viewports::Area;
use std::alloc::{AllocError, Global};

/// Elements in the order in which they are drawn.
#[derive(Drop)]
pub struct Sketch {
    alloc: Global,
    elements: Vec<Element>,
}

/// Returns a line of text that says these words.
fn label_of(
    alloc: Global,
    words: &str,
    at: PagePoint,
    size: Pixels,
    colour: Colour,
    anchor: Anchor,
    weight: Weight,
) -> Result<Label, AllocError>
    ensures { IfOk result (IsWords words.now at size colour anchor weight) }
{
    let words = String::from_str(alloc, words)?;
    Ok(Label {
        at,
        anchor,
        size,
        weight,
        colour,
        words,
    })
}

impl Sketch {
    /// Returns a sketch of nothing.
    pub fn new(alloc: Global) -> Sketch
        ensures { result.elements.items ≡ [] }
    {
        Sketch {
            alloc,
            elements: Vec::new(alloc),
        }
    }

    /// Returns where the sketch takes its memory.
    pub fn allocator(&self) -> Global
        ensures { result ≡ self.now.alloc }
    {
        self.alloc
    }

    /// Draws an element.
    pub fn add(&mut self, element: Element) -> Result<(), AllocError>
        ensures { OnOk result (self.new.elements.items ≡ self.old.elements.items ++ element ∷ []) }
    {
        self.elements.push(element)?;
        Ok(())
    }

    /// Draws a path, unless it has no steps.
    pub fn add_path(&mut self, steps: Vec<PathCommand>, ink: Ink) -> Result<(), AllocError>
        ensures { OnOk result (DrawsPath steps.items ink self.old.elements.items self.new.elements.items) }
    {
        if steps.is_empty() {
            return Ok(());
        }
        self.add(Element::Path { steps, ink })
    }

    /// Draws a line from one spot to another.
    pub fn add_line(&mut self, from: PagePoint, to: PagePoint, ink: Ink) -> Result<(), AllocError>
        ensures { OnOk result (Draws (IsPath (line_steps from to) ink) self.old.elements.items self.new.elements.items) }
    {
        let mut steps = Vec::with_capacity(self.alloc, 2)?;
        steps.push(PathCommand::Begin(from))?;
        steps.push(PathCommand::Line(to))?;
        self.add(Element::Path { steps, ink })
    }

    /// Draws a circle.
    pub fn add_circle(
        &mut self,
        middle: PagePoint,
        radius: Pixels,
        ink: Ink,
    ) -> Result<(), AllocError>
        ensures { OnOk result (self.new.elements.items ≡ self.old.elements.items ++ Circle middle radius ink ∷ []) }
    {
        self.add(Element::Circle {
            middle,
            radius,
            ink,
        })
    }

    /// Draws an area with round corners.
    pub fn add_area(&mut self, area: Area, radius: Pixels, ink: Ink) -> Result<(), AllocError>
        ensures { OnOk result (self.new.elements.items ≡ self.old.elements.items ++ rectangle_of area radius ink ∷ []) }
    {
        self.add(Element::Rectangle {
            corner: area.corner(),
            width: area.width(),
            height: area.height(),
            radius,
            ink,
        })
    }

    /// Writes a line of text.
    pub fn add_words(
        &mut self,
        words: &str,
        at: PagePoint,
        size: Pixels,
        colour: Colour,
        anchor: Anchor,
        weight: Weight,
    ) -> Result<(), AllocError>
        ensures { OnOk result (DrawsWords (IsWords words.now at size colour anchor weight) self.old.elements.items self.new.elements.items) }
    {
        let label = label_of(self.alloc, words, at, size, colour, anchor, weight)?;
        self.add(Element::Words(label))?;
        Ok(())
    }

    /// Returns the elements as a layer that is seen whole.
    pub fn into_layer(self) -> Layer
        ensures { result ≡ record { window = None; elements = self.elements } }
    {
        Layer {
            window: None,
            elements: self.elements,
        }
    }

    /// Returns the elements as a layer of which an area is seen.
    pub fn into_layer_within(self, area: Area) -> Layer
        ensures { result ≡ record { window = Some (window_of area); elements = self.elements } }
    {
        Layer {
            window: Some(Window {
                corner: area.corner(),
                width: area.width(),
                height: area.height(),
            }),
            elements: self.elements,
        }
    }
}
