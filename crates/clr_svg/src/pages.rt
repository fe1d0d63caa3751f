//! Pages, and how they are written.

ghost use Rattle.std.specs.Prelude.{◌≡◌, ◌++◌, codes, IfOk, OnOk};
ghost use Rattle.clr_svg.specs.Numbers.{attribute};
ghost use Rattle.clr_svg.specs.Pages.{box_text, description_text, elements_text, ends_text, head_text, elements_of_layer};
ghost use Rattle.clr_svg.specs.Pages.{layers_text, letters_text, namespace_text, opening_text, page_size_text};
ghost use Rattle.clr_svg.specs.Pages.{page_text, size_text, title_text, whole_text, window_text};

use crate::elements::{Element, PagePoint, add_element};
use crate::escapes::add_escaped;
use crate::numbers::{add_length, add_pair, add_word};
use crate::pixels::Pixels;
use std::alloc::{AllocError, Global};

/// A rectangle of a page, by its upper left corner, beyond which nothing of a layer is seen.
#[derive(Clone, Copy)]
pub struct Window {
    pub corner: PagePoint,
    pub width: Pixels,
    pub height: Pixels,
}

/// Elements of a page, the later ones over the earlier ones, seen whole or through a window.
#[derive(Drop)]
pub struct Layer {
    pub window: Option<Window>,
    pub elements: Vec<Element>,
}

/// A page: its size, its title and its description in UTF-8, and its layers, the later ones over the earlier ones.
#[derive(Drop)]
pub struct SvgPage {
    pub width: Pixels,
    pub height: Pixels,
    pub title: Vec<u8>,
    pub description: Vec<u8>,
    pub layers: Vec<Layer>,
}

fn add_elements(text: &mut Vec<u8>, elements: &[Element]) -> Result<(), AllocError>
    ensures { OnOk result (text.new.items ≡ text.old.items ++ elements_text elements.now) }
{
    for element in elements {
        add_element(text, element)?;
    }
    Ok(())
}

#[tactic(auto, unfolding(crate::specs::Pages::box_text))]
fn add_box(
    text: &mut Vec<u8>,
    corner: PagePoint,
    width: Pixels,
    height: Pixels,
) -> Result<(), AllocError>
    ensures { OnOk result (text.new.items ≡ text.old.items ++ box_text corner width height) }
{
    add_pair(text, corner.x, corner.y)?;
    text.extend_from_slice(b" ")?;
    add_pair(text, width, height)
}

/// Adds the attribute that says which rectangle is shown.
#[tactic(auto, unfolding(crate::specs::Numbers::attribute))]
fn add_view(
    text: &mut Vec<u8>,
    corner: PagePoint,
    width: Pixels,
    height: Pixels,
) -> Result<(), AllocError>
    ensures { OnOk result (text.new.items ≡ text.old.items ++ attribute (codes "viewBox") (box_text corner width height)) }
{
    text.extend_from_slice(b" viewBox=\"")?;
    add_box(text, corner, width, height)?;
    text.extend_from_slice(b"\"")
}

/// Adds a size, and the rectangle of this size at a spot as what is shown.
#[tactic(auto, unfolding(crate::specs::Pages::size_text))]
fn add_size(
    text: &mut Vec<u8>,
    corner: PagePoint,
    width: Pixels,
    height: Pixels,
) -> Result<(), AllocError>
    ensures { OnOk result (text.new.items ≡ text.old.items ++ size_text corner width height) }
{
    add_length(text, "width", width)?;
    add_length(text, "height", height)?;
    add_view(text, corner, width, height)
}

fn add_window(text: &mut Vec<u8>, window: &Window, elements: &[Element]) -> Result<(), AllocError>
    ensures { OnOk result (text.new.items ≡ text.old.items ++ window_text window.now elements.now) }
{
    text.extend_from_slice(b"<svg")?;
    add_length(text, "x", window.corner.x)?;
    add_length(text, "y", window.corner.y)?;
    add_size(text, window.corner, window.width, window.height)?;
    text.extend_from_slice(b">\n")?;
    add_elements(text, elements)?;
    text.extend_from_slice(b"</svg>\n")
}

fn add_layer(text: &mut Vec<u8>, layer: &Layer) -> Result<(), AllocError>
    ensures { OnOk result (text.new.items ≡ text.old.items ++ elements_of_layer layer.now) }
{
    match &layer.window {
        Some(window) => add_window(text, window, layer.elements.as_slice()),
        None => add_elements(text, layer.elements.as_slice()),
    }
}

fn add_layers(text: &mut Vec<u8>, layers: &[Layer]) -> Result<(), AllocError>
    ensures { OnOk result (text.new.items ≡ text.old.items ++ layers_text layers.now) }
{
    for layer in layers {
        add_layer(text, layer)?;
    }
    Ok(())
}

/// Adds how lines end where an element says nothing else.
#[tactic(auto, unfolding(crate::specs::Pages::ends_text))]
fn add_ends(text: &mut Vec<u8>) -> Result<(), AllocError>
    ensures { OnOk result (text.new.items ≡ text.old.items ++ ends_text) }
{
    add_word(text, "stroke-linecap", "round")?;
    add_word(text, "stroke-linejoin", "round")
}

/// Adds which letters are taken: the first of these that are there.
#[tactic(auto, unfolding(crate::specs::Pages::letters_text))]
fn add_letters(text: &mut Vec<u8>) -> Result<(), AllocError>
    ensures { OnOk result (text.new.items ≡ text.old.items ++ letters_text) }
{
    add_word(
        text,
        "font-family",
        "Inter, Segoe UI, Arial, DejaVu Sans, sans-serif",
    )
}

/// Adds the title of a page.
#[tactic(auto, unfolding(crate::specs::Pages::title_text))]
fn add_title(text: &mut Vec<u8>, page: &SvgPage) -> Result<(), AllocError>
    ensures { OnOk result (text.new.items ≡ text.old.items ++ title_text page.now) }
{
    text.extend_from_slice(b"<title>")?;
    add_escaped(text, page.title.as_slice())?;
    text.extend_from_slice(b"</title>\n")
}

/// Adds the description of a page.
#[tactic(auto, unfolding(crate::specs::Pages::description_text))]
fn add_description(text: &mut Vec<u8>, page: &SvgPage) -> Result<(), AllocError>
    ensures { OnOk result (text.new.items ≡ text.old.items ++ description_text page.now) }
{
    text.extend_from_slice(b"<desc>")?;
    add_escaped(text, page.description.as_slice())?;
    text.extend_from_slice(b"</desc>\n")
}

#[tactic(auto, unfolding(crate::specs::Pages::whole_text))]
fn add_whole(text: &mut Vec<u8>, width: Pixels, height: Pixels) -> Result<(), AllocError>
    ensures { OnOk result (text.new.items ≡ text.old.items ++ whole_text width height) }
{
    text.extend_from_slice(b"0 0 ")?;
    add_pair(text, width, height)
}

/// Adds the attribute that says that all of a page of this size is shown.
#[tactic(auto, unfolding(crate::specs::Numbers::attribute))]
fn add_whole_view(text: &mut Vec<u8>, width: Pixels, height: Pixels) -> Result<(), AllocError>
    ensures { OnOk result (text.new.items ≡ text.old.items ++ attribute (codes "viewBox") (whole_text width height)) }
{
    text.extend_from_slice(b" viewBox=\"")?;
    add_whole(text, width, height)?;
    text.extend_from_slice(b"\"")
}

/// Adds the size of a page, all of which is shown.
#[tactic(auto, unfolding(crate::specs::Pages::page_size_text))]
fn add_page_size(text: &mut Vec<u8>, width: Pixels, height: Pixels) -> Result<(), AllocError>
    ensures { OnOk result (text.new.items ≡ text.old.items ++ page_size_text width height) }
{
    add_length(text, "width", width)?;
    add_length(text, "height", height)?;
    add_whole_view(text, width, height)
}

/// Adds what the elements are named by.
#[tactic(auto, unfolding(crate::specs::Pages::namespace_text))]
fn add_namespace(text: &mut Vec<u8>) -> Result<(), AllocError>
    ensures { OnOk result (text.new.items ≡ text.old.items ++ namespace_text) }
{
    add_word(text, "xmlns", "http://www.w3.org/2000/svg")
}

/// Adds the beginning of the one element that a page is.
#[tactic(auto, unfolding(crate::specs::Pages::opening_text))]
fn add_opening(text: &mut Vec<u8>, width: Pixels, height: Pixels) -> Result<(), AllocError>
    ensures { OnOk result (text.new.items ≡ text.old.items ++ opening_text width height) }
{
    text.extend_from_slice(b"<svg")?;
    add_namespace(text)?;
    add_page_size(text, width, height)?;
    add_ends(text)?;
    add_letters(text)?;
    text.extend_from_slice(b">\n")
}

/// Adds what stands before the layers of a page.
#[tactic(auto, unfolding(crate::specs::Pages::head_text))]
fn add_head(text: &mut Vec<u8>, page: &SvgPage) -> Result<(), AllocError>
    ensures { OnOk result (text.new.items ≡ text.old.items ++ head_text page.now) }
{
    add_opening(text, page.width, page.height)?;
    add_title(text, page)?;
    add_description(text, page)
}

/// Returns the text of a page, which is SVG 1.1.
#[tactic(auto, unfolding(crate::specs::Pages::page_text))]
pub fn write_page(alloc: Global, page: &SvgPage) -> Result<Vec<u8>, AllocError>
    ensures written { IfOk result (λ text. text.items ≡ page_text page.now) }
{
    let mut text = Vec::new(alloc);
    add_head(&mut text, page)?;
    add_layers(&mut text, page.layers.as_slice())?;
    text.extend_from_slice(b"</svg>\n")?;
    Ok(text)
}
