//! Texts within a block.

ghost use Rattle.std.specs.Prelude.{◌≡◌, ◌++◌, OnOk};
ghost use Rattle.clr_html.specs.Texts.{between, named_text, text_text};

use clr_svg::{Colour, add_colour, add_escaped};
use std::alloc::AllocError;

/// A text in UTF-8, and how it looks.
#[derive(Drop)]
pub enum InlineText {
    Plain(Vec<u8>),
    /// In bold letters.
    Strong(Vec<u8>),
    /// In soft ink.
    Soft(Vec<u8>),
    /// In bold letters, behind a bar of a colour.
    Named(Colour, Vec<u8>),
}

/// Adds an escaped text between two marks.
#[tactic(auto, unfolding(crate::specs::Texts::between))]
pub(crate) fn add_between(
    page: &mut Vec<u8>,
    begin: &str,
    words: &[u8],
    end: &str,
) -> Result<(), AllocError>
    ensures { OnOk result (page.new.items ≡ page.old.items ++ between begin.now words.now end.now) }
{
    page.extend_from_slice(begin.as_bytes())?;
    add_escaped(page, words)?;
    page.extend_from_slice(end.as_bytes())
}

fn add_named(page: &mut Vec<u8>, colour: Colour, words: &[u8]) -> Result<(), AllocError>
    ensures { OnOk result (page.new.items ≡ page.old.items ++ named_text colour words.now) }
{
    page.extend_from_slice(b"<span class=\"ink\" style=\"background:")?;
    add_colour(page, colour)?;
    add_between(page, "\"></span><b>", words, "</b>")
}

/// Adds a text.
pub(crate) fn add_text(page: &mut Vec<u8>, text: &InlineText) -> Result<(), AllocError>
    ensures { OnOk result (page.new.items ≡ page.old.items ++ text_text text.now) }
{
    match text {
        InlineText::Plain(words) => add_escaped(page, words.as_slice()),
        InlineText::Strong(words) => add_between(page, "<b>", words.as_slice(), "</b>"),
        InlineText::Soft(words) => add_between(page, "<small>", words.as_slice(), "</small>"),
        InlineText::Named(colour, words) => add_named(page, *colour, words.as_slice()),
    }
}
