//! The blocks of a page.

ghost use Rattle.std.specs.Prelude.{◌≡◌, ◌++◌, codes, OnOk};
ghost use Rattle.clr_html.specs.Blocks.{block_text, folded_lines_text, html_verdict_text, points_text, tone_mark};

use crate::tables::{Fold, Table, add_each_framed, add_fold, add_framed, add_table};
use crate::texts::{InlineText, add_between};
use std::alloc::AllocError;

/// Whether a verdict is welcome.
#[derive(Clone, Copy)]
pub enum Tone {
    Good,
    Bad,
    Neither,
}

/// A block of a page. Each text is in UTF-8.
#[derive(Drop)]
pub enum Block {
    /// The head of a page: a verdict, and what it is about.
    Verdict {
        tone: Tone,
        word: Vec<u8>,
        about: Vec<u8>,
    },
    Heading(Vec<u8>),
    Paragraph(InlineText),
    /// Points of a list.
    Points(Vec<InlineText>),
    Table(Table),
    /// A table that is folded.
    Fold(Fold),
    /// Lines that stand as they are.
    Lines(Vec<u8>),
    /// Lines that are folded behind a few words.
    FoldedLines {
        words: Vec<u8>,
        lines: Vec<u8>,
    },
    /// The text of a page of vector graphics, which goes out as it is.
    Picture(Vec<u8>),
}

fn tone_mark(tone: Tone) -> &'static str
    ensures { result.now ≡ tone_mark tone }
{
    match tone {
        Tone::Good => "<h1><b class=\"good\">",
        Tone::Bad => "<h1><b class=\"bad\">",
        Tone::Neither => "<h1><b>",
    }
}

fn add_verdict(page: &mut Vec<u8>, tone: Tone, word: &[u8], about: &[u8]) -> Result<(), AllocError>
    ensures { OnOk result (page.new.items ≡ page.old.items ++ html_verdict_text tone word.now about.now) }
{
    add_between(page, tone_mark(tone), word, "</b>")?;
    add_between(page, " <small>", about, "</small></h1>\n")
}

fn add_points(page: &mut Vec<u8>, points: &[InlineText]) -> Result<(), AllocError>
    ensures { OnOk result (page.new.items ≡ page.old.items ++ points_text points.now) }
{
    page.extend_from_slice(b"<ul>\n")?;
    add_each_framed(page, "<li>", points, "</li>\n")?;
    page.extend_from_slice(b"</ul>\n")
}

fn add_folded_lines(page: &mut Vec<u8>, words: &[u8], lines: &[u8]) -> Result<(), AllocError>
    ensures { OnOk result (page.new.items ≡ page.old.items ++ folded_lines_text words.now lines.now) }
{
    add_between(page, "<details>\n<summary>", words, "</summary>\n")?;
    add_between(page, "<pre>\n", lines, "</pre>\n</details>\n")
}

/// Adds a block.
#[tactic(auto, unfolding(crate::specs::Blocks::block_text))]
pub(crate) fn add_block(page: &mut Vec<u8>, block: &Block) -> Result<(), AllocError>
    ensures { OnOk result (page.new.items ≡ page.old.items ++ block_text block.now) }
{
    match block {
        Block::Verdict { tone, word, about } => {
            add_verdict(page, *tone, word.as_slice(), about.as_slice())
        }
        Block::Heading(words) => add_between(page, "<h2>", words.as_slice(), "</h2>\n"),
        Block::Paragraph(text) => add_framed(page, "<p>", text, "</p>\n"),
        Block::Points(points) => add_points(page, points.as_slice()),
        Block::Table(table) => add_table(page, table),
        Block::Fold(fold) => add_fold(page, fold),
        Block::Lines(lines) => add_between(page, "<pre>\n", lines.as_slice(), "</pre>\n"),
        Block::FoldedLines { words, lines } => {
            add_folded_lines(page, words.as_slice(), lines.as_slice())
        }
        Block::Picture(picture) => page.extend_from_slice(picture.as_slice()),
    }
}
