//! What stands above the map: the names of the designs, and the plan in a sentence.

ghost use Rattle.std.specs.Prelude.{◌≡◌, ◌++◌, ◌∷◌, [], IfOk, OnOk, decimal, string_bytes};
ghost use Rattle.clr_map_frames.specs.Headings.{behind_commas, design_names, design_names_text, few_names, listed, names_of_leaders, some_names};
ghost use Rattle.clr_map_frames.specs.HeadingLines.{IsShown, SaysHeading, SaysNames, SaysSentence, said};

use clr_drawing::{INK, SOFT, Sketch, words_width};
use clr_map_scenes::{Designs, Field, LEFT, PAGE_WIDTH};
use clr_svg::{Anchor, Colour, PagePoint, Pixels, Weight};
use std::alloc::{AllocError, Global};

/// The size of the letters of the word for what a plan says.
pub const VERDICT_SIZE: Pixels = Pixels { tenths: 260 };

/// The size of the letters of the sentence.
const SENTENCE_SIZE: Pixels = Pixels { tenths: 155 };

/// How far from the top the sentence stands if it has one line.
const ONLY_LINE: Pixels = Pixels { tenths: 780 };

/// How far from the top the first and the second line stand if it has two.
const FIRST_LINE: Pixels = Pixels { tenths: 690 };

const SECOND_LINE: Pixels = Pixels { tenths: 900 };

/// How many designs are named one by one.
const FEW: usize = 6;

/// How many of many designs are named.
const MOST_NAMED: usize = 4;

/// Adds the names of these designs, with a comma before each.
#[tactic(auto, unfolding(crate::specs::Headings::behind_commas))]
fn add_others(
    text: &mut String,
    designs: &Designs<'_>,
    positions: &[usize],
) -> Result<(), AllocError>
    ensures { OnOk result (string_bytes text.new ≡ string_bytes text.old ++ behind_commas (design_names designs.now) positions.now) }
{
    for at in positions {
        text.push_str(", ")?;
        text.push_str(designs.name(*at))?;
    }
    Ok(())
}

/// Returns the names of these designs, with commas between them.
fn names_of_designs(
    alloc: Global,
    designs: &Designs<'_>,
    positions: &[usize],
) -> Result<String, AllocError>
    ensures { IfOk result (λ text. string_bytes text ≡ listed (design_names designs.now) positions.now) }
{
    let Some((first, others)) = positions.split_first() else {
        return Ok(String::new(alloc));
    };
    let mut text = String::from_str(alloc, designs.name(*first))?;
    add_others(&mut text, designs, others)?;
    Ok(text)
}

/// Returns the digits of a number.
fn number_text(alloc: Global, number: usize) -> Result<String, AllocError>
    ensures { IfOk result (λ text. string_bytes text ≡ decimal number) }
{
    format!(in alloc; "{number}")
}

/// Returns the names of the first designs, and how many more there are.
#[tactic(auto, unfolding(crate::specs::Headings::some_names))]
fn some_names(alloc: Global, designs: &Designs<'_>) -> Result<String, AllocError>
    ensures { IfOk result (λ text. string_bytes text ≡ some_names designs.now) }
{
    let order = designs.order();
    let end = MOST_NAMED.min(order.len());
    let mut text = names_of_designs(alloc, designs, &order[..end])?;
    let others = number_text(alloc, designs.len().saturating_sub(end))?;
    text.push_str(" and ")?;
    text.push_str(others.as_str())?;
    text.push_str(" more")?;
    Ok(text)
}

/// Returns the names of the designs that a cause names, and how many designs there are.
#[tactic(auto, unfolding(crate::specs::Headings::names_of_leaders))]
fn names_of_leaders(alloc: Global, designs: &Designs<'_>) -> Result<String, AllocError>
    ensures { IfOk result (λ text. string_bytes text ≡ names_of_leaders designs.now) }
{
    let mut text = names_of_designs(alloc, designs, designs.leaders())?;
    let count = number_text(alloc, designs.len())?;
    text.push_str(", of ")?;
    text.push_str(count.as_str())?;
    text.push_str(" designs")?;
    Ok(text)
}

/// Returns the names of some designs where they are many: of those that a cause names, or of the first.
fn few_names(alloc: Global, designs: &Designs<'_>) -> Result<String, AllocError>
    ensures { IfOk result (λ text. string_bytes text ≡ few_names designs.now) }
{
    if designs.leaders().is_empty() {
        some_names(alloc, designs)
    } else {
        names_of_leaders(alloc, designs)
    }
}

/// Returns the names of the designs, those of the cause first; where they are many, only some.
pub fn names_text(field: Field<'_>) -> Result<String, AllocError>
    ensures { IfOk result (λ text. string_bytes text ≡ design_names_text field.entry.designs.now) }
{
    if field.designs.len() <= FEW {
        return names_of_designs(field.alloc, field.designs, field.designs.order());
    }
    few_names(field.alloc, field.designs)
}

/// Returns a text, or where there is no room for it, so many of its first characters as there is room for, with `..` behind them.
fn text_that_fits(
    alloc: Global,
    text: &str,
    size: Pixels,
    room: Pixels,
) -> Result<String, AllocError>
    ensures { IfOk result (λ shown. IsShown text.now (string_bytes shown)) }
{
    if words_width(text, size) <= room {
        return String::from_str(alloc, text);
    }
    let mut cut = String::new(alloc);
    for character in text.chars() {
        if words_width(cut.as_str(), size) + size * 2 > room {
            break;
        }
        cut.push(character)?;
    }
    cut.push_str(" ..")?;
    Ok(cut)
}

/// Adds so many whole words of a text to a line as there is room for, each with the blank behind it, and returns the rest of the text.
fn add_words_that_fit<'a>(
    line: &mut String,
    text: &'a str,
    room: Pixels,
) -> Result<&'a str, AllocError>
    ensures { IfOk result (λ rest. string_bytes line.new ++ rest.now ≡ string_bytes line.old ++ text.now) }
{
    let mut rest = text;
    while let Some((word, behind)) = rest.split_once(' ') {
        if words_width(line.as_str(), SENTENCE_SIZE) + words_width(word, SENTENCE_SIZE) > room {
            break;
        }
        line.push_str(word)?;
        line.push_str(" ")?;
        rest = behind;
    }
    Ok(rest)
}

/// Writes words on a line that begins at a spot.
fn say(
    sketch: &mut Sketch,
    words: &str,
    at: PagePoint,
    size: Pixels,
    colour: Colour,
) -> Result<(), AllocError>
    ensures { OnOk result (said sketch.new.elements.items ≡ said sketch.old.elements.items ++ words.now ∷ []) }
{
    sketch.add_words(words, at, size, colour, Anchor::Start, Weight::Plain)?;
    Ok(())
}

/// Writes a line of the sentence, this far from the top.
fn say_line(sketch: &mut Sketch, words: &str, down: Pixels) -> Result<(), AllocError>
    ensures { OnOk result (said sketch.new.elements.items ≡ said sketch.old.elements.items ++ words.now ∷ []) }
{
    let at = PagePoint { x: LEFT, y: down };
    say(sketch, words, at, SENTENCE_SIZE, INK)
}

/// Writes a sentence on one line.
fn add_one_line(sketch: &mut Sketch, sentence: &str) -> Result<(), AllocError>
    ensures { OnOk result (SaysSentence sentence.now sketch.old.elements.items sketch.new.elements.items) }
{
    say_line(sketch, sentence, ONLY_LINE)?;
    Ok(())
}

/// Writes a sentence on two lines; the second is cut where there is no room for it.
fn add_two_lines(sketch: &mut Sketch, sentence: &str, room: Pixels) -> Result<(), AllocError>
    ensures { OnOk result (SaysSentence sentence.now sketch.old.elements.items sketch.new.elements.items) }
{
    let alloc = sketch.allocator();
    let mut first = String::new(alloc);
    let rest = add_words_that_fit(&mut first, sentence, room)?;
    let second = text_that_fits(alloc, rest, SENTENCE_SIZE, room)?;
    say_line(sketch, first.as_str(), FIRST_LINE)?;
    say_line(sketch, second.as_str(), SECOND_LINE)?;
    Ok(())
}

/// Writes a sentence on one line where there is room for it, and else on two.
fn add_sentence(sketch: &mut Sketch, sentence: &str, room: Pixels) -> Result<(), AllocError>
    ensures { OnOk result (SaysSentence sentence.now sketch.old.elements.items sketch.new.elements.items) }
{
    if words_width(sentence, SENTENCE_SIZE) <= room {
        add_one_line(sketch, sentence)
    } else {
        add_two_lines(sketch, sentence, room)
    }
}

/// Writes the names behind the word, as far as there is room for them.
fn add_names(sketch: &mut Sketch, word: &str, names: &str, right: Pixels) -> Result<(), AllocError>
    ensures { OnOk result (SaysNames names.now sketch.old.elements.items sketch.new.elements.items) }
{
    let start = LEFT + words_width(word, VERDICT_SIZE + Pixels::whole(4)) + Pixels::whole(26);
    let at = PagePoint {
        x: start,
        y: Pixels::whole(46),
    };
    let size = Pixels::whole(17);
    let names = text_that_fits(sketch.allocator(), names, size, right - start)?;
    say(sketch, names.as_str(), at, size, SOFT)?;
    Ok(())
}

/// Writes the names of the designs, as far as there is room for them, and below them the sentence, on one line or on two.
pub fn add_heading(
    sketch: &mut Sketch,
    word: &str,
    names: &str,
    sentence: &str,
) -> Result<(), AllocError>
    ensures says { OnOk result (SaysHeading names.now sentence.now sketch.old.elements.items sketch.new.elements.items) }
{
    let right = PAGE_WIDTH - Pixels::whole(28);
    add_names(sketch, word, names, right)?;
    add_sentence(sketch, sentence, right - LEFT)?;
    Ok(())
}
