//! What stands below the legend: who goes before whom, where an order is found.

ghost use Rattle.std.specs.Prelude.{◌≡◌, ◌++◌, ◌∷◌, [], map, codes, string_bytes, IfOk, OnOk};
ghost use Rattle.clr_map_frames.specs.HeadingLines.{said};
ghost use Rattle.clr_plan_map.specs.Turns.{ShowsTurns, more_lines, turn_lines, turn_text};

use clr_cert::{Precedence, Precedences};
use clr_drawing::{INK, SOFT, Sketch};
use clr_map_scenes::BESIDE;
use clr_svg::{Anchor, Colour, Ink, Layer, PagePoint, PathCommand, Pixels, Weight};
use std::alloc::{AllocError, Global};

/// How many precedences are told one by one.
const MOST_TOLD: usize = 12;

/// How far below the legend the heading stands, beyond a line.
const GAP: Pixels = Pixels { tenths: 110 };

/// A column of text below the legend, and how far down its next line stands.
#[derive(Drop)]
struct TurnColumn {
    sketch: Sketch,
    down: Pixels,
}

/// Writes a line of text that begins so far from the left of the column, in the height of its next line.
fn say(
    column: &mut TurnColumn,
    words: &str,
    right: i64,
    size: i64,
    colour: Colour,
    weight: Weight,
) -> Result<(), AllocError>
    ensures { OnOk result (said column.new.sketch.elements.items ≡ said column.old.sketch.elements.items ++ words.now ∷ []) }
{
    let at = PagePoint {
        x: BESIDE + Pixels::whole(right),
        y: column.down,
    };
    let size = Pixels::whole(size);
    column
        .sketch
        .add_words(words, at, size, colour, Anchor::Start, weight)?;
    Ok(())
}

/// Writes the heading, and goes down a line.
fn add_heading(column: &mut TurnColumn) -> Result<(), AllocError>
    ensures { OnOk result (said column.new.sketch.elements.items
        ≡ said column.old.sketch.elements.items ++ codes "CLEARED IN THIS ORDER" ∷ []) }
{
    say(column, "CLEARED IN THIS ORDER", 0, 12, SOFT, Weight::Strong)?;
    column.down = column.down + Pixels::whole(24);
    Ok(())
}

/// Returns the steps of the head of an arrow that points here from the left.
fn head_steps(alloc: Global, tip: PagePoint) -> Result<Vec<PathCommand>, AllocError> {
    let back = tip.x - Pixels::whole(8);
    let mut steps = Vec::with_capacity(alloc, 3)?;
    steps.push(PathCommand::Begin(PagePoint {
        x: back,
        y: tip.y - Pixels::whole(5),
    }))?;
    steps.push(PathCommand::Line(tip))?;
    steps.push(PathCommand::Line(PagePoint {
        x: back,
        y: tip.y + Pixels::whole(5),
    }))?;
    Ok(steps)
}

/// Draws an arrow at the height of the next line.
fn add_arrow(column: &mut TurnColumn) -> Result<(), AllocError>
    ensures { OnOk result (said column.new.sketch.elements.items ≡ said column.old.sketch.elements.items) }
{
    let middle = column.down - Pixels::whole(4);
    let from = PagePoint {
        x: BESIDE,
        y: middle,
    };
    let tip = PagePoint {
        x: BESIDE + Pixels::whole(36),
        y: middle,
    };
    let ink = Ink::of_line(INK, Pixels::whole(2));
    let steps = head_steps(column.sketch.allocator(), tip)?;
    column.sketch.add_line(from, tip, ink)?;
    column.sketch.add_path(steps, ink)?;
    Ok(())
}

/// Writes a text behind where an arrow stands, and goes down a line.
fn add_line(column: &mut TurnColumn, words: &str) -> Result<(), AllocError>
    ensures { OnOk result (said column.new.sketch.elements.items ≡ said column.old.sketch.elements.items ++ words.now ∷ []) }
{
    say(column, words, 50, 13, INK, Weight::Plain)?;
    column.down = column.down + Pixels::whole(25);
    Ok(())
}

/// Returns who goes before whom, in words.
fn turn_text(alloc: Global, precedence: &Precedence) -> Result<String, AllocError>
    ensures { IfOk result (λ text. string_bytes text ≡ turn_text precedence.now) }
{
    let mut text = String::from_str(alloc, precedence.earlier.as_str())?;
    text.push_str(", then ")?;
    text.push_str(precedence.later.as_str())?;
    Ok(text)
}

/// Draws the line of a precedence, behind an arrow.
fn add_turn(column: &mut TurnColumn, precedence: &Precedence) -> Result<(), AllocError>
    ensures { OnOk result (said column.new.sketch.elements.items
        ≡ said column.old.sketch.elements.items ++ turn_text precedence.now ∷ []) }
{
    let words = turn_text(column.sketch.allocator(), precedence)?;
    add_arrow(column)?;
    add_line(column, words.as_str())
}

/// Draws the lines of these precedences.
fn add_told(column: &mut TurnColumn, before: &[Precedence]) -> Result<(), AllocError>
    ensures { OnOk result (said column.new.sketch.elements.items
        ≡ said column.old.sketch.elements.items ++ map turn_text before.now) }
{
    for precedence in before {
        add_turn(column, precedence)?;
    }
    Ok(())
}

/// Writes how many more precedences there are, if there are more.
fn add_more(column: &mut TurnColumn, count: usize) -> Result<(), AllocError>
    ensures { OnOk result (said column.new.sketch.elements.items ≡ said column.old.sketch.elements.items ++ more_lines count) }
{
    if count == 0 {
        return Ok(());
    }
    let words = format!(in column.sketch.allocator(); "and {count} more")?;
    add_line(column, words.as_str())
}

/// Draws who goes before whom: the first precedences, and how many more there are.
fn add_turns(column: &mut TurnColumn, before: &[Precedence]) -> Result<(), AllocError>
    ensures { OnOk result (said column.new.sketch.elements.items ≡ said column.old.sketch.elements.items ++ turn_lines before.now) }
{
    let end = MOST_TOLD.min(before.len());
    add_told(column, &before[..end])?;
    add_more(column, before.len().saturating_sub(MOST_TOLD))?;
    Ok(())
}

/// Returns the column of an order, below the legend, which goes so far down.
fn column_of(alloc: Global, before: &[Precedence], down: Pixels) -> Result<TurnColumn, AllocError>
    ensures { IfOk result (λ column. said column.sketch.elements.items ≡ codes "CLEARED IN THIS ORDER" ∷ turn_lines before.now) }
{
    let mut column = TurnColumn {
        sketch: Sketch::new(alloc),
        down: down + GAP,
    };
    add_heading(&mut column)?;
    add_turns(&mut column, before)?;
    Ok(column)
}

/// Returns the layer of who goes before whom, below the legend, which goes so far down, and how far down the layer goes: where an order is found, a line for
/// each precedence behind an arrow, and of more than twelve the first twelve and how many more there are; else nothing.
pub(crate) fn turns_layer(
    alloc: Global,
    before: &Option<Precedences>,
    down: Pixels,
) -> Result<(Layer, Pixels), AllocError>
    ensures { IfOk result (λ drawn. ShowsTurns before.now drawn.0) }
{
    let Some(before) = before else {
        return Ok((Sketch::new(alloc).into_layer(), down));
    };
    let column = column_of(alloc, before.as_slice(), down)?;
    let end = column.down;
    Ok((column.sketch.into_layer(), end))
}
