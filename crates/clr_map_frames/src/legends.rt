//! What stands beside the map: the designs, and how to read it.

use clr_drawing::{ALARM, Area, HALO, INK, PAPER, PLAIN, SIGN, SOFT, Sketch, add_cross, add_sign};
use clr_map_marks::sign_of_table;
use clr_map_scenes::{BESIDE, EDGE, MapScene, Mark, TOP};
use clr_member_changes::Counts;
use clr_rows::Form;
use clr_svg::{Anchor, Colour, Ink, Layer, PagePoint, Pixels, Weight};
use std::alloc::AllocError;

/// The colour in which the legend shows lines of designs.
const SAMPLE: Colour = Colour {
    red: 0x4a,
    green: 0x55,
    blue: 0x60,
};

/// How many designs have two lines each.
const FEW: usize = 4;

/// How many designs are listed.
const MOST_LISTED: usize = 12;

/// A column of text and samples, and how far down it goes.
#[derive(Drop)]
struct Column<'a> {
    sketch: Sketch,
    scene: &'a MapScene<'a>,
    down: Pixels,
}

/// How a row of the column looks that a sample of a line stands in.
#[derive(Clone, Copy)]
enum Sample {
    Plain,
    Added,
    Changed,
    Removed,
    Halo,
    Ring,
}

impl Column<'_> {
    fn spot(&self, right: i64) -> PagePoint {
        PagePoint {
            x: BESIDE + Pixels::whole(right),
            y: self.down,
        }
    }

    fn add_heading(&mut self, words: &str) -> Result<(), AllocError> {
        let at = self.spot(0);
        self.sketch.add_words(
            words,
            at,
            Pixels::whole(12),
            SOFT,
            Anchor::Start,
            Weight::Strong,
        )?;
        self.down = self.down + Pixels::whole(24);
        Ok(())
    }

    fn add_note(&mut self, words: &str) -> Result<(), AllocError> {
        let at = self.spot(38);
        self.sketch.add_words(
            words,
            at,
            Pixels::of_tenths(125),
            SOFT,
            Anchor::Start,
            Weight::Plain,
        )
    }

    /// Draws a short line at the height of the text.
    fn add_dash(&mut self, ink: Ink) -> Result<(), AllocError> {
        let middle = self.down - Pixels::whole(4);
        let from = PagePoint {
            x: BESIDE,
            y: middle,
        };
        let to = PagePoint {
            x: BESIDE + Pixels::whole(36),
            y: middle,
        };
        self.sketch.add_line(from, to, ink)
    }

    /// Writes what a sample is, and goes down a line.
    fn add_meaning(&mut self, words: &str) -> Result<(), AllocError> {
        let at = self.spot(50);
        self.sketch.add_words(
            words,
            at,
            Pixels::whole(13),
            INK,
            Anchor::Start,
            Weight::Plain,
        )?;
        self.down = self.down + Pixels::whole(25);
        Ok(())
    }

    /// Draws a sample.
    fn add_sample(&mut self, sample: Sample) -> Result<(), AllocError> {
        let middle = PagePoint {
            x: BESIDE + Pixels::whole(18),
            y: self.down - Pixels::whole(4),
        };
        match sample {
            Sample::Plain => self.add_dash(Ink::of_line(PLAIN, Pixels::of_tenths(32))),
            Sample::Added => self.add_dash(Ink::of_line(SAMPLE, Pixels::of_tenths(46))),
            Sample::Changed => {
                self.add_dash(Ink::of_line(SAMPLE, Pixels::of_tenths(62)))?;
                self.add_dash(Ink::of_line(PAPER, Pixels::of_tenths(26)))
            }
            Sample::Removed => {
                let line = Ink::of_line(SAMPLE, Pixels::of_tenths(33));
                self.add_dash(line.with_dashes(Pixels::whole(7), Pixels::whole(6)))?;
                add_cross(&mut self.sketch, middle, Pixels::whole(5), SAMPLE, PAPER)
            }
            Sample::Halo => self.add_dash(Ink::of_line(HALO, Pixels::whole(15))),
            Sample::Ring => {
                let ring = Ink::of_line(ALARM, Pixels::whole(3));
                self.sketch.add_circle(middle, Pixels::whole(10), ring)
            }
        }
    }

    fn add_item(&mut self, sample: Sample, words: &str) -> Result<(), AllocError> {
        self.add_sample(sample)?;
        self.add_meaning(words)
    }
}

/// Adds a count with its word, behind a comma where others stand before it.
fn add_count(text: &mut String, count: usize, word: &str) -> Result<(), AllocError> {
    if count == 0 {
        return Ok(());
    }
    if !text.is_empty() {
        text.push_str(", ")?;
    }
    write!(text, "{count} {word}")
}

/// Returns how much a design changes, in words.
fn counts_words(scene: &MapScene<'_>, counts: Counts) -> Result<String, AllocError> {
    let mut text = String::new(scene.field.alloc);
    add_count(&mut text, counts.added, "added")?;
    add_count(&mut text, counts.changed, "changed")?;
    add_count(&mut text, counts.removed, "removed")?;
    if text.is_empty() {
        text.push_str("no change")?;
    }
    Ok(text)
}

/// Writes how much a design changes, in short, at the right edge.
fn add_short_counts(column: &mut Column<'_>, counts: Counts) -> Result<(), AllocError> {
    let Counts {
        added,
        changed,
        removed,
    } = counts;
    let scene = column.scene;
    let words = format!(in scene.field.alloc; "+{added}  ~{changed}  −{removed}")?;
    let at = PagePoint {
        x: EDGE,
        y: column.down,
    };
    column.sketch.add_words(
        words.as_str(),
        at,
        Pixels::whole(12),
        SOFT,
        Anchor::End,
        Weight::Plain,
    )
}

/// Draws the line of a design: its colour, its name, and how much it changes.
fn add_design(column: &mut Column<'_>, at: usize, has_room: bool) -> Result<(), AllocError> {
    let scene = column.scene;
    let designs = scene.field.designs;
    let is_aside = scene.is_aside(at);
    let colours = designs.colours(at);
    let (line, ink) = if is_aside {
        (colours.pale, SOFT)
    } else {
        (colours.line, INK)
    };
    let top = column.down - Pixels::whole(8);
    let bar = Area {
        left: BESIDE,
        top,
        right: BESIDE + Pixels::whole(26),
        bottom: top + Pixels::whole(6),
    };
    column
        .sketch
        .add_area(bar, Pixels::whole(3), Ink::of_area(line))?;
    let spot = column.spot(38);
    column.sketch.add_words(
        designs.name(at),
        spot,
        Pixels::whole(15),
        ink,
        Anchor::Start,
        Weight::Strong,
    )?;
    let counts = designs.counts(at);
    if !has_room {
        add_short_counts(column, counts)?;
        column.down = column.down + Pixels::whole(27);
        return Ok(());
    }
    column.down = column.down + Pixels::whole(18);
    let words = counts_words(scene, counts)?;
    column.add_note(words.as_str())?;
    column.down = column.down + Pixels::whole(26);
    Ok(())
}

/// Returns how many designs are listed: all where they are few, and otherwise those of the cause, if there
/// is one.
fn count_listed(scene: &MapScene<'_>) -> usize {
    let designs = scene.field.designs;
    let all = designs.len();
    let leading = designs.leaders().len();
    if all <= 6 {
        all
    } else if scene.cause.is_some() && leading > 0 {
        leading.min(8)
    } else {
        all.min(MOST_LISTED)
    }
}

fn add_designs(column: &mut Column<'_>) -> Result<(), AllocError> {
    let scene = column.scene;
    let designs = scene.field.designs;
    let listed = count_listed(scene);
    let has_room = listed <= FEW;
    let is_part = listed < designs.len() && scene.cause.is_some();
    column.add_heading(if is_part {
        "DESIGNS IN THE CAUSE"
    } else {
        "DESIGNS"
    })?;
    for at in designs.order().iter().take(listed) {
        add_design(column, *at, has_room)?;
    }
    let others = designs.len().saturating_sub(listed);
    if others > 0 {
        let words = if is_part {
            format!(in scene.field.alloc; "and {others} others, not in this cause")?
        } else {
            format!(in scene.field.alloc; "and {others} more")?
        };
        column.add_note(words.as_str())?;
        column.down = column.down + Pixels::whole(27);
    }
    column.down = column.down + Pixels::whole(10);
    Ok(())
}

/// Returns whether the place of a cause has a ring.
fn has_ring(scene: &MapScene<'_>) -> bool {
    match scene.cause {
        Some(cause) => matches!(cause.mark, Mark::Ring(_)),
        None => false,
    }
}

/// Draws the signs of the tables of points.
fn add_tables(column: &mut Column<'_>) -> Result<(), AllocError> {
    let scene = column.scene;
    let schema = scene.field.schema;
    let ink = Ink::of_line(SIGN, Pixels::of_tenths(16)).over(PAPER);
    for (number, table) in schema.tables().iter().enumerate() {
        if table.shape == Form::Point {
            let middle = PagePoint {
                x: BESIDE + Pixels::whole(18),
                y: column.down - Pixels::whole(4),
            };
            let sign = sign_of_table(schema, u16::try_from(number).unwrap_or(0));
            add_sign(&mut column.sketch, sign, middle, Pixels::whole(5), ink)?;
            column.add_meaning(table.name.as_str())?;
        }
    }
    Ok(())
}

fn add_signs(column: &mut Column<'_>) -> Result<(), AllocError> {
    column.add_heading("HOW TO READ IT")?;
    let scene = column.scene;
    let root = scene.field.designs.members.root;
    column.add_item(Sample::Plain, root)?;
    column.add_item(Sample::Added, "added")?;
    column.add_item(Sample::Changed, "changed")?;
    column.add_item(Sample::Removed, "removed")?;
    if scene.cause.is_some() {
        column.add_item(Sample::Halo, "the rows that the cause names")?;
    }
    if has_ring(scene) {
        column.add_item(Sample::Ring, "where it fails")?;
    }
    add_tables(column)
}

/// Returns what stands beside the map, and how far down it goes.
pub fn legend_of<'a>(scene: &'a MapScene<'a>) -> Result<(Layer, Pixels), AllocError> {
    let mut column = Column {
        sketch: Sketch::new(scene.field.alloc),
        scene,
        down: TOP + Pixels::whole(14),
    };
    add_designs(&mut column)?;
    add_signs(&mut column)?;
    let down = column.down;
    Ok((column.sketch.into_layer(), down))
}
