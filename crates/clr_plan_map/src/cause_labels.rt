//! The labels of a cause: what it says, and its rows.

ghost use Rattle.std.specs.Prelude.{◌≡◌, ◌++◌, string_bytes, IfOk, OnOk};
ghost use Rattle.clr_map_frames.specs.Headings.{design_names};
ghost use Rattle.clr_plan_map.specs.LabelWords.{cause_label, owner_text};

use crate::anchors::anchors_of;
use crate::chips::{Look, add_label};
use clr_drawing::{Area, Labels, SOFT, Sketch};
use clr_map_marks::{Marked, marked_spot};
use clr_map_scenes::{Cause, CauseRow, Designs, MapScene};
use clr_plan_sentences::add_label as add_cell;
use clr_svg::{Colour, Pixels};
use std::alloc::AllocError;

/// Adds the design that has a row, if one has it.
fn add_owner(
    text: &mut String,
    designs: &Designs<'_>,
    owner: Option<usize>,
) -> Result<(), AllocError>
    ensures { OnOk result (string_bytes text.new ≡ string_bytes text.old ++ owner_text (design_names designs.now) owner) }
{
    match owner {
        Some(at) => {
            text.push_str(" · ")?;
            text.push_str(designs.name(at))
        }
        None => Ok(()),
    }
}

/// Returns a row as a label names it: its table, its key, and the design that has it.
fn row_words(scene: &MapScene<'_>, row: &CauseRow) -> Result<String, AllocError>
    ensures { IfOk result (λ text. string_bytes text
        ≡ cause_label scene.now.field.schema.now (design_names scene.now.field.designs.now) row.now) }
{
    let mut text = String::new(scene.field.alloc);
    add_cell(&mut text, scene.field.schema, row.cell)?;
    add_owner(&mut text, scene.field.designs, row.owner)?;
    Ok(text)
}

/// Writes labels for the rows of a cause.
fn add_row_labels(
    sketch: &mut Sketch,
    labels: &mut Labels,
    scene: &MapScene<'_>,
    rows: &[CauseRow],
    marked: Option<Marked>,
) -> Result<(), AllocError> {
    for row in rows {
        let anchors = anchors_of(scene, &row.row, marked)?;
        let words = row_words(scene, row)?;
        let colour = match row.owner {
            Some(at) => scene.field.designs.colours(at).label,
            None => SOFT,
        };
        let gap = Pixels::whole(if anchors.len() == 1 { 28 } else { 14 });
        add_label(
            sketch,
            labels,
            anchors.as_slice(),
            words.as_str(),
            Look::row(colour),
            gap,
        )?;
    }
    Ok(())
}

/// Writes the labels of a cause: what it says, and the names of its rows.
pub(crate) fn add_cause_labels(
    sketch: &mut Sketch,
    labels: &mut Labels,
    scene: &MapScene<'_>,
    cause: &Cause,
) -> Result<(), AllocError> {
    let marked = marked_spot(scene, cause);
    if let Some(marked) = marked {
        let side = marked.radius + marked.radius + Pixels::whole(6);
        labels.take(Area::around(marked.spot, side, side))?;
        let look = Look::alarm(marked.radius + Pixels::whole(2));
        let gap = marked.radius + Pixels::whole(11);
        add_label(
            sketch,
            labels,
            &[marked.spot],
            cause.says.as_str(),
            look,
            gap,
        )?;
    }
    add_row_labels(sketch, labels, scene, cause.rows.as_slice(), marked)?;
    add_row_labels(sketch, labels, scene, cause.goers.as_slice(), marked)
}
