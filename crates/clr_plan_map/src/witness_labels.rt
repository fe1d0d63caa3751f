//! Labels beside the rows that serve needs.

ghost use Rattle.std.specs.Prelude.{◌≡◌, ◌++◌, string_bytes, IfOk, OnOk};
ghost use Rattle.clr_plan_map.specs.LabelWords.{then_text, witness_label};

use crate::anchors::anchors_of;
use crate::chips::{Look, add_label};
use clr_cert::Entry;
use clr_drawing::{Labels, SOFT, Sketch};
use clr_engine::Office;
use clr_map_scenes::MapScene;
use clr_merge_sets::{Plan, row_of_version};
use clr_needs::VersionId;
use clr_plan_sentences::add_label as add_cell;
use clr_rows::Schema;
use clr_svg::Pixels;
use std::alloc::AllocError;

/// The most entries of a certificate whose witnesses have labels.
const MOST_ENTRIES: usize = 12;

/// Adds the row that serves a need then, if there is one.
fn add_then(text: &mut String, schema: &Schema, then: Option<VersionId>) -> Result<(), AllocError>
    ensures { OnOk result (string_bytes text.new ≡ string_bytes text.old ++ then_text schema.now then) }
{
    match then {
        Some(version) => {
            text.push_str(", then ")?;
            add_cell(text, schema, version.cell)
        }
        None => Ok(()),
    }
}

/// Returns who serves a need, and who does then.
fn witness_words(scene: &MapScene<'_>, entry: &Entry) -> Result<String, AllocError>
    ensures { IfOk result (λ text. string_bytes text ≡ witness_label scene.now.field.schema.now entry.now) }
{
    let mut text = String::new(scene.field.alloc);
    add_cell(&mut text, scene.field.schema, entry.one.cell)?;
    add_then(&mut text, scene.field.schema, entry.two)?;
    Ok(text)
}

/// Writes a label beside a witness that designs change.
fn add_witness_label(
    sketch: &mut Sketch,
    labels: &mut Labels,
    scene: &MapScene<'_>,
    office: &Office,
    entry: &Entry,
) -> Result<(), AllocError> {
    let designs = scene.field.designs;
    let Some(row) = row_of_version(office, designs.members, entry.one) else {
        return Ok(());
    };
    let anchors = anchors_of(scene, row, None)?;
    let words = witness_words(scene, entry)?;
    let colour = match designs.changer(entry.one.cell) {
        Some(at) => designs.colours(at).label,
        None => SOFT,
    };
    add_label(
        sketch,
        labels,
        anchors.as_slice(),
        words.as_str(),
        Look::row(colour),
        Pixels::whole(14),
    )
}

/// Returns whether an earlier entry has the same witnesses.
fn is_repeated(entries: &[Entry], at: usize, entry: &Entry) -> bool {
    entries
        .iter()
        .take(at)
        .any(|other| other.one == entry.one && other.two == entry.two)
}

/// Writes labels beside those that serve needs, where they are few.
pub(crate) fn add_witness_labels(
    sketch: &mut Sketch,
    labels: &mut Labels,
    scene: &MapScene<'_>,
    office: &Office,
    plan: &Plan,
) -> Result<(), AllocError> {
    let Plan::Cleared(certificate) = plan else {
        return Ok(());
    };
    let entries = certificate.entries.as_slice();
    if entries.len() > MOST_ENTRIES || !scene.detail.is_fine() {
        return Ok(());
    }
    for (at, entry) in entries.iter().enumerate() {
        if !is_repeated(entries, at, entry) {
            add_witness_label(sketch, labels, scene, office, entry)?;
        }
    }
    Ok(())
}
