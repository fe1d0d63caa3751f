//! How collections of features are written, one feature after another.

ghost use Rattle.std.specs.Prelude.{◌≡◌, ◌++◌, ℕ, List, Option, IfOk, OnOk};
ghost use Rattle.clr_geojson.specs.Collections.{begun_text, collection_text, head_text, line_with_comma, system_text, without_comma};
ghost use Rattle.clr_geojson.specs.Features.{feature_text};
ghost use Rattle.clr_geojson.specs.declared.features.Feature.{Feature as OneFeature};

use crate::features::Feature;
use crate::marks::{COLLECTION, FEATURE, FEATURES, GEOMETRY, SYSTEM};
use crate::properties::add_properties;
use crate::shapes::add_shape;
use itoa::Buffer;
use std::alloc::{AllocError, Global};

/// Adds a system of coordinates, if there is one.
fn add_system(text: &mut Vec<u8>, system: Option<u32>) -> Result<(), AllocError>
    ensures { OnOk result (text.new.items ≡ text.old.items ++ system_text system) }
{
    let Some(code) = system else {
        return Ok(());
    };
    text.extend_from_slice(SYSTEM.as_bytes())?;
    text.extend_from_slice(Buffer::new().format(code).as_bytes())?;
    text.extend_from_slice(b"\"}}")
}

/// Adds what stands before the features.
#[tactic(auto, unfolding(crate::specs::Collections::head_text))]
fn add_head(text: &mut Vec<u8>, system: Option<u32>) -> Result<(), AllocError>
    ensures { OnOk result (text.new.items ≡ text.old.items ++ head_text system) }
{
    text.extend_from_slice(COLLECTION.as_bytes())?;
    add_system(text, system)?;
    text.extend_from_slice(FEATURES.as_bytes())?;
    text.extend_from_slice(b"[")
}

/// Adds the text of a feature.
#[tactic(auto, unfolding(crate::specs::Features::feature_text))]
fn add_feature_text(text: &mut Vec<u8>, feature: &Feature) -> Result<(), AllocError>
    ensures { OnOk result (text.new.items ≡ text.old.items ++ feature_text feature.now) }
{
    text.extend_from_slice(FEATURE.as_bytes())?;
    add_properties(text, feature.properties.as_slice())?;
    text.extend_from_slice(GEOMETRY.as_bytes())?;
    add_shape(text, &feature.shape)?;
    text.extend_from_slice(b"}")
}

/// Returns the beginning of a collection, without features yet. The system of coordinates is given by its number in the register of EPSG; where
/// none is given, the text says nothing of it.
pub fn begin_collection(alloc: Global, system: Option<u32>) -> Result<Vec<u8>, AllocError>
    ensures { IfOk result (λ text. text.items ≡ head_text system) }
{
    let mut text = Vec::new(alloc);
    add_head(&mut text, system)?;
    Ok(text)
}

/// Adds a feature to a collection that was begun, on a line of its own. If memory runs out, the text is dropped.
#[tactic(auto, unfolding(crate::specs::Collections::line_of, crate::specs::Collections::line_with_comma))]
pub fn add_feature(text: &mut Vec<u8>, feature: &Feature) -> Result<(), AllocError>
    ensures { OnOk result (text.new.items ≡ text.old.items ++ line_with_comma feature.now) }
{
    text.extend_from_slice(b"\n")?;
    add_feature_text(text, feature)?;
    text.extend_from_slice(b",")
}

/// Drops the last byte of a text where it is a comma.
fn drop_comma(text: &mut Vec<u8>)
    ensures { text.new.items ≡ without_comma text.old.items }
{
    if text.as_slice().ends_with(b",") {
        text.truncate(text.len() - 1);
    }
}

/// Returns the whole text of a collection that was begun.
pub fn end_collection(mut text: Vec<u8>) -> Result<Vec<u8>, AllocError>
    ensures { IfOk result (λ whole. (system : Option ℕ) (features : List OneFeature)
        → text.items ≡ begun_text system features → whole.items ≡ collection_text system features) }
{
    drop_comma(&mut text);
    text.extend_from_slice(b"\n]}\n")?;
    Ok(text)
}
