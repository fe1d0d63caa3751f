//! The spots at which labels may point.

use crate::chips::distance;
use clr_drawing::samples;
use clr_map_marks::Marked;
use clr_map_scenes::MapScene;
use clr_rows::Row;
use clr_svg::PagePoint;
use std::alloc::AllocError;

/// How far apart the spots of a row are at which labels may point or which they should leave free, in tenths of a pixel.
pub(crate) const APART: i64 = 140;

/// The most spots that a label may point at.
const MOST_SPOTS: usize = 24;

/// How near the place of a cause no label of a row points, in tenths of a pixel.
const TOO_NEAR: i64 = 340;

/// Returns at most a few of these spots, evenly.
pub(crate) fn some_of(
    scene: &MapScene<'_>,
    spots: &[PagePoint],
) -> Result<Vec<PagePoint>, AllocError> {
    let every = (spots.len() / MOST_SPOTS).saturating_add(1);
    let mut some = Vec::new(scene.field.alloc);
    for (number, spot) in spots.iter().enumerate() {
        if number.checked_rem(every).unwrap_or(0) == 0 {
            some.push(*spot)?;
        }
    }
    Ok(some)
}

/// Returns the spots of a row at which its label may point: those that aren't near the place of the cause, if there
/// are any.
pub(crate) fn anchors_of(
    scene: &MapScene<'_>,
    row: &Row,
    marked: Option<Marked>,
) -> Result<Vec<PagePoint>, AllocError> {
    let spots = samples(scene.field.alloc, &scene.view, &row.shape, APART)?;
    let mut far = Vec::new(scene.field.alloc);
    if let Some(marked) = marked {
        for spot in &spots {
            if distance(*spot, marked.spot) > TOO_NEAR {
                far.push(*spot)?;
            }
        }
    }
    if far.is_empty() {
        return some_of(scene, spots.as_slice());
    }
    some_of(scene, far.as_slice())
}
