//! The small map of what designs change.

ghost use Rattle.std.specs.Prelude.{◌≡◌, option_map, IfOk};
ghost use Rattle.clr_map_scenes.specs.Designs.{sets_of};
ghost use Rattle.clr_small_maps.specs.SmallMaps.{DrawsLinesOf, IsSmallMap, IsSmallPage, ShowsLines};

use crate::near_rows::rows_near;
use crate::scenes::view_of_sets;
use crate::somewhere::is_any_somewhere;
use clr_change::ChangeSet;
use clr_drawing::{Area, Detail, GROUND, PAPER, Sketch, Viewport};
use clr_map_frames::{add_axes, add_grid};
use clr_map_marks::{add_line_marks, add_lines, add_point_marks, add_signs};
use clr_map_scenes::{Designs, FOOT, Field, LEFT, MapScene};
use clr_member_changes::MemberChanges;
use clr_rows::{Schema, Sheet};
use clr_svg::{Ink, Layer, Pixels, SvgPage, write_page};
use std::alloc::{AllocError, Global};

/// Returns how many rows designs change.
fn count_of_changes(sets: &[ChangeSet]) -> usize {
    let mut count = 0usize;
    for set in sets {
        count = count.saturating_add(set.len());
    }
    count
}

/// Returns the scene of what designs change, over rows that are seen.
fn scene_of<'a>(field: Field<'a>, view: Viewport) -> MapScene<'a>
    ensures { result.field ≡ field.entry }
{
    let rows = field.rows.len();
    let changes = count_of_changes(field.designs.members.changes.as_slice());
    MapScene {
        field,
        cause: None,
        whole: view.world,
        view,
        detail: Detail::of(view.frame, rows),
        changes: Detail::of(view.frame, rows.saturating_add(changes)),
    }
}

/// Returns the sheet of the page, of this size, and the ground of the map.
fn paper(scene: &MapScene<'_>, right: Pixels, bottom: Pixels) -> Result<Layer, AllocError> {
    let mut sketch = Sketch::new(scene.field.alloc);
    let page = Area {
        left: Pixels::ZERO,
        top: Pixels::ZERO,
        right,
        bottom,
    };
    sketch.add_area(page, Pixels::ZERO, Ink::of_area(PAPER))?;
    sketch.add_area(scene.frame(), Pixels::whole(6), Ink::of_area(GROUND))?;
    Ok(sketch.into_layer())
}

/// Returns the rows of the root, seen through the window of the map.
fn ground_layer(scene: &MapScene<'_>) -> Result<Layer, AllocError> {
    let mut sketch = Sketch::new(scene.field.alloc);
    add_grid(&mut sketch, scene)?;
    add_lines(&mut sketch, scene)?;
    add_signs(&mut sketch, scene)?;
    Ok(sketch.into_layer_within(scene.frame()))
}

/// Returns the lines that designs change, seen through the window of the map.
fn lines_layer(scene: &MapScene<'_>) -> Result<Layer, AllocError>
    ensures { IfOk result (DrawsLinesOf (sets_of scene.now.field.designs.now)) }
{
    let mut sketch = Sketch::new(scene.field.alloc);
    add_line_marks(&mut sketch, scene)?;
    Ok(sketch.into_layer_within(scene.frame()))
}

/// Returns the points that designs change, seen through the window of the map.
fn points_layer(scene: &MapScene<'_>) -> Result<Layer, AllocError> {
    let mut sketch = Sketch::new(scene.field.alloc);
    add_point_marks(&mut sketch, scene)?;
    Ok(sketch.into_layer_within(scene.frame()))
}

/// Returns the numbers and the scale round the map.
fn axes_layer(scene: &MapScene<'_>) -> Result<Layer, AllocError> {
    let mut sketch = Sketch::new(scene.field.alloc);
    add_axes(&mut sketch, scene)?;
    Ok(sketch.into_layer())
}

/// Returns the layers of a map on a page of this size.
fn layers_of(scene: &MapScene<'_>, right: Pixels, bottom: Pixels) -> Result<Vec<Layer>, AllocError>
    ensures { IfOk result (λ layers. ShowsLines (sets_of scene.now.field.designs.now) layers.items) }
{
    let mut layers = Vec::with_capacity(scene.field.alloc, 5)?;
    layers.push(paper(scene, right, bottom)?)?;
    layers.push(ground_layer(scene)?)?;
    layers.push(lines_layer(scene)?)?;
    layers.push(points_layer(scene)?)?;
    layers.push(axes_layer(scene)?)?;
    Ok(layers)
}

/// Returns the page of what designs change, over the rows of a root.
fn page_of(
    field: Field<'_>,
    view: Viewport,
    title: &str,
    words: &str,
) -> Result<SvgPage, AllocError>
    ensures { IfOk result (IsSmallPage title.now words.now (sets_of field.entry.designs.now)) }
{
    let scene = scene_of(field, view);
    let right = view.frame.right + LEFT;
    let bottom = view.frame.bottom + FOOT;
    let layers = layers_of(&scene, right, bottom)?;
    Ok(SvgPage {
        width: right,
        height: bottom,
        title: Vec::from_slice(field.alloc, title.as_bytes())?,
        description: Vec::from_slice(field.alloc, words.as_bytes())?,
        layers,
    })
}

/// Returns the page of what members change, which stands somewhere.
fn page_of_members(
    alloc: Global,
    schema: &Schema,
    rows: &Sheet,
    members: &MemberChanges<'_>,
    title: &str,
    words: &str,
) -> Result<SvgPage, AllocError>
    ensures { IfOk result (IsSmallPage title.now words.now members.now.changes.items) }
{
    let view = view_of_sets(members.changes.as_slice());
    let near = rows_near(alloc, rows, &view)?;
    let designs = Designs::new(alloc, members, &[])?;
    let field = Field {
        alloc,
        schema,
        rows: &near,
        designs: &designs,
    };
    page_of(field, view, title, words)
}

/// Returns the small map of what members change over the rows of a root, as the text of a page of vector graphics with this title and this description; or
/// nothing where no change stands anywhere. It shows what is round the changes, with numbers in metres: each line that a member adds, changes or removes,
/// each point, and the rows of the root that are seen, or none of these where there are more than 1,000. Each text is escaped.
pub fn small_map(
    alloc: Global,
    schema: &Schema,
    rows: &Sheet,
    members: &MemberChanges<'_>,
    title: &str,
    words: &str,
) -> Result<Option<Vec<u8>>, AllocError>
    ensures map { IfOk result (λ map. IsSmallMap title.now words.now members.now.changes.items (option_map (λ text. text.items) map)) }
{
    if !is_any_somewhere(members.changes.as_slice()) {
        return Ok(None);
    }
    let page = page_of_members(alloc, schema, rows, members, title, words)?;
    let text = write_page(alloc, &page)?;
    Ok(Some(text))
}
