//! Conditions on the geometry of a row.

ghost use Rattle.std.specs.Prelude.{◌≡◌, [], ◌∷◌, ◌++◌, codes, IfOk, OnOk};
ghost use Rattle.std.specs.Fmt.{decimal, signed_decimal};
ghost use Rattle.std.specs.List.{enumerate_from, flat_map};
ghost use Rattle.clr_metres.specs.Metres.{metres_text};
ghost use Rattle.clr_sql.specs.Shapes.{coordinate_condition, line_condition, place_condition, shape_condition, vertex_condition, vertex_text};

use clr_metres::add_metres;
use clr_rows::{Place, Shape};
use itoa::Buffer;
use std::alloc::{AllocError, Global};

/// Adds a coordinate of a point, and what stands before it.
fn add_coordinate_of(text: &mut Vec<u8>, function: &[u8], point: &[u8]) -> Result<(), AllocError>
    ensures { OnOk result (text.new.items ≡ text.old.items ++ codes "round((" ++ function.now ++ codes "(" ++ point.now) }
{
    text.extend_from_slice(b"round((")?;
    text.extend_from_slice(function)?;
    text.extend_from_slice(b"(")?;
    text.extend_from_slice(point)
}

/// Adds that what stands before is so many millimetres from a coordinate of the origin.
fn add_from_origin(text: &mut Vec<u8>, origin: i64, millimetres: i64) -> Result<(), AllocError>
    ensures { OnOk result (text.new.items
        ≡ text.old.items ++ codes ") - (" ++ metres_text origin ++ codes ")) * 1000) = " ++ signed_decimal millimetres) }
{
    text.extend_from_slice(b") - (")?;
    add_metres(text, origin)?;
    text.extend_from_slice(b")) * 1000) = ")?;
    text.extend_from_slice(Buffer::new().format(millimetres).as_bytes())
}

/// Adds that a coordinate of a point is so many millimetres from that of the origin.
#[tactic(auto, unfolding(crate::specs::Shapes::coordinate_condition))]
fn add_coordinate(
    text: &mut Vec<u8>,
    function: &[u8],
    point: &[u8],
    origin: i64,
    millimetres: i64,
) -> Result<(), AllocError>
    ensures { OnOk result (text.new.items ≡ text.old.items ++ coordinate_condition function.now point.now origin millimetres) }
{
    add_coordinate_of(text, function, point)?;
    add_from_origin(text, origin, millimetres)
}

/// Adds the same of its y, behind another condition.
fn add_y(text: &mut Vec<u8>, point: &[u8], origin: i64, millimetres: i64) -> Result<(), AllocError>
    ensures { OnOk result (text.new.items
        ≡ text.old.items ++ codes " AND " ++ coordinate_condition (codes "ST_Y") point.now origin millimetres) }
{
    text.extend_from_slice(b" AND ")?;
    add_coordinate(text, b"ST_Y", point, origin, millimetres)
}

/// Adds that a point is at a place.
#[tactic(auto, unfolding(crate::specs::Shapes::place_condition))]
fn add_place_condition(
    text: &mut Vec<u8>,
    origin: Place,
    point: &[u8],
    place: Place,
) -> Result<(), AllocError>
    ensures { OnOk result (text.new.items ≡ text.old.items ++ place_condition origin point.now place) }
{
    add_coordinate(text, b"ST_X", point, origin.x, place.x)?;
    add_y(text, point, origin.y, place.y)
}

/// Returns the vertex of a number.
fn vertex_text(alloc: Global, number: usize) -> Result<Vec<u8>, AllocError>
    ensures { IfOk result (λ text. text.items ≡ vertex_text number) }
{
    let mut point = Vec::from_slice(alloc, b"ST_PointN(\"WKT\", ")?;
    point.extend_from_slice(Buffer::new().format(number).as_bytes())?;
    point.extend_from_slice(b")")?;
    Ok(point)
}

/// Adds that the vertex of a number is at a place, behind other conditions.
fn add_vertex_condition(
    alloc: Global,
    text: &mut Vec<u8>,
    origin: Place,
    number: usize,
    place: Place,
) -> Result<(), AllocError>
    ensures { OnOk result (text.new.items ≡ text.old.items ++ vertex_condition origin (number, place)) }
{
    let point = vertex_text(alloc, number)?;
    text.extend_from_slice(b" AND ")?;
    add_place_condition(text, origin, point.as_slice(), place)
}

/// Adds that the vertices of a line are at these places, behind other conditions.
fn add_vertex_conditions(
    alloc: Global,
    text: &mut Vec<u8>,
    origin: Place,
    places: &[Place],
) -> Result<(), AllocError>
    ensures { OnOk result (text.new.items ≡ text.old.items ++ flat_map (vertex_condition origin) (enumerate_from 1 places.now)) }
{
    for at in 0..places.len() {
        add_vertex_condition(alloc, text, origin, at + 1, places[at])?;
    }
    Ok(())
}

/// Adds that a line has so many vertices, behind other conditions.
fn add_vertex_count(text: &mut Vec<u8>, count: usize) -> Result<(), AllocError>
    ensures { OnOk result (text.new.items ≡ text.old.items ++ codes " AND ST_NumPoints(\"WKT\") = " ++ decimal count) }
{
    text.extend_from_slice(b" AND ST_NumPoints(\"WKT\") = ")?;
    text.extend_from_slice(Buffer::new().format(count).as_bytes())
}

/// Adds that a line has just these vertices, behind other conditions.
fn add_line_condition(
    alloc: Global,
    text: &mut Vec<u8>,
    origin: Place,
    places: &[Place],
) -> Result<(), AllocError>
    ensures { OnOk result (text.new.items ≡ text.old.items ++ line_condition origin places.now) }
{
    add_vertex_count(text, places.len())?;
    add_vertex_conditions(alloc, text, origin, places)
}

/// Adds that a line has just these two vertices, behind other conditions.
fn add_segment_condition(
    alloc: Global,
    text: &mut Vec<u8>,
    origin: Place,
    first: Place,
    second: Place,
) -> Result<(), AllocError>
    ensures { OnOk result (text.new.items ≡ text.old.items ++ line_condition origin (first ∷ second ∷ [])) }
{
    let places = [first, second];
    add_line_condition(alloc, text, origin, &places)
}

/// Adds that the geometry of a row is a shape, behind other conditions, and nothing for a row without a shape.
pub(crate) fn add_shape_condition(
    alloc: Global,
    text: &mut Vec<u8>,
    origin: Place,
    shape: &Shape,
) -> Result<(), AllocError>
    ensures { OnOk result (text.new.items ≡ text.old.items ++ shape_condition origin shape.now) }
{
    match shape {
        Shape::Bare => Ok(()),
        Shape::At(place) => {
            text.extend_from_slice(b" AND ")?;
            add_place_condition(text, origin, b"\"WKT\"", *place)
        }
        Shape::Line(first, second) => add_segment_condition(alloc, text, origin, *first, *second),
        Shape::Chain(vertices) => add_line_condition(alloc, text, origin, vertices.as_slice()),
    }
}
