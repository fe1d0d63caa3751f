//! Shapes as geometries.

ghost use Rattle.std.specs.Prelude.{◌≡◌, ◌++◌, ◌∷◌, [], codes, OnOk};
ghost use Rattle.std.specs.Fmt.{decimal};
ghost use Rattle.std.specs.List.{flat_map};
ghost use Rattle.clr_metres.specs.Metres.{metres_text};
ghost use Rattle.clr_layer_text.specs.Pieces.{space};
ghost use Rattle.clr_layer_text.specs.Wkt.{closing, line_text, next_text, place_text, places_text, point_text, shape_text};
ghost use Rattle.clr_sql.specs.Shapes.{geometry_text};

use crate::targets::Target;
use clr_metres::add_metres;
use clr_rows::{Place, Shape};
use itoa::Buffer;
use std::alloc::AllocError;

/// Adds a number of millimetres as metres, behind a space.
fn add_spaced(text: &mut Vec<u8>, millimetres: i64) -> Result<(), AllocError>
    ensures { OnOk result (text.new.items ≡ text.old.items ++ space ∷ metres_text millimetres) }
{
    text.push(b' ')?;
    add_metres(text, millimetres)
}

/// Adds a place as two numbers of metres.
fn add_place(text: &mut Vec<u8>, place: Place) -> Result<(), AllocError>
    ensures { OnOk result (text.new.items ≡ text.old.items ++ place_text place) }
{
    add_metres(text, place.x)?;
    add_spaced(text, place.y)
}

/// Adds a place behind another one.
fn add_next(text: &mut Vec<u8>, place: Place) -> Result<(), AllocError>
    ensures { OnOk result (text.new.items ≡ text.old.items ++ next_text place) }
{
    text.extend_from_slice(b", ")?;
    add_place(text, place)
}

/// Adds places behind another one.
fn add_others(text: &mut Vec<u8>, places: &[Place]) -> Result<(), AllocError>
    ensures { OnOk result (text.new.items ≡ text.old.items ++ flat_map next_text places.now) }
{
    for place in places {
        add_next(text, *place)?;
    }
    Ok(())
}

fn add_places(text: &mut Vec<u8>, places: &[Place]) -> Result<(), AllocError>
    ensures { OnOk result (text.new.items ≡ text.old.items ++ places_text places.now) }
{
    match places {
        [] => Ok(()),
        [first, others @ ..] => {
            add_place(text, *first)?;
            add_others(text, others)
        }
    }
}

/// Adds places, and the end of their parentheses.
fn add_closed(text: &mut Vec<u8>, places: &[Place]) -> Result<(), AllocError>
    ensures { OnOk result (text.new.items ≡ text.old.items ++ (places_text places.now ++ closing ∷ [])) }
{
    add_places(text, places)?;
    text.extend_from_slice(b")")
}

fn add_line(text: &mut Vec<u8>, places: &[Place]) -> Result<(), AllocError>
    ensures { OnOk result (text.new.items ≡ text.old.items ++ line_text places.now) }
{
    text.extend_from_slice(b"LINESTRING (")?;
    add_closed(text, places)
}

fn add_point(text: &mut Vec<u8>, place: Place) -> Result<(), AllocError>
    ensures { OnOk result (text.new.items ≡ text.old.items ++ point_text place) }
{
    text.extend_from_slice(b"POINT (")?;
    add_place(text, place)?;
    text.extend_from_slice(b")")
}

/// Adds a shape as WKT, as layers have it, and nothing for none.
fn add_wkt(text: &mut Vec<u8>, shape: &Shape) -> Result<(), AllocError>
    ensures { OnOk result (text.new.items ≡ text.old.items ++ shape_text shape.now) }
{
    match shape {
        Shape::Bare => Ok(()),
        Shape::At(place) => add_point(text, *place),
        Shape::Line(first, second) => add_line(text, &[*first, *second]),
        Shape::Chain(vertices) => add_line(text, vertices.as_slice()),
    }
}

/// Adds a shape in its system of coordinates, and what stands before the origin.
fn add_in_system(text: &mut Vec<u8>, system: u32, shape: &Shape) -> Result<(), AllocError>
    ensures { OnOk result (text.new.items
        ≡ text.old.items ++ codes "ST_Translate(ST_GeomFromText('" ++ shape_text shape.now ++ codes "', " ++ decimal system ++ codes "), ") }
{
    text.extend_from_slice(b"ST_Translate(ST_GeomFromText('")?;
    add_wkt(text, shape)?;
    text.extend_from_slice(b"', ")?;
    text.extend_from_slice(Buffer::new().format(system).as_bytes())?;
    text.extend_from_slice(b"), ")
}

/// Adds the origin, to which a geometry is moved, and the end of its parentheses.
fn add_origin(text: &mut Vec<u8>, origin: Place) -> Result<(), AllocError>
    ensures { OnOk result (text.new.items ≡ text.old.items ++ metres_text origin.x ++ codes ", " ++ metres_text origin.y ++ codes ", 0)") }
{
    add_metres(text, origin.x)?;
    text.extend_from_slice(b", ")?;
    add_metres(text, origin.y)?;
    text.extend_from_slice(b", 0)")
}

/// Adds a shape as a geometry of the database: `ST_Translate(ST_GeomFromText('POINT (5.000 5.000)', 25832), 565000.000, 5934000.000, 0)` is the point
/// (5000, 5000) of an office whose origin is (565000, 5934000) in the system EPSG:25832. If memory runs out, part of it may have been added.
pub fn add_geometry(text: &mut Vec<u8>, target: &Target, shape: &Shape) -> Result<(), AllocError>
    ensures { OnOk result (text.new.items ≡ text.old.items ++ geometry_text target.now shape.now) }
{
    add_in_system(text, target.system, shape)?;
    add_origin(text, target.origin)
}
