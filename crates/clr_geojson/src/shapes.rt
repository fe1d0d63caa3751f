//! How shapes are written.

ghost use Rattle.std.specs.Prelude.{◌≡◌, ◌++◌, OnOk};
ghost use Rattle.std.specs.List.{flat_map};
ghost use Rattle.clr_geojson.specs.Features.{after_comma, line_text, place_text, places_text, point_text, shape_text};

use crate::marks::{LINE, POINT};
use clr_metres::add_metres;
use clr_rows::{Place, Shape};
use std::alloc::AllocError;

#[tactic(auto, unfolding(crate::specs::Features::place_text))]
fn add_place(text: &mut Vec<u8>, place: Place) -> Result<(), AllocError>
    ensures { OnOk result (text.new.items ≡ text.old.items ++ place_text place) }
{
    text.extend_from_slice(b"[")?;
    add_metres(text, place.x)?;
    text.extend_from_slice(b",")?;
    add_metres(text, place.y)?;
    text.extend_from_slice(b"]")
}

fn add_after_comma(text: &mut Vec<u8>, place: Place) -> Result<(), AllocError>
    ensures { OnOk result (text.new.items ≡ text.old.items ++ after_comma place_text place) }
{
    text.extend_from_slice(b",")?;
    add_place(text, place)
}

/// Adds places, each after a comma.
fn add_further(text: &mut Vec<u8>, places: &[Place]) -> Result<(), AllocError>
    ensures { OnOk result (text.new.items ≡ text.old.items ++ flat_map (after_comma place_text) places.now) }
{
    for place in places {
        add_after_comma(text, *place)?;
    }
    Ok(())
}

/// Adds places, with commas between them.
#[tactic(auto, unfolding(crate::specs::Features::places_text))]
fn add_places(text: &mut Vec<u8>, places: &[Place]) -> Result<(), AllocError>
    ensures { OnOk result (text.new.items ≡ text.old.items ++ places_text places.now) }
{
    match places {
        [] => Ok(()),
        [first, further @ ..] => {
            add_place(text, *first)?;
            add_further(text, further)
        }
    }
}

#[tactic(auto, unfolding(crate::specs::Features::point_text))]
fn add_point(text: &mut Vec<u8>, place: Place) -> Result<(), AllocError>
    ensures { OnOk result (text.new.items ≡ text.old.items ++ point_text place) }
{
    text.extend_from_slice(POINT.as_bytes())?;
    add_place(text, place)?;
    text.extend_from_slice(b"}")
}

#[tactic(auto, unfolding(crate::specs::Features::line_text))]
fn add_line(text: &mut Vec<u8>, places: &[Place]) -> Result<(), AllocError>
    ensures { OnOk result (text.new.items ≡ text.old.items ++ line_text places.now) }
{
    text.extend_from_slice(LINE.as_bytes())?;
    add_places(text, places)?;
    text.extend_from_slice(b"]}")
}

/// Adds a shape as a geometry, in metres.
#[tactic(auto, unfolding(crate::specs::Features::shape_text))]
pub(crate) fn add_shape(text: &mut Vec<u8>, shape: &Shape) -> Result<(), AllocError>
    ensures { OnOk result (text.new.items ≡ text.old.items ++ shape_text shape.now) }
{
    match shape {
        Shape::Bare => text.extend_from_slice(b"null"),
        Shape::At(place) => add_point(text, *place),
        Shape::Line(first, second) => add_line(text, &[*first, *second]),
        Shape::Chain(vertices) => add_line(text, vertices.as_slice()),
    }
}
