//! Shapes, as tests write them.

use crate::fields::{number, ordinal};
use clr_rows::{Place, Shape, Vertices};
use std::alloc::Global;

/// Returns a place of two numbers with a comma between them.
pub fn place(text: &str) -> Option<Place> {
    let (x, y) = text.split_once(',')?;
    Some(Place {
        x: number(x)?,
        y: number(y)?,
    })
}

/// Returns places that are parted by spaces, or none for a hyphen.
pub fn places(alloc: Global, text: &str) -> Option<Vec<Place>> {
    let mut list = Vec::new(alloc);
    if text == "-" {
        return Some(list);
    }
    for pair in text.split(' ') {
        list.push(place(pair)?).ok()?;
    }
    Some(list)
}

fn segment(text: &str) -> Option<Shape> {
    let (first, second) = text.split_once(' ')?;
    Some(Shape::Line(place(first)?, place(second)?))
}

/// Returns a path of a number of places from (0, 0), each the same step to the right of the one before; none where the text is no such path.
fn walk(alloc: Global, text: &str) -> Option<Shape> {
    let (count, step) = text.split_once(' ')?;
    let step = i64::from(ordinal(step)?);
    let mut list = Vec::new(alloc);
    for i in 0..ordinal(count)? {
        let x = i64::from(i) * step;
        list.push(Place { x, y: 0 }).ok()?;
    }
    Some(Shape::Chain(Vertices::new(list)))
}

/// Returns the shape of a word and its places: `none`, `at`, `line`, `path`; or `walk`, with how many places and the step between two.
pub fn shape(alloc: Global, text: &str) -> Option<Shape> {
    let (word, rest) = text.split_once(' ').unwrap_or((text, ""));
    match word {
        "none" => Some(Shape::Bare),
        "at" => Some(Shape::At(place(rest)?)),
        "line" => segment(rest),
        "path" => Some(Shape::Chain(Vertices::new(places(alloc, rest)?))),
        "walk" => walk(alloc, rest),
        _ => None,
    }
}
