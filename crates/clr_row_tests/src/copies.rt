//! Texts, values, rows and shapes, whether they are the same, and copies of them.

use clr_row_test_kit::{columns, place, places, row, shape, value, values, words};
use clr_rows::{Shape, Vertices};
use std::alloc::Global;

/// Returns whether a text is the same as its copy, and as another, and the copy.
pub(crate) fn words_text(alloc: Global, one: &str, other: &str) -> Option<String> {
    let text = words(alloc, one)?;
    let copy = text.copy().ok()?;
    let (alike, same) = (copy.same(&text), words(alloc, other)?.same(&text));
    let length = text.as_str().len();
    let copy = copy.into_string();
    format!(in alloc; "{alike} {same} {} {length}", copy.as_str()).ok()
}

pub(crate) fn value_text(alloc: Global, one: &str, other: &str) -> Option<String> {
    let value_one = value(alloc, one)?;
    let alike = value_one.copy().ok()?.same(&value_one);
    let same = value_one.same(&value(alloc, other)?);
    format!(in alloc; "{alike} {same}").ok()
}

/// Returns whether values are the same as their copy, and as others, in both orders, and how many there are.
pub(crate) fn values_text(alloc: Global, one: &str, other: &str) -> Option<String> {
    let (list, others) = (values(alloc, one)?, values(alloc, other)?);
    let alike = list.same(&list.copy().ok()?);
    let (same, back) = (list.same(&others), others.same(&list));
    let length = list.as_slice().len();
    let list = list.into_vec();
    format!(in alloc; "{alike} {same} {back} {length} {}", list.len()).ok()
}

/// Returns whether a row is the same as its copy, as its clone, and as another.
pub(crate) fn row_text(alloc: Global, one: &str, other: &str) -> Option<String> {
    let row_one = row(alloc, one)?;
    let copied = row_one.copy().ok()?.same(&row_one);
    let cloned = row_one.clone().ok()?.same(&row_one);
    let same = row(alloc, other)?.same(&row_one);
    format!(in alloc; "{copied} {cloned} {same}").ok()
}

pub(crate) fn place_text(alloc: Global, one: &str, other: &str) -> Option<String> {
    let same = place(one)?.same(&place(other)?);
    format!(in alloc; "{same}").ok()
}

/// Returns whether vertices are the same as their copy, how many there are, and the list.
pub(crate) fn vertices_text(alloc: Global, text: &str) -> Option<String> {
    let vertices = Vertices::new(places(alloc, text)?);
    let alike = vertices.copy().ok()?.same(&vertices);
    let length = vertices.as_slice().len();
    let list = vertices.into_vec();
    format!(in alloc; "{alike} {length} {list:?}").ok()
}

/// Returns columns as a slice, and how many the list has.
pub(crate) fn columns_text(alloc: Global, text: &str) -> Option<String> {
    let columns = columns(alloc, text)?;
    let slice = format!(in alloc; "{:?}", columns.as_slice()).ok()?;
    let list = columns.into_vec();
    format!(in alloc; "{} {}", slice.as_str(), list.len()).ok()
}

/// Shapes that all differ.
const SHAPES: &str = "at 1,2
line 1,2 1,3
at 1,3
line 1,3 1,2
path 1,2 1,3 4,4
path 4,4 1,3 1,2
path 1,2 1,3 4,5
none
path 1,2 1,3";

fn shapes(alloc: Global) -> Option<Vec<Shape>> {
    let mut list = Vec::new(alloc);
    for line in SHAPES.lines() {
        list.push(shape(alloc, line)?).ok()?;
    }
    Some(list)
}

/// Returns whether two of some shapes are the same, and each the same as its copy.
fn are_same(shapes: &[Shape], i: usize, j: usize) -> Option<bool> {
    let (one, other) = (shapes.get(i)?, shapes.get(j)?);
    if !one.copy().ok()?.same(one) {
        return None;
    }
    Some(one.same(other))
}

/// Returns whether each shape is the same as itself alone.
fn differ(alloc: Global) -> Option<bool> {
    let shapes = shapes(alloc)?;
    let mut all = shapes.len() == 9;
    for i in 0..shapes.len() {
        for j in 0..shapes.len() {
            all = are_same(shapes.as_slice(), i, j)? == (i == j) && all;
        }
    }
    Some(all)
}

#[test]
fn shapes_vertex_by_vertex(rt: HostRuntime) {
    assert!(rt; differ(rt.alloc()) == Some(true));
}
