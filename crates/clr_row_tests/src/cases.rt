//! Cases as lines. A line has a word, what is asked, and the answer after `=>`.
//!
//! - A value is a number, or a text after a quote, as often as the number after a star says. Values are
//!   parted by plus signs; a hyphen stands for none.
//! - A shape is `none`, or `at`, `line` or `path` with places, or `walk` with how many places and how far
//!   from each to the next.
//! - A row is its values and its shape, after its cell, which is a table and a key.
//! - A table is its name, its form and its columns, parted by strokes. Names after a number and a star stand
//!   so often, with numbers.
//! - An edit is a word, a cell and a row. Tables, edits and changes are parted by semicolons.

pub(crate) mod changes;
pub(crate) mod copies;
pub(crate) mod rows;
pub(crate) mod segments;

use crate::answers::{Group, check};

#[test]
fn limits(rt: HostRuntime) {
    check(&rt, rt.alloc(), Group::Rows, rows::LIMITS);
}

#[test]
fn good_names(rt: HostRuntime) {
    check(&rt, rt.alloc(), Group::Rows, rows::NAMES);
}

#[test]
fn faults_of_schemas(rt: HostRuntime) {
    check(&rt, rt.alloc(), Group::Rows, rows::SCHEMAS);
}

#[test]
fn tables_and_columns(rt: HostRuntime) {
    check(&rt, rt.alloc(), Group::Rows, rows::TABLES);
}

#[test]
fn faults_of_cells(rt: HostRuntime) {
    check(&rt, rt.alloc(), Group::Rows, rows::CELLS);
}

#[test]
fn faults_of_rows(rt: HostRuntime) {
    check(&rt, rt.alloc(), Group::Rows, rows::ROWS);
}

#[test]
fn faults_of_paths(rt: HostRuntime) {
    check(&rt, rt.alloc(), Group::Rows, rows::PATHS);
}

#[test]
fn faults_of_values(rt: HostRuntime) {
    check(&rt, rt.alloc(), Group::Rows, rows::VALUES);
}

#[test]
fn copies_and_others(rt: HostRuntime) {
    check(&rt, rt.alloc(), Group::Pairs, copies::PAIRS);
}

#[test]
fn vertices_and_columns_in_order(rt: HostRuntime) {
    check(&rt, rt.alloc(), Group::Shapes, copies::LISTS);
}

#[test]
fn segments_apart(rt: HostRuntime) {
    check(&rt, rt.alloc(), Group::Shapes, segments::APART);
}

#[test]
fn segments_that_meet_once(rt: HostRuntime) {
    check(&rt, rt.alloc(), Group::Shapes, segments::ONCE);
}

#[test]
fn segments_that_overlap(rt: HostRuntime) {
    check(&rt, rt.alloc(), Group::Shapes, segments::OVERLAP);
}

#[test]
fn places_on_segments(rt: HostRuntime) {
    check(&rt, rt.alloc(), Group::Shapes, segments::LYING);
}

#[test]
fn places_to_sides(rt: HostRuntime) {
    check(&rt, rt.alloc(), Group::Shapes, segments::SIDES);
}

#[test]
fn boxes_that_touch(rt: HostRuntime) {
    check(&rt, rt.alloc(), Group::Shapes, segments::BOXES);
}

#[test]
fn places_near_each_other(rt: HostRuntime) {
    check(&rt, rt.alloc(), Group::Shapes, segments::NEARNESS);
}

#[test]
fn parts_of_shapes(rt: HostRuntime) {
    check(&rt, rt.alloc(), Group::Shapes, segments::PARTS);
}

#[test]
fn boxes_of_shapes(rt: HostRuntime) {
    check(&rt, rt.alloc(), Group::Shapes, segments::BOUNDS);
}

#[test]
fn changes_of_edits(rt: HostRuntime) {
    check(&rt, rt.alloc(), Group::Changes, changes::EDITS);
}

#[test]
fn faults_of_edits(rt: HostRuntime) {
    check(&rt, rt.alloc(), Group::Changes, changes::FAULTS);
}

#[test]
fn changes_by_cell(rt: HostRuntime) {
    check(&rt, rt.alloc(), Group::Changes, changes::CHANGES);
}
