//! Cases as lines. A line has a word, a rule or a book, rows after bars, and the answer after `=>`.
//!
//! - A value is a number, or a text after a quote; values are parted by plus signs.
//! - A row is its table and key, its values, and its shape: `at`, `line` or `path` with places.
//! - A side is a table, with literals after colons, each after its column and `=`.
//! - A rule is `unique` with a side and columns; `partner` with both sides, each before its columns;
//!   `first` or `second`, by the end, with the subject and the server; `crossing` with its two sides and
//!   the server; `near` with its two sides and the distance.
//! - Columns are numbers or K, for the key, parted by plus signs; a hyphen stands for none.
//! - Rules are parted by semicolons. A rule after a number and a star stands so often.

pub(crate) mod audits;
pub(crate) mod books;
pub(crate) mod lists;
pub(crate) mod servers;
pub(crate) mod spots;
pub(crate) mod subjects;

use crate::answers::check;
use crate::networks::{NETWORK, TEXTS_AND_NUMBERS};

#[test]
fn faults_of_uniques(rt: HostRuntime) {
    check(&rt, rt.alloc(), NETWORK, books::UNIQUES);
}

#[test]
fn faults_of_partners(rt: HostRuntime) {
    check(&rt, rt.alloc(), NETWORK, books::PARTNERS);
}

#[test]
fn faults_of_end_nodes(rt: HostRuntime) {
    check(&rt, rt.alloc(), NETWORK, books::END_NODES);
}

#[test]
fn faults_of_crossings(rt: HostRuntime) {
    check(&rt, rt.alloc(), NETWORK, books::CROSSINGS);
}

#[test]
fn faults_of_distances(rt: HostRuntime) {
    check(&rt, rt.alloc(), NETWORK, books::DISTANCES);
}

#[test]
fn faults_of_filters(rt: HostRuntime) {
    check(&rt, rt.alloc(), NETWORK, books::FILTERS);
}

#[test]
fn the_first_bad_rule_of_a_book(rt: HostRuntime) {
    check(&rt, rt.alloc(), NETWORK, books::ORDER);
}

#[test]
fn rows_that_call(rt: HostRuntime) {
    check(&rt, rt.alloc(), NETWORK, subjects::ROWS);
}

#[test]
fn parts_that_call(rt: HostRuntime) {
    check(&rt, rt.alloc(), NETWORK, subjects::PARTS);
}

#[test]
fn rows_that_serve(rt: HostRuntime) {
    check(&rt, rt.alloc(), NETWORK, servers::ROWS);
}

#[test]
fn parts_that_are_served(rt: HostRuntime) {
    check(&rt, rt.alloc(), NETWORK, servers::PARTS);
}

#[test]
fn values_of_uniques(rt: HostRuntime) {
    check(&rt, rt.alloc(), TEXTS_AND_NUMBERS, spots::UNIQUES);
}

#[test]
fn values_of_partners(rt: HostRuntime) {
    check(&rt, rt.alloc(), TEXTS_AND_NUMBERS, spots::PARTNERS);
}

#[test]
fn squares_of_ends(rt: HostRuntime) {
    check(&rt, rt.alloc(), TEXTS_AND_NUMBERS, spots::END_NODES);
}

#[test]
fn squares_of_crossings(rt: HostRuntime) {
    check(&rt, rt.alloc(), TEXTS_AND_NUMBERS, spots::CROSSINGS);
}

#[test]
fn squares_of_near_points(rt: HostRuntime) {
    check(&rt, rt.alloc(), TEXTS_AND_NUMBERS, spots::NEARS);
}

#[test]
fn numbers_of_squares(rt: HostRuntime) {
    check(&rt, rt.alloc(), TEXTS_AND_NUMBERS, spots::COUNTS);
}

#[test]
fn lists_in_order(rt: HostRuntime) {
    check(&rt, rt.alloc(), NETWORK, lists::LISTS);
}
