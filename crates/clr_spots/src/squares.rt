//! Squares of the plane, and those that meet a box.

ghost use Rattle.std.specs.Prelude.{◌≡◌, ◌≤◌, ◌++◌, length, unsigned_abs, IfOk};
ghost use Rattle.clr_spots.specs.Spots.{square_of, span, column_of_squares, grid_of_squares, squares_of, are_many, unless_many};
ghost use Rattle.clr_spots.specs.Reach.{IsNear};
ghost use Rattle.clr_spots.specs.declared.limits.TheConstants.{GREATEST_REACH, GREATEST_SQUARE, MOST_SQUARES_ACROSS};

use crate::limits::{MOST_SPOTS, SQUARE_SIDE};
use crate::spots::{Spot, SpotList, Spots};
use clr_segments::Bounds;
use std::alloc::{AllocError, Global};

/// Returns the number of the square that a coordinate is in.
pub(crate) fn square_of(x: i64) -> i64
    requires { unsigned_abs x ≤ GREATEST_REACH }
    ensures value { result ≡ square_of x }
    ensures bound { unsigned_abs result ≤ GREATEST_SQUARE }
{
    x.div_euclid(SQUARE_SIDE)
}

/// Returns how many squares the coordinates from low to high are in.
fn span(low: i64, high: i64) -> u64
    requires low_near { unsigned_abs low ≤ GREATEST_REACH }
    requires high_near { unsigned_abs high ≤ GREATEST_REACH }
    ensures value { result ≡ span low high }
    ensures bound { result ≤ MOST_SQUARES_ACROSS }
{
    (square_of(high) - square_of(low)).unsigned_abs() + 1
}

/// Returns how many squares meet a box.
pub(crate) fn count_squares(bounds: Bounds) -> u64
    requires { IsNear bounds }
    ensures { result ≡ length (squares_of bounds) }
{
    span(bounds.least.x, bounds.most.x) * span(bounds.least.y, bounds.most.y)
}

/// Adds n squares upwards from (i, j).
fn add_column(list: &mut Vec<Spot>, i: i64, j: i64, n: u64) -> Result<(), AllocError>
    requires j_in { unsigned_abs j ≤ GREATEST_SQUARE }
    requires few { n ≤ MOST_SQUARES_ACROSS }
    ensures { IfOk result (λ _. list.new.items ≡ list.old.items ++ column_of_squares i j n) }
{
    for k in 0..n {
        list.push(Spot::Square(i, j + k as i64))?;
    }
    Ok(())
}

/// Lists m columns of n squares, from (i, j) to the right.
fn list_grid(alloc: Global, i: i64, j: i64, m: u64, n: u64) -> Result<Vec<Spot>, AllocError>
    requires i_in { unsigned_abs i ≤ GREATEST_SQUARE }
    requires j_in { unsigned_abs j ≤ GREATEST_SQUARE }
    requires few { m ≤ MOST_SQUARES_ACROSS }
    requires low { n ≤ MOST_SQUARES_ACROSS }
    ensures { IfOk result (λ list. list.items ≡ grid_of_squares i j m n) }
{
    let mut list = Vec::with_capacity(alloc, (m * n) as usize)?;
    for k in 0..m {
        add_column(&mut list, i + k as i64, j, n)?;
    }
    Ok(list)
}

/// Returns all squares that meet a box.
#[tactic(auto, unfolding(crate::specs::Spots::squares_of))]
pub(crate) fn list_squares(alloc: Global, bounds: Bounds) -> Result<Vec<Spot>, AllocError>
    requires { IsNear bounds }
    ensures { IfOk result (λ list. list.items ≡ squares_of bounds) }
{
    let i = square_of(bounds.least.x);
    let j = square_of(bounds.least.y);
    let columns = span(bounds.least.x, bounds.most.x);
    let rows = span(bounds.least.y, bounds.most.y);
    list_grid(alloc, i, j, columns, rows)
}

/// Returns the squares that meet a box. Too many are not listed.
pub(crate) fn spots_of_box(alloc: Global, bounds: Bounds) -> Result<Spots, AllocError>
    requires { IsNear bounds }
    ensures list { IfOk result (λ spots. spots.list ≡ unless_many (squares_of bounds)) }
    ensures wide { IfOk result (λ spots. spots.wide ≡ are_many (squares_of bounds)) }
{
    let wide = count_squares(bounds) > MOST_SPOTS as u64;
    let list = if wide {
        Vec::new(alloc)
    } else {
        list_squares(alloc, bounds)?
    };
    Ok(Spots {
        list: SpotList::new(list),
        wide,
    })
}
