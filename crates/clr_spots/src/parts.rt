//! The squares that meet the parts of a shape.

ghost use Rattle.std.specs.Prelude.{◌≡◌, ◌<◌, Some, length, slice_get, IfOk};
ghost use Rattle.clr_rows.specs.Parts.{parts_of};
ghost use Rattle.clr_rules.specs.Fitting.{IsSoundShape, IsSoundSegment};
ghost use Rattle.clr_spots.specs.Listing.{AddsSquares};
ghost use Rattle.clr_spots.specs.Reach.{IsNear};
ghost use Rattle.clr_spots.specs.Spots.{boxes_of_parts, squares_of_all, union, are_many, unless_many};

use crate::boxes::box_between;
use crate::limits::MOST_SPOTS;
use crate::spots::{Spot, SpotList, Spots};
use crate::squares::{count_squares, list_squares};
use clr_rows::{Place, Shape};
use clr_segments::{Bounds, part, parts};
use std::alloc::{AllocError, Global};

/// Adds those of some spots that a list doesn't have.
fn add_new(list: &mut Vec<Spot>, spots: Vec<Spot>) -> Result<(), AllocError>
    ensures { IfOk result (λ _. list.new.items ≡ union list.old.items spots.items) }
{
    let old = list.len();
    for spot in spots {
        if !list[..old].contains(&spot) {
            list.push(spot)?;
        }
    }
    Ok(())
}

/// Adds the squares that meet a box to a list, each once, and tells whether they aren't too many.
fn add_squares(alloc: Global, list: &mut Vec<Spot>, bounds: Bounds) -> Result<bool, AllocError>
    requires { IsNear bounds }
    ensures { IfOk result (λ all. AddsSquares all list.old.items list.new.items bounds) }
{
    if count_squares(bounds) > MOST_SPOTS as u64 {
        return Ok(false);
    }
    let squares = list_squares(alloc, bounds)?;
    add_new(list, squares)?;
    Ok(list.len() <= MOST_SPOTS)
}

/// Returns the part at a position, from 0, which is there.
fn part_at(shape: &Shape, position: u16) -> (Place, Place)
    requires sound { IsSoundShape shape.now }
    requires there { position < length (parts_of shape.now) }
    ensures value { slice_get (parts_of shape.now) position ≡ Some result }
    ensures sound { IsSoundSegment result }
{
    part(shape, position + 1).unwrap()
}

/// Returns the squares that meet the box of some part of a shape. Too many are not listed.
pub(crate) fn spots_of_parts(alloc: Global, shape: &Shape) -> Result<Spots, AllocError>
    requires { IsSoundShape shape.now }
    ensures list { IfOk result (λ spots. spots.list ≡ unless_many (squares_of_all (boxes_of_parts shape.now))) }
    ensures wide { IfOk result (λ spots. spots.wide ≡ are_many (squares_of_all (boxes_of_parts shape.now))) }
{
    let mut list = Vec::new(alloc);
    for position in 0..parts(shape) {
        let (first, second) = part_at(shape, position);
        if !add_squares(alloc, &mut list, box_between(first, second))? {
            return Ok(Spots {
                list: SpotList::new(Vec::new(alloc)),
                wide: true,
            });
        }
    }
    Ok(Spots {
        list: SpotList::new(list),
        wide: false,
    })
}
