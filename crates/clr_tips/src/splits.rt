//! Lines that are split at one place.

ghost use Rattle.std.specs.Prelude.{◌≡◌, ◌++◌, IfOk, OnOk};
ghost use Rattle.clr_tips.specs.Splits.{brought, node_edits, piece_of, split_by_one, split_by_two};

use crate::copies::copy_edits;
use crate::lines::{Splitter, add_line};
use clr_change::{Edit, Edits};
use clr_rows::{CellId, Place, Row};
use std::alloc::{AllocError, Global};

/// What a design does where lines are split.
#[derive(Debug, Drop)]
pub struct Piece {
    /// The position of the design.
    pub member: usize,
    pub edits: Edits,
    /// The cell of the node that it brings, if it brings one.
    pub node: Option<CellId>,
}

/// Two lines that are split at one place, by one design or by two.
#[derive(Debug, Drop)]
pub struct Split {
    pub place: Place,
    pub first: Piece,
    /// What the other design does, if there are two.
    pub other: Option<Piece>,
}

impl Piece {
    /// Returns a copy of what a design does.
    fn copy(&self, alloc: Global) -> Result<Piece, AllocError>
        ensures { IfOk result (λ copy. copy ≡ self.now) }
    {
        Ok(Piece {
            member: self.member,
            edits: copy_edits(alloc, &self.edits)?,
            node: self.node,
        })
    }
}

/// Returns a copy of what another design does, if there is one.
fn copy_other(alloc: Global, other: &Option<Piece>) -> Result<Option<Piece>, AllocError>
    ensures { IfOk result (λ copy. copy ≡ other.now) }
{
    match other {
        Some(piece) => Ok(Some(piece.copy(alloc)?)),
        None => Ok(None),
    }
}

impl Split {
    /// Returns a copy of lines that are split.
    pub fn copy(&self, alloc: Global) -> Result<Split, AllocError>
        ensures { IfOk result (λ copy. copy ≡ self.now) }
    {
        Ok(Split {
            place: self.place,
            first: self.first.copy(alloc)?,
            other: copy_other(alloc, &self.other)?,
        })
    }
}

/// Returns the cell of the node that a design brings, if it is to bring it.
fn brought(splitter: &Splitter, brings: bool) -> Option<CellId>
    ensures { result ≡ brought splitter.now brings }
{
    if brings { Some(splitter.node) } else { None }
}

/// Adds the edit by which a node is brought to a cell, if there is one.
fn add_node(edits: &mut Vec<Edit>, cell: Option<CellId>, node: &Row) -> Result<(), AllocError>
    ensures { OnOk result (edits.new.items ≡ edits.old.items ++ node_edits cell node.now) }
{
    match cell {
        Some(cell) => Ok(edits.push(Edit::Insert(cell, node.copy()?))?),
        None => Ok(()),
    }
}

/// Returns what the design of a splitter does: it splits its line, and brings the node if it is to.
fn piece_of(
    alloc: Global,
    splitter: &Splitter,
    place: Place,
    node: &Row,
    brings: bool,
) -> Result<Piece, AllocError>
    ensures { IfOk result (λ piece. piece ≡ piece_of splitter.now place node.now brings) }
{
    let cell = brought(splitter, brings);
    let mut edits = Vec::new(alloc);
    add_line(alloc, &mut edits, splitter, place)?;
    add_node(&mut edits, cell, node)?;
    Ok(Piece {
        member: splitter.member,
        edits: Edits::new(edits),
        node: cell,
    })
}

/// Returns how one design splits two lines at a place and brings this node there. The design is that of the first splitter.
pub(crate) fn split_by_one(
    alloc: Global,
    place: Place,
    node: &Row,
    first: &Splitter,
    second: &Splitter,
) -> Result<Split, AllocError>
    ensures { IfOk result (λ split. split ≡ split_by_one place node.now first.now second.now) }
{
    let mut edits = Vec::new(alloc);
    add_line(alloc, &mut edits, first, place)?;
    add_line(alloc, &mut edits, second, place)?;
    add_node(&mut edits, Some(first.node), node)?;
    let piece = Piece {
        member: first.member,
        edits: Edits::new(edits),
        node: Some(first.node),
    };
    Ok(Split {
        place,
        first: piece,
        other: None,
    })
}

/// Returns how two designs split a line each at a place, and which of them bring this node there.
pub(crate) fn split_by_two(
    alloc: Global,
    place: Place,
    node: &Row,
    first: &Splitter,
    second: &Splitter,
    first_brings: bool,
    second_brings: bool,
) -> Result<Split, AllocError>
    ensures { IfOk result (λ split. split ≡ split_by_two place node.now first.now second.now first_brings second_brings) }
{
    let piece = piece_of(alloc, first, place, node, first_brings)?;
    let other = piece_of(alloc, second, place, node, second_brings)?;
    Ok(Split {
        place,
        first: piece,
        other: Some(other),
    })
}
