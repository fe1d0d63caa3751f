//! The edits by which a line is split at a place.

ghost use Rattle.std.specs.Prelude.{◌≡◌, ◌++◌, IfOk, OnOk};
ghost use Rattle.clr_tips.specs.Lines.{bent, halves, line_edits, with_shape, with_vertex};

use clr_change::Edit;
use clr_rows::{CellId, Place, Row, Shape, Vertices};
use std::alloc::{AllocError, Global};

/// A design that splits a line.
#[derive(Debug, Drop)]
pub(crate) struct Splitter {
    /// The position of the design.
    pub member: usize,
    /// The cell of the line, and its row.
    pub cell: CellId,
    pub row: Row,
    /// The part that is split, counted from 1.
    pub part: u16,
    /// The key of the row that goes on where a segment ends at the place.
    pub key: i64,
    /// The cell of the node that the design may bring.
    pub node: CellId,
}

/// Returns a row with the same values and another shape.
fn with_shape(row: &Row, shape: Shape) -> Result<Row, AllocError>
    ensures { IfOk result (λ copy. copy ≡ with_shape row.now shape) }
{
    Ok(Row {
        values: row.values.copy()?,
        shape,
    })
}

/// Returns vertices with one more between the two of a part.
fn with_vertex(
    alloc: Global,
    vertices: &[Place],
    part: usize,
    place: Place,
) -> Result<Vec<Place>, AllocError>
    ensures { IfOk result (λ list. list.items ≡ with_vertex vertices.now part place) }
{
    if part > vertices.len() {
        return Vec::from_slice(alloc, vertices);
    }
    let mut list = Vec::from_slice(alloc, &vertices[..part])?;
    list.push(place)?;
    list.extend_from_slice(&vertices[part..])?;
    Ok(list)
}

/// Adds the edits by which a segment ends at a place, and another row goes on from there.
fn add_halves(
    edits: &mut Vec<Edit>,
    splitter: &Splitter,
    first: Place,
    last: Place,
    place: Place,
) -> Result<(), AllocError>
    ensures { OnOk result (edits.new.items ≡ edits.old.items ++ halves splitter.now first last place) }
{
    let next = CellId {
        table: splitter.cell.table,
        key: splitter.key,
    };
    let before = with_shape(&splitter.row, Shape::Line(first, place))?;
    let behind = with_shape(&splitter.row, Shape::Line(place, last))?;
    edits.push(Edit::Update(splitter.cell, before))?;
    edits.push(Edit::Insert(next, behind))?;
    Ok(())
}

/// Adds the edit by which a path has one more vertex.
fn add_bent(
    alloc: Global,
    edits: &mut Vec<Edit>,
    splitter: &Splitter,
    vertices: &Vertices,
    place: Place,
) -> Result<(), AllocError>
    ensures { OnOk result (edits.new.items ≡ edits.old.items ++ bent splitter.now vertices.now place) }
{
    let list = with_vertex(alloc, vertices.as_slice(), splitter.part as usize, place)?;
    let row = with_shape(&splitter.row, Shape::Chain(Vertices::new(list)))?;
    edits.push(Edit::Update(splitter.cell, row))?;
    Ok(())
}

/// Adds the edits by which the line of a row is split at a place; none where the row has no line.
pub(crate) fn add_line(
    alloc: Global,
    edits: &mut Vec<Edit>,
    splitter: &Splitter,
    place: Place,
) -> Result<(), AllocError>
    ensures { OnOk result (edits.new.items ≡ edits.old.items ++ line_edits splitter.now place) }
{
    match &splitter.row.shape {
        Shape::Line(first, last) => add_halves(edits, splitter, *first, *last, place),
        Shape::Chain(vertices) => add_bent(alloc, edits, splitter, vertices, place),
        Shape::Bare | Shape::At(_) => Ok(()),
    }
}
