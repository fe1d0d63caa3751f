//! What a row gets that it has otherwise.

ghost use Rattle.std.specs.Prelude.{◌≡◌, ◌++◌, OnOk, IfOk, codes, map};
ghost use Rattle.std.specs.List.{flat_map, zip};
ghost use Rattle.clr_rows.specs.Same.{same_shape, same_value};
ghost use Rattle.clr_guarded_edits.specs.SqlTexts.{assigned, assigned_shape, assignments, listed};

use clr_rows::{Kind, Row, Shape, TableDef, Value, Words};
use clr_sql::{Target, add_geometry, add_name, add_value};
use std::alloc::{AllocError, Global};

/// Returns whether two values are the same.
fn is_same_value(one: &Value, other: &Value) -> bool
    ensures { result ≡ same_value one.now other.now }
{
    one.same(other)
}

/// Returns whether two shapes are the same.
fn is_same_shape(one: &Shape, other: &Shape) -> bool
    ensures { result ≡ same_shape one.now other.now }
{
    one.same(other)
}

/// Adds the assignment of a value to a column, where the row has another there.
fn add_assigned(
    alloc: Global,
    pieces: &mut Vec<Vec<u8>>,
    column: &(Words, Kind),
    old: &Value,
    new: &Value,
) -> Result<(), AllocError>
    ensures { OnOk result (map (λ piece. piece.items) pieces.new.items
        ≡ map (λ piece. piece.items) pieces.old.items ++ assigned (column.now, (old.now, new.now))) }
{
    if is_same_value(old, new) {
        return Ok(());
    }
    let mut piece = Vec::new(alloc);
    add_name(&mut piece, column.0.as_str())?;
    piece.extend_from_slice(b" = ")?;
    add_value(&mut piece, new)?;
    pieces.push(piece)?;
    Ok(())
}

/// Adds the assignments of values.
fn add_assigned_values(
    alloc: Global,
    pieces: &mut Vec<Vec<u8>>,
    columns: &[(Words, Kind)],
    old: &[Value],
    new: &[Value],
) -> Result<(), AllocError>
    ensures { OnOk result (map (λ piece. piece.items) pieces.new.items
        ≡ map (λ piece. piece.items) pieces.old.items ++ flat_map assigned (zip columns.now (zip old.now new.now))) }
{
    let count = columns.len().min(old.len()).min(new.len());
    for at in 0..count {
        add_assigned(alloc, pieces, &columns[at], &old[at], &new[at])?;
    }
    Ok(())
}

/// Adds the assignment of a shape, where the row has another.
fn add_assigned_shape(
    alloc: Global,
    pieces: &mut Vec<Vec<u8>>,
    target: &Target,
    old: &Shape,
    new: &Shape,
) -> Result<(), AllocError>
    ensures { OnOk result (map (λ piece. piece.items) pieces.new.items
        ≡ map (λ piece. piece.items) pieces.old.items ++ assigned_shape target.now old.now new.now) }
{
    if is_same_shape(old, new) {
        return Ok(());
    }
    let mut piece = Vec::from_slice(alloc, b"\"WKT\" = ")?;
    add_geometry(&mut piece, target, new)?;
    pieces.push(piece)?;
    Ok(())
}

/// Returns the assignments that make one row of a table another.
pub(crate) fn assignments(
    alloc: Global,
    target: &Target,
    table: &TableDef,
    old: &Row,
    new: &Row,
) -> Result<Vec<Vec<u8>>, AllocError>
    ensures { IfOk result (λ pieces. map (λ piece. piece.items) pieces.items ≡ assignments target.now table.now old.now new.now) }
{
    let mut pieces = Vec::new(alloc);
    let (before, after) = (old.values.as_slice(), new.values.as_slice());
    add_assigned_values(alloc, &mut pieces, table.columns.as_slice(), before, after)?;
    add_assigned_shape(alloc, &mut pieces, target, &old.shape, &new.shape)?;
    Ok(pieces)
}

/// Adds pieces, each behind a comma.
fn add_others(text: &mut Vec<u8>, pieces: &[Vec<u8>]) -> Result<(), AllocError>
    ensures { OnOk result (text.new.items
        ≡ text.old.items ++ flat_map (λ other. codes ", " ++ other) (map (λ piece. piece.items) pieces.now)) }
{
    for piece in pieces {
        text.extend_from_slice(b", ")?;
        text.extend_from_slice(piece.as_slice())?;
    }
    Ok(())
}

/// Adds pieces, with commas between them.
pub(crate) fn add_listed(text: &mut Vec<u8>, pieces: &[Vec<u8>]) -> Result<(), AllocError>
    ensures { OnOk result (text.new.items ≡ text.old.items ++ listed (map (λ piece. piece.items) pieces.now)) }
{
    match pieces {
        [] => Ok(()),
        [first, others @ ..] => {
            text.extend_from_slice(first.as_slice())?;
            add_others(text, others)
        }
    }
}
