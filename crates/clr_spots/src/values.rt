//! The values of a row in columns, as a spot.

ghost use Rattle.std.specs.Prelude.{◌≡◌, ◌∷◌, [], option_to_list, IfOk};
ghost use Rattle.std.specs.List.{filter_map};
ghost use Rattle.clr_rows.specs.Held.{held_of};
ghost use Rattle.clr_rules.specs.Sides.{field, is_of_side};
ghost use Rattle.clr_spots.specs.Spots.{values_in, in_role};

use crate::spots::Spot;
use clr_rows::{Held, Value, Values};
use clr_rules::{Col, ColumnList, Side, is_of_side};
use std::alloc::{AllocError, Global};

/// Returns the primary key, or the value in a column, if the row has the column.
fn field(held: Held, column: Col) -> Result<Option<Value>, AllocError>
    ensures { IfOk result (λ value. value ≡ field (held_of held.entry) column) }
{
    match column {
        Col::Key => Ok(Some(Value::Int(held.cell.key))),
        Col::At(number) => match held.row.values.as_slice().get(number as usize) {
            Some(value) => Ok(Some(value.copy()?)),
            None => Ok(None),
        },
    }
}

/// Returns the values of a row in some columns.
fn values_of(alloc: Global, held: Held, columns: &[Col]) -> Result<Vec<Value>, AllocError>
    ensures { IfOk result (λ list. list.items ≡ filter_map (field (held_of held.entry)) columns.now) }
{
    let mut list = Vec::with_capacity(alloc, columns.len())?;
    for column in columns {
        if let Some(value) = field(held, *column)? {
            list.push(value)?;
        }
    }
    Ok(list)
}

/// Returns the values of a row in some columns as a spot, if the row is of the side.
pub(crate) fn values_of_side(
    alloc: Global,
    side: &Side,
    columns: &ColumnList,
    held: Held,
) -> Result<Option<Spot>, AllocError>
    ensures { IfOk result (λ spot. option_to_list spot ≡ in_role (is_of_side side.now (held_of held.entry)) (values_in (held_of held.entry) columns.now ∷ [])) }
{
    if !is_of_side(side, held) {
        return Ok(None);
    }
    let list = values_of(alloc, held, columns.as_slice())?;
    Ok(Some(Spot::Values(Values::new(list))))
}
