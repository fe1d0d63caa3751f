//! Functions that only read numbers: reading one shows that it is within 64 bits.

ghost use Rattle.std.specs.Prelude.{◌≡◌, true};
ghost use Rattle.std.specs.List.{list_all};
ghost use Rattle.clr_rows.specs.Ranges.{is_place_within, is_shape_within, is_within};
ghost use Rattle.clr_rows.specs.Schemas.{is_number};

use crate::cells::CellId;
use crate::places::{Place, Shape};
use crate::rows::{Row, Value};

fn read_value(value: &Value)
    ensures { is_number value.now ≡ true }
{
    if let Value::Int(number) = value {
        let _number = *number;
    }
}

/// Reads the numbers of a row's values.
pub(crate) fn read_values(values: &[Value])
    ensures { list_all is_number values.now ≡ true }
{
    for value in values {
        read_value(value);
    }
}

fn read_place(place: &Place)
    ensures { is_place_within place.now ≡ true }
{
    let _x = place.x;
    let _y = place.y;
}

fn read_places(places: &[Place])
    ensures { list_all is_place_within places.now ≡ true }
{
    for place in places {
        read_place(place);
    }
}

fn read_shape(shape: &Shape)
    ensures { is_shape_within shape.now ≡ true }
{
    match shape {
        Shape::Bare => {}
        Shape::At(place) => read_place(place),
        Shape::Line(first, second) => {
            read_place(first);
            read_place(second);
        }
        Shape::Chain(vertices) => read_places(vertices.as_slice()),
    }
}

/// Reads the numbers of a row at a cell.
#[tactic(auto, unfolding(crate::specs::Ranges::is_within))]
pub(crate) fn read_row(cell: CellId, row: &Row)
    ensures { is_within cell row.now ≡ true }
{
    read_values(row.values.as_slice());
    read_shape(&row.shape);
}
