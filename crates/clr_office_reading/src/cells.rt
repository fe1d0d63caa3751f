//! The rows of an office text, as they are written.

ghost use Rattle.std.specs.Prelude.{◌≡◌};
ghost use Rattle.serde_json.specs.Find.{get};
ghost use Rattle.clr_readings.specs.Readings.{Gives};
ghost use Rattle.clr_rule_text.specs.Fields.{text_lacks_memory};
ghost use Rattle.clr_rule_text.specs.Seen.{items_seen};
ghost use Rattle.clr_office_reading.specs.Cells.{has_paths as table_has_paths, live_rows_of, named_row_of, place_of, places_of, row_of};
ghost use Rattle.clr_office_reading.specs.Cells.{shape_of, shape_with as shape_in, values_of, without_flag};

use clr_rows::{Form, Place, Row, Schema, Shape, Values, Vertices, Words};
use clr_rule_text::TextFault;
use clr_rule_text::fields::{list_in, number, number_in, words_in};
use clr_rule_text::json_values::JsonValue;
use clr_rule_text::lists::read_items;
pub use clr_rule_text::values::value;
use std::alloc::Global;

/// A row with its key and the name of its table, which may be unknown.
#[derive(Debug, Drop)]
pub struct NamedRow {
    pub table: Words,
    pub key: i64,
    pub row: Row,
}

#[tactic(auto, unfolding(crate::specs::Cells::place_of))]
fn place<J: JsonValue>(x: &J, y: &J) -> Result<Place, TextFault>
    ensures { Gives text_lacks_memory (λ p. p) result (place_of (J.stands_for x.now) (J.stands_for y.now)) }
{
    Ok(Place {
        x: number(x)?,
        y: number(y)?,
    })
}

/// Returns the places that numbers are two by two. Fails with `BadField` where one is left over.
fn places<J: JsonValue>(alloc: Global, numbers: &[J]) -> Result<Vec<Place>, TextFault>
    ensures { Gives text_lacks_memory (λ v. v.items) result (places_of (items_seen J.stands_for numbers.now)) }
{
    let mut places = Vec::with_capacity(alloc, numbers.len() / 2)?;
    let mut rest = numbers;
    while let [x, y, more @ ..] = rest {
        let one = place(x, y)?;
        places.push(one)?;
        rest = more;
    }
    if !rest.is_empty() {
        return Err(TextFault::BadField);
    }
    Ok(places)
}

/// Returns the shape of a row with these places, which are all vertices in a table of paths.
fn shape_with(is_path: bool, places: Vec<Place>) -> Result<Shape, TextFault>
    ensures { Gives text_lacks_memory (λ s. s) result (shape_in is_path places.items) }
{
    if is_path {
        return Ok(Shape::Chain(Vertices::new(places)));
    }
    match places.as_slice() {
        [] => Ok(Shape::Bare),
        [place] => Ok(Shape::At(*place)),
        [first, second] => Ok(Shape::Line(*first, *second)),
        _ => Err(TextFault::BadField),
    }
}

#[tactic(auto, unfolding(crate::specs::Cells::values_of))]
fn values<J: JsonValue>(alloc: Global, json: &J) -> Result<Values, TextFault>
    ensures { Gives text_lacks_memory (λ v. v) result (values_of (J.stands_for json.now)) }
{
    let list = read_items(alloc, list_in(json, "v")?, |item| value(alloc, item))?;
    Ok(Values::new(list))
}

#[tactic(auto, unfolding(crate::specs::Cells::shape_of))]
fn shape<J: JsonValue>(alloc: Global, json: &J, is_path: bool) -> Result<Shape, TextFault>
    ensures { Gives text_lacks_memory (λ s. s) result (shape_of is_path (J.stands_for json.now)) }
{
    let places = places(alloc, list_in(json, "s")?)?;
    shape_with(is_path, places)
}

/// Returns the row of a cell, in a table of paths or in another. Fails with `BadField` where there
/// is none.
#[tactic(auto, unfolding(crate::specs::Cells::row_of))]
pub fn row<J: JsonValue>(alloc: Global, json: &J, is_path: bool) -> Result<Row, TextFault>
    ensures { Gives text_lacks_memory (λ r. r) result (row_of is_path (J.stands_for json.now)) }
{
    let values = values(alloc, json)?;
    let shape = shape(alloc, json, is_path)?;
    Ok(Row { values, shape })
}

/// Tests whether the flag at a key isn't set. Fails with `BadField` where it is set, or is no flag.
fn require_no_flag<J: JsonValue>(json: &J, key: &str) -> Result<(), TextFault>
    ensures { Gives text_lacks_memory (λ u. u) result (without_flag (get key.now (J.stands_for json.now))) }
{
    match json.member(key) {
        None => Ok(()),
        Some(found) => match found.flag() {
            Some(false) => Ok(()),
            _ => Err(TextFault::BadField),
        },
    }
}

/// Returns whether the rows of the table of this name are paths.
pub fn has_paths(schema: &Schema, name: &str) -> bool
    ensures { result ≡ table_has_paths schema.now name.now }
{
    match schema.table(name) {
        Some(number) => match schema.def(number) {
            Some(table) => matches!(table.shape, Form::Path),
            None => false,
        },
        None => false,
    }
}

/// Returns a row of LIVE with its key and the name of its table. Fails with `BadField` where a key is missing,
/// a value is none of those that may stand there, or the cell has no row.
#[tactic(auto, unfolding(crate::specs::Cells::named_row_of))]
pub fn named_row<J: JsonValue>(
    alloc: Global,
    json: &J,
    schema: &Schema,
) -> Result<NamedRow, TextFault>
    ensures { Gives text_lacks_memory (λ r. r) result (named_row_of schema.now (J.stands_for json.now)) }
{
    let table = words_in(alloc, json, "t")?;
    let key = number_in(json, "k")?;
    require_no_flag(json, "gone")?;
    let is_path = has_paths(schema, table.as_str());
    let row = row(alloc, json, is_path)?;
    Ok(NamedRow { table, key, row })
}

/// Returns the rows of LIVE in an office text, each with its table's name. Fails with `BadField`
/// where a key is missing, a value is none of those that may stand there, or a cell has no row.
#[tactic(auto, unfolding(crate::specs::Cells::live_rows_of))]
pub fn live_rows<J: JsonValue>(
    alloc: Global,
    json: &J,
    schema: &Schema,
) -> Result<Vec<NamedRow>, TextFault>
    ensures { Gives text_lacks_memory (λ v. v.items) result (live_rows_of schema.now (J.stands_for json.now)) }
{
    read_items(alloc, list_in(json, "live")?, |item| {
        named_row(alloc, item, schema)
    })
}
