//! The columns of a layer, and which of them has the fault of a record.

ghost use Rattle.std.specs.Prelude.{◌≡◌, ◌<◌, IfSome, length, position};
ghost use Rattle.std.specs.Str.{bytes_eq};
ghost use Rattle.csv.specs.Records.{fields_of};
ghost use Rattle.clr_rows.specs.Schemas.{is_key};
ghost use Rattle.clr_layer_text.specs.Layers.{is_bare};
ghost use Rattle.clr_layer_faults.specs.Columns.{column_count, column_name, faulty_column, field_under, is_far_key, is_int, is_no_key};
ghost use Rattle.clr_layer_faults.specs.Columns.{is_too_long, lacks_number, number_column, place_in, range_column, shape_column, text_column};

use clr_layer_text::{LayerFault, SHAPE};
use clr_records::{field, read_number};
use clr_rows::{Form, GREATEST_KEY, KEY, Kind, MOST_TEXT_BYTES, RowFault, TableDef, Words};
use csv::StringRecord;

/// Returns whether a table's rows have no shape.
fn is_bare(form: Form) -> bool
    ensures { result ≡ is_bare form }
{
    match form {
        Form::Bare => true,
        _ => false,
    }
}

/// Returns how many columns the layers of a table have: `KEY`, those of the table, and `WKT` where its rows have shapes.
pub fn column_count(table: &TableDef) -> usize
    ensures { result ≡ column_count table.now }
{
    let columns = table.columns.as_slice().len();
    if is_bare(table.shape) {
        columns + 1
    } else {
        columns + 2
    }
}

/// Returns the name of a column: `KEY` is column 0, those of the table follow, and `WKT` stands behind them.
pub fn column_name(table: &TableDef, column: usize) -> &str
    ensures { result.now ≡ column_name table.now column }
{
    if column == 0 {
        return KEY;
    }
    match table.columns.as_slice().get(column - 1) {
        Some(one) => one.0.as_str(),
        None => SHAPE,
    }
}

/// Returns where a name stands in a header, if it does.
fn position_in(names: &[Words], name: &str) -> Option<usize>
    ensures { result ≡ position (λ other. bytes_eq other name.now) names.now }
{
    names.iter().position(|other| other.as_str() == name)
}

/// Returns where a name stands in a header, or its front where it doesn't.
pub fn place_in(names: &[Words], name: &str) -> usize
    ensures { result ≡ place_in names.now name.now }
{
    position_in(names, name).unwrap_or(0)
}

/// Returns the field of a record below a name of the header.
pub fn field_under<'a>(names: &[Words], fields: &'a StringRecord, name: &str) -> &'a str
    ensures { result.now ≡ field_under names.now (fields_of fields.now) name.now }
{
    field(fields, place_in(names, name))
}

/// Returns whether a text is neither a number nor empty.
fn is_no_key(text: &str) -> bool
    ensures { result ≡ is_no_key text.now }
{
    !text.is_empty() && read_number(text).is_none()
}

/// Returns whether a number is within the limits of keys.
fn is_key(key: i64) -> bool
    ensures { result ≡ is_key key }
{
    1 <= key && key <= GREATEST_KEY
}

/// Returns whether a text is a number beyond the limits of keys.
fn is_far_key(text: &str) -> bool
    ensures { result ≡ is_far_key text.now }
{
    match read_number(text) {
        Some(key) => !is_key(key),
        None => false,
    }
}

/// Returns whether a column has numbers.
fn is_int(kind: Kind) -> bool
    ensures { result ≡ is_int kind }
{
    match kind {
        Kind::Int => true,
        Kind::Words => false,
    }
}

/// Returns whether the field of a column of numbers is none.
fn lacks_number(names: &[Words], fields: &StringRecord, column: &(Words, Kind)) -> bool
    ensures { result ≡ lacks_number names.now (fields_of fields.now) column.now }
{
    is_int(column.1) && read_number(field_under(names, fields, column.0.as_str())).is_none()
}

/// Returns whether the field of a column of texts is longer than a text may be.
fn is_too_long(names: &[Words], fields: &StringRecord, column: &(Words, Kind)) -> bool
    ensures { result ≡ is_too_long names.now (fields_of fields.now) column.now }
{
    !is_int(column.1) && field_under(names, fields, column.0.as_str()).len() > MOST_TEXT_BYTES
}

/// Returns the place of the first column of numbers whose field is none.
fn first_without_number(
    names: &[Words],
    fields: &StringRecord,
    columns: &[(Words, Kind)],
) -> Option<usize>
    ensures value { result ≡ position (lacks_number names.now (fields_of fields.now)) columns.now }
    ensures bound { IfSome result (λ at. at < length columns.now) }
{
    columns
        .iter()
        .position(|column| lacks_number(names, fields, column))
}

/// Returns the place of the first column with a text that is too long.
fn first_too_long(
    names: &[Words],
    fields: &StringRecord,
    columns: &[(Words, Kind)],
) -> Option<usize>
    ensures value { result ≡ position (is_too_long names.now (fields_of fields.now)) columns.now }
    ensures bound { IfSome result (λ at. at < length columns.now) }
{
    columns
        .iter()
        .position(|column| is_too_long(names, fields, column))
}

/// Returns the column that has a number that is none: the key, or else the first column of numbers.
fn number_column(table: &TableDef, names: &[Words], fields: &StringRecord) -> usize
    ensures { result ≡ number_column table.now names.now (fields_of fields.now) }
{
    if is_no_key(field_under(names, fields, KEY)) {
        return 0;
    }
    match first_without_number(names, fields, table.columns.as_slice()) {
        Some(at) => at + 1,
        None => 1,
    }
}

/// Returns the first column with a text that is too long.
fn text_column(table: &TableDef, names: &[Words], fields: &StringRecord) -> usize
    ensures { result ≡ text_column table.now names.now (fields_of fields.now) }
{
    match first_too_long(names, fields, table.columns.as_slice()) {
        Some(at) => at + 1,
        None => 1,
    }
}

/// Returns the column of the shapes.
fn shape_column(table: &TableDef) -> usize
    ensures { result ≡ shape_column table.now }
{
    table.columns.as_slice().len() + 1
}

/// Returns the column that has a number beyond its limits: the key, or else the shape.
fn range_column(table: &TableDef, names: &[Words], fields: &StringRecord) -> usize
    ensures { result ≡ range_column table.now names.now (fields_of fields.now) }
{
    if is_far_key(field_under(names, fields, KEY)) {
        0
    } else {
        shape_column(table)
    }
}

/// Returns the column that has the fault of a record, or none where no single one has it.
pub(crate) fn faulty_column(
    table: &TableDef,
    names: &[Words],
    fields: &StringRecord,
    fault: LayerFault,
) -> Option<usize>
    ensures { result ≡ faulty_column table.now names.now (fields_of fields.now) fault }
{
    match fault {
        LayerFault::FieldCount => None,
        LayerFault::BadNumber => Some(number_column(table, names, fields)),
        LayerFault::Unfit(RowFault::WordsTooLong) => Some(text_column(table, names, fields)),
        LayerFault::Unfit(RowFault::OutOfRange) => Some(range_column(table, names, fields)),
        _ => Some(shape_column(table)),
    }
}
