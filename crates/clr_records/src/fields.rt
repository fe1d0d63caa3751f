//! The fields that a record gets, one behind another.

ghost use Rattle.std.specs.Prelude.{◌≡◌, ◌++◌, ◌∷◌, [], map, OnErr, OnOk};
ghost use Rattle.std.specs.Fmt.{signed_decimal};
ghost use Rattle.std.specs.List.{All};
ghost use Rattle.csv.specs.Records.{fields_of, partial_of};
ghost use Rattle.clr_rows.specs.Beginnings.{IsBegun};
ghost use Rattle.clr_records.specs.Values.{IsText, value_field};

use clr_rows::Value;
use csv::ByteRecord;
use itoa::Buffer;
use std::alloc::AllocError;

/// Adds a field to a record that ends with a whole field. If memory runs out, the record keeps its fields.
pub fn add_field(fields: &mut ByteRecord, field: &[u8]) -> Result<(), AllocError>
    requires { partial_of fields.old ≡ [] }
    ensures added { OnOk result (fields_of fields.new ≡ fields_of fields.old ++ field.now ∷ []) }
    ensures whole { OnOk result (partial_of fields.new ≡ []) }
    ensures err { OnErr result (fields_of fields.new ≡ fields_of fields.old) }
{
    fields.push_field(field)
}

/// Adds a whole number in decimal to a record that ends with a whole field. If memory runs out, the record keeps its fields.
pub fn add_number(fields: &mut ByteRecord, number: i64) -> Result<(), AllocError>
    requires { partial_of fields.old ≡ [] }
    ensures added { OnOk result (fields_of fields.new ≡ fields_of fields.old ++ signed_decimal number ∷ []) }
    ensures whole { OnOk result (partial_of fields.new ≡ []) }
    ensures err { OnErr result (fields_of fields.new ≡ fields_of fields.old) }
{
    add_field(fields, Buffer::new().format(number).as_bytes())
}

/// Adds the value of a column to a record that ends with a whole field. If memory runs out, the record keeps its fields.
fn add_value(fields: &mut ByteRecord, value: &Value) -> Result<(), AllocError>
    requires { partial_of fields.old ≡ [] }
    ensures text { OnOk result (IsText value.now) }
    ensures added { OnOk result (fields_of fields.new ≡ fields_of fields.old ++ value_field value.now ∷ []) }
    ensures whole { OnOk result (partial_of fields.new ≡ []) }
    ensures err { OnErr result (fields_of fields.new ≡ fields_of fields.old) }
{
    match value {
        Value::Int(number) => add_number(fields, *number),
        Value::Words(text) => add_field(fields, text.as_str().as_bytes()),
    }
}

/// Adds the values of a row, whose texts are in UTF-8, to a record that ends with a whole field. If memory runs out, the record has at most a
/// beginning of them beside its fields.
pub fn add_values(fields: &mut ByteRecord, values: &[Value]) -> Result<(), AllocError>
    requires { partial_of fields.old ≡ [] }
    ensures texts { OnOk result (All IsText values.now) }
    ensures added { OnOk result (fields_of fields.new ≡ fields_of fields.old ++ map value_field values.now) }
    ensures whole { OnOk result (partial_of fields.new ≡ []) }
    ensures begun { IsBegun (fields_of fields.old) (map value_field values.now) (fields_of fields.new) }
{
    for value in values {
        add_value(fields, value)?;
    }
    Ok(())
}
