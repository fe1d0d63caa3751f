//! The value of a column that a field is.

ghost use Rattle.std.specs.Prelude.{◌≡◌, IfOk};
ghost use Rattle.clr_records.specs.Values.{value_of_kind};

use crate::numbers::read_number;
use clr_rows::{Kind, Value, Words};
use std::alloc::{AllocError, Global};

/// Returns the value of a kind that a field is: of a column of numbers the number whose decimal it is, or none where it is none, and of a column of
/// texts the text. Fails for want of memory alone.
pub fn read_value(alloc: Global, kind: Kind, text: &str) -> Result<Option<Value>, AllocError>
    ensures { IfOk result (λ found. found ≡ value_of_kind kind text.now) }
{
    match kind {
        Kind::Int => Ok(read_number(text).map(Value::Int)),
        Kind::Words => Ok(Some(Value::Words(Words::from_str(alloc, text)?))),
    }
}
