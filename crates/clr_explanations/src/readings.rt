//! The format and the schema of an office text.
ghost use Rattle.std.specs.Prelude.{◌≡◌, Ok, IfOk, IsErr, MatchOption};
ghost use Rattle.serde_json.specs.View.{view};
ghost use Rattle.clr_office_reading.specs.Offices.{format_of};
ghost use Rattle.clr_explanations.specs.Readings.{tables_in};

use clr_faults::unless_lost;
use clr_office_reading::formats::{Format, read_format};
use clr_office_reading::reading::schema;
use clr_rows::Schema;
use serde_json::Value as Json;
use std::alloc::{AllocError, Global};

/// Returns the format of a text, or none where it has none.
pub fn format_in(json: &Json) -> Result<Option<Format>, AllocError>
    ensures { IfOk result (λ found. MatchOption found (IsErr (format_of (view json.now))) (λ format. format_of (view json.now) ≡ Ok format)) }
{
    match read_format(json) {
        Ok(format) => Ok(Some(format)),
        Err(fault) => unless_lost(fault, None),
    }
}

/// Returns the schema of a text, or none where it has none.
pub fn schema_in(alloc: Global, json: &Json) -> Result<Option<Schema>, AllocError>
    ensures { IfOk result (λ found. MatchOption found (IsErr (tables_in (view json.now))) (λ schema. tables_in (view json.now) ≡ Ok schema)) }
{
    let Some(format) = format_in(json)? else {
        return Ok(None);
    };
    match schema(alloc, json, format) {
        Ok(schema) => Ok(Some(schema)),
        Err(fault) => {
            unless_lost(fault, ())?;
            Ok(None)
        }
    }
}
