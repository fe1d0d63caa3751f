//! Names of tables in records.

ghost use Rattle.std.specs.Prelude.{◌≡◌, IfOk};
ghost use Rattle.csv.specs.Records.{fields_of};
ghost use Rattle.clr_record_explanations.specs.RecordSlips.{no_table, said};

use crate::record_slips::RecordSlip;
use clr_hints::{name_hint, table_names};
use clr_records::field;
use clr_rows::Schema;
use csv::StringRecord;
use std::alloc::{AllocError, Global};

/// Returns the slip that no table has the name in a field, which counts from 0.
pub fn no_table(
    alloc: Global,
    schema: &Schema,
    fields: &StringRecord,
    at: usize,
) -> Result<RecordSlip, AllocError>
    ensures { IfOk result (λ slip. said slip ≡ no_table at (fields_of fields.now)) }
{
    let name = field(fields, at);
    let names = table_names(alloc, schema)?;
    let sentence = format!(in alloc; "no table is called '{name}'")?;
    let hint = name_hint(alloc, name, names.as_slice())?;
    Ok(RecordSlip::new(at, sentence).with_hint(hint))
}
