//! Numbers in records.
ghost use Rattle.std.specs.Prelude.{◌≡◌, IfOk};
ghost use Rattle.csv.specs.Records.{fields_of};
ghost use Rattle.clr_record_explanations.specs.RecordSlips.{no_number, said};

use crate::record_slips::RecordSlip;
use clr_records::field;
use csv::StringRecord;
use std::alloc::{AllocError, Global};

/// Returns the slip that a field, which counts from 0, must be a number and is none.
pub fn no_number(alloc: Global, fields: &StringRecord, at: usize) -> Result<RecordSlip, AllocError>
    ensures { IfOk result (λ slip. said slip ≡ no_number at (fields_of fields.now)) }
{
    let text = field(fields, at);
    let sentence = format!(in alloc;
        "'{text}' is no whole number of 64 bits in its one form, without + or zeros in front"
    )?;
    Ok(RecordSlip::new(at, sentence))
}
