//! The fault of a script, and the record that has it.
ghost use Rattle.std.specs.Prelude.{◌≡◌, IfOk, IfSome, IsOk, MatchOption, Err, option_map};
ghost use Rattle.csv.specs.Records.{fields_of};
ghost use Rattle.clr_records.specs.Records.{records_in};
ghost use Rattle.clr_scripts.specs.Scripts.{script_in_text};
ghost use Rattle.clr_record_explanations.specs.FirstFaults.{record_in};
ghost use Rattle.clr_record_explanations.specs.ScriptFaults.{IsFaultOfScript};

use crate::numbered_records::take_record;
use crate::roles::{Role, role_at};
use clr_records::records_of;
use clr_rows::Schema;
use clr_scripts::{RecordFault, read_script};
use csv::StringRecord;
use std::alloc::{AllocError, Global};

/// The fault of a script, and the record that has it.
#[derive(Debug, Drop)]
pub struct ScriptFault {
    /// The fault as `read_script` answers it, but want of memory.
    pub fault: RecordFault,
    /// The number of the record as `read_script` answers it: counted from 1, without blank lines, and 1
    /// where the bytes aren't UTF-8.
    pub record: usize,
    /// What the record is read as.
    pub role: Role,
    /// The fields of the record, or none where the bytes aren't UTF-8.
    pub fields: Option<StringRecord>,
}

/// Returns the number and the fault that `read_script` answers, or none where the script can be
/// read.
fn told_fault(
    alloc: Global,
    schema: &Schema,
    bytes: &[u8],
) -> Result<Option<(usize, RecordFault)>, AllocError>
    ensures { IfOk result (λ told. MatchOption told (IsOk (script_in_text schema.now bytes.now)) (λ f. script_in_text schema.now bytes.now ≡ Err f)) }
{
    let told = match read_script(alloc, schema, bytes) {
        Ok(_) => return Ok(None),
        Err((_, RecordFault::OutOfMemory)) => return Err(AllocError),
        Err(told) => told,
    };
    Ok(Some(told))
}

/// Returns the fault of a text, with the record of its number.
#[tactic(auto, using(crate::proofs::ScriptFirsts::number_within, crate::proofs::ScriptFirsts::found_as))]
fn fault_in(
    alloc: Global,
    schema: &Schema,
    bytes: &[u8],
    number: usize,
    fault: RecordFault,
) -> Result<ScriptFault, AllocError>
    requires { script_in_text schema.now bytes.now ≡ Err (number, fault) }
    ensures told { IfOk result (λ f. script_in_text schema.now bytes.now ≡ Err (f.record, f.fault)) }
    ensures at { IfOk result (λ f. IsFaultOfScript schema.now (records_in bytes.now) f.role f.record f.fault) }
    ensures fields { IfOk result (λ f. option_map fields_of f.fields ≡ record_in bytes.now f.record) }
{
    let _schema = schema;
    match records_of(alloc, bytes) {
        Ok(Some(records)) => Ok(ScriptFault {
            fault,
            record: number,
            role: role_at(records.as_slice(), number - 1),
            fields: Some(take_record(records, number)),
        }),
        Ok(None) => Ok(ScriptFault {
            fault,
            record: number,
            role: Role::Text,
            fields: None,
        }),
        Err(_) => Err(AllocError),
    }
}

/// Finds the fault of a script, as `read_script` answers it, and the record of the number that it answers;
/// none where the script can be read. The record is the first whose own reading, as a step or as an edit,
/// answers just this fault, the records before it being read. Or it is an `apply` that asks for more edits
/// than records stand behind it, and then all records can be read.
pub fn find_script_fault(
    alloc: Global,
    schema: &Schema,
    bytes: &[u8],
) -> Result<Option<ScriptFault>, AllocError>
    ensures told { IfOk result (λ found. MatchOption found (IsOk (script_in_text schema.now bytes.now))
        (λ f. script_in_text schema.now bytes.now ≡ Err (f.record, f.fault))) }
    ensures at { IfOk result (λ found. IfSome found (λ f. IsFaultOfScript schema.now (records_in bytes.now) f.role f.record f.fault)) }
    ensures fields { IfOk result (λ found. IfSome found (λ f. option_map fields_of f.fields ≡ record_in bytes.now f.record)) }
{
    match told_fault(alloc, schema, bytes)? {
        Some((number, fault)) => Ok(Some(fault_in(alloc, schema, bytes, number, fault)?)),
        None => Ok(None),
    }
}
