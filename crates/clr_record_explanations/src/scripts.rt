//! What is said of a script that can't be read.
ghost use Rattle.std.specs.Prelude.{◌≡◌, ◌≤◌, length, string_bytes, Err, IfOk, IfNone, IfSome, IsOk, option_map};
ghost use Rattle.clr_scripts.specs.Scripts.{script_in_text};
ghost use Rattle.csv.specs.Records.{fields_of};
ghost use Rattle.clr_records.specs.Records.{records_in};
ghost use Rattle.clr_record_explanations.specs.FirstFaults.{record_in};
ghost use Rattle.clr_record_explanations.specs.ScriptFaults.{IsFaultOfScript};
ghost use Rattle.clr_record_explanations.specs.RecordRemarks.{IsRecordPlace, IsScriptRemark, script_slip, sentence_on};
ghost use Rattle.clr_record_explanations.specs.RecordSlips.{said};

use crate::edits::explain_edit;
use crate::record_slips::RecordSlip;
use crate::records::{remark_on_encoding, remark_on_record};
use crate::roles::Role;
use crate::script_faults::{ScriptFault, find_script_fault};
use crate::steps::{explain_short_apply, explain_step};
use clr_rows::Schema;
use clr_scripts::RecordFault;
use clr_text_positions::Remark;
use csv::StringRecord;
use std::alloc::{AllocError, Global};

/// The fault of a script, the number of its record, counted from 1 without blank lines, and what is said of it.
#[derive(Debug, Drop)]
pub struct ExplainedScriptFault {
    pub fault: RecordFault,
    pub number: usize,
    pub remark: Remark,
}

/// Returns what is wrong with a record, as what it is read.
fn slip_of(
    alloc: Global,
    schema: &Schema,
    fields: &StringRecord,
    fault: RecordFault,
    role: Role,
) -> Result<RecordSlip, AllocError>
    ensures { IfOk result (λ slip. said slip ≡ script_slip schema.now role fault (fields_of fields.now)) }
{
    match role {
        Role::ShortApply => explain_short_apply(alloc, fields),
        Role::Edit => explain_edit(alloc, schema, fields, fault),
        Role::Step | Role::Text => explain_step(alloc, schema, fields, fault),
    }
}

/// Returns what is said of the fault that is found in a script.
#[tactic(auto, using(crate::proofs::RecordLemmas::numbered, crate::proofs::RecordLemmas::unnumbered_step, crate::proofs::SlipLemmas::said_on))]
fn remark_on(
    alloc: Global,
    schema: &Schema,
    text: &[u8],
    found: &ScriptFault,
) -> Result<Remark, AllocError>
    requires fields { option_map fields_of found.now.fields ≡ record_in text.now found.now.record }
    requires at { IsFaultOfScript schema.now (records_in text.now) found.now.role found.now.record found.now.fault }
    ensures within { IfOk result (λ remark. remark.offset ≤ length text.now) }
    ensures place { IfOk result (λ remark. IsRecordPlace text.now found.now.record (string_bytes remark.place)) }
    ensures sentence { IfOk result (λ remark. string_bytes remark.sentence
        ≡ sentence_on (script_slip schema.now found.now.role found.now.fault) (record_in text.now found.now.record)) }
{
    match &found.fields {
        Some(fields) => {
            let slip = slip_of(alloc, schema, fields, found.fault, found.role)?;
            remark_on_record(alloc, text, found.record, slip)
        }
        None => remark_on_encoding(alloc, text),
    }
}

/// Returns the fault of a script over a schema, as `read_script` answers it, the number of its record and what is said of it: where
/// it stands, what is wrong, and a hint where one helps; or none where the script can be read.
pub fn explain_script(
    alloc: Global,
    schema: &Schema,
    text: &[u8],
) -> Result<Option<ExplainedScriptFault>, AllocError>
    ensures none { IfOk result (λ found. IfNone found (IsOk (script_in_text schema.now text.now))) }
    ensures told { IfOk result (λ found. IfSome found (λ f. script_in_text schema.now text.now ≡ Err (f.number, f.fault))) }
    ensures at { IfOk result (λ found. IfSome found (λ f. IsScriptRemark schema.now text.now f.number f.fault f.remark)) }
{
    match find_script_fault(alloc, schema, text)? {
        Some(found) => {
            let remark = remark_on(alloc, schema, text, &found)?;
            Ok(Some(ExplainedScriptFault {
                fault: found.fault,
                number: found.record,
                remark,
            }))
        }
        None => Ok(None),
    }
}
