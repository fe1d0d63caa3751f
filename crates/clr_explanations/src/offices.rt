//! What is said of an office text that can't be read.
ghost use Rattle.std.specs.Prelude.{◌≡◌, ◌≤◌, length, option_map, string_bytes, unwrap_or, Err, IfOk, IfNone, IfSome, IsOk};
ghost use Rattle.serde_json.specs.View.{view};
ghost use Rattle.clr_office_reading.specs.Offices.{office_in};
ghost use Rattle.clr_explanations.specs.Remarks.{IsJsonRemark, IsOfficeRemark, IsRemarkAt, IsRemarkIn, TellsFault};
ghost use Rattle.clr_item_explanations.specs.Slips.{said};
ghost use Rattle.clr_item_explanations.specs.Tellings.{Tells, TellsIfAny};
ghost use Rattle.clr_explanations.specs.WrongItems.{unknown, wrong_part_at};

use crate::field_slips::field_slip;
use crate::inner_slips::{row_slip, rule_slip, schema_slip, slip_or_unknown};
use crate::places::remark_of;
use crate::repeated::repeated_slip;
use clr_faults::{FaultyItem, Found, find_fault};
use clr_hints::json_fault;
use clr_item_explanations::{Slip, explain_workspace};
use clr_office_reading::TextFault;
use clr_text_positions::Remark;
use serde_json::Value as Json;
use std::alloc::{AllocError, Global};

/// The fault of an office text, and what is said of it.
#[derive(Debug, Drop)]
pub struct OfficeFault {
    pub fault: TextFault,
    pub remark: Remark,
}

/// Returns what is wrong with a workspace behind those before it; none of another item.
#[tactic(auto, using(clr_item_explanations::proofs::TellingLemmas::nothing))]
fn found_workspace(alloc: Global, json: &Json, spot: FaultyItem) -> Result<Option<Slip>, AllocError>
    ensures { IfOk result (TellsIfAny (wrong_part_at spot (view json.now))) }
{
    match spot {
        FaultyItem::Workspace(at) => explain_workspace(alloc, json, at),
        _ => Ok(None),
    }
}

/// Returns that nothing that is known is wrong.
#[tactic(auto, using(clr_item_explanations::proofs::TellingLemmas::nothing))]
fn unknown_slip(alloc: Global) -> Result<Slip, AllocError>
    ensures { IfOk result (λ slip. Tells unknown (said slip)) }
{
    let slip = slip_or_unknown(alloc, None)?;
    Ok(slip)
}

/// Returns why a workspace can't stand behind those before it.
fn workspace_slip(alloc: Global, json: &Json, spot: FaultyItem) -> Result<Slip, AllocError>
    ensures { IfOk result (λ slip. Tells (unwrap_or (wrong_part_at spot (view json.now)) unknown) (said slip)) }
{
    let found = found_workspace(alloc, json, spot)?;
    let slip = slip_or_unknown(alloc, found)?;
    Ok(slip)
}

/// Returns what is wrong with the item that has the fault.
fn slip_of(alloc: Global, text: &[u8], json: &Json, found: Found) -> Result<Slip, AllocError>
    ensures { IfOk result (λ slip. TellsFault text.now (view json.now) found.fault found.spot (said slip)) }
{
    match found.fault {
        TextFault::BadSchema => schema_slip(alloc, json),
        TextFault::BadRule => rule_slip(alloc, json, found.spot),
        TextFault::BadRow => row_slip(alloc, json, found.spot),
        TextFault::BadField => field_slip(alloc, json, found.spot),
        TextFault::RepeatedCell => repeated_slip(alloc, text, json, found.spot),
        TextFault::BadPart => workspace_slip(alloc, json, found.spot),
        TextFault::NotJson => unknown_slip(alloc),
        TextFault::OutOfMemory => unknown_slip(alloc),
    }
}

/// Returns what is said of the fault of a text that is JSON.
#[tactic(auto, using(crate::proofs::NamedFaults::slip_told))]
fn remark_in(alloc: Global, text: &[u8], json: &Json, found: Found) -> Result<Remark, AllocError>
    ensures within { IfOk result (λ remark. remark.offset ≤ length text.now) }
    ensures said { IfOk result (IsRemarkIn text.now (view json.now) found.fault found.spot) }
{
    let slip = slip_of(alloc, text, json, found)?;
    remark_of(alloc, text, json, found.spot, slip)
}

/// Returns a hint as a text of its own.
fn own_hint(alloc: Global, hint: Option<&str>) -> Result<Option<String>, AllocError>
    ensures { IfOk result (λ found. option_map string_bytes found ≡ option_map (λ words. words.now) hint.entry) }
{
    match hint {
        Some(words) => Ok(Some(String::from_str(alloc, words)?)),
        None => Ok(None),
    }
}

/// Returns what is said of a text that is no JSON, which the reader of JSON tells by a line and a
/// column.
fn remark_on_json(
    alloc: Global,
    text: &[u8],
    line: usize,
    column: usize,
) -> Result<Remark, AllocError>
    ensures within { IfOk result (λ remark. remark.offset ≤ length text.now) }
    ensures said { IfOk result (IsJsonRemark text.now) }
{
    let fault = json_fault(text, line, column);
    let hint = own_hint(alloc, fault.hint)?;
    let sentence = String::from_str(alloc, fault.sentence)?;
    Ok(Remark {
        offset: fault.offset,
        place: String::new(alloc),
        sentence,
        hint,
    })
}

/// Returns what is said of the fault that is found in a text.
fn remark_on(alloc: Global, text: &[u8], found: Found) -> Result<Remark, AllocError>
    ensures { IfOk result (IsRemarkAt text.now found.fault found.spot) }
{
    match Json::from_slice(alloc, text) {
        Ok(json) => {
            let remark = remark_in(alloc, text, &json, found)?;
            Ok(remark)
        }
        Err(refused) => {
            if refused.is_memory() {
                return Err(AllocError);
            }
            let bare = remark_on_json(alloc, text, refused.line(), refused.column())?;
            Ok(bare)
        }
    }
}

/// Returns the fault of an office text, as `read_office` answers it, and what is said of it: where it stands, by its line, its
/// column and the path of the item, what is wrong, and a hint where one helps; or none where the text can be read. Whether its
/// workspaces can stand as a whole isn't asked here.
pub fn explain_office(alloc: Global, text: &[u8]) -> Result<Option<OfficeFault>, AllocError>
    ensures none { IfOk result (λ found. IfNone found (IsOk (office_in text.now))) }
    ensures told { IfOk result (λ found. IfSome found (λ f. office_in text.now ≡ Err f.fault)) }
    ensures at { IfOk result (λ found. IfSome found (λ f. IsOfficeRemark text.now f.fault f.remark)) }
{
    match find_fault(alloc, text)? {
        Some(found) => {
            let remark = remark_on(alloc, text, found)?;
            Ok(Some(OfficeFault {
                fault: found.fault,
                remark,
            }))
        }
        None => Ok(None),
    }
}
