//! The fault of an office text, and the item that it stands at.

ghost use Rattle.std.specs.Prelude.{◌≡◌, Err, IfOk, IfSome, IfNone, IsOk};
ghost use Rattle.serde_json.specs.View.{view};
ghost use Rattle.clr_office_reading.specs.Offices.{office_in};
ghost use Rattle.clr_faults.specs.Behind.{BehindLive, BehindRules, BehindTables};
ghost use Rattle.clr_faults.specs.Spots.{IsFaultAt, IsFoundIn};

use crate::memory::unless_lost;
use crate::parts::{live_fault, rule_fault, table_fault, workspace_fault};
use crate::read_parts::{has_live, has_rules, known_format, known_schema};
use crate::spots::FaultyItem;
use crate::texts::{FaultyText, place_with};
use crate::workspaces::spot_at_workspace;
use clr_office_reading::{TextFault, read_office};
use serde_json::Value as Json;
use std::alloc::{AllocError, Global};

/// The fault of an office text, and the item that it stands at.
#[derive(Clone, Copy, Debug, PartialEq, Eq)]
pub struct Found {
    pub fault: TextFault,
    pub spot: FaultyItem,
}

/// Returns the workspace that has the fault, an item of it, or the whole text.
fn spot_in_workspaces(alloc: Global, text: FaultyText) -> Result<FaultyItem, AllocError>
    requires { BehindLive (view text.json.now) text.fault text.format text.schema.now }
    ensures { IfOk result (IsFaultAt (view text.entry.json.now) text.entry.fault) }
{
    let first = workspace_fault(alloc, text.json, text.format, text.schema)?;
    match place_with(first, text.fault) {
        Some(at) => spot_at_workspace(alloc, text, at),
        None => Ok(FaultyItem::Whole),
    }
}

/// Returns the row of LIVE that has the fault, or what comes behind LIVE.
fn spot_behind_rules(alloc: Global, text: FaultyText) -> Result<FaultyItem, AllocError>
    requires { BehindRules (view text.json.now) text.fault text.format text.schema.now }
    ensures { IfOk result (IsFaultAt (view text.entry.json.now) text.entry.fault) }
{
    let first = live_fault(alloc, text.json, text.schema)?;
    if let Some(at) = place_with(first, text.fault) {
        return Ok(FaultyItem::Live(at));
    }
    if has_live(alloc, text.json, text.schema)? {
        spot_in_workspaces(alloc, text)
    } else {
        Ok(FaultyItem::Whole)
    }
}

/// Returns the rule that has the fault, or what comes behind the rules.
fn spot_behind_tables(alloc: Global, text: FaultyText) -> Result<FaultyItem, AllocError>
    requires { BehindTables (view text.json.now) text.fault text.format text.schema.now }
    ensures { IfOk result (IsFaultAt (view text.entry.json.now) text.entry.fault) }
{
    let first = rule_fault(alloc, text.json, text.format, text.schema)?;
    if let Some(at) = place_with(first, text.fault) {
        return Ok(FaultyItem::Rule(at));
    }
    if has_rules(alloc, text.json, text.format, text.schema)? {
        spot_behind_rules(alloc, text)
    } else {
        Ok(FaultyItem::Whole)
    }
}

/// Returns the item of a text that has the fault.
fn find_spot(alloc: Global, json: &Json, fault: TextFault) -> Result<FaultyItem, AllocError>
    ensures { IfOk result (IsFaultAt (view json.now) fault) }
{
    let Some(format) = known_format(json)? else {
        return Ok(FaultyItem::Whole);
    };
    if let Some(at) = place_with(table_fault(alloc, json, format)?, fault) {
        return Ok(FaultyItem::Table(at));
    }
    let Some(schema) = known_schema(alloc, json, format)? else {
        return Ok(FaultyItem::Whole);
    };
    let text = FaultyText {
        json,
        format,
        schema: &schema,
        fault,
    };
    spot_behind_tables(alloc, text)
}

/// Returns the fault of an office text, as `read_office` answers it, and the item that it stands at;
/// or none where the text can be read. The item is the innermost one whose own reading answers just
/// this fault, the first of its list, where all before it can be read: a table, a rule, a row of LIVE,
/// a workspace, a cell of its base or of its rows, a mark of it, or a cell of a savepoint. Where the
/// reading of no item answers the fault, it is the whole text.
pub fn find_fault(alloc: Global, bytes: &[u8]) -> Result<Option<Found>, AllocError>
    ensures none { IfOk result (λ found. IfNone found (IsOk (office_in bytes.now))) }
    ensures told { IfOk result (λ found. IfSome found (λ f. office_in bytes.now ≡ Err f.fault)) }
    ensures at { IfOk result (λ found. IfSome found (λ f. IsFoundIn bytes.now f.fault f.spot)) }
{
    let fault = match read_office(alloc, bytes) {
        Ok(_) => return Ok(None),
        Err(fault) => unless_lost(fault, fault)?,
    };
    match Json::from_slice(alloc, bytes) {
        Ok(json) => {
            let spot = find_spot(alloc, &json, fault)?;
            Ok(Some(Found { fault, spot }))
        }
        Err(refused) => {
            if refused.is_memory() {
                return Err(AllocError);
            }
            let spot = FaultyItem::Whole;
            Ok(Some(Found { fault, spot }))
        }
    }
}
