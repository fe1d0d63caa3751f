//! What is said of an office text whose workspaces can't stand as a whole.
ghost use Rattle.std.specs.Prelude.{◌≡◌, ◌≢◌, ◌≤◌, length, IfNone, IfOk, IfSome, MatchOption, Some};
ghost use Rattle.serde_json.specs.Data.{Data};
ghost use Rattle.serde_json.specs.View.{view};
ghost use Rattle.clr_faults.specs.Spots.{value_in};
ghost use Rattle.clr_explanations.specs.Standing.{IsPartRemark, IsStandingFault, IsStandingRemark, StandsIfRead, workspace_at};
ghost use Rattle.clr_item_explanations.specs.Slips.{said};
ghost use Rattle.clr_item_explanations.specs.Tellings.{TellsNamed};
ghost use Rattle.clr_item_explanations.specs.Workspaces.{part_fault_name, wrong_part};

use crate::places::remark_of;
use clr_faults::{FaultyItem, unless_lost};
use clr_item_explanations::{Slip, explain_part, items_at};
use clr_office_reading::read_office;
use clr_text_positions::{Key, Remark};
use clr_tree::{PartFault, Tree};
use serde_json::Value as Json;
use std::alloc::{AllocError, Global};

/// Returns why a workspace can't stand among all of them.
#[tactic(auto, using(crate::proofs::StandingLemmas::workspace_there, crate::proofs::StandingLemmas::no_workspace_there))]
fn slip_of_part(alloc: Global, json: &Json, at: usize, fault: PartFault) -> Result<Slip, AllocError>
    ensures { IfOk result (λ slip. TellsNamed (part_fault_name fault) (wrong_part fault (workspace_at at (view json.now))) (said slip)) }
{
    match items_at(json, Key::Workspaces).get(at) {
        Some(workspace) => explain_part(alloc, workspace, fault),
        None => explain_part(alloc, json, fault),
    }
}

/// Returns a refusal, unless it is for want of memory.
fn known_refusal(refused: (usize, PartFault)) -> Result<(usize, PartFault), AllocError>
    ensures { IfOk result (λ found. (found ≡ refused) × (refused.1 ≢ PartFault.OutOfMemory)) }
{
    match refused.1 {
        PartFault::OutOfMemory => Err(AllocError),
        _ => Ok(refused),
    }
}

/// Returns the first workspace of a text that can't stand among all of them, and why; or none where they stand or the text can't
/// be read.
#[tactic(auto, using(crate::proofs::StandingLemmas::all_stand, crate::proofs::StandingLemmas::refused_stands, crate::proofs::StandingLemmas::unread_stands))]
fn standing_fault(alloc: Global, text: &[u8]) -> Result<Option<(usize, PartFault)>, AllocError>
    ensures { IfOk result (λ found. MatchOption found (StandsIfRead text.now) (IsStandingFault text.now)) }
{
    let parts = match read_office(alloc, text) {
        Ok(parts) => parts,
        Err(fault) => return unless_lost(fault, None),
    };
    match Tree::of_deltas(alloc, parts.live, parts.workspaces) {
        Ok(_) => Ok(None),
        Err(refused) => Ok(Some(known_refusal(refused)?)),
    }
}

/// Returns what is said of a workspace of a value that can't stand.
#[tactic(auto, using(crate::proofs::StandingLemmas::part_told))]
fn remark_in(
    alloc: Global,
    text: &[u8],
    json: &Json,
    at: usize,
    fault: PartFault,
) -> Result<Remark, AllocError>
    ensures within { IfOk result (λ remark. remark.offset ≤ length text.now) }
    ensures said { IfOk result (IsPartRemark (view json.now) at fault) }
{
    let slip = slip_of_part(alloc, json, at, fault)?;
    remark_of(alloc, text, json, FaultyItem::Workspace(at), slip)
}

/// Returns what is said of a text whose first workspace that can't stand is known.
#[tactic(auto, using(crate::proofs::StandingLemmas::part_read))]
fn remark_on_part(
    alloc: Global,
    text: &[u8],
    at: usize,
    fault: PartFault,
) -> Result<Remark, AllocError>
    ensures within { IfOk result (λ remark. remark.offset ≤ length text.now) }
    ensures said { IfOk result (λ remark. (d : Data) × (value_in text.now ≡ Some d) × IsPartRemark d at fault remark) }
{
    let Ok(json) = Json::from_slice(alloc, text) else {
        return Err(AllocError);
    };
    remark_in(alloc, text, &json, at, fault)
}

/// Returns what is said of a text that can be read and whose workspaces can't stand as a whole: the first that can't, and why;
/// or none where they can or the text can't be read.
#[tactic(auto, using(crate::proofs::StandingLemmas::standing_told))]
pub fn explain_standing(alloc: Global, text: &[u8]) -> Result<Option<Remark>, AllocError>
    ensures none { IfOk result (λ found. IfNone found (StandsIfRead text.now)) }
    ensures told { IfOk result (λ found. IfSome found (IsStandingRemark text.now)) }
{
    match standing_fault(alloc, text)? {
        Some((at, fault)) => Ok(Some(remark_on_part(alloc, text, at, fault)?)),
        None => Ok(None),
    }
}
