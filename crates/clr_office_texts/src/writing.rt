//! The text of an office, written from what is stored of it.

ghost use Rattle.std.specs.Prelude.{◌≡◌, ◌++◌, Some, None, Ok, map, IfOk};
ghost use Rattle.clr_workspaces.specs.Workspaces.{Workspace as OneWorkspace};
ghost use Rattle.clr_engine.specs.Drafts.{delta_in, part_at};
ghost use Rattle.clr_office_writing.specs.OfficeData.{office_data};
ghost use Rattle.clr_office_writing.specs.Tokens.{tokens_of};
ghost use Rattle.clr_office_writing.specs.Values.{list_data};
ghost use Rattle.clr_office_writing.specs.WorkspaceData.{delta_data};
ghost use Rattle.clr_office_reading.specs.Offices.{known_in};
ghost use Rattle.clr_office_texts.specs.BrokenNow.{broken_now};
ghost use Rattle.clr_office_texts.specs.Drafts.{draft_in, opened_in};
ghost use Rattle.clr_office_texts.specs.Writing.{bytes_of, text_naming};

use clr_engine::{Broken, Draft, Office};
use clr_office_writing::{
    JsonText, format_number, with_live, with_rules, with_tables, with_workspace,
};
use std::alloc::{AllocError, Global};

/// Returns a text with the workspace at a position in order of creation written at its end, LIVE
/// having position 0.
fn with_workspace_at(
    text: JsonText,
    office: &Office,
    position: usize,
) -> Result<JsonText, AllocError>
    ensures { IfOk result (λ longer. (w : OneWorkspace) → part_at office.now position ≡ Some w
        → longer ≡ text ++ tokens_of (delta_data office.now.schema (delta_in office.now w))) }
{
    match office.delta(position) {
        Some(delta) => with_workspace(text, office.schema(), &delta),
        None => Ok(text),
    }
}

/// Returns a text with the workspaces below LIVE written at its end, in order of creation.
fn with_workspaces(mut text: JsonText, office: &Office) -> Result<JsonText, AllocError>
    ensures { IfOk result (λ longer. longer ≡ text ++ tokens_of (list_data (delta_data office.now.schema) (map (delta_in office.now) office.now.workspaces))) }
{
    text.begin_array()?;
    let count = office.len() - 1;
    for position in 0..count {
        text = with_workspace_at(text, office, position + 1)?;
    }
    text.end_array()?;
    Ok(text)
}

/// Returns the text of an office that names these needs as known.
#[tactic(auto, unfolding(clr_office_writing::specs::OfficeData::office_data))]
fn office_text(alloc: Global, office: &Office, known: &[Broken]) -> Result<JsonText, AllocError>
    ensures { IfOk result (λ text. text ≡ tokens_of (office_data (text_naming known.now office.now))) }
{
    let schema = office.schema();
    let mut text = JsonText::new(alloc)?;
    text.begin_object()?;
    text.key("format")?;
    text.number(format_number(known))?;
    text.key("live")?;
    text = with_live(text, schema, office.live())?;
    text.key("rules")?;
    text = with_rules(alloc, text, schema, office.book(), known)?;
    text.key("tables")?;
    text = with_tables(text, schema)?;
    text.key("workspaces")?;
    text = with_workspaces(text, office)?;
    text.end_object()?;
    Ok(text)
}

/// Returns the text of an office: compact JSON, with every key of its format and the
/// keys of each object in the order of their bytes; the cells of each list ascend. It is of format 3 where no need is
/// broken in LIVE or in a kept workspace, and else of format 4, in which each rule has in `known` exactly its needs that
/// are broken there now, ascending. A workspace has in its base exactly the cells where it differs from what its parent
/// sees now, and in its rows and savepoints exactly those where they differ from its base, however the office keeps them.
/// Read again it is the same office: schema, rules, contents, marks in their order and flags; and since each broken need
/// is known, it is admitted.
/// For example, a node 9 of LIVE is written as `{"k":9,"s":[5,5],"t":"node","v":["valve"]}`. Where a workspace deleted
/// it, its rows have `{"gone":true,"k":9,"t":"node"}`.
pub fn write_office(alloc: Global, office: &Office) -> Result<Vec<u8>, AllocError>
    ensures text { IfOk result (λ bytes. bytes.items ≡ bytes_of office.now) }
    ensures again { IfOk result (λ bytes. draft_in bytes.items ≡ Ok office.now) }
    ensures known { IfOk result (λ bytes. known_in bytes.items ≡ broken_now office.now) }
    ensures admitted { IfOk result (λ bytes. opened_in bytes.items ≡ Ok (office.now, None)) }
{
    let _sound = office.schema().tables();
    let _standing = office.len();
    let known = office.broken_needs()?;
    let text = office_text(alloc, office, known.as_slice())?;
    Ok(text.into_bytes())
}

/// Returns the text of the office that a draft is once its broken needs are known: of the same schema, rules, contents,
/// marks and flags, and with exactly the needs as known that are broken in LIVE or in a kept workspace, as
/// `write_office` writes it. What the text of the draft named as known doesn't count.
/// For example, where a valve stands 1 m from a hydrant in LIVE, against a `Near`, the text of the draft with that need as
/// known is an office.
pub fn write_draft(alloc: Global, draft: Draft) -> Result<Vec<u8>, AllocError>
    ensures text { IfOk result (λ bytes. bytes.items ≡ bytes_of draft) }
    ensures again { IfOk result (λ bytes. draft_in bytes.items ≡ Ok draft) }
    ensures known { IfOk result (λ bytes. known_in bytes.items ≡ broken_now draft) }
    ensures admitted { IfOk result (λ bytes. opened_in bytes.items ≡ Ok (draft, None)) }
{
    let known = draft.broken_needs()?;
    match draft.admit(known.as_slice()) {
        Ok(office) => write_office(alloc, &office),
        // (only for want of memory, since each broken need is known)
        Err(_) => Err(AllocError),
    }
}
