//! Workspaces and marks that can't be read, or that can't stand.
ghost use Rattle.std.specs.Prelude.{◌≡◌, ◌∷◌, map, string_bytes, IfOk};
ghost use Rattle.serde_json.specs.View.{view};
ghost use Rattle.clr_item_explanations.specs.Slips.{said};
ghost use Rattle.clr_item_explanations.specs.Tellings.{Tells, TellsIfAny, TellsNamed};
ghost use Rattle.clr_item_explanations.specs.Workspaces.{part_fault_key, part_fault_name, part_fault_text, wrong_mark, wrong_parent, wrong_part};
ghost use Rattle.clr_item_explanations.specs.Workspaces.{wrong_workspace};
ghost use Rattle.clr_item_explanations.specs.Workspaces.{wrong_workspace_behind};
ghost use Rattle.clr_item_explanations.specs.Values.{text_at};
ghost use Rattle.clr_rows.specs.Names.{live_name};
ghost use Rattle.clr_text_positions.specs.declared.paths.Key.TheVariants as key;

use crate::fields::{Wanted, explain_field, explain_fields, items_at, stands_among, text_at};
use crate::slips::Slip;
use clr_hints::{GOOD_NAME, name_hint};
use clr_rows::LIVE;
use clr_text_positions::{Key, PathStep};
use clr_workspace_parts::PartFault;
use serde_json::Value as Json;
use std::alloc::{AllocError, Global};

/// Returns LIVE and the names of these workspaces.
fn earlier_names<'a>(alloc: Global, earlier: &'a [Json]) -> Result<Vec<&'a str>, AllocError>
    ensures { IfOk result (λ names. map (λ name. name.now) names.items ≡ live_name ∷ map (text_at key.Name) (map view earlier.now)) }
{
    let mut names: Vec<&str> = Vec::new(alloc);
    names.push(LIVE)?;
    for item in earlier {
        names.push(text_at(item, Key::Name))?;
    }
    Ok(names)
}

/// Returns the slip that a workspace's parent is neither LIVE nor an earlier workspace, or none where it is one of them.
#[tactic(auto, using(crate::proofs::TellingLemmas::right_if, crate::proofs::TellingLemmas::name_else), unfolding(crate::specs::Workspaces::wrong_parent))]
fn explain_parent(alloc: Global, json: &Json, names: &[&str]) -> Result<Option<Slip>, AllocError>
    ensures { IfOk result (TellsIfAny (wrong_parent (map (λ name. name.now) names.now) (view json.now))) }
{
    let parent = text_at(json, Key::Parent);
    if stands_among(names, parent) {
        return Ok(None);
    }
    let sentence = format!(in alloc;
        "NoParent: '{parent}' is neither LIVE nor an earlier workspace"
    )?;
    let hint = name_hint(alloc, parent, names)?;
    Ok(Some(Slip::new(alloc, &[PathStep::Key(Key::Parent)], sentence)?.with_hint(hint)))
}

/// Returns what is wrong with a workspace that stands behind those of these names.
#[tactic(auto, using(crate::proofs::TellingLemmas::one_after_another), unfolding(crate::specs::Workspaces::wrong_workspace_behind))]
fn explain_workspace_behind(
    alloc: Global,
    names: &[&str],
    json: &Json,
) -> Result<Option<Slip>, AllocError>
    ensures { IfOk result (TellsIfAny (wrong_workspace_behind (map (λ name. name.now) names.now) (view json.now))) }
{
    let head = [
        (Key::Name, Wanted::Text),
        (Key::Parent, Wanted::Text),
        (Key::Kept, Wanted::OptionalFlag),
    ];
    if let Some(slip) = explain_fields(alloc, json, &head)? {
        return Ok(Some(slip));
    }
    if let Some(slip) = explain_parent(alloc, json, names)? {
        return Ok(Some(slip));
    }
    let lists = [
        (Key::Base, Wanted::OptionalList),
        (Key::Rows, Wanted::OptionalList),
        (Key::Marks, Wanted::OptionalList),
    ];
    explain_fields(alloc, json, &lists)
}

/// Returns what is wrong with the workspace at a place of an office text, its cells and marks aside, or none where nothing is
/// found.
#[tactic(auto, using(crate::proofs::ItemLemmas::workspace_told, crate::proofs::ItemLemmas::no_workspace))]
pub fn explain_workspace(alloc: Global, text: &Json, at: usize) -> Result<Option<Slip>, AllocError>
    ensures { IfOk result (TellsIfAny (wrong_workspace at (view text.now))) }
{
    let items = items_at(text, Key::Workspaces);
    let Some(json) = items.get(at) else {
        return Ok(None);
    };
    let names = earlier_names(alloc, &items[..at])?;
    let found = explain_workspace_behind(alloc, names.as_slice(), json)?;
    Ok(found)
}

/// Returns what is wrong with a mark, its cells aside, or none where nothing is found.
#[tactic(auto, unfolding(crate::specs::Workspaces::wrong_mark))]
pub fn explain_mark(alloc: Global, json: &Json) -> Result<Option<Slip>, AllocError>
    ensures { IfOk result (TellsIfAny (wrong_mark (view json.now))) }
{
    if json.get("child").is_some() {
        return explain_field(alloc, json, Key::Child, Wanted::Text);
    }
    let fields = [
        (Key::Savepoint, Wanted::Text),
        (Key::Rows, Wanted::OptionalList),
    ];
    explain_fields(alloc, json, &fields)
}

/// Returns the name of a fault of a workspace among all of them.
fn part_fault_word(fault: PartFault) -> &'static str
    ensures { result.now ≡ part_fault_name fault }
{
    match fault {
        PartFault::OutOfMemory => "OutOfMemory",
        PartFault::BadName => "BadName",
        PartFault::NameTaken => "NameTaken",
        PartFault::NoParent => "NoParent",
        PartFault::TooMany => "TooMany",
        PartFault::BadMarks => "BadMarks",
    }
}

/// Returns what a fault of a workspace among all of them means.
fn sentence_of(alloc: Global, name: &str, fault: PartFault) -> Result<String, AllocError>
    ensures { IfOk result (λ text. string_bytes text ≡ part_fault_text fault name.now) }
{
    match fault {
        PartFault::BadName => {
            format!(in alloc; "'{name}' is no good name of a workspace: {GOOD_NAME}")
        }
        PartFault::NameTaken => {
            format!(in alloc; "'{name}' is LIVE or the name of an earlier workspace")
        }
        PartFault::NoParent => {
            format!(in alloc; "the parent of '{name}' is neither LIVE nor an earlier workspace")
        }
        PartFault::TooMany => format!(in alloc;
            "more than 256 workspaces with LIVE, or '{name}' stands deeper than eight levels"
        ),
        PartFault::BadMarks | PartFault::OutOfMemory => format!(in alloc;
            "the marks of children of '{name}' aren't exactly its children, each once, or a savepoint's name is bad or taken, or there are more than 64"
        ),
    }
}

/// Returns the key of a workspace at which its fault among all of them stands.
fn key_of(fault: PartFault) -> Key
    ensures { result ≡ part_fault_key fault }
{
    match fault {
        PartFault::NoParent => Key::Parent,
        PartFault::BadMarks => Key::Marks,
        _ => Key::Name,
    }
}

/// Returns why a workspace can't stand among all of them, without the fault's name.
#[tactic(auto, using(crate::proofs::TellingLemmas::part_told))]
fn of_part(alloc: Global, workspace: &Json, fault: PartFault) -> Result<Slip, AllocError>
    ensures { IfOk result (λ slip. Tells (wrong_part fault (view workspace.now)) (said slip)) }
{
    let sentence = sentence_of(alloc, text_at(workspace, Key::Name), fault)?;
    let key = key_of(fault);
    if workspace.get(key.as_str()).is_some() {
        Slip::new(alloc, &[PathStep::Key(key)], sentence)
    } else {
        Slip::new(alloc, &[], sentence)
    }
}

/// Returns why a workspace can't stand among all of them, for the fault that it has: the name of the fault, and a sentence.
pub fn explain_part(alloc: Global, workspace: &Json, fault: PartFault) -> Result<Slip, AllocError>
    ensures { IfOk result (λ slip. TellsNamed (part_fault_name fault) (wrong_part fault (view workspace.now)) (said slip)) }
{
    let slip = of_part(alloc, workspace, fault)?;
    slip.with_name(alloc, part_fault_word(fault))
}
