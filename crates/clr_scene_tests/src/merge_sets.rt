//! Scenes of members of LIVE or of a kept workspace.

ghost use Rattle.std.specs.Prelude.{◌≡◌, ◌<◌, IfOk, length, map};
ghost use Rattle.clr_needs.specs.Settings.{DoChange};
ghost use Rattle.clr_foot.specs.Scenes.{IsReady, model_of, setting_of};
ghost use Rattle.clr_steps.specs.Quiet.{MergeSet};
ghost use Rattle.clr_merge_sets.specs.MergeSetNames.{merge_set};
ghost use Rattle.clr_merge_sets.specs.MergeSets.{AreOfMergeSet, AreParts, IsSceneOf};

use crate::lines::lines_of_scene;
use crate::networks::{members, network};
use clr_call_test_kit::Memory;
use clr_engine::{Broken, Office};
use clr_foot::Scene;
use clr_grid::{RowFinder, SpotIndex};
use clr_merge_sets::{MergeSetParts, read_changes, read_merge_set};
use clr_needs::SceneFault;
use clr_rows::RowView;
use clr_tree::View;
use std::alloc::{AllocError, Global};
use std::process::Abort;
use std::test::Fail;

/// Returns the scene of the members of a merge set, no cell of which is changed by two. It fails where one is.
fn plain_scene<'a>(
    alloc: Global,
    office: &'a Office,
    parts: &'a MergeSetParts<'a>,
) -> Result<Scene<'a, View<'a>, SpotIndex>, AllocError>
    requires { AreOfMergeSet office.now parts.now }
    ensures scene { IfOk result (λ scene. (s : MergeSet) → AreParts office.entry.now s parts.entry.now
        → IsSceneOf (λ finder. finder.settled) office.entry.now s (model_of (λ rows. rows) scene)) }
{
    match parts.scene(alloc, office) {
        Ok(scene) => Ok(scene),
        Err(_) => Err(AllocError),
    }
}

/// Returns the scene of some parts, after calls with little memory have made it too. Fails where too little memory isn't refused.
fn scene_of<'a>(
    alloc: Global,
    office: &'a Office,
    parts: &'a MergeSetParts<'a>,
    memory: &mut Memory,
) -> Result<Scene<'a, View<'a>, SpotIndex>, AllocError>
    requires { AreOfMergeSet office.now parts.now }
    ensures scene { IfOk result (λ scene. (s : MergeSet) → AreParts office.entry.now s parts.entry.now
        → IsSceneOf (λ finder. finder.settled) office.entry.now s (model_of (λ rows. rows) scene)) }
{
    let _made = memory.answer(move || match parts.scene(alloc, office) {
        Ok(scene) => Ok(scene),
        Err(_) => Err(AllocError),
    })?;
    plain_scene(alloc, office, parts)
}

/// Returns a line for each need that the members of a merge set touch and for each of their smallest clashes, or for
/// the cell that two of them change.
fn lines_of_parts(
    alloc: Global,
    office: &Office,
    parts: &MergeSetParts,
    memory: &mut Memory,
) -> Result<String, AllocError>
    requires { AreOfMergeSet office.now parts.now }
{
    match parts.scene(alloc, office) {
        Ok(scene) => lines_of_scene(alloc, office.schema(), &scene, memory),
        Err(SceneFault::OutOfMemory) => Err(AllocError),
        Err(
            SceneFault::SharedCell {
                cell,
                first,
                second,
            },
        ) => {
            let table = office.schema().name_of_table(cell.table);
            format!(in alloc; "shared {table}/{} {first} {second}\n", cell.key)
        }
    }
}

/// Returns the lines of the scene of members that are given by name. Fails if memory runs out, and where a test of names or of conflicts fails.
pub(crate) fn merge_set_lines(
    alloc: Global,
    office: &Office,
    root: &str,
    members: &[&str],
    memory: &mut Memory,
) -> Result<String, AllocError> {
    let changes = read_changes(alloc, office, &members)?;
    match read_merge_set(alloc, office, root, &members, changes.as_slice()) {
        Ok(parts) => lines_of_parts(alloc, office, &parts, memory),
        Err(_) => Err(AllocError),
    }
}

/// Returns whether two members of a scene are independent, by position.
fn are_scene_members_independent<V: RowView, F: RowFinder>(
    scene: &Scene<'_, V, F>,
    pair: (u16, u16),
    memory: &mut Memory,
) -> Result<bool, AllocError>
    requires ready { IsReady F.settled (model_of V.content scene.now) }
    requires first { pair.0 < length (model_of V.content scene.now).sets }
    requires second { pair.1 < length (model_of V.content scene.now).sets }
{
    memory.answer(|| scene.independent(pair.0, pair.1))
}

/// Returns whether two members of a merge set are independent, by position.
fn are_parts_independent(
    alloc: Global,
    office: &Office,
    parts: &MergeSetParts,
    root: &str,
    members: &[&str],
    pair: (u16, u16),
    memory: &mut Memory,
) -> Result<bool, AllocError>
    requires parts { AreParts office.now (merge_set root.now (map (λ name. name.now) members.now)) parts.now }
    requires first { pair.0 < length members.now }
    requires second { pair.1 < length members.now }
{
    let _root = root;
    match scene_of(alloc, office, parts, memory) {
        Ok(scene) => are_scene_members_independent(&scene, pair, memory),
        Err(_) => Err(AllocError),
    }
}

/// Returns whether two members that are given by name are independent. Fails if memory runs out, and where the members make no scene.
pub(crate) fn are_independent(
    alloc: Global,
    office: &Office,
    members: &[&str],
    pair: (u16, u16),
    memory: &mut Memory,
) -> Result<bool, AllocError> {
    if usize::from(pair.0) >= members.len() || usize::from(pair.1) >= members.len() {
        return Err(AllocError);
    }
    let changes = read_changes(alloc, office, &members)?;
    match read_merge_set(alloc, office, "LIVE", &members, changes.as_slice()) {
        Ok(parts) => { are_parts_independent(alloc, office, &parts, "LIVE", members, pair, memory) }
        Err(_) => Err(AllocError),
    }
}

/// Returns the least need that is broken once the changes of the one member are made.
fn first_broken_of_scene<V: RowView, F: RowFinder>(
    scene: &Scene<'_, V, F>,
    memory: &mut Memory,
) -> Result<Option<Broken>, AllocError>
    requires ready { IsReady F.settled (model_of V.content scene.now) }
    requires one { length (model_of V.content scene.now).sets ≡ 1 }
    requires changes { DoChange (setting_of (model_of V.content scene.now)) }
{
    memory.answer(|| scene.first_broken())
}

/// Returns the least need that is broken once the changes of a member are made.
fn first_broken_of_parts(
    alloc: Global,
    office: &Office,
    parts: &MergeSetParts,
    root: &str,
    members: &[&str],
    memory: &mut Memory,
) -> Result<Option<Broken>, AllocError>
    requires parts { AreParts office.now (merge_set root.now (map (λ name. name.now) members.now)) parts.now }
    requires one { length members.now ≡ 1 }
{
    let _root = root;
    let _members = members;
    match scene_of(alloc, office, parts, memory) {
        Ok(scene) => first_broken_of_scene(&scene, memory),
        Err(_) => Err(AllocError),
    }
}

/// Returns the least need that the merge of a member breaks, which is given by name. Fails if memory runs out, and where the member makes no scene.
pub(crate) fn first_broken(
    alloc: Global,
    office: &Office,
    root: &str,
    member: &str,
    memory: &mut Memory,
) -> Result<Option<Broken>, AllocError> {
    let members = [member];
    let changes = read_changes(alloc, office, &members.as_slice())?;
    match read_merge_set(alloc, office, root, &members.as_slice(), changes.as_slice()) {
        Ok(parts) => first_broken_of_parts(alloc, office, &parts, root, &members, memory),
        Err(_) => Err(AllocError),
    }
}

/// The pairs of at most three members.
const PAIRS: [(u16, u16); 3] = [(0, 1), (0, 2), (1, 2)];

/// Returns a word for each pair of members: whether they are independent.
fn independence(
    alloc: Global,
    office: &Office,
    members: &[&str],
    memory: &mut Memory,
) -> Result<String, AllocError> {
    let mut line = String::new(alloc);
    for pair in PAIRS {
        if usize::from(pair.1) < members.len() {
            let word = if are_independent(alloc, office, members, pair, memory)? {
                " yes"
            } else {
                " no"
            };
            line.push_str(word)?;
        }
    }
    Ok(line)
}

/// Returns a line for each need that children of LIVE touch, for each of their smallest clashes, and which of
/// them are independent.
pub(crate) fn scene_lines(
    alloc: Global,
    office: &Office,
    members: &[&str],
    memory: &mut Memory,
) -> Result<String, AllocError> {
    let needs = merge_set_lines(alloc, office, "LIVE", members, memory)?;
    let pairs = independence(alloc, office, members, memory)?;
    format!(in alloc; "{needs}independent{pairs}\n")
}

/// Rows of LIVE, what each member changes, and what is said of it.
pub(crate) type SceneOver = (&'static str, &'static [&'static str], &'static str);

/// Returns what is said of members over tables with rules, and rows of LIVE in two pieces.
fn describe_members(
    alloc: Global,
    front: (&str, &str),
    more: &str,
    changes: &[&str],
    memory: &mut Memory,
) -> Result<String, Fail> {
    let live = format!(in alloc; "{}{more}", front.1)?;
    let office = network(alloc, front.0, live.as_str(), changes)?;
    Ok(scene_lines(alloc, &office, members(changes.len()), memory)?)
}

/// Asserts what is said of each of some scenes by calls that have this memory.
pub(crate) fn assert_said(
    rt: &impl Abort,
    alloc: Global,
    front: (&str, &str),
    scenes: &[SceneOver],
    memory: &mut Memory,
) -> Result<(), Fail> {
    for (more, changes, lines) in scenes {
        let found = describe_members(alloc, front, more, changes, memory)?;
        assert_eq!(rt; found.as_str(), *lines);
    }
    Ok(())
}
