//! What a scene says of the needs that are touched, as lines.

ghost use Rattle.clr_needs.specs.Needs.{IsPossibleNeed};
ghost use Rattle.clr_foot.specs.Scenes.{IsReady, model_of, setting_of};

use clr_call_test_kit::Memory;
use clr_clashes::{Clash, clashes};
use clr_foot::Scene;
use clr_grid::RowFinder;
use clr_needs::{Life, Need, VersionId};
use clr_rows::{RowView, Schema};
use std::alloc::{AllocError, Global};

/// Returns how a life is written: `` for always, `+0` for one with the first member, `-0` for one without.
fn life_text(alloc: Global, life: Option<Life>) -> Result<String, AllocError> {
    match life {
        None => String::from_str(alloc, "?"),
        Some(Life::Always) => String::from_str(alloc, ""),
        Some(Life::With(member)) => format!(in alloc; "+{member}"),
        Some(Life::Without(member)) => format!(in alloc; "-{member}"),
    }
}

/// Returns a version with its life, as `node/10/new+0`.
fn version_text<V: RowView, F: RowFinder>(
    alloc: Global,
    schema: &Schema,
    scene: &Scene<'_, V, F>,
    id: VersionId,
) -> Result<String, AllocError> {
    let table = schema.name_of_table(id.cell.table);
    let age = if id.fresh { "new" } else { "old" };
    let life = life_text(alloc, scene.life(id))?;
    format!(in alloc; "{table}/{}/{age}{life}", id.cell.key)
}

/// Returns versions, each after a space.
fn version_list<V: RowView, F: RowFinder>(
    alloc: Global,
    schema: &Schema,
    scene: &Scene<'_, V, F>,
    ids: &[VersionId],
) -> Result<String, AllocError> {
    let mut list = String::new(alloc);
    for id in ids {
        list.push_str(" ")?;
        list.push_str(version_text(alloc, schema, scene, *id)?.as_str())?;
    }
    Ok(list)
}

/// Positions of members, each after a space.
fn member_list(alloc: Global, members: &[u16]) -> Result<String, AllocError> {
    let mut list = String::new(alloc);
    for member in members {
        list.push_str(format!(in alloc; " {member}")?.as_str())?;
    }
    Ok(list)
}

/// Returns the one or two versions of a need or of its witnesses.
fn one_or_two(
    alloc: Global,
    one: VersionId,
    two: Option<VersionId>,
) -> Result<Vec<VersionId>, AllocError> {
    let mut list = Vec::new(alloc);
    list.push(one)?;
    if let Some(two) = two {
        list.push(two)?;
    }
    Ok(list)
}

/// Returns the witnesses that are picked for a need. Where a server that stays is found at once, picking takes
/// no memory, so that no want of it is tried here.
fn witnesses_of<V: RowView, F: RowFinder>(
    alloc: Global,
    scene: &Scene<'_, V, F>,
    need: &Need,
) -> Result<Vec<VersionId>, AllocError>
    requires ready { IsReady F.settled (model_of V.content scene.now) }
    requires possible { IsPossibleNeed (setting_of (model_of V.content scene.now)) need.now }
{
    match scene.pick(need)? {
        Some((one, two)) => one_or_two(alloc, one, two),
        None => Ok(Vec::new(alloc)),
    }
}

/// Returns a need: its rule, its subjects and their parts; what serves it; the witnesses; the blockers.
fn need_line<V: RowView, F: RowFinder>(
    alloc: Global,
    schema: &Schema,
    scene: &Scene<'_, V, F>,
    need: &Need,
    memory: &mut Memory,
) -> Result<String, AllocError>
    requires ready { IsReady F.settled (model_of V.content scene.now) }
    requires possible { IsPossibleNeed (setting_of (model_of V.content scene.now)) need.now }
{
    let subjects = one_or_two(alloc, need.first, need.second)?;
    let subjects = version_list(alloc, schema, scene, subjects.as_slice())?;
    let servers = memory.answer(|| scene.servers(need))?;
    let servers = version_list(alloc, schema, scene, servers.as_slice())?;
    let witnesses = witnesses_of(alloc, scene, need)?;
    let witnesses = version_list(alloc, schema, scene, witnesses.as_slice())?;
    let blockers = memory.answer(|| scene.blockers(need))?;
    let blockers = member_list(alloc, blockers.as_slice())?;
    format!(in alloc;
        "rule {} parts {} {}{subjects} served{servers} picked{witnesses} blocked{blockers}\n",
        need.rule, need.first_part, need.second_part
    )
}

/// Returns a line for each need that is touched, by calls that have this memory. It fails where memory makes
/// a difference.
fn need_lines<V: RowView, F: RowFinder>(
    alloc: Global,
    schema: &Schema,
    scene: &Scene<'_, V, F>,
    memory: &mut Memory,
) -> Result<String, AllocError>
    requires ready { IsReady F.settled (model_of V.content scene.now) }
{
    let mut lines = String::new(alloc);
    let answered = memory.answer(|| scene.touched_needs())?;
    let needs = scene.touched_needs()?;
    if answered.as_slice() != needs.as_slice() {
        return Err(AllocError);
    }
    for need in &needs {
        lines.push_str(need_line(alloc, schema, scene, need, memory)?.as_str())?;
    }
    Ok(lines)
}

/// Returns a smallest clash: its members; the rule of its need, and the subjects and their parts.
fn clash_line<V: RowView, F: RowFinder>(
    alloc: Global,
    schema: &Schema,
    scene: &Scene<'_, V, F>,
    clash: &Clash,
) -> Result<String, AllocError> {
    let members = member_list(alloc, clash.members.as_slice())?;
    let need = clash.need;
    let subjects = one_or_two(alloc, need.first, need.second)?;
    let subjects = version_list(alloc, schema, scene, subjects.as_slice())?;
    format!(in alloc;
        "clash{members} rule {} parts {} {}{subjects}\n",
        need.rule, need.first_part, need.second_part
    )
}

/// Returns a line for each of the smallest clashes, by a call that has this memory.
fn clash_lines<V: RowView, F: RowFinder>(
    alloc: Global,
    schema: &Schema,
    scene: &Scene<'_, V, F>,
    memory: &mut Memory,
) -> Result<String, AllocError>
    requires ready { IsReady F.settled (model_of V.content scene.now) }
{
    let mut lines = String::new(alloc);
    let list = memory.answer(|| clashes(alloc, scene))?;
    for clash in &list {
        lines.push_str(clash_line(alloc, schema, scene, clash)?.as_str())?;
    }
    Ok(lines)
}

/// Returns a line for each need that is touched, and for each of the smallest clashes.
pub(crate) fn lines_of_scene<V: RowView, F: RowFinder>(
    alloc: Global,
    schema: &Schema,
    scene: &Scene<'_, V, F>,
    memory: &mut Memory,
) -> Result<String, AllocError>
    requires ready { IsReady F.settled (model_of V.content scene.now) }
{
    let needs = need_lines(alloc, schema, scene, memory)?;
    let clashes = clash_lines(alloc, schema, scene, memory)?;
    format!(in alloc; "{needs}{clashes}")
}
