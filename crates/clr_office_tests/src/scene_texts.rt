//! What is said of a scene: how many needs involve each member, and the groups, each with how many needs are touched in its scene.

ghost use Rattle.std.specs.Prelude.{map};
ghost use Rattle.clr_needs.specs.Members.{AreApart};
ghost use Rattle.clr_foot.specs.Scenes.{IsReady, model_of, setting_of};
ghost use Rattle.clr_groups.specs.Groups.{AreGroups};

use clr_call_test_kit::Memory;
use clr_finders::RowFinder;
use clr_foot::Scene;
use clr_groups::{group_scene, groups};
use clr_rows::RowView;
use std::alloc::{AllocError, Global};

/// Returns how many needs involve each member, each number after a space.
fn involved_text<V: RowView, F: RowFinder>(
    alloc: Global,
    scene: &Scene<'_, V, F>,
) -> Result<String, AllocError>
    requires ready { IsReady F.settled (model_of V.content scene.now) }
{
    let mut text = String::new(alloc);
    for member in 0..scene.len() {
        let needs = scene.needs_involving(member as u16)?;
        text.push_str(format!(in alloc; " {}", needs.len())?.as_str())?;
    }
    Ok(text)
}

/// Returns how many members and touched needs the scene of a group has, and the members of the group.
fn part_line<V: RowView, F: RowFinder>(
    alloc: Global,
    part: &Scene<'_, V, F>,
    members: &[u16],
) -> Result<String, AllocError>
    requires ready { IsReady F.settled (model_of V.content part.now) }
{
    let needs = part.touched_needs()?;
    let mut line = format!(in alloc; "group of {}, {} touched:", part.len(), needs.len())?;
    for member in members {
        line.push_str(format!(in alloc; " {member}")?.as_str())?;
    }
    line.push_str("\n")?;
    Ok(line)
}

/// Returns a line for each group.
fn group_lines<V: RowView, F: RowFinder>(
    alloc: Global,
    scene: &Scene<'_, V, F>,
    groups: &[Vec<u16>],
) -> Result<String, AllocError>
    requires ready { IsReady F.settled (model_of V.content scene.now) }
    requires apart { AreApart (model_of V.content scene.now).sets }
    requires groups { AreGroups (setting_of (model_of V.content scene.now)) (map (λ g. g.items) groups.now) }
{
    let mut lines = String::new(alloc);
    for at in 0..groups.len() {
        let part = group_scene(scene, groups, at)?;
        let line = part_line(alloc, &part, groups[at].as_slice())?;
        lines.push_str(line.as_str())?;
    }
    Ok(lines)
}

/// Returns all that is said of a scene; its groups are made with this memory.
pub(crate) fn scene_text<V: RowView, F: RowFinder>(
    alloc: Global,
    scene: &Scene<'_, V, F>,
    memory: &mut Memory,
) -> Result<String, AllocError>
    requires ready { IsReady F.settled (model_of V.content scene.now) }
    requires apart { AreApart (model_of V.content scene.now).sets }
{
    let needs = involved_text(alloc, scene)?;
    let groups = memory.answer(|| groups(alloc, scene))?;
    let lines = group_lines(alloc, scene, groups.as_slice())?;
    format!(in alloc; "{} members:{needs}\n{lines}", scene.len())
}
