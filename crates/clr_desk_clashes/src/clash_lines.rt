//! The lines of sets of members that can't be merged together.
ghost use Rattle.std.specs.Prelude.{◌≡◌, ◌++◌, map, IfOk, OnOk};
ghost use Rattle.std.specs.List.{flat_map};
ghost use Rattle.clr_merge_sets.specs.MergeSetNames.{merge_set};
ghost use Rattle.clr_desk_clashes.specs.Clashes.{clashes_text, helped_text, line_of_some};

use crate::clash_members::in_no_set;
use clr_clash_helpers::HelpedClash;
use clr_desk_orders::names_line;
use clr_lines::{count_line, verdict_line};
use clr_merge_clashes::{MergeClashes, members_beside};
use clr_merge_sets::names_at;
use clr_rows::Schema;
use std::alloc::{AllocError, Global};

/// Adds the lines of a set, and that of the members which help it.
fn add_clash(
    lines: &mut Vec<u8>,
    alloc: Global,
    schema: &Schema,
    root: &str,
    members: &[&str],
    helped: &HelpedClash<'_>,
) -> Result<(), AllocError>
    ensures { OnOk result (lines.new.items ≡ lines.old.items ++ helped_text schema.now (merge_set root.now (map (λ name. name.now) members.now)) helped.now) }
{
    let clash = helped.clash;
    let names = names_at(alloc, members, clash.members.as_slice())?;
    let line = names_line(alloc, "clash", names.as_slice())?;
    let cause = verdict_line(alloc, schema, names.as_slice(), root, &clash.cause)?;
    let helpers = names_at(alloc, members, helped.helpers.as_slice())?;
    let helps = names_line(alloc, "helps", helpers.as_slice())?;
    lines.extend_from_slice(line.as_slice())?;
    lines.extend_from_slice(b"cause ")?;
    lines.extend_from_slice(cause.as_slice())?;
    lines.extend_from_slice(helps.as_slice())
}

/// Returns the lines of sets, each with those that help it.
fn sets_lines(
    alloc: Global,
    schema: &Schema,
    root: &str,
    members: &[&str],
    helped: &[HelpedClash<'_>],
) -> Result<Vec<u8>, AllocError>
    ensures { IfOk result (λ lines. lines.items
        ≡ flat_map (helped_text schema.now (merge_set root.now (map (λ name. name.now) members.now))) helped.now) }
{
    let mut lines = Vec::new(alloc);
    for clash in helped {
        add_clash(&mut lines, alloc, schema, root, members, clash)?;
    }
    Ok(lines)
}

/// Returns a line of names, if there are any.
fn line_of_some(alloc: Global, word: &str, names: &[&str]) -> Result<Vec<u8>, AllocError>
    ensures { IfOk result (λ line. line.items ≡ line_of_some word.now (map (λ name. name.now) names.now)) }
{
    if names.is_empty() {
        return Ok(Vec::new(alloc));
    }
    names_line(alloc, word, names)
}

/// Returns the lines of all sets, each with those that help it.
pub(crate) fn clashes_lines(
    alloc: Global,
    schema: &Schema,
    root: &str,
    members: &[&str],
    found: &MergeClashes,
    helped: &[HelpedClash<'_>],
) -> Result<Vec<u8>, AllocError>
    ensures { IfOk result (λ lines. lines.items ≡ clashes_text schema.now (merge_set root.now (map (λ name. name.now) members.now)) found.now helped.now) }
{
    let clashes = found.clashes.as_slice();
    let mut lines = count_line(alloc, "clashes", clashes.len())?;
    let sets = sets_lines(alloc, schema, root, members, helped)?;
    let others = members_beside(alloc, members, found.looked.as_slice())?;
    let beside = line_of_some(alloc, "beside", others.as_slice())?;
    let free = in_no_set(alloc, members, clashes)?;
    let free = names_line(alloc, "free", free.as_slice())?;
    lines.extend_from_slice(sets.as_slice())?;
    lines.extend_from_slice(beside.as_slice())?;
    lines.extend_from_slice(free.as_slice())?;
    Ok(lines)
}
