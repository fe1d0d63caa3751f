//! How the lines of a need are split that cross at no whole millimetre.

ghost use Rattle.std.specs.Prelude.{◌≡◌, IfOk};
ghost use Rattle.std.specs.Option.{option_copied};
ghost use Rattle.clr_merge_sets.specs.MemberChanges.{AreMembers, set_of};
ghost use Rattle.clr_tips.specs.Splitting.{bringer_of, first_splitter, second_splitter, split_keys, splits, splits_by, splits_of, splits_of_rows, splits_with};
ghost use Rattle.clr_tips.specs.Splitting.{splits_near, splitters_of};

use crate::keys::{later_tip_key, tip_key};
use crate::lines::Splitter;
use crate::rows::serving_row;
use crate::splits::{Split, split_by_one, split_by_two};
use clr_engine::Office;
use clr_member_changes::MemberChanges;
use clr_merge_sets::row_of_version;
use clr_needs::{Need, VersionId};
use clr_rows::{CellId, Place, Row, TableDef};
use clr_rules::Side;
use std::alloc::{AllocError, Global};

/// The keys of the rows that two members bring where they split lines.
#[derive(Clone, Copy)]
struct SplitKeys {
    first_line: i64,
    second_line: i64,
    first_node: i64,
    second_node: i64,
}

/// Returns the first member that brings a version, if one does.
fn bringer_of(members: &MemberChanges<'_>, version: VersionId) -> Option<usize>
    ensures { result ≡ bringer_of members.now.changes.items version }
{
    if version.fresh {
        members.changer_of(version.cell)
    } else {
        None
    }
}

/// Returns who splits two lines: each of them whoever brings it, and one that nobody brings the member that brings the other.
fn splitters_of(first: Option<usize>, second: Option<usize>) -> Option<(usize, usize)>
    ensures { result ≡ splitters_of first second }
{
    match (first, second) {
        (Some(first), Some(second)) => Some((first, second)),
        (Some(first), None) => Some((first, first)),
        (None, Some(second)) => Some((second, second)),
        (None, None) => None,
    }
}

/// Returns the keys of the rows that two members bring where they split lines of these tables and bring nodes, if there is room for all.
fn split_keys(
    alloc: Global,
    office: &Office,
    members: &MemberChanges<'_>,
    by: (usize, usize),
    lines: (u16, u16),
    node: u16,
) -> Result<Option<SplitKeys>, AllocError>
    ensures { IfOk result (λ keys. keys ≡ split_keys office.now (set_of members.now) by lines node) }
{
    let Some(first_line) = tip_key(alloc, office, members, by.0, lines.0)? else {
        return Ok(None);
    };
    let Some(second_line) = later_tip_key(alloc, office, members, by.1, lines.1)? else {
        return Ok(None);
    };
    let Some(first_node) = tip_key(alloc, office, members, by.0, node)? else {
        return Ok(None);
    };
    let Some(second_node) = tip_key(alloc, office, members, by.1, node)? else {
        return Ok(None);
    };
    Ok(Some(SplitKeys {
        first_line,
        second_line,
        first_node,
        second_node,
    }))
}

/// Returns the member that splits the first line of a need.
fn first_splitter(
    need: &Need,
    side: &Side,
    row: &Row,
    by: (usize, usize),
    keys: SplitKeys,
) -> Result<Splitter, AllocError>
    ensures { IfOk result (λ splitter. splitter ≡ first_splitter need.now side.now row.now by keys) }
{
    Ok(Splitter {
        member: by.0,
        cell: need.first.cell,
        row: row.copy()?,
        part: need.first_part,
        key: keys.first_line,
        node: CellId {
            table: side.table,
            key: keys.first_node,
        },
    })
}

/// Returns the member that splits the second line of a need, which has this version.
fn second_splitter(
    need: &Need,
    version: VersionId,
    side: &Side,
    row: &Row,
    by: (usize, usize),
    keys: SplitKeys,
) -> Result<Splitter, AllocError>
    ensures { IfOk result (λ splitter. splitter ≡ second_splitter need.now version side.now row.now by keys) }
{
    Ok(Splitter {
        member: by.1,
        cell: version.cell,
        row: row.copy()?,
        part: need.second_part,
        key: keys.second_line,
        node: CellId {
            table: side.table,
            key: keys.second_node,
        },
    })
}

/// Returns the ways to split two lines: one member splits both and brings the node, or two split one each, and one of them or each brings it.
fn splits(
    alloc: Global,
    place: Place,
    node: &Row,
    first: &Splitter,
    second: &Splitter,
) -> Result<Vec<Split>, AllocError>
    ensures { IfOk result (λ list. list.items ≡ splits place node.now first.now second.now) }
{
    let mut list = Vec::new(alloc);
    if first.member == second.member {
        list.push(split_by_one(alloc, place, node, first, second)?)?;
        return Ok(list);
    }
    list.push(split_by_two(alloc, place, node, first, second, true, false)?)?;
    list.push(split_by_two(alloc, place, node, first, second, false, true)?)?;
    list.push(split_by_two(alloc, place, node, first, second, true, true)?)?;
    Ok(list)
}

/// Returns the ways to split the lines of a need, where the table of nodes is there, and there is room for all keys.
fn splits_with(
    alloc: Global,
    need: &Need,
    version: VersionId,
    side: &Side,
    place: Place,
    first: &Row,
    second: &Row,
    by: (usize, usize),
    table: Option<&TableDef>,
    keys: Option<SplitKeys>,
) -> Result<Vec<Split>, AllocError>
    ensures { IfOk result (λ list. list.items
        ≡ splits_with need.now version side.now place first.now second.now by (option_copied table.entry) keys) }
{
    match (table, keys) {
        (Some(table), Some(keys)) => {
            let node = serving_row(alloc, table, side, place)?;
            let one = first_splitter(need, side, first, by, keys)?;
            let two = second_splitter(need, version, side, second, by, keys)?;
            let list = splits(alloc, place, &node, &one, &two)?;
            Ok(list)
        }
        _ => Ok(Vec::new(alloc)),
    }
}

/// Returns the ways to split the lines of a need by these members, if there are any.
fn splits_by(
    alloc: Global,
    office: &Office,
    members: &MemberChanges<'_>,
    need: &Need,
    version: VersionId,
    side: &Side,
    place: Place,
    first: &Row,
    second: &Row,
    by: Option<(usize, usize)>,
) -> Result<Vec<Split>, AllocError>
    ensures { IfOk result (λ list. list.items
        ≡ splits_by office.now (set_of members.now) need.now version side.now place first.now second.now by) }
{
    let Some(by) = by else {
        return Ok(Vec::new(alloc));
    };
    let lines = (need.first.cell.table, version.cell.table);
    let keys = split_keys(alloc, office, members, by, lines, side.table)?;
    let table = office.schema().def(side.table);
    let list = splits_with(
        alloc, need, version, side, place, first, second, by, table, keys,
    )?;
    Ok(list)
}

/// Returns the ways to split the lines of a need whose rows these are, if both stand.
fn splits_of_rows(
    alloc: Global,
    office: &Office,
    members: &MemberChanges<'_>,
    need: &Need,
    version: VersionId,
    side: &Side,
    place: Place,
    first: Option<&Row>,
    second: Option<&Row>,
) -> Result<Vec<Split>, AllocError>
    ensures { IfOk result (λ list. list.items ≡ splits_of_rows office.now (set_of members.now) members.now.changes.items need.now version side.now place
        (option_copied first.entry) (option_copied second.entry)) }
{
    match (first, second) {
        (Some(first), Some(second)) => {
            let one = bringer_of(members, need.first);
            let two = bringer_of(members, version);
            let by = splitters_of(one, two);
            let list = splits_by(
                alloc, office, members, need, version, side, place, first, second, by,
            )?;
            Ok(list)
        }
        _ => Ok(Vec::new(alloc)),
    }
}

/// Returns the ways to split the lines of a need at a place, by the members that bring them; none where a row of the need doesn't stand.
fn splits_near(
    alloc: Global,
    office: &Office,
    members: &MemberChanges<'_>,
    need: &Need,
    version: VersionId,
    side: &Side,
    place: Place,
) -> Result<Vec<Split>, AllocError>
    ensures { IfOk result (λ list. AreMembers office.now (set_of members.now) members.now
        → list.items ≡ splits_near office.now (set_of members.now) members.now.changes.items need.now version side.now place) }
{
    let first = row_of_version(office, members, need.first);
    let second = row_of_version(office, members, version);
    let list = splits_of_rows(
        alloc, office, members, need, version, side, place, first, second,
    )?;
    Ok(list)
}

/// Returns the ways to split the lines of a need at a place near where they cross, if one is told: each is split by the member that brings it, and one that
/// nobody brings by the member that brings the other. If one member splits both, it brings a node of this side there. If two do, three ways are told: the
/// first brings the node, the second does, or each brings one. There are none where a row of the need doesn't stand, or there is no room for keys.
pub fn splits_of(
    alloc: Global,
    office: &Office,
    members: &MemberChanges<'_>,
    need: &Need,
    side: Option<&Side>,
    near: Option<Place>,
) -> Result<Vec<Split>, AllocError>
    ensures { IfOk result (λ list. AreMembers office.now (set_of members.now) members.now
        → list.items ≡ splits_of office.now (set_of members.now) members.now.changes.items need.now (option_copied side.entry) near) }
{
    match (side, near, need.second) {
        (Some(side), Some(place), Some(version)) => {
            let list = splits_near(alloc, office, members, need, version, side, place)?;
            Ok(list)
        }
        _ => Ok(Vec::new(alloc)),
    }
}
