//! The actions by which members bring a row that serves a need.

ghost use Rattle.std.specs.Prelude.{◌≡◌, ◌++◌, IfOk, OnOk, slice_get};
ghost use Rattle.std.specs.List.{flat_map};
ghost use Rattle.std.specs.Option.{option_copied};
ghost use Rattle.clr_merge_sets.specs.MemberChanges.{set_of};
ghost use Rattle.clr_work_orders.specs.Remedies.{bringing, bringing_edit, bringing_to, serving};

use crate::actions::Action;
use clr_change::Edit;
use clr_phrases::Meeting;
use clr_plan_sentences::Setting;
use clr_rows::{CellId, Form, Place, TableDef};
use clr_rules::Side;
use clr_tips::{serving_row, tip_key};
use std::alloc::{AllocError, Global};

/// Returns the edit that brings a row of a side at a place.
fn bringing_edit(
    alloc: Global,
    table: &TableDef,
    side: &Side,
    place: Place,
    key: i64,
) -> Result<Edit, AllocError>
    ensures { IfOk result (λ edit. edit ≡ bringing_edit table.now side.now place key) }
{
    let cell = CellId {
        table: side.table,
        key,
    };
    Ok(Edit::Insert(cell, serving_row(alloc, table, side, place)?))
}

/// Adds the action by which a member brings a row of a side at a place, with a key of its own, where there is one.
fn add_bringing(
    setting: Setting<'_>,
    list: &mut Vec<Action>,
    table: &TableDef,
    side: &Side,
    place: Place,
    member: usize,
) -> Result<(), AllocError>
    ensures { OnOk result (list.new.items ≡ list.old.items
        ++ bringing setting.entry.office.now (set_of setting.entry.members.now) side.now place table.now member) }
{
    match tip_key(
        setting.alloc,
        setting.office,
        setting.members,
        member,
        side.table,
    )? {
        Some(key) => {
            let edit = bringing_edit(setting.alloc, table, side, place, key)?;
            Ok(list.push(Action::Make(member, edit))?)
        }
        None => Ok(()),
    }
}

/// Adds, for each of these members, the action by which it brings a row of a side at a place.
fn add_bringing_all(
    setting: Setting<'_>,
    list: &mut Vec<Action>,
    table: &TableDef,
    side: &Side,
    place: Place,
    members: &[usize],
) -> Result<(), AllocError>
    ensures { OnOk result (list.new.items ≡ list.old.items
        ++ flat_map (bringing setting.entry.office.now (set_of setting.entry.members.now) side.now place table.now) members.now) }
{
    for member in members {
        add_bringing(setting, list, table, side, place, *member)?;
    }
    Ok(())
}

/// Adds, for each of these members, the action by which it brings a row of a side at a place, where the table has points.
fn add_bringing_to(
    setting: Setting<'_>,
    list: &mut Vec<Action>,
    side: &Side,
    place: Place,
    members: &[usize],
) -> Result<(), AllocError>
    ensures { OnOk result (list.new.items ≡ list.old.items
        ++ bringing_to setting.entry.office.now (set_of setting.entry.members.now) members.now side.now place
        (slice_get setting.entry.office.now.schema side.now.table)) }
{
    let Some(table) = setting.office.schema().def(side.table) else {
        return Ok(());
    };
    match table.shape {
        Form::Point => add_bringing_all(setting, list, table, side, place, members),
        _ => Ok(()),
    }
}

/// Adds the actions by which members bring a row of a side, where a need asks for one at a place.
pub(crate) fn add_serving(
    setting: Setting<'_>,
    list: &mut Vec<Action>,
    side: Option<&Side>,
    place: Meeting,
    members: &[usize],
) -> Result<(), AllocError>
    ensures { OnOk result (list.new.items ≡ list.old.items
        ++ serving setting.entry.office.now (set_of setting.entry.members.now) members.now (option_copied side.entry) place) }
{
    match (side, place) {
        (Some(side), Meeting::Whole(place)) => add_bringing_to(setting, list, side, place, members),
        _ => Ok(()),
    }
}
