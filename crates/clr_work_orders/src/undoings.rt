//! The actions by which members give up what they changed.

ghost use Rattle.std.specs.Prelude.{◌≡◌, ◌++◌, IfOk, OnOk};
ghost use Rattle.std.specs.List.{flat_map};
ghost use Rattle.std.specs.Option.{option_copied};
ghost use Rattle.clr_work_orders.specs.Remedies.{giving_up, giving_up_any, keeping, undoing, undoing_edit};

use crate::actions::Action;
use clr_change::Edit;
use clr_member_changes::MemberChanges;
use clr_needs::VersionId;
use clr_rows::{CellId, Row};
use clr_serving_rows::ServerChange;
use std::alloc::AllocError;

/// Returns the edit by which a cell has again the row that was taken over, where it has a row then or now.
fn undoing_edit(
    cell: CellId,
    before: Option<&Row>,
    after: Option<&Row>,
) -> Result<Option<Edit>, AllocError>
    ensures { IfOk result (λ edit. edit ≡ undoing_edit cell (option_copied before.entry) (option_copied after.entry)) }
{
    match (before, after) {
        (None, Some(_)) => Ok(Some(Edit::Delete(cell))),
        (Some(row), None) => Ok(Some(Edit::Insert(cell, row.copy()?))),
        (Some(row), Some(_)) => Ok(Some(Edit::Update(cell, row.copy()?))),
        (None, None) => Ok(None),
    }
}

/// Adds the action by which a member leaves a cell as it took it over, if it changes it.
pub(crate) fn add_undoing(
    list: &mut Vec<Action>,
    members: &MemberChanges<'_>,
    member: usize,
    cell: CellId,
) -> Result<(), AllocError>
    ensures { OnOk result (list.new.items ≡ list.old.items ++ undoing members.now.changes.items cell member) }
{
    let before = members.row_before(member, cell);
    if let Some(edit) = undoing_edit(cell, before, members.row_after(member, cell))? {
        list.push(Action::Make(member, edit))?;
    }
    Ok(())
}

/// Adds the action by which the member that brings a version doesn't bring it.
pub(crate) fn add_giving_up(
    list: &mut Vec<Action>,
    members: &MemberChanges<'_>,
    version: VersionId,
) -> Result<(), AllocError>
    ensures { OnOk result (list.new.items ≡ list.old.items ++ giving_up members.now.changes.items version) }
{
    if !version.fresh {
        return Ok(());
    }
    match members.changer_of(version.cell) {
        Some(member) => add_undoing(list, members, member, version.cell),
        None => Ok(()),
    }
}

/// Adds the action by which the member that brings a version doesn't bring it, if there is a version.
pub(crate) fn add_giving_up_any(
    list: &mut Vec<Action>,
    members: &MemberChanges<'_>,
    version: Option<VersionId>,
) -> Result<(), AllocError>
    ensures { OnOk result (list.new.items ≡ list.old.items ++ giving_up_any members.now.changes.items version) }
{
    match version {
        Some(version) => add_giving_up(list, members, version),
        None => Ok(()),
    }
}

/// Adds the action by which a member leaves a row that serves a need where it stands.
fn add_kept(
    list: &mut Vec<Action>,
    members: &MemberChanges<'_>,
    change: &ServerChange,
) -> Result<(), AllocError>
    ensures { OnOk result (list.new.items ≡ list.old.items ++ keeping members.now.changes.items change.now) }
{
    if change.leaves {
        add_undoing(list, members, change.member, change.cell)
    } else {
        Ok(())
    }
}

/// Adds the actions by which members leave the rows that serve a need where they stand.
pub(crate) fn add_keeping(
    list: &mut Vec<Action>,
    members: &MemberChanges<'_>,
    changes: &[ServerChange],
) -> Result<(), AllocError>
    ensures { OnOk result (list.new.items ≡ list.old.items ++ flat_map (keeping members.now.changes.items) changes.now) }
{
    for change in changes {
        add_kept(list, members, change)?;
    }
    Ok(())
}
