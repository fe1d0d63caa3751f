//! What may clear a set of members that is blocked, to be tried.

ghost use Rattle.std.specs.Prelude.{◌≡◌, ◌++◌, IfOk, OnOk, map};
ghost use Rattle.std.specs.Option.{option_copied};
ghost use Rattle.clr_clash_helpers.specs.Helpers.{AreHelpersIn};
ghost use Rattle.clr_whereabouts.specs.declared.needs.Whereabouts.{Whereabouts};
ghost use Rattle.clr_whereabouts.specs.Whereabouts.{IsWhereabouts};
ghost use Rattle.clr_merge_sets.specs.MemberChanges.{AreMembers, set_of};
ghost use Rattle.clr_work_orders.specs.Remedies.{AreForCause, AreRemedies, IsPlaceOfCause, for_cause, for_need, leaving_out, server_of, splitting};
ghost use Rattle.clr_work_orders.specs.declared.actions.Action.TheVariants as action;

use crate::actions::Action;
use crate::bringing::add_serving;
use crate::undoings::{add_giving_up, add_giving_up_any, add_keeping, add_undoing};
use clr_clash_helpers::helpers_of;
use clr_clearance::Verdict;
use clr_engine::Office;
use clr_member_changes::MemberChanges;
use clr_needs::Need;
use clr_plan::Plan;
use clr_plan_sentences::Setting;
use clr_rows::Place;
use clr_rules::Side;
use clr_serving_rows::{rule_of, server_changes, server_side};
use clr_tips::{Split, splits_of};
use clr_whereabouts::need_whereabouts;
use std::alloc::{AllocError, Global};

/// Returns the side whose rows serve a need, if any can.
fn side_of<'a>(office: &'a Office, need: &Need) -> Option<&'a Side>
    ensures { option_copied result ≡ server_of office.entry.now need.now }
{
    match rule_of(office, need) {
        Some(rule) => server_side(rule),
        None => None,
    }
}

/// Adds that lines are split, in each of these ways.
fn add_splits(alloc: Global, list: &mut Vec<Action>, splits: &[Split]) -> Result<(), AllocError>
    ensures { OnOk result (list.new.items ≡ list.old.items ++ map action.Split splits.now) }
{
    for split in splits {
        list.push(Action::Split(split.copy(alloc)?))?;
    }
    Ok(())
}

/// Adds the ways to split the lines of a need at a place near where they cross, if one is told.
fn add_splitting(
    setting: Setting<'_>,
    list: &mut Vec<Action>,
    need: &Need,
    near: Option<Place>,
) -> Result<(), AllocError>
    ensures { OnOk result (AreMembers setting.entry.office.now (set_of setting.entry.members.now) setting.entry.members.now
        → list.new.items ≡ list.old.items ++ splitting setting.entry.office.now (set_of setting.entry.members.now)
        setting.entry.members.now.changes.items need.now near) }
{
    let side = side_of(setting.office, need);
    let splits = splits_of(
        setting.alloc,
        setting.office,
        setting.members,
        need,
        side,
        near,
    )?;
    add_splits(setting.alloc, list, splits.as_slice())?;
    Ok(())
}

/// Adds what may serve a need that nothing covers, or take it away.
fn add_for_need(
    setting: Setting<'_>,
    list: &mut Vec<Action>,
    need: &Need,
    order: &[usize],
) -> Result<(), AllocError>
    ensures { OnOk result (AreMembers setting.entry.office.now (set_of setting.entry.members.now) setting.entry.members.now
        → (places : Whereabouts) × IsWhereabouts setting.entry.office.now (set_of setting.entry.members.now) need.now places
        × (list.new.items ≡ list.old.items ++ for_need setting.entry.office.now (set_of setting.entry.members.now)
        setting.entry.members.now.changes.items order.now places need.now)) }
{
    let places = need_whereabouts(setting.office, setting.members, need);
    add_serving(
        setting,
        list,
        side_of(setting.office, need),
        places.meeting,
        order,
    )?;
    add_splitting(setting, list, need, places.near)?;
    let changes = server_changes(setting.alloc, setting.office, setting.members, need)?;
    add_keeping(list, setting.members, changes.as_slice())?;
    add_giving_up(list, setting.members, need.first)?;
    add_giving_up_any(list, setting.members, need.second)
}

/// Adds what may take a cause away.
fn add_for_cause(
    setting: Setting<'_>,
    list: &mut Vec<Action>,
    order: &[usize],
    cause: &Verdict,
) -> Result<(), AllocError>
    ensures { OnOk result (AreMembers setting.entry.office.now (set_of setting.entry.members.now) setting.entry.members.now
        → (places : Whereabouts) × IsPlaceOfCause setting.entry.office.now (set_of setting.entry.members.now) cause.now places
        × (list.new.items ≡ list.old.items ++ for_cause setting.entry.office.now (set_of setting.entry.members.now)
        setting.entry.members.now.changes.items order.now places cause.now)) }
{
    match cause {
        Verdict::Conflict { member, cell, .. } => {
            add_undoing(list, setting.members, *member, *cell)
        }
        Verdict::SharedCell {
            cell,
            first,
            second,
        } => {
            add_undoing(list, setting.members, *first, *cell)?;
            add_undoing(list, setting.members, *second, *cell)
        }
        Verdict::Uncovered(need) => add_for_need(setting, list, need, order),
        _ => Ok(()),
    }
}

/// Adds that one of several members in an order is left out.
fn add_leaving_out(list: &mut Vec<Action>, order: &[usize]) -> Result<(), AllocError>
    ensures { OnOk result (list.new.items ≡ list.old.items ++ leaving_out order.now) }
{
    if order.len() <= 1 {
        return Ok(());
    }
    for member in order {
        list.push(Action::LeaveOut(*member))?;
    }
    Ok(())
}

/// Returns the members that help those in an order, by position: none where the cause isn't a need.
fn helpers_in(
    setting: Setting<'_>,
    order: &[usize],
    cause: &Verdict,
) -> Result<Vec<usize>, AllocError>
    requires { AreMembers setting.office.now (set_of setting.members.now) setting.members.now }
    ensures { IfOk result (λ helpers. AreHelpersIn setting.entry.office.now (set_of setting.entry.members.now) order.now cause.now helpers.items) }
{
    match cause {
        Verdict::Uncovered(need) => {
            helpers_of(setting.alloc, setting.office, setting.members, order, need)
        }
        _ => Ok(Vec::new(setting.alloc)),
    }
}

/// Adds that each of these members goes first.
fn add_going_first(list: &mut Vec<Action>, helpers: &[usize]) -> Result<(), AllocError>
    ensures { OnOk result (list.new.items ≡ list.old.items ++ map action.GoFirst helpers.now) }
{
    for member in helpers {
        list.push(Action::GoFirst(*member))?;
    }
    Ok(())
}

/// Returns what may clear a set of members that is blocked in this order for this cause. That a member which helps goes first stands first; that
/// one of the order is left out stands last, and isn't tried where there is but one.
fn remedies_for(
    setting: Setting<'_>,
    order: &[usize],
    cause: &Verdict,
) -> Result<Vec<Action>, AllocError>
    requires { AreMembers setting.office.now (set_of setting.members.now) setting.members.now }
    ensures { IfOk result (λ list. AreForCause setting.entry.office.now (set_of setting.entry.members.now)
        setting.entry.members.now.changes.items order.now cause.now list.items) }
{
    let helpers = helpers_in(setting, order, cause)?;
    let mut list = Vec::new(setting.alloc);
    add_going_first(&mut list, helpers.as_slice())?;
    add_for_cause(setting, &mut list, order, cause)?;
    add_leaving_out(&mut list, order)?;
    Ok(list)
}

/// Returns what may clear members that this plan says are blocked, to be tried one by one; nothing of any other plan.
pub(crate) fn plan_remedies(
    alloc: Global,
    office: &Office,
    members: &MemberChanges<'_>,
    plan: &Plan,
) -> Result<Vec<Action>, AllocError>
    requires { AreMembers office.now (set_of members.now) members.now }
    ensures { IfOk result (λ list. AreRemedies office.now (set_of members.now) plan.now list.items) }
{
    let Plan::Blocked { order, cause } = plan else {
        return Ok(Vec::new(alloc));
    };
    let setting = Setting {
        alloc,
        office,
        members,
    };
    remedies_for(setting, order.as_slice(), cause)
}
