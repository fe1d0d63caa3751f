//! Merges of members in an order, what is planned of the order, and what a certificate lets pass.

use crate::dice_offices::{MadeUp, NAMES};
use clr_cert::Certificate;
use clr_check::perform_cleared;
use clr_engine::Reply;
use clr_merge_sets::Plan;
use clr_office_test_kit::{commands_of, office_of, perform_script};
use clr_ordered_plans::{certificate_of_order, names_in_order, plan_in_order};
use std::alloc::Global;

/// Returns the merges of members in an order, each behind refreshes of the last of them and of a workspace that is no member.
fn merges_in(alloc: Global, order: &[u16]) -> Option<String> {
    let last = NAMES.get(*order.last()? as usize)?;
    let mut merges = String::new(alloc);
    for member in order {
        let name = NAMES.get(*member as usize)?;
        let steps = format!(in alloc; "refresh,{last}\nrefresh,Other\nmerge,{name},keep\n").ok()?;
        merges.push_str(steps.as_str()).ok()?;
    }
    Some(merges)
}

/// Returns whether all merges are done that are given in an order.
pub(crate) fn are_done(alloc: Global, made: &MadeUp, order: &[u16]) -> Option<bool> {
    let merges = merges_in(alloc, order)?;
    let mut office = office_of(alloc, made.text.as_str())?;
    perform_script(alloc, &mut office, merges.as_str())
}

/// Returns whether the plan in an order is cleared; none where nothing is planned, or where its certificate doesn't let the merges pass in this
/// order.
pub(crate) fn is_cleared(alloc: Global, made: &MadeUp, order: &[u16]) -> Option<bool> {
    let names = names_in_order(alloc, &NAMES, order).ok()?;
    match plan_in_order(alloc, &made.office, "LIVE", names.as_slice()) {
        Plan::Cleared(certificate) => {
            let is_let_pass = are_let_pass(alloc, made, &certificate, order)?;
            if is_let_pass { Some(true) } else { None }
        }
        Plan::Blocked { .. } => Some(false),
        _ => None,
    }
}

/// Returns the certificate of an order that was found, if it is cleared.
pub(crate) fn certificate_of(alloc: Global, made: &MadeUp, order: &[u16]) -> Option<Certificate> {
    match certificate_of_order(alloc, &made.office, "LIVE", &NAMES, order) {
        Plan::Cleared(certificate) => Some(certificate),
        _ => None,
    }
}

/// Returns whether under a certificate all merges are done that are given in an order; false where they stop, and none where one is
/// answered otherwise.
pub(crate) fn are_let_pass(
    alloc: Global,
    made: &MadeUp,
    certificate: &Certificate,
    order: &[u16],
) -> Option<bool> {
    let merges = merges_in(alloc, order)?;
    let mut office = office_of(alloc, made.text.as_str())?;
    let commands = commands_of(alloc, &office, merges.as_str())?;
    let run = perform_cleared(alloc, &mut office, certificate, commands.as_slice()).ok()?;
    if run.replies.iter().all(|reply| *reply == Reply::Done) {
        Some(run.stopped.is_none())
    } else {
        None
    }
}
