//! What is planned in an office, as lines.

use clr_cert::{Certificate, Precedence};
use clr_check::{Verdict, check};
use clr_engine::Office;
use clr_lines::verdict_line;
use clr_office_test_kit::{certificate_of, members_of};
use clr_ordered_plans::plan_in_order;
use clr_plan::{Plan, plan};
use std::alloc::Global;

/// Returns whether the same two members stand in two precedences, in the same turn.
fn is_same_precedence(one: &Precedence, other: &Precedence) -> bool {
    one.earlier.as_str() == other.earlier.as_str() && one.later.as_str() == other.later.as_str()
}

/// Returns whether two certificates have the same precedences.
fn are_in_same_turn(one: &Certificate, other: &Certificate) -> bool {
    let pairs = one.before.as_slice();
    let others = other.before.as_slice();
    pairs.len() == others.len()
        && pairs
            .iter()
            .zip(others)
            .all(|(pair, other)| is_same_precedence(pair, other))
}

/// Returns whether two certificates name the same root and members and have the same precedences and entries.
fn are_same(one: &Certificate, other: &Certificate) -> bool {
    let names = one.members.as_slice();
    let others = other.members.as_slice();
    one.root.as_str() == other.root.as_str()
        && names.len() == others.len()
        && names
            .iter()
            .zip(others)
            .all(|(name, other)| name.as_str() == other.as_str())
        && are_in_same_turn(one, other)
        && one.entries.as_slice() == other.entries.as_slice()
}

/// Returns `cleared` where a certificate is clear, and that of a text.
fn cleared_line(
    alloc: Global,
    office: &Office,
    certificate: &Certificate,
    text: &str,
) -> Option<Vec<u8>> {
    let wanted = certificate_of(alloc, office.schema(), text)?;
    let is_clear = check(alloc, office, certificate) == Verdict::Clear;
    let line = if is_clear && are_same(certificate, &wanted) {
        "cleared\n"
    } else {
        "cleared otherwise\n"
    };
    Vec::from_slice(alloc, line.as_bytes()).ok()
}

/// Returns `blocked`, the members of an order, and the line of the cause.
fn blocked_lines(
    alloc: Global,
    order: &[usize],
    members: &[&str],
    cause: &[u8],
) -> Option<Vec<u8>> {
    let mut lines = Vec::from_slice(alloc, b"blocked").ok()?;
    for position in order {
        lines.extend_from_slice(b" ").ok()?;
        lines
            .extend_from_slice(members.get(*position)?.as_bytes())
            .ok()?;
    }
    lines.extend_from_slice(b"\ncause ").ok()?;
    lines.extend_from_slice(cause).ok()?;
    Some(lines)
}

/// Returns the lines of a plan of a root and members, where the text is that of the certificate.
fn lines_of_plan(
    alloc: Global,
    office: &Office,
    root: &str,
    members: &[&str],
    plan: &Plan,
    text: &str,
) -> Option<Vec<u8>> {
    match plan {
        Plan::Cleared(certificate) => cleared_line(alloc, office, certificate, text),
        Plan::Blocked { order, cause } => {
            let cause = verdict_line(alloc, office.schema(), members, root, cause).ok()?;
            blocked_lines(alloc, order.as_slice(), members, cause.as_slice())
        }
        Plan::Unfit(verdict) => verdict_line(alloc, office.schema(), members, root, verdict).ok(),
        Plan::OutOfMemory => None,
    }
}

/// Returns what is planned for a root and members, whose names stand in a line, where the text is that of the certificate.
pub fn plan_lines(alloc: Global, office: &Office, names: &str, text: &str) -> Option<Vec<u8>> {
    let (root, members) = members_of(alloc, names)?;
    let plan = plan(alloc, office, root, members.as_slice());
    lines_of_plan(alloc, office, root, members.as_slice(), &plan, text)
}

/// Returns the same in the order in which the members stand in the line.
pub fn lines_in_order(alloc: Global, office: &Office, names: &str, text: &str) -> Option<Vec<u8>> {
    let (root, members) = members_of(alloc, names)?;
    let plan = plan_in_order(alloc, office, root, members.as_slice());
    lines_of_plan(alloc, office, root, members.as_slice(), &plan, text)
}
