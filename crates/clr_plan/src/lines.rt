//! The lines of plans.

ghost use Rattle.std.specs.Prelude.{◌≡◌, ◌++◌, map, IfOk, OnOk};
ghost use Rattle.clr_plan.specs.PlanLines.{blocked_text, cleared_text, order_name, order_text, plan_text};

use clr_cert::{Certificate, write_certificate};
use clr_clearance::Verdict;
use clr_lines::{add_count, count_line, unfit_line, verdict_line};
use clr_member_changes::member_name;
use clr_merge_sets::Plan;
use clr_rows::Schema;
use std::alloc::{AllocError, Global};

/// Returns the lines of a certificate: how many entries it has, and its text.
fn cleared_lines(
    alloc: Global,
    schema: &Schema,
    certificate: &Certificate,
) -> Result<Vec<u8>, AllocError>
    ensures { IfOk result (λ lines. lines.items ≡ cleared_text schema.now certificate.now) }
{
    let mut lines = count_line(alloc, "cleared", certificate.entries.as_slice().len())?;
    let text = write_certificate(alloc, schema, certificate)?;
    lines.extend_from_slice(text.as_slice())?;
    Ok(lines)
}

/// Adds the name of the member at a position, behind a space.
fn add_order_name(lines: &mut Vec<u8>, members: &[&str], at: usize) -> Result<(), AllocError>
    ensures { OnOk result (lines.new.items ≡ lines.old.items ++ order_name (map (λ name. name.now) members.now) at) }
{
    lines.extend_from_slice(b" ")?;
    lines.extend_from_slice(member_name(members, at).as_bytes())
}

/// Returns the line of an order: how many members stand in it, and their names.
fn order_line(alloc: Global, members: &[&str], order: &[usize]) -> Result<Vec<u8>, AllocError>
    ensures { IfOk result (λ line. line.items ≡ order_text (map (λ name. name.now) members.now) order.now) }
{
    let mut line = Vec::from_slice(alloc, b"blocked ")?;
    add_count(&mut line, order.len())?;
    for at in order {
        add_order_name(&mut line, members, *at)?;
    }
    line.extend_from_slice(b"\n")?;
    Ok(line)
}

/// Returns the lines of a plan that is blocked: the order, and the verdict that is its cause.
fn blocked_lines(
    alloc: Global,
    schema: &Schema,
    members: &[&str],
    root: &str,
    order: &[usize],
    cause: &Verdict,
) -> Result<Vec<u8>, AllocError>
    ensures { IfOk result (λ lines. lines.items ≡ blocked_text schema.now (map (λ name. name.now) members.now) root.now order.now cause.now) }
{
    let mut lines = order_line(alloc, members, order)?;
    let line = verdict_line(alloc, schema, members, root, cause)?;
    lines.extend_from_slice(b"cause ")?;
    lines.extend_from_slice(line.as_slice())?;
    Ok(lines)
}

/// Returns the lines of a plan of members of a root, each ended by `\n`. Of a certificate they are
/// `cleared` and how many entries it has, and then its records, as `write_certificate` writes them.
/// Of an order in which a merge is refused they are `blocked`, how many members stand in it and
/// their names, and in a second line `cause` and the verdict. Where the members are unfit, the line
/// is `unfit` and the verdict. Where the planner found no memory, it is `refused 0 OutOfMemory`. A
/// position past the members, and a table that the schema hasn't, have an empty name.
///
/// For example, the lines of a certificate with one entry, and those of a plan that is blocked, are
///
/// ```text
/// cleared 1
/// member,W1,,,,
/// need,1,main/1/old,main/2/old,node/9/old,node/10/new
/// ```
///
/// ```text
/// blocked 1 W1
/// cause 6 Uncovered rule 1 main/1/old main/2/old
/// ```
#[tactic(auto, unfolding(crate::specs::PlanLines::plan_text))]
pub fn plan_lines(
    alloc: Global,
    schema: &Schema,
    members: &[&str],
    root: &str,
    plan: &Plan,
) -> Result<Vec<u8>, AllocError>
    ensures { IfOk result (λ lines. lines.items ≡ plan_text schema.now (map (λ name. name.now) members.now) root.now plan.now) }
{
    match plan {
        Plan::Cleared(certificate) => cleared_lines(alloc, schema, certificate),
        Plan::Blocked { order, cause } => {
            blocked_lines(alloc, schema, members, root, order.as_slice(), cause)
        }
        Plan::Unfit(verdict) => unfit_line(alloc, schema, members, root, verdict),
        Plan::OutOfMemory => Vec::from_slice(alloc, b"refused 0 OutOfMemory\n"),
    }
}
