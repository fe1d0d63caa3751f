//! The lines of what is said of orders.

ghost use Rattle.std.specs.Prelude.{◌≡◌, ◌++◌, map, IfOk, OnOk};
ghost use Rattle.clr_merge_orders.specs.OrderLines.{final_text, merge_order_text, names_text, order_text, pair_text, scene_order_text};
ghost use Rattle.clr_plan.specs.PlanLines.{order_name};

use crate::merge_orders::MergeOrder;
use clr_clearance::Verdict;
use clr_lines::{add_count, verdict_line};
use clr_member_changes::member_name;
use clr_needs::Need;
use clr_order_answers::Pair;
use clr_plan::plan_lines;
use clr_rows::Schema;
use clr_scene_orders::SceneOrder;
use std::alloc::{AllocError, Global};

/// Adds the name of the member at a position, behind a space.
fn add_name(lines: &mut Vec<u8>, members: &[&str], at: u16) -> Result<(), AllocError>
    ensures { OnOk result (lines.new.items ≡ lines.old.items ++ order_name (map (λ name. name.now) members.now) at) }
{
    lines.extend_from_slice(b" ")?;
    lines.extend_from_slice(member_name(members, at as usize).as_bytes())
}

/// Returns a line of members: a word, how many they are, and their names.
fn names_line(
    alloc: Global,
    word: &str,
    members: &[&str],
    positions: &[u16],
) -> Result<Vec<u8>, AllocError>
    ensures { IfOk result (λ line. line.items ≡ names_text word.now (map (λ name. name.now) members.now) positions.now) }
{
    let mut line = Vec::from_slice(alloc, word.as_bytes())?;
    add_count(&mut line, positions.len())?;
    for at in positions {
        add_name(&mut line, members, *at)?;
    }
    line.extend_from_slice(b"\n")?;
    Ok(line)
}

/// Adds the line of a pair: the name of the member that goes before, and that of the other.
fn add_pair(lines: &mut Vec<u8>, members: &[&str], pair: Pair) -> Result<(), AllocError>
    ensures { OnOk result (lines.new.items ≡ lines.old.items ++ pair_text (map (λ name. name.now) members.now) pair) }
{
    lines.extend_from_slice(b"before")?;
    add_name(lines, members, pair.earlier)?;
    add_name(lines, members, pair.later)?;
    lines.extend_from_slice(b"\n")
}

/// Returns the lines of an order: its members, and then its pairs.
fn order_lines(
    alloc: Global,
    members: &[&str],
    order: &[u16],
    pairs: &[Pair],
) -> Result<Vec<u8>, AllocError>
    ensures { IfOk result (λ lines. lines.items ≡ order_text (map (λ name. name.now) members.now) order.now pairs.now) }
{
    let mut lines = names_line(alloc, "order ", members, order)?;
    for pair in pairs {
        add_pair(&mut lines, members, *pair)?;
    }
    Ok(lines)
}

/// Returns the lines of a need that no member helps: those that block it, and then the cause.
fn final_lines(
    alloc: Global,
    schema: &Schema,
    members: &[&str],
    root: &str,
    need: Need,
    blockers: &[u16],
) -> Result<Vec<u8>, AllocError>
    ensures { IfOk result (λ lines. lines.items ≡ final_text schema.now (map (λ name. name.now) members.now) root.now need blockers.now) }
{
    let mut lines = names_line(alloc, "final ", members, blockers)?;
    let line = verdict_line(alloc, schema, members, root, &Verdict::Uncovered(need))?;
    lines.extend_from_slice(b"cause ")?;
    lines.extend_from_slice(line.as_slice())?;
    Ok(lines)
}

/// Returns the lines of what is said of a scene's orders.
fn scene_order_lines(
    alloc: Global,
    schema: &Schema,
    members: &[&str],
    root: &str,
    order: &SceneOrder,
) -> Result<Vec<u8>, AllocError>
    ensures { IfOk result (λ lines. lines.items ≡ scene_order_text schema.now (map (λ name. name.now) members.now) root.now order.now) }
{
    match order {
        SceneOrder::Order { order, pairs } => {
            order_lines(alloc, members, order.as_slice(), pairs.as_slice())
        }
        SceneOrder::Final {
            need,
            members: blockers,
        } => final_lines(alloc, schema, members, root, *need, blockers.as_slice()),
        SceneOrder::Stuck(stuck) => names_line(alloc, "stuck ", members, stuck.as_slice()),
        SceneOrder::TooMany(knot) => names_line(alloc, "toomany ", members, knot.as_slice()),
    }
}

/// Returns the lines of what is said of the orders of members of a root, each ended by `\n`. Of an order
/// they are `order`, how many members there are and their names in this order, and behind it for each
/// pair `before` and the names of the two. Of a need that no member helps they are `final`, how many
/// members block it and their names, and in a second line `cause` and the verdict. Where there is no
/// order, the line is `stuck`, how many members show it and their names; and where a knot is too large,
/// `toomany`, how many members it has and their names. A plan has the lines that `plan_lines` gives it.
///
/// For example, the lines of an order are
///
/// ```text
/// order 2 W2 W1
/// before W2 W1
/// ```
pub fn merge_order_lines(
    alloc: Global,
    schema: &Schema,
    members: &[&str],
    root: &str,
    order: &MergeOrder,
) -> Result<Vec<u8>, AllocError>
    ensures { IfOk result (λ lines. lines.items ≡ merge_order_text schema.now (map (λ name. name.now) members.now) root.now order.now) }
{
    match order {
        MergeOrder::Planned(plan) => plan_lines(alloc, schema, members, root, plan),
        MergeOrder::Ordered(order) => scene_order_lines(alloc, schema, members, root, order),
    }
}
