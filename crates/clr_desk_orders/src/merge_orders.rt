//! Orders in which members can be merged, as lines.
ghost use Rattle.std.specs.Prelude.{◌≡◌, ◌∷◌, map, option_map, IfOk};
ghost use Rattle.clr_merge_sets.specs.MergeSetNames.{merge_set};
ghost use Rattle.clr_office_texts.specs.Drafts.{opened_in};
ghost use Rattle.clr_merge_orders.specs.MergeOrders.{order_in, order_in_scene};
ghost use Rattle.clr_desk_orders.specs.MergeOrders.{IsMergeOrderOfSet, IsMergeOrderPrint, order_lines, order_print};
ghost use Rattle.clr_desk_prints.specs.NameHints.{IsHinted};
ghost use Rattle.clr_desk_prints.specs.Printing.{IsMadePrintout, IsPrintoutIn, printed};

use clr_desk_prints::{Print, RunFault, Words, answer_over_members};
use clr_engine::Office;
use clr_merge_orders::{MergeOrder, merge_order, merge_order_lines};
use clr_scene_orders::SceneOrder;
use std::alloc::{AllocError, Global};

/// Returns the order that is said of a scene, if one is.
fn order_in_scene(order: &SceneOrder) -> Option<&[u16]>
    ensures { option_map (λ positions. positions.now) result ≡ order_in_scene order.now }
{
    match order {
        SceneOrder::Order { order, .. } => Some(order.as_slice()),
        _ => None,
    }
}

/// Returns the order in which members can be merged, by position, if one was found.
pub(crate) fn order_in(order: &MergeOrder) -> Option<&[u16]>
    ensures { option_map (λ positions. positions.now) result ≡ order_in order.now }
{
    match order {
        MergeOrder::Ordered(order) => order_in_scene(order),
        MergeOrder::Planned(_) => None,
    }
}

/// Returns the lines of what is said of the orders of members.
pub(crate) fn order_lines(
    alloc: Global,
    office: &Office,
    root: &str,
    members: &[&str],
    order: &MergeOrder,
) -> Result<Vec<u8>, AllocError>
    ensures { IfOk result (λ lines. lines.items ≡ order_lines office.now (merge_set root.now (map (λ name. name.now) members.now)) order.now) }
{
    merge_order_lines(alloc, office.schema(), members, root, order)
}

/// Returns the lines of what is said of orders, which count as a refusal unless they are of an order.
fn order_print(
    alloc: Global,
    office: &Office,
    root: &str,
    members: &[&str],
    order: &MergeOrder,
) -> Result<Print, AllocError>
    ensures { IfOk result (λ p. printed p
        ≡ order_print office.now (merge_set root.now (map (λ name. name.now) members.now)) order.now) }
{
    let lines = order_lines(alloc, office, root, members, order)?;
    Ok(Print::new(lines, Vec::new(alloc), order_in(order).is_none(), false))
}

/// Returns what is printed of the orders of members.
fn print_of_set(
    alloc: Global,
    office: &Office,
    root: &str,
    members: &[&str],
) -> Result<Print, AllocError>
    ensures { IfOk result (λ p. IsMergeOrderOfSet office.now (merge_set root.now (map (λ name. name.now) members.now)) (printed p)) }
{
    let order = merge_order(alloc, office, root, members)?;
    order_print(alloc, office, root, members, &order)
}

/// Returns the lines of an order in which the members can be merged over the office of a text, one after another, and of the pairs of which one goes
/// before the other; or those that say why none was found, which count as a refusal. As notes it returns hints at names that no workspace has. Without
/// names the members are all children of the root. If a rule doesn't hold, the line that says so is the only note, and there is no text. Fails with
/// `BadOffice` if the text is no office, and with `OutOfMemory` for want of memory, which may come in place of any other answer.
pub fn answer_order(
    alloc: Global,
    office: &[u8],
    root: &str,
    names: &[Words],
) -> Result<Print, RunFault>
    ensures { IsMadePrintout (IsPrintoutIn (IsHinted (IsMergeOrderPrint root.now names.now) (root.now ∷ names.now)) (opened_in office.now)) result }
{
    answer_over_members(alloc, office, root, names, |office, members| {
        print_of_set(alloc, office, root, members)
    })
}
