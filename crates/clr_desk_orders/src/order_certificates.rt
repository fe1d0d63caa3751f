//! The certificate of an order in which members can be merged.
ghost use Rattle.std.specs.Prelude.{◌≡◌, ◌∷◌, map, None, Some, IfOk};
ghost use Rattle.clr_merge_sets.specs.MergeSetNames.{merge_set};
ghost use Rattle.clr_office_texts.specs.Drafts.{opened_in};
ghost use Rattle.clr_merge_orders.specs.MergeOrders.{IsFoundOrder, in_this_order, order_in};
ghost use Rattle.clr_desk_orders.specs.OrderCertificates.{IsOrderCertificateOfSet, IsOrderCertificatePrint, behind_lines};
ghost use Rattle.clr_desk_orders.specs.PlansInOrder.{IsPlanInOrderPrint};
ghost use Rattle.clr_desk_prints.specs.NameHints.{IsHinted};
ghost use Rattle.clr_desk_prints.specs.Printing.{IsMadePrintout, IsPrintoutIn, printed};

use crate::certificates::print_in_order;
use crate::merge_orders::{order_in, order_lines};
use clr_desk_prints::{Print, RunFault, Words, answer_over_members};
use clr_engine::Office;
use clr_merge_orders::{MergeOrder, merge_order};
use clr_ordered_plans::names_in_order;
use std::alloc::{AllocError, Global};

/// Returns a print with lines in front of its notes.
fn behind_lines(mut lines: Vec<u8>, print: Print) -> Result<Print, AllocError>
    ensures { IfOk result (λ p. printed p ≡ behind_lines lines.items (printed print)) }
{
    let Print {
        text,
        notes,
        ending,
    } = print;
    lines.extend_from_slice(notes.as_slice())?;
    Ok(Print {
        text,
        notes: lines,
        ending,
    })
}

/// Returns the certificate of the members in an order, or as notes why there is none.
fn print_of_positions(
    alloc: Global,
    office: &Office,
    root: &str,
    members: &[&str],
    order: &[u16],
) -> Result<Print, AllocError>
    ensures { IfOk result (λ p. IsPlanInOrderPrint office.now (in_this_order (merge_set root.now (map (λ name. name.now) members.now)) order.now) (printed p)) }
{
    let names = names_in_order(alloc, members, order)?;
    print_in_order(alloc, office, root, names.as_slice())
}

/// Returns the lines of what is said of orders, as notes, and the certificate of an order that was found.
fn print_of_order(
    alloc: Global,
    office: &Office,
    root: &str,
    members: &[&str],
    order: &MergeOrder,
) -> Result<Print, AllocError>
    requires { IsFoundOrder office.now (merge_set root.now (map (λ name. name.now) members.now)) order.now }
    ensures { IfOk result (λ p. IsOrderCertificateOfSet office.now (merge_set root.now (map (λ name. name.now) members.now)) (printed p)) }
{
    let lines = order_lines(alloc, office, root, members, order)?;
    match order_in(order) {
        Some(positions) => {
            let print = print_of_positions(alloc, office, root, members, positions)?;
            behind_lines(lines, print)
        }
        None => Ok(Print::new(Vec::new(alloc), lines, true, false)),
    }
}

/// Returns what is printed where the certificate of an order of members is asked for.
fn print_of_set(
    alloc: Global,
    office: &Office,
    root: &str,
    members: &[&str],
) -> Result<Print, AllocError>
    ensures { IfOk result (λ p. IsOrderCertificateOfSet office.now (merge_set root.now (map (λ name. name.now) members.now)) (printed p)) }
{
    let order = merge_order(alloc, office, root, members)?;
    print_of_order(alloc, office, root, members, &order)
}

/// Returns the certificate of an order in which the members can be merged over the office of a text, and as notes the lines of that order; or no text, and as
/// notes the lines that say why none was found, which count as a refusal. Behind the notes are hints at names that no workspace has. Without names the
/// members are all children of the root. If a rule doesn't hold, the line that says so is the only note, and there is no text. Fails with `BadOffice` if the
/// text is no office, and with `OutOfMemory` for want of memory, which may come in place of any other answer.
pub fn answer_order_certificate(
    alloc: Global,
    office: &[u8],
    root: &str,
    names: &[Words],
) -> Result<Print, RunFault>
    ensures { IsMadePrintout (IsPrintoutIn (IsHinted (IsOrderCertificatePrint root.now names.now) (root.now ∷ names.now)) (opened_in office.now)) result }
{
    answer_over_members(alloc, office, root, names, |office, members| {
        print_of_set(alloc, office, root, members)
    })
}
