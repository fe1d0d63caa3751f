//! Plans as work orders.
ghost use Rattle.std.specs.Prelude.{◌≡◌, ◌∷◌, map, IfOk};
ghost use Rattle.clr_merge_sets.specs.MergeSetNames.{merge_set};
ghost use Rattle.clr_office_texts.specs.Drafts.{opened_in};
ghost use Rattle.clr_desk_prints.specs.NameHints.{IsHinted};
ghost use Rattle.clr_desk_plans.specs.Orders.{IsOrderOfSet, IsOrderPrint, order_print};
ghost use Rattle.clr_desk_prints.specs.Printing.{IsMadePrintout, IsPrintoutIn, printed};

use clr_desk_prints::{Print, answer_over_members};
use clr_engine::Office;
use clr_office::{RunFault, Words};
use clr_work_orders::{WorkOrder, work_order};
use std::alloc::{AllocError, Global};

/// Returns the text of a work order, which refuses where the members aren't cleared.
fn print_of_order(alloc: Global, order: WorkOrder) -> Print
    ensures { printed result ≡ order_print order }
{
    Print::new(order.text, Vec::new(alloc), !order.is_cleared, false)
}

/// Returns what is printed of members as a work order. Where the plan finds no memory, this call fails.
fn print_of_set(
    alloc: Global,
    office: &mut Office,
    root: &str,
    members: &[&str],
) -> Result<Print, AllocError>
    ensures { IfOk result (λ p. IsOrderOfSet office.old (merge_set root.now (map (λ name. name.now) members.now)) (printed p)) }
{
    let order = work_order(alloc, office, root, members)?;
    if order.is_lost {
        return Err(AllocError);
    }
    Ok(print_of_order(alloc, order))
}

/// Returns the plan of members over the office of a text as a work order: its text, and as notes hints at names that no workspace has. Without names the
/// members are all children of the root. If a rule doesn't hold, the line that says so is the only note, and there is no text. Fails with `BadOffice` if
/// the text is no office, and with `OutOfMemory` for want of memory, which may come in place of any other answer.
pub fn answer_work_order(
    alloc: Global,
    office: &[u8],
    root: &str,
    names: &[Words],
) -> Result<Print, RunFault>
    ensures { IsMadePrintout (IsPrintoutIn (IsHinted (IsOrderPrint root.now names.now) (root.now ∷ names.now)) (opened_in office.now)) result }
{
    answer_over_members(alloc, office, root, names, |office, members| {
        print_of_set(alloc, office, root, members)
    })
}
