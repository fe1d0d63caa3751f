//! What is printed of orders in which designs can be merged.

ghost use Rattle.std.specs.Prelude.{◌∷◌};
ghost use Rattle.clr_office_texts.specs.Drafts.{opened_in};
ghost use Rattle.clr_desk_prints.specs.NameHints.{IsHinted};
ghost use Rattle.clr_desk_plans.specs.InOrder.{IsInOrderPrint};
ghost use Rattle.clr_desk_prints.specs.Printing.{IsMadePrintout, IsPrintoutIn};

use clr_desk_command_line::OrderAsk;
use clr_desk_orders::{
    answer_certificate_in_order, answer_keep_in_order, answer_order, answer_order_certificate,
};
use clr_desk_prints::Print;
use clr_office::{RunFault, Words};
use std::alloc::Global;

/// Returns what is printed for what is asked of the orders of members over the office of a text.
pub fn answer_in_order(
    alloc: Global,
    ask: &OrderAsk,
    office: &[u8],
    root: &str,
    names: &[Words],
) -> Result<Print, RunFault>
    ensures { IsMadePrintout (IsPrintoutIn (IsHinted (IsInOrderPrint ask.now root.now names.now) (root.now ∷ names.now)) (opened_in office.now)) result }
{
    match ask {
        OrderAsk::Order => answer_order(alloc, office, root, names),
        OrderAsk::OrderCertificate => answer_order_certificate(alloc, office, root, names),
        OrderAsk::Certificate => answer_certificate_in_order(alloc, office, root, names),
        OrderAsk::Keep => answer_keep_in_order(alloc, office, root, names),
    }
}
