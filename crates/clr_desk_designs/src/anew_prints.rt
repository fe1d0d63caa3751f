//! What is printed of an opened office and a design that is made anew in place of one that stands.

ghost use Rattle.std.specs.Prelude.{IfOk};
ghost use Rattle.clr_desk_designs.specs.Again.{IsAnewPrint};
ghost use Rattle.clr_desk_prints.specs.Printing.{printed};

use crate::positions::{is_elsewhere, print_of_elsewhere};
use clr_designs::take_away;
use clr_desk_layers::{print_of_refusal, since_print};
use clr_desk_prints::Print;
use clr_engine::{Draft, Office};
use clr_layer_changes::{GivenLayer, LayerOptions};
use clr_office_reports::dump_text;
use std::alloc::{AllocError, Global};

/// Returns what is printed of a design that has the rows of layers which were copied from LIVE of a draft, in place of the design of its name that stands.
pub(crate) fn anew_print(
    alloc: Global,
    office: &mut Office,
    copied: &Draft,
    name: &str,
    options: LayerOptions,
    may_remove: bool,
    layers: &[GivenLayer],
) -> Result<Print, AllocError>
    ensures { IfOk result (λ p. IsAnewPrint name.now options may_remove layers.now office.old copied.now (printed p)) }
{
    let elsewhere = is_elsewhere(office, name);
    if elsewhere {
        return print_of_elsewhere(alloc, name);
    }
    if let Some(reply) = take_away(alloc, office, name)? {
        return print_of_refusal(alloc, office.schema(), &reply);
    }
    // (the design is made over the text of the office without the old one)
    let text = dump_text(alloc, office)?;
    let text = text.as_slice();
    since_print(
        alloc, office, text, copied, name, options, may_remove, layers,
    )
}
