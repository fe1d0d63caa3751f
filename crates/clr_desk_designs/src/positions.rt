//! Whether a workspace stands under another than LIVE.

ghost use Rattle.std.specs.Prelude.{◌≡◌, IfOk};
ghost use Rattle.clr_steps.specs.Names.{is_live};
ghost use Rattle.clr_steps.specs.Readings.{parent_in};
ghost use Rattle.clr_designs.specs.Again.{is_elsewhere};
ghost use Rattle.clr_desk_designs.specs.Again.{elsewhere_word};
ghost use Rattle.clr_desk_layers.specs.Layers.{unfit_print};
ghost use Rattle.clr_desk_prints.specs.Printing.{printed};

use clr_desk_layers::unfit_print;
use clr_desk_prints::Print;
use clr_engine::Office;
use clr_rows::LIVE;
use std::alloc::{AllocError, Global};

/// Returns whether a name is that of LIVE.
#[tactic(auto, unfolding(clr_steps::specs::Names::is_live))]
fn is_live(name: &str) -> bool
    ensures { result ≡ is_live name.now }
{
    name == LIVE
}

/// Returns whether a workspace of this name stands under another than LIVE.
pub(crate) fn is_elsewhere(office: &Office, name: &str) -> bool
    ensures { result ≡ is_elsewhere (parent_in office.now name.now) }
{
    match office.parent_of(name) {
        Some(parent) => !is_live(parent),
        None => false,
    }
}

/// Returns what is printed where the workspace of this name stands under another than LIVE.
pub(crate) fn print_of_elsewhere(alloc: Global, name: &str) -> Result<Print, AllocError>
    ensures { IfOk result (λ p. printed p ≡ unfit_print elsewhere_word name.now) }
{
    unfit_print(alloc, b"12 NotUnderLive", name.as_bytes())
}
