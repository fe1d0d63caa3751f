//! Known needs that can be read and that their rule can't have.
ghost use Rattle.std.specs.Prelude.{◌≡◌, IfOk};
ghost use Rattle.clr_item_explanations.specs.Slips.{said};
ghost use Rattle.clr_item_explanations.specs.Tellings.{Tells};
ghost use Rattle.clr_explanations.specs.KnownNeeds.{need_fault_text, wrong_of_need};

use clr_faults::{BadNeed, NeedFault};
use clr_item_explanations::Slip;
use clr_text_positions::{Key, PathStep};
use std::alloc::{AllocError, Global};

/// Returns what a fault of a known need means.
fn sentence_of(fault: NeedFault) -> &'static str
    ensures { result.now ≡ need_fault_text fault }
{
    match fault {
        NeedFault::FirstKey => "the first key isn't from 1 to 999999999999999",
        NeedFault::SecondKey => "the second key isn't from 1 to 999999999999999",
        NeedFault::NotAscending => {
            "the second key isn't greater than the first, though both are of one table"
        }
        NeedFault::FirstPart => "the first part isn't from 1 to 31",
        NeedFault::SecondPart => "the second part isn't from 1 to 31",
    }
}

/// Returns why a known need is none of its rule, at its name in the rule's list.
#[tactic(auto, using(clr_item_explanations::proofs::TellingLemmas::plain_told))]
pub fn explain_need(alloc: Global, need: BadNeed) -> Result<Slip, AllocError>
    ensures { IfOk result (λ slip. Tells (wrong_of_need need) (said slip)) }
{
    let steps = [PathStep::Key(Key::Known), PathStep::At(need.place)];
    let slip = Slip::of_words(alloc, &steps, sentence_of(need.fault))?;
    Ok(slip)
}
