//! Designs over an office from which LIVE has moved on, brought while memory is wanting.

use crate::made_since::{Times, brought, layers_of, texts_of};
use clr_call_test_kit::{Hoard, refusals};
use clr_desk_layers::GivenLayer;
use clr_desk_prints::RunFault;
use std::alloc::Global;
use std::test::Fail;

/// More than the step between two budgets could hide.
const STEP: usize = 64;

/// Returns whether a design is brought as by commands with so many bytes of memory: false where memory is wanting, and none where it is
/// brought otherwise.
fn is_brought_within(
    alloc: Global,
    hoard: &mut Hoard,
    budget: usize,
    times: &Times,
    layers: &[GivenLayer],
) -> Option<bool> {
    hoard.leave(budget).ok()?;
    let print = brought(alloc, times, layers);
    hoard.give_back();
    match print {
        Ok(print) if print.text.as_slice() == times.moved.as_slice() => Some(true),
        Err(RunFault::OutOfMemory) => Some(false),
        _ => None,
    }
}

/// Returns whether the design of a seed is brought at some budget, and refused before.
fn is_refused_first(alloc: Global, hoard: &mut Hoard, seed: u64) -> Option<bool> {
    let times = texts_of(alloc, seed)?;
    let layers = layers_of(alloc, times.made.as_slice())?;
    let refused = refusals(
        STEP,
        |budget| is_brought_within(alloc, hoard, budget, &times, layers.as_slice()),
    );
    Some(refused? > 0)
}

#[test]
fn designs_are_brought_or_find_no_memory(rt: HostRuntime) -> Result<(), Fail> {
    let alloc = rt.alloc();
    let mut hoard = Hoard::take(alloc)?;
    for seed in 0..2 {
        assert_eq!(rt;
            is_refused_first(alloc, &mut hoard, seed),
            Some(true),
            "seed {seed}"
        );
    }
    Ok(())
}
