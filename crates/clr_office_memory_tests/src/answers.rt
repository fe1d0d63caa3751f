//! What is answered while memory is wanting, beside the answers that are known.

use crate::settings::setting_of;
use clr_call_test_kit::{Hoard, Scarce, is_last};
use clr_engine::Office;
use clr_office_test_kit::office_after;
use std::alloc::Global;

/// What is asked in an office, by a text.
pub(crate) trait Asked {
    /// Returns the lines that are answered with so many bytes of memory; none where it can't be asked.
    fn lines_within(
        &self,
        alloc: Global,
        hoard: &mut Hoard,
        budget: usize,
        office: &Office,
        text: &str,
    ) -> Option<Vec<u8>>;
}

/// What is asked with its answers, each ended by a line `--`, of which the last is the right one.
pub(crate) struct Known<A>(pub(crate) A);

/// Returns whether the right answer is given in an office; none where it isn't one of those that are known.
fn is_right_in<A: Asked>(
    asked: &A,
    alloc: Global,
    hoard: &mut Hoard,
    budget: usize,
    office: &Office,
    (text, answers): (&str, &str),
) -> Option<bool> {
    let lines = asked.lines_within(alloc, hoard, budget, office, text)?;
    is_last(answers, lines.as_slice())
}

impl<A: Asked> Scarce for Known<A> {
    fn is_right_within(
        &self,
        alloc: Global,
        hoard: &mut Hoard,
        budget: usize,
        setting: &str,
        rest: &str,
    ) -> Option<bool> {
        let parts = rest.split_once("----\n")?;
        match office_after(alloc, setting_of(setting)?) {
            Some(office) => is_right_in(&self.0, alloc, hoard, budget, &office, parts),
            None => None,
        }
    }
}

/// More than the step between two budgets could hide: from one to the next `malloc` gives a few small blocks more.
pub(crate) const STEP: usize = 64;
