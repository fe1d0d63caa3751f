//! What is asked while memory is wanting, in cases as texts.

use crate::budgets::{needs_no_memory, refusals};
use crate::cases::first_wrong;
use crate::hoards::Hoard;
use std::alloc::{AllocError, Global};

/// What is asked in a case.
pub trait Scarce {
    /// Returns whether the other parts of a case are answered rightly behind its setting, with so many bytes of memory: false where memory is
    /// wanting, and none where they are answered wrongly.
    fn is_right_within(
        &self,
        alloc: Global,
        hoard: &mut Hoard,
        budget: usize,
        setting: &str,
        rest: &str,
    ) -> Option<bool>;
}

fn first_wrong_of<S: Scarce>(
    alloc: Global,
    hoard: &mut Hoard,
    asked: &S,
    step: usize,
    cases: &str,
) -> Option<usize> {
    first_wrong(cases, |setting, rest| {
        let refused = refusals(
            step,
            |budget| asked.is_right_within(alloc, hoard, budget, setting, rest),
        );
        refused.unwrap_or(0) > 0
    })
}

/// Returns the position of the first case that isn't right at each budget, or takes no memory; none where each is right and takes some. Budgets
/// are so many bytes apart.
pub fn first_wrong_while_scarce<S: Scarce>(
    alloc: Global,
    asked: &S,
    step: usize,
    cases: &str,
) -> Result<Option<usize>, AllocError> {
    let mut hoard = Hoard::take(alloc)?;
    Ok(first_wrong_of(alloc, &mut hoard, asked, step, cases))
}

fn first_taking_memory<S: Scarce>(
    alloc: Global,
    hoard: &mut Hoard,
    asked: &S,
    step: usize,
    cases: &str,
) -> Option<usize> {
    first_wrong(cases, |setting, rest| {
        needs_no_memory(
            step,
            |budget| asked.is_right_within(alloc, hoard, budget, setting, rest),
        )
    })
}

/// Returns the position of the first case that takes memory, or isn't right; none where each is right without any.
pub fn first_with_memory<S: Scarce>(
    alloc: Global,
    asked: &S,
    step: usize,
    cases: &str,
) -> Result<Option<usize>, AllocError> {
    let mut hoard = Hoard::take(alloc)?;
    Ok(first_taking_memory(alloc, &mut hoard, asked, step, cases))
}
