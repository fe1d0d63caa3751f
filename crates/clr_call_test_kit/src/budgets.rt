//! Calls with budgets of memory, in bytes.

/// More budgets than any call needs.
const MOST: usize = 4_096;

/// At how many budgets names are judged.
const FEW: usize = 32;

/// More answers than are known of a call.
const MOST_ANSWERS: usize = 100;

/// Returns how many budgets are too small for a call, the first of which is no memory, and each so many bytes more than the one before;
/// none where it is answered wrongly at one of them, which is told by none, or isn't done at any.
pub fn refusals<F: FnMut(usize) -> Option<bool>>(
    step: usize,
    mut is_done_within: F,
) -> Option<usize>
    requires callable { F.IsAlwaysCallable is_done_within }
{
    for count in 0..MOST {
        if is_done_within(count.saturating_mul(step))? {
            return Some(count);
        }
    }
    None
}

/// Returns whether a call is done at each of a few budgets, the first of which is no memory.
pub fn needs_no_memory<F: FnMut(usize) -> Option<bool>>(step: usize, mut is_done_within: F) -> bool
    requires callable { F.IsAlwaysCallable is_done_within }
{
    for count in 0..FEW {
        if is_done_within(count.saturating_mul(step)) != Some(true) {
            return false;
        }
    }
    true
}

/// Returns whether lines are the last of the answers that are known, each ended by a line `--`; none where they aren't known.
pub fn is_last(answers: &str, found: &[u8]) -> Option<bool> {
    let mut rest = answers;
    for _ in 0..MOST_ANSWERS {
        let (answer, others) = rest.split_once("--\n")?;
        if answer.as_bytes() == found {
            return Some(others.is_empty());
        }
        rest = others;
    }
    None
}
