//! Calls on trees with a budget of memory.

use crate::call_cases::{CALLS, CONFLICT, CONFLICT_TEXT};
use crate::calls::{Answer, call};
use crate::cases::split_case;
use clr_call_test_kit::Hoard;
use clr_tree::Tree;
use clr_tree_test_kit::{THREE_LEVELS, act_lines, new_lines, tree_after, tree_text};
use std::alloc::{AllocError, Global};
use std::process::Abort;
use std::test::Fail;

/// Budgets end here, in bytes: beyond this `malloc` takes room from another place than its heap.
const MOST: usize = 122_880;

/// More calls than there are.
const MOST_CALLS: usize = 40;

/// What a call with a budget does: whether it is done, the tree that it leaves, and the answer.
#[derive(Drop)]
struct Outcome {
    is_done: bool,
    tree: String,
    answer: String,
}

/// Returns three levels, and a workspace in conflict with LIVE.
fn conflict_tree(alloc: Global) -> Result<Tree, AllocError> {
    let mut tree = tree_after(alloc, THREE_LEVELS)?;
    act_lines(alloc, &mut tree, CONFLICT)?;
    Ok(tree)
}

/// Returns the text of an answer, which is empty for a refused call.
fn text_of(alloc: Global, answer: &Result<Answer, AllocError>) -> Result<String, AllocError> {
    match answer {
        Ok(answer) => answer.text(alloc),
        Err(_) => Ok(String::new(alloc)),
    }
}

impl Outcome {
    /// Makes a call of a line with this many bytes of memory.
    fn of(
        alloc: Global,
        hoard: &mut Hoard,
        budget: usize,
        line: &'static str,
    ) -> Result<Outcome, AllocError> {
        let mut tree = conflict_tree(alloc)?;
        hoard.leave(budget)?;
        let answer: Result<Answer, AllocError> = call(alloc, &mut tree, line);
        hoard.give_back();
        Ok(Outcome {
            is_done: answer.is_ok(),
            tree: tree_text(alloc, &tree)?,
            answer: text_of(alloc, &answer)?,
        })
    }

    /// Returns what isn't as before in the tree, or the answer.
    fn news(&self, alloc: Global) -> Result<String, AllocError> {
        let mut text = new_lines(alloc, self.tree.as_str(), CONFLICT_TEXT)?;
        text.push_str(self.answer.as_str())?;
        Ok(text)
    }
}

/// Returns a call that is done leaves and answers what it is to.
fn check_done(rt: &impl Abort, alloc: Global, outcome: &Outcome, wanted: &str) -> Result<(), Fail> {
    let news = outcome.news(alloc)?;
    let text = news.as_str().trim_end();
    assert_eq!(rt; text, wanted);
    Ok(())
}

/// Returns a call that finds no memory leaves the tree as it was.
fn check_refused(rt: &impl Abort, outcome: &Outcome, line: &str) -> Result<(), Fail> {
    let text = outcome.tree.as_str();
    assert_eq!(rt; text, CONFLICT_TEXT, "{line}");
    Ok(())
}

/// Returns how many budgets are too little for a call.
fn count_refusals(
    rt: &impl Abort,
    alloc: Global,
    hoard: &mut Hoard,
    line: &'static str,
    wanted: &str,
) -> Result<usize, Fail> {
    for budget in (0..MOST).step_by(16) {
        let outcome = Outcome::of(alloc, hoard, budget, line)?;
        if outcome.is_done {
            check_done(rt, alloc, &outcome, wanted)?;
            return Ok(budget / 16);
        }
        check_refused(rt, &outcome, line)?;
    }
    Ok(0)
}

/// Makes each call with ever more memory.
fn check_calls(rt: &impl Abort, alloc: Global, hoard: &mut Hoard) -> Result<(), Fail> {
    let mut rest = CALLS;
    for _ in 0..MOST_CALLS {
        let Some((line, wanted, others)) = split_case(rest) else {
            break;
        };
        let refusals = count_refusals(rt, alloc, hoard, line, wanted)?;
        assert!(rt; refusals > 0, "{line}");
        rest = others;
    }
    assert_eq!(rt; rest, "");
    Ok(())
}

#[test]
fn refused_calls_change_nothing(rt: HostRuntime) -> Result<(), Fail> {
    let mut hoard = Hoard::take(rt.alloc())?;
    check_calls(&rt, rt.alloc(), &mut hoard)
}
