//! What is told of the broken needs of drafts and offices while memory is wanting: with each budget of bytes it is right, or want of memory.

use clr_call_test_kit::{Hoard, refusals};
use clr_engine::{Broken, Draft, Office};
use clr_lines::audit_lines;
use clr_office_test_kit::{network, office_of};
use clr_office_texts::read_office;
use std::alloc::Global;
use std::test::Fail;

/// The step from one budget to the next, in bytes.
const STEP: usize = 16;

/// The broken needs of the network with old errors.
const BROKEN: &str = "broken 2\nrule 0 code/1 code/2\nrule 0 code/2 code/4\n";

fn draft(alloc: Global) -> Option<Draft> {
    let text = network("old errors")?;
    Some(read_office(alloc, text.as_bytes()).ok()?.draft)
}

/// Returns whether it is told with a budget of bytes that the workspace at position 1 of a draft breaks another need than known ones;
/// none where something else is told.
fn is_unheld_within(
    hoard: &mut Hoard,
    budget: usize,
    draft: &Draft,
    known: &[Broken],
) -> Option<bool> {
    hoard.leave(budget).ok()?;
    let found = draft.unheld(known);
    hoard.give_back();
    match found {
        Ok(Some((1, _))) => Some(true),
        Ok(_) => None,
        Err(_) => Some(false),
    }
}

/// Returns whether the needs of a draft are told with a budget of bytes; none where other needs are.
fn are_of_draft_within(
    alloc: Global,
    hoard: &mut Hoard,
    budget: usize,
    draft: &Draft,
) -> Option<bool> {
    hoard.leave(budget).ok()?;
    let found = draft.broken_needs();
    hoard.give_back();
    match found {
        Ok(needs) => {
            let lines = audit_lines(alloc, draft.schema(), needs.as_slice()).ok()?;
            if lines.as_slice() == BROKEN.as_bytes() {
                Some(true)
            } else {
                None
            }
        }
        Err(_) => Some(false),
    }
}

/// Returns whether the needs of an office are told with a budget of bytes; none where other needs are.
fn are_of_office_within(
    alloc: Global,
    hoard: &mut Hoard,
    budget: usize,
    office: &Office,
) -> Option<bool> {
    hoard.leave(budget).ok()?;
    let found = office.broken_needs();
    hoard.give_back();
    match found {
        Ok(needs) => {
            let lines = audit_lines(alloc, office.schema(), needs.as_slice()).ok()?;
            if lines.as_slice() == BROKEN.as_bytes() {
                Some(true)
            } else {
                None
            }
        }
        Err(_) => Some(false),
    }
}

#[test]
fn first_needs_that_are_not_known(rt: HostRuntime) -> Result<(), Fail> {
    let mut hoard = Hoard::take(rt.alloc())?;
    let draft = draft(rt.alloc()).ok_or("no draft")?;
    let needs = draft.broken_needs()?;
    let known = &needs.as_slice()[..1.min(needs.len())];
    let refused = refusals(
        STEP,
        |budget| is_unheld_within(&mut hoard, budget, &draft, known),
    );
    assert!(rt; refused.unwrap_or(0) > 0);
    Ok(())
}

#[test]
fn broken_needs_of_drafts(rt: HostRuntime) -> Result<(), Fail> {
    let mut hoard = Hoard::take(rt.alloc())?;
    let draft = draft(rt.alloc()).ok_or("no draft")?;
    let alloc = rt.alloc();
    let refused = refusals(
        STEP,
        |budget| are_of_draft_within(alloc, &mut hoard, budget, &draft),
    );
    assert!(rt; refused.unwrap_or(0) > 0);
    Ok(())
}

#[test]
fn broken_needs_of_offices(rt: HostRuntime) -> Result<(), Fail> {
    let mut hoard = Hoard::take(rt.alloc())?;
    let text = network("old errors").ok_or("no network")?;
    let office = office_of(rt.alloc(), text).ok_or("no office")?;
    let alloc = rt.alloc();
    let refused = refusals(
        STEP,
        |budget| are_of_office_within(alloc, &mut hoard, budget, &office),
    );
    assert!(rt; refused.unwrap_or(0) > 0);
    Ok(())
}
