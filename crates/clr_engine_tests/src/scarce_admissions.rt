//! Admissions of drafts while memory is wanting.

use clr_call_test_kit::{Hoard, refusals};
use clr_engine::{AdmitFault, Broken, Draft, Office};
use clr_office_test_kit::{network, picture};
use clr_office_texts::read_office;
use std::alloc::Global;
use std::test::Fail;

/// The step from one budget to the next, in bytes.
const STEP: usize = 16;

/// The text of a draft whose workspace is kept, under rules that hold.
const DRAFT: &str = r#"{"format":3,"tables":[
{"name":"code","columns":[["code","TEXT"]],"shape":"NONE"}],
"rules":[{"kind":"UNIQUE","subject":{"table":"code"},"columns":["code"]}],
"live":[{"t":"code","k":1,"v":["A"],"s":[]}],
"workspaces":[{"name":"W1","parent":"LIVE","kept":true,"rows":[{"t":"code","k":2,"v":["B"],"s":[]}],"marks":[{"savepoint":"s1"}]}]}"#;

/// All that its office has.
const PICTURE: &str = "LIVE rows 1
code,1,A
W1 under LIVE kept
base rows 1
code,1,A
now rows 2
code,1,A
code,2,B
saved s1 rows 1
code,1,A
";

/// All that the office of the network with old errors has.
const PICTURE_OF_OLD_ERRORS: &str = "LIVE rows 2
code,1,A
code,2,A
W1 under LIVE kept
base rows 2
code,1,A
code,2,A
now rows 3
code,1,A
code,2,B
code,4,B
";

/// Returns an answer, where this is all that an office has; else none.
fn if_shown(alloc: Global, office: &Office, shown: &str, answer: bool) -> Option<bool> {
    let found = picture(alloc, office)?;
    if found.as_slice() == shown.as_bytes() {
        Some(answer)
    } else {
        None
    }
}

/// Admits a draft that was given back; none where its office has something else.
fn admit_again(alloc: Global, draft: Draft, known: &[Broken], shown: &str) -> Option<bool> {
    match draft.admit(known) {
        Ok(office) => if_shown(alloc, &office, shown, false),
        Err(_) => None,
    }
}

/// Returns whether a draft is admitted with a budget of bytes, or again with enough; none where its
/// office has something else.
fn is_admitted(
    alloc: Global,
    hoard: &mut Hoard,
    budget: usize,
    (draft, known, shown): (Draft, &[Broken], &str),
) -> Option<bool> {
    hoard.leave(budget).ok()?;
    let admitted = draft.admit(known);
    hoard.give_back();
    match admitted {
        Ok(office) => if_shown(alloc, &office, shown, true),
        Err((draft, AdmitFault::OutOfMemory)) => admit_again(alloc, draft, known, shown),
        Err(_) => None,
    }
}

/// Returns whether the draft of a text is admitted with a budget of bytes, or again with enough; none where its office has something else.
fn is_admitted_within(
    alloc: Global,
    hoard: &mut Hoard,
    budget: usize,
    (text, shown): (&str, &str),
) -> Option<bool> {
    let read = read_office(alloc, text.as_bytes()).ok()?;
    is_admitted(
        alloc,
        hoard,
        budget,
        (read.draft, read.known.as_slice(), shown),
    )
}

/// Returns how many budgets are too small to admit the draft of a text; none where its office has something else.
fn lost_admissions(alloc: Global, hoard: &mut Hoard, given: (&str, &str)) -> Option<usize> {
    refusals(
        STEP,
        |budget| is_admitted_within(alloc, hoard, budget, given),
    )
}

#[test]
fn drafts_are_given_back(rt: HostRuntime) -> Result<(), Fail> {
    let mut hoard = Hoard::take(rt.alloc())?;
    let given = (DRAFT, PICTURE);
    let refused = lost_admissions(rt.alloc(), &mut hoard, given).ok_or("another office")?;
    assert!(rt; refused > 0);
    Ok(())
}

#[test]
fn drafts_with_old_errors_are_given_back(rt: HostRuntime) -> Result<(), Fail> {
    let mut hoard = Hoard::take(rt.alloc())?;
    let given = (
        network("old errors").ok_or("no network")?,
        PICTURE_OF_OLD_ERRORS,
    );
    let refused = lost_admissions(rt.alloc(), &mut hoard, given).ok_or("another office")?;
    assert!(rt; refused > 0);
    Ok(())
}
