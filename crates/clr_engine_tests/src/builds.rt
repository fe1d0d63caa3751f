//! Drafts that are built of parts without rows: which parts can't stand, and why.

ghost use Rattle.std.specs.Prelude.{IfOk};
ghost use Rattle.std.specs.List.{AllByRecursion};
ghost use Rattle.clr_office_reading.specs.Fits.{FitsOffice};
ghost use Rattle.clr_office_reading.specs.Offices.{office_read};
ghost use Rattle.clr_engine_tests.specs.Parts.{HasNoRows, SavesNoRows};

use clr_call_test_kit::{Hoard, refusals};
use clr_engine::{Draft, MarkPart, Part, PartFault};
use clr_office_reading::{OfficeParts, read_office};
use clr_office_test_kit::{network, picture};
use clr_rows::{Sheet, Words};
use std::alloc::{AllocError, Global};
use std::test::Fail;

/// The name of a part, its parent, the children and the savepoints that it has marks of.
type Outline = (
    &'static str,
    &'static str,
    &'static [&'static str],
    &'static [&'static str],
);

/// The step from one budget to the next, in bytes.
const STEP: usize = 16;

fn words(alloc: Global, text: &str) -> Result<Words, AllocError> {
    Words::from_str(alloc, text)
}

/// Returns the marks of children.
#[tactic(auto, using(crate::proofs::PartLemmas::one_more))]
fn child_marks(alloc: Global, children: &[&str]) -> Result<Vec<MarkPart>, AllocError>
    ensures { IfOk result (λ marks. AllByRecursion SavesNoRows marks.items) }
{
    let mut marks = Vec::new(alloc);
    for child in children {
        marks.push(MarkPart::ChildMark(words(alloc, child)?))?;
    }
    Ok(marks)
}

/// Returns the marks of children, and then savepoints without rows.
#[tactic(auto, using(crate::proofs::PartLemmas::one_more))]
fn marks(alloc: Global, children: &[&str], saved: &[&str]) -> Result<Vec<MarkPart>, AllocError>
    ensures { IfOk result (λ marks. AllByRecursion SavesNoRows marks.items) }
{
    let mut marks = child_marks(alloc, children)?;
    for name in saved {
        marks.push(MarkPart::Saved(words(alloc, name)?, Sheet::new(alloc)))?;
    }
    Ok(marks)
}

fn part(alloc: Global, outline: &Outline) -> Result<Part, AllocError>
    ensures { IfOk result HasNoRows }
{
    Ok(Part {
        name: words(alloc, outline.0)?,
        parent: words(alloc, outline.1)?,
        base: Sheet::new(alloc),
        current: Sheet::new(alloc),
        marks: marks(alloc, outline.2, outline.3)?,
        kept: false,
    })
}

#[tactic(auto, using(crate::proofs::PartLemmas::one_more))]
fn parts(alloc: Global, outlines: &[Outline]) -> Result<Vec<Part>, AllocError>
    ensures { IfOk result (λ parts. AllByRecursion HasNoRows parts.items) }
{
    let mut parts = Vec::new(alloc);
    for outline in outlines {
        parts.push(part(alloc, outline)?)?;
    }
    Ok(parts)
}

/// Returns the draft of what was read and of parts without rows.
fn build(alloc: Global, read: OfficeParts, parts: Vec<Part>) -> Result<Draft, (usize, PartFault)>
    requires fits { FitsOffice (office_read read) }
    requires bare { AllByRecursion HasNoRows parts.items }
{
    Draft::build(alloc, read.schema, read.book, read.live, parts)
}

/// Returns which of some parts over one node can't stand, and why.
fn fault_of(alloc: Global, outlines: &[Outline]) -> Result<Option<(usize, PartFault)>, Fail> {
    let text = network("one node").ok_or("no network")?;
    let read = read_office(alloc, text.as_bytes())?;
    Ok(build(alloc, read, parts(alloc, outlines)?).err())
}

/// Outlines of parts, and which can't stand, and why.
const PARTS: [(&[Outline], Option<(usize, PartFault)>); 15] = [
    (&[], None),
    (
        &[("A", "LIVE", &["B"], &["s", "t"]), ("B", "A", &[], &["s"])],
        None,
    ),
    (
        &[("A", "LIVE", &[], &[]), ("9", "LIVE", &[], &[])],
        Some((1, PartFault::BadName)),
    ),
    (
        &[("A", "LIVE", &[], &[]), ("A", "X", &[], &[])],
        Some((1, PartFault::NameTaken)),
    ),
    (
        &[("LIVE", "LIVE", &[], &[])],
        Some((0, PartFault::NameTaken)),
    ),
    (
        &[("B", "A", &[], &[]), ("A", "LIVE", &["B"], &[])],
        Some((0, PartFault::NoParent)),
    ),
    (
        &[
            ("A", "LIVE", &["B"], &[]),
            ("B", "A", &["C"], &[]),
            ("C", "B", &["D"], &[]),
            ("D", "C", &["E"], &[]),
            ("E", "D", &["F"], &[]),
            ("F", "E", &["G"], &[]),
            ("G", "F", &["H"], &[]),
            ("H", "G", &[], &[]),
        ],
        None,
    ),
    (
        &[
            ("A", "LIVE", &["B"], &[]),
            ("B", "A", &["C"], &[]),
            ("C", "B", &["D"], &[]),
            ("D", "C", &["E"], &[]),
            ("E", "D", &["F"], &[]),
            ("F", "E", &["G"], &[]),
            ("G", "F", &["H"], &[]),
            ("H", "G", &["I"], &[]),
            ("I", "H", &[], &[]),
        ],
        Some((8, PartFault::TooMany)),
    ),
    (
        &[("A", "LIVE", &[], &[]), ("B", "A", &[], &[])],
        Some((0, PartFault::BadMarks)),
    ),
    (
        &[("A", "LIVE", &["B", "B"], &[]), ("B", "A", &[], &[])],
        Some((0, PartFault::BadMarks)),
    ),
    (
        &[("A", "LIVE", &[], &[]), ("B", "LIVE", &["A"], &[])],
        Some((1, PartFault::BadMarks)),
    ),
    (
        &[("A", "LIVE", &["B"], &[])],
        Some((0, PartFault::BadMarks)),
    ),
    (
        &[("A", "LIVE", &[], &["s", "s"])],
        Some((0, PartFault::BadMarks)),
    ),
    (
        &[("A", "LIVE", &[], &["s", ""])],
        Some((0, PartFault::BadMarks)),
    ),
    (
        &[("A", "LIVE", &[], &["s", "s"]), ("9", "LIVE", &[], &[])],
        Some((1, PartFault::BadName)),
    ),
];

#[test]
fn parts_that_cannot_stand(rt: HostRuntime) -> Result<(), Fail> {
    for (outlines, fault) in PARTS {
        assert_eq!(rt; fault_of(rt.alloc(), outlines)?, fault);
    }
    Ok(())
}

/// A parent with a savepoint and its child.
const TWO: [Outline; 2] = [("A", "LIVE", &["B"], &["s"]), ("B", "A", &[], &[])];

/// All that an office over one node has with them.
const PICTURE: &str = "LIVE rows 1
node,9,valve,5,5
A under LIVE
base rows 0
now rows 0
child B
saved s rows 0
B under A
base rows 0
now rows 0
";

/// Returns all that the office of a draft has.
fn picture_of(alloc: Global, draft: Draft) -> Option<Vec<u8>> {
    match draft.admit(&[]) {
        Ok(office) => picture(alloc, &office),
        Err(_) => None,
    }
}

/// Returns all that the office of two parts has.
fn picture_of_two(alloc: Global) -> Result<Option<Vec<u8>>, Fail> {
    let text = network("one node").ok_or("no network")?;
    let read = read_office(alloc, text.as_bytes())?;
    match build(alloc, read, parts(alloc, &TWO)?) {
        Ok(draft) => Ok(picture_of(alloc, draft)),
        Err(_) => Ok(None),
    }
}

#[test]
fn parts_in_order(rt: HostRuntime) -> Result<(), Fail> {
    let found = picture_of_two(rt.alloc())?.ok_or("no office")?;
    assert!(rt; found.as_slice() == PICTURE.as_bytes());
    Ok(())
}

/// Returns whether two parts are built with so many bytes of memory; none where they are refused for another cause.
fn are_built_within(alloc: Global, hoard: &mut Hoard, budget: usize) -> Option<bool> {
    let read = read_office(alloc, network("one node")?.as_bytes()).ok()?;
    let parts = parts(alloc, &TWO).ok()?;
    hoard.leave(budget).ok()?;
    let built = build(alloc, read, parts);
    hoard.give_back();
    match built {
        Ok(_) => Some(true),
        Err((0, PartFault::OutOfMemory)) => Some(false),
        Err(_) => None,
    }
}

/// Returns how many budgets are too small for two parts; none where they are refused for another cause.
fn lost_builds(alloc: Global, hoard: &mut Hoard) -> Option<usize> {
    refusals(STEP, |budget| are_built_within(alloc, hoard, budget))
}

#[test]
fn parts_while_memory_is_wanting(rt: HostRuntime) -> Result<(), Fail> {
    let mut hoard = Hoard::take(rt.alloc())?;
    let refused = lost_builds(rt.alloc(), &mut hoard).ok_or("refused otherwise")?;
    assert!(rt; refused > 0);
    Ok(())
}
