//! Faults of parts. A line of a text is a part: its name, its parent and its marks, of which a
//! savepoint follows `=`, and the mark of a child `+`.

use crate::cases::split_case;
use clr_rows::Sheet;
use clr_tree::{MarkPart, Part, Tree};
use clr_tree_test_kit::{numbered_sheet, parts_of, tree_text, words};
use std::alloc::{AllocError, Global};
use std::process::Abort;
use std::test::Fail;

/// Parts, and what they make.
const CASES: &str = "A LIVE
9 LIVE
--
BadName at 1
==
A LIVE
A LIVE
--
NameTaken at 1
==
LIVE LIVE
--
NameTaken at 0
==
B A
A LIVE +B
--
NoParent at 0
==
A LIVE +B
B A
--
3 workspaces
==
A LIVE =s =t
--
2 workspaces
==
A LIVE =s =s
--
BadMarks at 0
==
A LIVE =s =
--
BadMarks at 0
==
A LIVE
B A
--
BadMarks at 0
==
A LIVE +B +B
B A
--
BadMarks at 0
==
A LIVE
B LIVE +A
--
BadMarks at 1
==
A LIVE =s =s +C
B LIVE +A
--
BadMarks at 0
==
A LIVE +B
9 LIVE
--
BadName at 1
==
A LIVE =s =s +C
B A
B LIVE
--
NameTaken at 2
==
A LIVE =s =s +C
B C
--
NoParent at 1
==
";

/// Workspaces one under another, eight under LIVE.
const EIGHT_LEVELS: &str = "A LIVE +B
B A +C
C B +D
D C +E
E D +F
F E +G
G F +H
H G
";

/// One more, after bad marks.
const NINE_LEVELS: &str = "A LIVE +B =s =s +K
B A +C
C B +D
D C +E
E D +F
F E +G
G F +H
H G
I H
";

/// A part with its own base and current content, under LIVE.
const PART_TEXT: &str = "LIVE now 1=1 2=1
A under LIVE base 1=1 3=1 now 3=1 4=1
";

/// More cases than there are.
const MOST_CASES: usize = 20;

fn push_mark(alloc: Global, marks: &mut Vec<MarkPart>, word: &str) -> Result<(), AllocError> {
    if let Some(name) = word.strip_prefix("=") {
        marks.push(MarkPart::Saved(words(alloc, name)?, Sheet::new(alloc)))?;
    }
    if let Some(child) = word.strip_prefix("+") {
        marks.push(MarkPart::ChildMark(words(alloc, child)?))?;
    }
    Ok(())
}

fn marks_in(alloc: Global, text: &str) -> Result<Vec<MarkPart>, AllocError> {
    let mut marks = Vec::new(alloc);
    for word in text.split(" ") {
        push_mark(alloc, &mut marks, word)?;
    }
    Ok(marks)
}

/// Returns a part without rows.
fn part_of(
    alloc: Global,
    name: &str,
    parent: &str,
    marks: Vec<MarkPart>,
) -> Result<Part, AllocError> {
    Ok(Part {
        name: words(alloc, name)?,
        parent: words(alloc, parent)?,
        base: Sheet::new(alloc),
        current: Sheet::new(alloc),
        marks,
        kept: false,
    })
}

fn part_in(alloc: Global, line: &'static str) -> Result<Part, AllocError> {
    let (name, parent, marks) = parts_of(line);
    let marks = marks_in(alloc, marks)?;
    part_of(alloc, name, parent, marks)
}

fn parts_in(alloc: Global, lines: &'static str) -> Result<Vec<Part>, AllocError> {
    let mut parts = Vec::new(alloc);
    for line in lines.lines() {
        parts.push(part_in(alloc, line)?)?;
    }
    Ok(parts)
}

/// Returns what parts make: so many workspaces, or a fault at a position.
fn outcome_of(alloc: Global, parts: Vec<Part>) -> Result<String, AllocError> {
    match Tree::build(alloc, Sheet::new(alloc), parts) {
        Ok(tree) => format!(in alloc; "{} workspaces", tree.len()),
        Err((at, fault)) => format!(in alloc; "{fault:?} at {at}"),
    }
}

fn check(rt: &impl Abort, alloc: Global, lines: &'static str, outcome: &str) -> Result<(), Fail> {
    let text = outcome_of(alloc, parts_in(alloc, lines)?)?;
    assert_eq!(rt; text.as_str(), outcome, "of {lines}");
    Ok(())
}

#[test]
fn finds_the_first_fault(rt: HostRuntime) -> Result<(), Fail> {
    let mut rest = CASES;
    for _ in 0..MOST_CASES {
        let Some((lines, outcome, others)) = split_case(rest) else {
            break;
        };
        check(&rt, rt.alloc(), lines, outcome)?;
        rest = others;
    }
    assert_eq!(rt; rest, "");
    Ok(())
}

#[test]
fn refuses_a_ninth_level(rt: HostRuntime) -> Result<(), Fail> {
    check(&rt, rt.alloc(), EIGHT_LEVELS, "9 workspaces")?;
    check(&rt, rt.alloc(), NINE_LEVELS, "TooMany at 8")
}

/// Returns what so many children of LIVE make.
fn outcome_of_children(alloc: Global, count: usize) -> Result<String, AllocError> {
    let mut parts = Vec::new(alloc);
    for number in 0..count {
        let name = format!(in alloc; "W{number}")?;
        parts.push(part_of(alloc, name.as_str(), "LIVE", Vec::new(alloc))?)?;
    }
    outcome_of(alloc, parts)
}

#[test]
fn refuses_a_257th_workspace(rt: HostRuntime) -> Result<(), Fail> {
    let most = outcome_of_children(rt.alloc(), 255)?;
    assert_eq!(rt; most.as_str(), "256 workspaces");
    let more = outcome_of_children(rt.alloc(), 256)?;
    assert_eq!(rt; more.as_str(), "TooMany at 255");
    Ok(())
}

/// Returns what a workspace with so many savepoints makes.
fn outcome_of_savepoints(alloc: Global, count: usize) -> Result<String, AllocError> {
    let mut marks = Vec::new(alloc);
    for number in 0..count {
        let mark = format!(in alloc; "=s{number}")?;
        push_mark(alloc, &mut marks, mark.as_str())?;
    }
    let mut parts = Vec::new(alloc);
    parts.push(part_of(alloc, "A", "LIVE", marks)?)?;
    outcome_of(alloc, parts)
}

#[test]
fn refuses_a_65th_savepoint(rt: HostRuntime) -> Result<(), Fail> {
    let most = outcome_of_savepoints(rt.alloc(), 64)?;
    assert_eq!(rt; most.as_str(), "2 workspaces");
    let more = outcome_of_savepoints(rt.alloc(), 65)?;
    assert_eq!(rt; more.as_str(), "BadMarks at 0");
    Ok(())
}

/// Returns the tree of a part with its own base and current content.
fn tree_of_part(alloc: Global) -> Result<Tree, AllocError> {
    let mut part = part_of(alloc, "A", "LIVE", Vec::new(alloc))?;
    part.base = numbered_sheet(alloc, &[(1, 1), (3, 1)])?;
    part.current = numbered_sheet(alloc, &[(3, 1), (4, 1)])?;
    let mut parts = Vec::new(alloc);
    parts.push(part)?;
    match Tree::build(alloc, numbered_sheet(alloc, &[(1, 1), (2, 1)])?, parts) {
        Ok(tree) => Ok(tree),
        Err(_) => Err(AllocError),
    }
}

fn check_part(rt: &impl Abort, alloc: Global, tree: &Tree) -> Result<(), Fail> {
    let text = tree_text(alloc, tree)?;
    assert_eq!(rt; text.as_str(), PART_TEXT);
    Ok(())
}

#[test]
fn shows_parts_as_they_were(rt: HostRuntime) -> Result<(), Fail> {
    let mut tree = tree_of_part(rt.alloc())?;
    check_part(&rt, rt.alloc(), &tree)?;
    tree.sweep();
    check_part(&rt, rt.alloc(), &tree)
}
