//! Runs under certificates while memory is wanting: at every budget of bytes each command is answered rightly or with want of
//! memory, and the office has the text that the other commands alone make. A lost command is answered rightly when it is given
//! again, and so is a run that found no memory for its verdict. What is wrong with names is told without memory.

use crate::answers::STEP;
use crate::settings::setting_of;
use clr_call_test_kit::{Hoard, Scarce, first_with_memory, first_wrong_while_scarce};
use clr_cert::Certificate;
use clr_check::{ClearedRun, Verdict, perform_cleared};
use clr_engine::{Command, Office, Reply};
use clr_office_test_kit::{
    certificate_of, commands_of, is_right_but_for_lost, office_after, run_or_verdict_lines,
};
use std::alloc::Global;
use std::test::Fail;

/// Commands under a certificate, each a part, and the lines that are answered.
struct Cleared;

fn line_count(lines: &[u8]) -> usize {
    lines.iter().filter(|byte| **byte == b'\n').count()
}

/// Returns the replies of a run; none where there is a verdict in its place.
fn replies_of(run: &Result<ClearedRun, Verdict>) -> &[Reply] {
    match run {
        Ok(run) => run.replies.as_slice(),
        Err(_) => &[],
    }
}

/// Returns `Some(false)` where commands are answered by these lines when they are given again, and none where they aren't.
fn is_right_again(
    alloc: Global,
    office: &mut Office,
    (certificate, commands): (&Certificate, &[Command]),
    lines: &str,
) -> Option<bool> {
    let run = perform_cleared(alloc, office, certificate, commands);
    let found = run_or_verdict_lines(alloc, office.schema(), certificate, &run)?;
    if found.as_slice() == lines.as_bytes() {
        Some(false)
    } else {
        None
    }
}

/// Returns whether a run has these lines; where memory was wanting, whether it has as many, and what was lost is right when it is given
/// again. None where that isn't so, or another office doesn't answer the same without the lost commands.
fn is_right(
    alloc: Global,
    (office, other): (&mut Office, &mut Office),
    (certificate, commands): (&Certificate, &[Command]),
    run: &Result<ClearedRun, Verdict>,
    lines: &str,
) -> Option<bool> {
    let found = run_or_verdict_lines(alloc, office.schema(), certificate, run)?;
    let given = (commands, replies_of(run));
    let is_whole = is_right_but_for_lost(alloc, (office, other), given)?;
    if let Err(Verdict::OutOfMemory) = run {
        return is_right_again(alloc, office, (certificate, commands), lines);
    }
    let is_right = if is_whole {
        found.as_slice() == lines.as_bytes()
    } else {
        line_count(found.as_slice()) == line_count(lines.as_bytes())
    };
    if is_right { Some(is_whole) } else { None }
}

/// Returns what commands are answered.
fn run_within(
    alloc: Global,
    hoard: &mut Hoard,
    budget: usize,
    office: &mut Office,
    (certificate, commands): (&Certificate, &[Command]),
) -> Option<Result<ClearedRun, Verdict>> {
    hoard.leave(budget).ok()?;
    let run = perform_cleared(alloc, office, certificate, commands);
    hoard.give_back();
    Some(run)
}

/// Returns whether commands under a certificate find their memory in an office, and are answered rightly; none where they are answered
/// wrongly. The other office is the same.
fn is_performed_in(
    alloc: Global,
    hoard: &mut Hoard,
    budget: usize,
    (office, other): (&mut Office, &mut Office),
    rest: &str,
) -> Option<bool> {
    let (certificate, rest) = rest.split_once("----\n")?;
    let (commands, lines) = rest.split_once("----\n")?;
    let certificate = certificate_of(alloc, office.schema(), certificate)?;
    let commands = commands_of(alloc, office, commands)?;
    let given = (&certificate, commands.as_slice());
    let run = run_within(alloc, hoard, budget, office, given)?;
    is_right(alloc, (office, other), given, &run, lines)
}

impl Scarce for Cleared {
    fn is_right_within(
        &self,
        alloc: Global,
        hoard: &mut Hoard,
        budget: usize,
        setting: &str,
        rest: &str,
    ) -> Option<bool> {
        let setting = setting_of(setting)?;
        match (office_after(alloc, setting), office_after(alloc, setting)) {
            (Some(mut office), Some(mut other)) => {
                is_performed_in(alloc, hoard, budget, (&mut office, &mut other), rest)
            }
            _ => None,
        }
    }
}

/// Certificates of members that are clear, commands, and the lines that are answered.
const CLEAR: &str = "a node replaced beside others
----
member,W1,,,,
member,W2,,,,
need,1,main/1/old,main/2/old,node/9/old,node/10/new
----
merge,W1,keep
merge,W2,keep
----
done
done
====
two mains
----
member,W1,,,,
member,W2,,,,
----
merge,W1,keep
refresh,W2
merge,W2,keep
merge,W2,keep
----
done
done
done
done
====
a mark and a child
----
member,W1,,,,
----
merge,W1,remove
remove,W2
unmark,W1,s1
unmark,W1,s1
merge,W1,keep
rollto,W1,s1
----
refused 5 NotLeaf
done
done
refused 7 NoSavepoint
done
stopped 6
====
live ahead
----
member,W1,,,,
----
refresh,W1
apply,W1,1
delete,main,20
rollall,W1
----
done
stopped 2
====
a code given up and taken
----
member,W1,,,,
member,W2,,,,
before,W1,W2,,,
need,1,main/1/new,main/2/old,node/9/old,
----
merge,W1,keep
merge,W2,keep
----
done
done
====
";

#[test]
fn runs_of_members_that_are_clear(rt: HostRuntime) -> Result<(), Fail> {
    let wrong = first_wrong_while_scarce(rt.alloc(), &Cleared, STEP, CLEAR)?;
    assert_eq!(rt; wrong, None);
    Ok(())
}

/// Plans of members that aren't clear, of which none is merged: they share a cell, break a rule between them, or each alone, or
/// only all three together, or are in conflict.
const UNCLEAR: &str = "one cell twice
----
member,W1,,,,
member,W2,,,,
----
merge,W1,keep
merge,W2,keep
----
5 SharedCell main/20 W1 W2
====
a code given up and taken
----
member,W1,,,,
member,W2,,,,
----
merge,W2,keep
merge,W1,keep
----
6 Uncovered rule 0 main/1/old main/30/new
====
a node taken away
----
member,W1,,,,
----
merge,W1,keep
----
6 Uncovered rule 1 main/1/old main/2/old
====
three nodes
----
member,W1,,,,
member,W2,,,,
member,W3,,,,
----
merge,W1,keep
----
6 Uncovered rule 1 main/1/old main/2/old
====
a conflict
----
member,W1,,,,
----
merge,W1,keep
----
4 Conflict W1 main/1 1
====
";

#[test]
fn runs_of_members_that_are_not_clear(rt: HostRuntime) -> Result<(), Fail> {
    let wrong = first_wrong_while_scarce(rt.alloc(), &Cleared, STEP, UNCLEAR)?;
    assert_eq!(rt; wrong, None);
    Ok(())
}

/// Names that are wrong, which is told without memory.
const NAMES: &str = "a child of a child
----
member,W2,,,,
member,W9,,,,
member,W1,,,,
member,W1,,,,
----
merge,W1,keep
----
1 RepeatedMember W1
====
";

#[test]
fn runs_of_wrong_names_need_no_memory(rt: HostRuntime) -> Result<(), Fail> {
    let wrong = first_with_memory(rt.alloc(), &Cleared, STEP, NAMES)?;
    assert_eq!(rt; wrong, None);
    Ok(())
}
