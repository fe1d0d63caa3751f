//! Checks while memory is wanting: at every budget of bytes a check is answered rightly or with want of memory. What is wrong
//! with names is told without memory.

use crate::answers::{Asked, Known, STEP};
use clr_call_test_kit::{Hoard, first_with_memory, first_wrong_while_scarce};
use clr_check::check;
use clr_engine::Office;
use clr_office_test_kit::{certificate_of, line_of};
use std::alloc::Global;
use std::test::Fail;

/// The check of a certificate, whose text it is.
struct Checked;

impl Asked for Checked {
    fn lines_within(
        &self,
        alloc: Global,
        hoard: &mut Hoard,
        budget: usize,
        office: &Office,
        text: &str,
    ) -> Option<Vec<u8>> {
        let certificate = certificate_of(alloc, office.schema(), text)?;
        hoard.leave(budget).ok()?;
        let verdict = check(alloc, office, &certificate);
        hoard.give_back();
        line_of(alloc, office.schema(), &certificate, &verdict)
    }
}

/// Members that are clear.
const CLEAR: &str = "a node replaced
----
member,W1,,,,
need,1,main/1/old,main/2/old,node/9/old,node/10/new
----
0 OutOfMemory
--
clear
--
====
a node replaced beside others
----
member,W1,,,,
member,W2,,,,
need,1,main/1/old,main/2/old,node/9/old,node/10/new
----
0 OutOfMemory
--
clear
--
====
two mains
----
member,W1,,,,
member,W2,,,,
----
0 OutOfMemory
--
clear
--
====
a mark and a child
----
member,W1,,,,
----
0 OutOfMemory
--
clear
--
====
live ahead
----
member,W1,,,,
----
0 OutOfMemory
--
clear
--
====
a code given up and taken
----
member,W1,,,,
member,W2,,,,
before,W1,W2,,,
need,1,main/1/new,main/2/old,node/9/old,
----
0 OutOfMemory
--
clear
--
====
";

#[test]
fn checks_of_what_is_clear(rt: HostRuntime) -> Result<(), Fail> {
    let wrong = first_wrong_while_scarce(rt.alloc(), &Known(Checked), STEP, CLEAR)?;
    assert_eq!(rt; wrong, None);
    Ok(())
}

/// A certificate that lacks a witness, and members that are not clear.
const UNCLEAR: &str = "a node replaced
----
member,W1,,,,
need,1,main/1/old,main/2/old,node/9/old,
----
0 OutOfMemory
--
6 Uncovered rule 1 main/1/old main/2/old
--
====
a node taken away
----
member,W1,,,,
----
0 OutOfMemory
--
6 Uncovered rule 1 main/1/old main/2/old
--
====
one cell twice
----
member,W1,,,,
member,W2,,,,
----
0 OutOfMemory
--
5 SharedCell main/20 W1 W2
--
====
a code given up and taken
----
member,W1,,,,
member,W2,,,,
----
0 OutOfMemory
--
6 Uncovered rule 0 main/1/old main/30/new
--
====
three nodes
----
member,W1,,,,
member,W2,,,,
member,W3,,,,
need,1,main/1/old,main/2/old,node/11/old,
----
0 OutOfMemory
--
6 Uncovered rule 1 main/1/old main/2/old
--
====
a conflict
----
member,W1,,,,
----
0 OutOfMemory
--
4 Conflict W1 main/1 1
--
====
";

#[test]
fn checks_of_what_is_not_clear(rt: HostRuntime) -> Result<(), Fail> {
    let wrong = first_wrong_while_scarce(rt.alloc(), &Known(Checked), STEP, UNCLEAR)?;
    assert_eq!(rt; wrong, None);
    Ok(())
}

/// Certificates of wrong names.
const NAMES: &str = "a child of a child
----
member,W2,,,,
member,W9,,,,
member,W1,,,,
member,W1,,,,
----
1 RepeatedMember W1
--
====
----
member,W2,,,,
member,W9,,,,
before,W9,W2,,,
----
8 NotBefore W9 W2
--
====
----
member,W2,,,,
member,W9,,,,
----
2 NoWorkspace W9
--
====
----
member,W1,,,,
member,W2,,,,
----
3 NotUnderRoot W2
--
====
----
root,W1,,,,
member,W2,,,,
member,W2,,,,
----
7 NotKept W1
--
====
";

#[test]
fn names_are_judged_without_memory(rt: HostRuntime) -> Result<(), Fail> {
    let wrong = first_with_memory(rt.alloc(), &Known(Checked), STEP, NAMES)?;
    assert_eq!(rt; wrong, None);
    Ok(())
}
