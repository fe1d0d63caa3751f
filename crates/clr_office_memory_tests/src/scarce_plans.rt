//! Plans while memory is wanting: at every budget of bytes a plan is right or want of memory. What is wrong with names is told
//! without memory.

use crate::answers::{Asked, Known, STEP};
use clr_call_test_kit::{Hoard, first_with_memory, first_wrong_while_scarce};
use clr_engine::Office;
use clr_office_test_kit::members_of;
use clr_plan::{plan, plan_lines};
use std::alloc::Global;
use std::test::Fail;

/// The plan of a root and members, whose names stand in a line.
struct Planned;

impl Asked for Planned {
    fn lines_within(
        &self,
        alloc: Global,
        hoard: &mut Hoard,
        budget: usize,
        office: &Office,
        text: &str,
    ) -> Option<Vec<u8>> {
        let (root, members) = members_of(alloc, text)?;
        hoard.leave(budget).ok()?;
        let plan = plan(alloc, office, root, members.as_slice());
        hoard.give_back();
        plan_lines(alloc, office.schema(), members.as_slice(), root, &plan).ok()
    }
}

/// Roots with members.
const PLANS: &str = "a node replaced
----
LIVE W1
----
refused 0 OutOfMemory
--
cleared 1
member,W1,,,,
need,1,main/1/old,main/2/old,node/9/old,node/10/new
--
====
a node taken away
----
LIVE W1
----
refused 0 OutOfMemory
--
blocked 1 W1
cause 6 Uncovered rule 1 main/1/old main/2/old
--
====
one cell twice
----
LIVE W1 W2
----
refused 0 OutOfMemory
--
blocked 2 W1 W2
cause 5 SharedCell main/20 W1 W2
--
====
a code given up and taken
----
LIVE W1 W2
----
refused 0 OutOfMemory
--
blocked 1 W2
cause 6 Uncovered rule 0 main/1/old main/30/new
--
====
three nodes
----
LIVE W1 W2 W3
----
refused 0 OutOfMemory
--
blocked 3 W1 W2 W3
cause 6 Uncovered rule 1 main/1/old main/2/old
--
====
a conflict
----
LIVE W1
----
refused 0 OutOfMemory
--
blocked 1 W1
cause 4 Conflict W1 main/1 1
--
====
two mains
----
LIVE W1 W2
----
refused 0 OutOfMemory
--
cleared 0
member,W1,,,,
member,W2,,,,
--
====
a mark and a child
----
LIVE W1
----
refused 0 OutOfMemory
--
cleared 0
member,W1,,,,
--
====
live ahead
----
LIVE W1
----
refused 0 OutOfMemory
--
cleared 0
member,W1,,,,
--
====
";

#[test]
fn plans(rt: HostRuntime) -> Result<(), Fail> {
    let wrong = first_wrong_while_scarce(rt.alloc(), &Known(Planned), STEP, PLANS)?;
    assert_eq!(rt; wrong, None);
    Ok(())
}

/// Wrong names.
const NAMES: &str = "a child of a child
----
LIVE W2 W9 W1 W1
----
unfit 1 RepeatedMember W1
--
====
----
LIVE W2 W9
----
unfit 2 NoWorkspace W9
--
====
----
LIVE W1 W2
----
unfit 3 NotUnderRoot W2
--
====
----
W1 W2 W2
----
unfit 7 NotKept W1
--
====
";

#[test]
fn plans_of_wrong_names_need_no_memory(rt: HostRuntime) -> Result<(), Fail> {
    let wrong = first_with_memory(rt.alloc(), &Known(Planned), STEP, NAMES)?;
    assert_eq!(rt; wrong, None);
    Ok(())
}
