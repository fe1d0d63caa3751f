//! What is said of orders in offices that are made by scripts, at every budget of bytes.

use crate::asks::Ask;
use clr_call_test_kit::first_wrong_while_scarce;
use std::test::Fail;

/// More than the step between two budgets could hide.
const STEP: usize = 64;

/// W1 takes a code that W2 gives up; W1 takes a code that W2 gives up, who takes one that W3 gives up; W1 lays a main across
/// another, and W2 and W3 each a node there; and W1 and W2 lay mains across one another, and W3 a node there.
const WAITING: &str = "one code
create,W1,LIVE
create,W2,LIVE
apply,W1,1
insert,code,2,A
apply,W2,1
update,code,1,B
----
LIVE W1 W2
----
order 2 W2 W1
before W2 W1
====
one code
apply,LIVE,1
insert,code,2,B
create,W1,LIVE
create,W2,LIVE
create,W3,LIVE
apply,W1,1
insert,code,3,A
apply,W2,1
update,code,1,B
apply,W3,1
update,code,2,C
----
LIVE W1 W2 W3
----
order 3 W3 W2 W1
before W2 W1
before W3 W2
====
crossing
create,W1,LIVE
create,W2,LIVE
create,W3,LIVE
apply,W1,1
insert,main,3,D,0,4,4,0
apply,W2,1
insert,node,20,valve,2,2
apply,W3,1
insert,node,21,valve,2,2
----
LIVE W1 W2 W3
----
order 3 W2 W3 W1
before W2 W1
====
crossing
create,W1,LIVE
create,W2,LIVE
create,W3,LIVE
apply,W1,1
insert,main,3,D,20,0,30,10
apply,W2,1
insert,main,4,E,20,10,30,0
apply,W3,1
insert,node,20,valve,25,5
----
LIVE W1 W2 W3
----
order 3 W3 W1 W2
before W3 W2
====
";

#[test]
fn members_wait_for_helpers(rt: HostRuntime) -> Result<(), Fail> {
    let wrong = first_wrong_while_scarce(rt.alloc(), &Ask::Found, STEP, WAITING)?;
    assert_eq!(rt; wrong, None);
    Ok(())
}

/// W2 lays a main across another where W1 and W3 each lay a node, and a node where mains of W1 and W3 cross: so just one of them may
/// come before it.
const BETWEEN: &str = "crossing
create,W1,LIVE
create,W2,LIVE
create,W3,LIVE
apply,W1,2
insert,node,20,valve,2,2
insert,main,30,F,20,0,30,10
apply,W2,2
insert,main,3,D,0,4,4,0
insert,node,22,valve,25,5
apply,W3,2
insert,node,21,valve,2,2
insert,main,31,G,20,10,30,0
----
LIVE W1 W2 W3
----
order 3 W1 W2 W3
before W1 W2
before W2 W3
====
----
LIVE W2 W1 W3
----
order 3 W1 W2 W3
before W1 W2
before W2 W3
====
----
LIVE W3 W1 W2
----
order 3 W3 W2 W1
before W3 W2
before W2 W1
====
";

#[test]
fn a_member_waits_for_either_of_two_but_not_for_both(rt: HostRuntime) -> Result<(), Fail> {
    let wrong = first_wrong_while_scarce(rt.alloc(), &Ask::Found, STEP, BETWEEN)?;
    assert_eq!(rt; wrong, None);
    Ok(())
}

/// W1 and W2 exchange two codes, beside W3 who does nothing of the kind; W1 and W3 take one code, beside W2; and two nodes that are
/// both taken away.
const NONE: &str = "one code
apply,LIVE,1
insert,code,2,B
create,W1,LIVE
create,W2,LIVE
create,W3,LIVE
apply,W1,1
update,code,1,B
apply,W2,1
update,code,2,A
apply,W3,1
insert,code,3,C
----
LIVE W1 W2 W3
----
stuck 2 W1 W2
====
one code
create,W1,LIVE
create,W2,LIVE
create,W3,LIVE
apply,W1,1
insert,code,2,C
apply,W2,1
insert,code,4,D
apply,W3,1
insert,code,3,C
----
LIVE W1 W2 W3
----
final 2 W1 W3
cause 6 Uncovered rule 0 code/2/new code/3/new
====
crossing
apply,LIVE,1
insert,node,10,valve,5,5
create,W1,LIVE
create,W2,LIVE
apply,W1,1
delete,node,9
apply,W2,1
delete,node,10
----
LIVE W2 W1
----
final 2 W2 W1
cause 6 Uncovered rule 1 main/1/old main/2/old
====
";

#[test]
fn exchanges_have_no_order_and_some_needs_no_helper(rt: HostRuntime) -> Result<(), Fail> {
    let wrong = first_wrong_while_scarce(rt.alloc(), &Ask::Found, STEP, NONE)?;
    assert_eq!(rt; wrong, None);
    Ok(())
}

/// Members that can be merged in every order, a cell that two change, and a conflict.
const PLANNED: &str = "crossing
create,W1,LIVE
create,W2,LIVE
apply,W1,1
insert,main,20,D,100,0,100,10
apply,W2,1
insert,main,21,E,200,0,200,10
----
LIVE W2 W1
----
order 2 W2 W1
====
crossing
create,W1,LIVE
create,W2,LIVE
apply,W1,1
insert,main,20,D,100,0,100,10
apply,W2,1
insert,main,20,D,100,0,100,10
----
LIVE W1 W2
----
blocked 2 W1 W2
cause 5 SharedCell main/20 W1 W2
====
crossing
create,W1,LIVE
apply,W1,1
update,main,1,W,0,0,10,10
apply,LIVE,1
update,main,1,L,0,0,10,10
----
LIVE W1
----
blocked 1 W1
cause 4 Conflict W1 main/1 1
====
";

#[test]
fn plans_come_in_the_place_of_orders(rt: HostRuntime) -> Result<(), Fail> {
    let wrong = first_wrong_while_scarce(rt.alloc(), &Ask::Found, STEP, PLANNED)?;
    assert_eq!(rt; wrong, None);
    Ok(())
}

/// Members as they are named: W1 takes a code that W2 gives up; each of two helps a need of W1; all that any order clears; and a cell
/// that two change.
const NAMED: &str = "one code
create,W1,LIVE
create,W2,LIVE
apply,W1,1
insert,code,2,A
apply,W2,1
update,code,1,B
----
LIVE W2 W1
----
cleared 0
member,W2,,,,
member,W1,,,,
before,W2,W1,,,
====
----
LIVE W1 W2
----
blocked 1 W1
cause 6 Uncovered rule 0 code/1/old code/2/new
====
crossing
create,W1,LIVE
create,W2,LIVE
create,W3,LIVE
apply,W1,1
insert,main,3,D,0,4,4,0
apply,W2,1
insert,node,20,valve,2,2
apply,W3,1
insert,node,21,valve,2,2
----
LIVE W2 W1 W3
----
cleared 1
member,W2,,,,
member,W1,,,,
member,W3,,,,
before,W2,W1,,,
need,1,main/1/old,main/3/new,node/20/new,
====
crossing
create,W1,LIVE
create,W2,LIVE
apply,W1,1
insert,main,20,D,100,0,100,10
apply,W2,1
insert,main,21,E,200,0,200,10
----
LIVE W2 W1
----
cleared 0
member,W2,,,,
member,W1,,,,
====
crossing
create,W1,LIVE
create,W2,LIVE
apply,W1,1
insert,main,20,D,100,0,100,10
apply,W2,1
insert,main,20,D,100,0,100,10
----
LIVE W1 W2
----
blocked 2 W1 W2
cause 5 SharedCell main/20 W1 W2
====
";

#[test]
fn plans_in_the_order_of_names(rt: HostRuntime) -> Result<(), Fail> {
    let wrong = first_wrong_while_scarce(rt.alloc(), &Ask::Named, STEP, NAMED)?;
    assert_eq!(rt; wrong, None);
    Ok(())
}

/// W1 gives up a code that W2 takes, who gives up one that W3 takes.
const AGAINST: &str = "one code
apply,LIVE,1
insert,code,2,B
create,W1,LIVE
create,W2,LIVE
create,W3,LIVE
apply,W1,1
update,code,2,C
apply,W2,1
update,code,1,B
apply,W3,1
insert,code,3,A
----
LIVE W3 W2 W1
----
cleared 0
member,W1,,,,
member,W2,,,,
member,W3,,,,
before,W2,W3,,,
before,W1,W2,,,
====
";

#[test]
fn plans_in_an_order_of_positions(rt: HostRuntime) -> Result<(), Fail> {
    let wrong = first_wrong_while_scarce(rt.alloc(), &Ask::Against, STEP, AGAINST)?;
    assert_eq!(rt; wrong, None);
    Ok(())
}
