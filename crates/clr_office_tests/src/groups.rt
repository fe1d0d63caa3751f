//! What is said of members over two mains that cross at a node: which pairs are independent, and the groups. It is said again while
//! memory is wanting: at every budget of bytes pairs and groups are right or refused, and the office is as before.

use crate::merge_sets::merge_set_text;
use clr_call_test_kit::{Hoard, Memory};
use clr_engine::Office;
use clr_independence::independence_lines;
use clr_office_test_kit::{office_after, picture};
use std::alloc::Global;
use std::test::Fail;

/// How an office is made, a root, members of it, and what is said of them.
type Case = (
    &'static str,
    &'static str,
    &'static [&'static str],
    &'static str,
);

/// Members that are dependent by a need that nobody touches; a chain of three whose ends are independent; two pairs side by side;
/// members of a kept root; two that change one cell.
const CASES: [Case; 5] = [
    (
        "crossing
create,W1,LIVE
create,W2,LIVE
apply,W1,1
delete,main,1
apply,W2,1
delete,main,2
",
        "LIVE",
        &["W1", "W2"],
        "dependent W1 W2
2 members: 1 1
group of 2, 0 touched: 0 1
",
    ),
    (
        "crossing
create,W1,LIVE
create,W2,LIVE
create,W3,LIVE
apply,W1,2
insert,main,20,D,100,0,100,10
insert,node,30,tee,100,5
apply,W2,1
insert,main,21,E,90,5,210,5
apply,W3,2
insert,main,22,F,200,0,200,10
insert,node,31,tee,200,5
",
        "LIVE",
        &["W1", "W3", "W2"],
        "independent W1 W3
dependent W1 W2
dependent W3 W2
3 members: 1 1 2
group of 3, 2 touched: 0 1 2
",
    ),
    (
        "crossing
create,W1,LIVE
create,W2,LIVE
create,W3,LIVE
create,W4,LIVE
apply,W1,2
update,main,1,W,0,0,10,10
insert,main,20,D,100,0,100,10
apply,W2,1
insert,main,30,F,200,0,200,10
apply,W3,1
insert,main,21,E,95,5,105,5
apply,W4,2
insert,main,31,G,195,5,205,5
insert,hydrant,3,2,7,3
",
        "LIVE",
        &["W1", "W2", "W3", "W4"],
        "independent W1 W2
dependent W1 W3
independent W1 W4
independent W2 W3
dependent W2 W4
independent W3 W4
4 members: 3 1 1 2
group of 2, 2 touched: 0 2
group of 2, 2 touched: 1 3
",
    ),
    (
        "crossing
create,K,LIVE
hold,K
create,V1,K
create,V2,K
create,V3,K
apply,V1,1
insert,main,20,D,100,0,100,10
apply,V2,2
delete,node,9
insert,node,10,valve,5,5
apply,V3,1
delete,main,2
",
        "K",
        &["V1", "V2", "V3"],
        "independent V1 V2
independent V1 V3
dependent V2 V3
3 members: 0 1 1
group of 1, 0 touched: 0
group of 2, 1 touched: 1 2
",
    ),
    (
        "crossing
create,W1,LIVE
create,W2,LIVE
apply,W1,1
insert,main,20,D,100,0,100,10
apply,W2,1
insert,main,20,D,100,0,100,10
",
        "LIVE",
        &["W1", "W2"],
        "unfit 5 SharedCell main/20 W1 W2\n",
    ),
];

/// Returns what is said of members of a root.
fn said_in(
    alloc: Global,
    office: &Office,
    root: &str,
    members: &[&str],
    memory: &mut Memory,
) -> Option<Vec<u8>> {
    let lines = memory.answer(|| independence_lines(alloc, office, root, members));
    let mut said = lines.ok()?;
    let text = merge_set_text(alloc, office, root, members, memory).ok()?;
    said.extend_from_slice(text.as_bytes()).ok()?;
    Some(said)
}

/// Returns whether that is said of members, and the office is as before.
fn is_said_in(alloc: Global, office: &Office, case: Case, memory: &mut Memory) -> Option<bool> {
    let (_, root, members, wanted) = case;
    let before = picture(alloc, office)?;
    let said = said_in(alloc, office, root, members, memory)?;
    let after = picture(alloc, office)?;
    Some(said.as_slice() == wanted.as_bytes() && before.as_slice() == after.as_slice())
}

/// Returns whether the office of a case says of its members what the case expects, and stays as it was.
fn is_said(alloc: Global, case: Case, memory: &mut Memory) -> bool {
    match office_after(alloc, case.0) {
        Some(office) => is_said_in(alloc, &office, case, memory) == Some(true),
        None => false,
    }
}

#[test]
fn pairs_and_groups(rt: HostRuntime) -> Result<(), Fail> {
    for case in CASES {
        assert!(rt; is_said(rt.alloc(), case, &mut Memory::All), "{}", case.3);
    }
    Ok(())
}

#[test]
fn pairs_and_groups_while_memory_is_wanting(rt: HostRuntime) -> Result<(), Fail> {
    let mut memory = Memory::Hoarded(Hoard::take(rt.alloc())?);
    for case in CASES {
        assert!(rt; is_said(rt.alloc(), case, &mut memory), "{}", case.3);
    }
    Ok(())
}
