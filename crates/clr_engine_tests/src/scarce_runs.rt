//! Lists of commands that are given all at once while memory is wanting. At every budget of bytes those that aren't lost are answered
//! as in an office that is the same and has all memory, and where no memory is found for the replies nothing is changed; lost commands,
//! or the whole list, are answered so when they are given again. What each list is answered stands in
//! `clr_cases/data/commands_all_at_once.txt`.

use clr_call_test_kit::{Hoard, Scarce, first_wrong_while_scarce};
use clr_engine::{Command, Office};
use clr_office_test_kit::{are_same, commands_of, is_right_but_for_lost, office_after};
use std::alloc::Global;
use std::test::Fail;

/// The step from one budget to the next, in bytes.
const STEP: usize = 16;

/// A list of commands.
struct AllAtOnce;

/// Returns whether commands for whose replies no memory was found left an office as another one is, and both answer the same when they are
/// given again, and have the same text then; it is never true.
fn is_right_again(
    alloc: Global,
    (office, other): (&mut Office, &mut Office),
    commands: &[Command],
) -> Option<bool> {
    if !are_same(alloc, office, other)? {
        return None;
    }
    let replies = office.perform_all(commands).ok()?;
    let wanted = other.perform_all(commands).ok()?;
    if replies.as_slice() == wanted.as_slice() && are_same(alloc, office, other)? {
        Some(false)
    } else {
        None
    }
}

/// Returns whether the commands of a script are answered rightly in the first of two offices.
fn is_right_in(
    alloc: Global,
    hoard: &mut Hoard,
    budget: usize,
    (office, other): (&mut Office, &mut Office),
    asked: &str,
) -> Option<bool> {
    let commands = commands_of(alloc, office, asked)?;
    hoard.leave(budget).ok()?;
    let performed = office.perform_all(commands.as_slice());
    hoard.give_back();
    match performed {
        Ok(replies) => {
            let given = (commands.as_slice(), replies.as_slice());
            is_right_but_for_lost(alloc, (office, other), given)
        }
        Err(_) => is_right_again(alloc, (office, other), commands.as_slice()),
    }
}

impl Scarce for AllAtOnce {
    fn is_right_within(
        &self,
        alloc: Global,
        hoard: &mut Hoard,
        budget: usize,
        setting: &str,
        rest: &str,
    ) -> Option<bool> {
        match (office_after(alloc, setting), office_after(alloc, setting)) {
            (Some(mut office), Some(mut other)) => {
                is_right_in(alloc, hoard, budget, (&mut office, &mut other), rest)
            }
            _ => None,
        }
    }
}

/// Settings, and commands that are given all at once.
const RUNS: &str = "one node
----
create,W1,LIVE
apply,W1,1
insert,node,10,tee,7,7
merge,W1,remove
====
crossing
create,W1,LIVE
create,W2,LIVE
apply,W1,1
insert,main,20,D,100,0,100,10
apply,W2,1
insert,main,21,E,200,0,200,10
----
merge,W1,keep
refresh,W2
merge,W2,keep
merge,W2,keep
====
crossing
----
create,W1,LIVE
mark,W1,s1
apply,W1,1
insert,main,20,D,100,0,100,10
create,W2,W1
rollto,W1,s1
merge,W1,remove
remove,W2
rollto,W1,s1
unmark,W1,s1
unmark,W1,s1
====
crossing
----
create,W1,LIVE
apply,LIVE,1
insert,main,20,D,100,0,100,10
refresh,W1
apply,W1,1
delete,main,20
rollall,W1
====
";

#[test]
fn commands_one_after_another(rt: HostRuntime) -> Result<(), Fail> {
    let wrong = first_wrong_while_scarce(rt.alloc(), &AllAtOnce, STEP, RUNS)?;
    assert_eq!(rt; wrong, None);
    Ok(())
}

/// Lists of which some commands are refused: a merge in conflict, merges that break a rule, edits that can't be made;
/// and of three workspaces that each take away another node of one place.
const REFUSED_RUNS: &str = "crossing
----
create,W1,LIVE
create,W2,LIVE
apply,W1,1
insert,main,20,D,100,0,100,10
apply,W2,1
insert,main,20,D,100,0,100,10
merge,W1,keep
merge,W2,keep
====
crossing
----
create,W1,LIVE
create,W2,LIVE
apply,W1,1
update,main,1,B,0,0,10,10
apply,W2,1
insert,main,30,A,300,0,300,10
merge,W2,keep
merge,W1,keep
merge,W2,keep
====
crossing
----
create,W1,LIVE
apply,W1,1
delete,node,9
merge,W1,keep
====
crossing
----
apply,LIVE,2
insert,node,10,valve,5,5
insert,node,11,valve,5,5
create,W1,LIVE
create,W2,LIVE
create,W3,LIVE
apply,W1,1
delete,node,9
apply,W2,1
delete,node,10
apply,W3,1
delete,node,11
====
crossing
----
create,W1,LIVE
apply,W1,1
update,main,1,W,0,0,10,10
apply,LIVE,1
update,main,1,L,0,0,10,10
merge,W1,keep
resolve,W1,main,1,CHILD
merge,W1,keep
resolve,W1,main,1,CHILD
apply,W1,1
insert,main,50,Z,3,3,3,3
apply,W1,1
insert,main,50,Z,3,3,3,1000000001
apply,W1,1
insert,main,1,Q,60,0,61,0
apply,W1,1
delete,main,77
====
";

/// A kept workspace with an old error under LIVE with another: it is refreshed, mended, released and held.
const RUNS_BESIDE_OLD_ERRORS: &str = "old errors
----
refresh,W1
apply,LIVE,1
insert,code,9,C
refresh,W1
apply,W1,1
update,code,4,A
apply,W1,1
update,code,4,D
release,W1
hold,W1
merge,W1,keep
apply,LIVE,1
update,code,2,A
====
";

#[test]
fn commands_beside_old_errors(rt: HostRuntime) -> Result<(), Fail> {
    let wrong = first_wrong_while_scarce(rt.alloc(), &AllAtOnce, STEP, RUNS_BESIDE_OLD_ERRORS)?;
    assert_eq!(rt; wrong, None);
    Ok(())
}

#[test]
fn commands_of_which_some_are_refused(rt: HostRuntime) -> Result<(), Fail> {
    let wrong = first_wrong_while_scarce(rt.alloc(), &AllAtOnce, STEP, REFUSED_RUNS)?;
    assert_eq!(rt; wrong, None);
    Ok(())
}
