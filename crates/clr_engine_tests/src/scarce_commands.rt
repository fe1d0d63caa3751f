//! Commands while memory is wanting. At every budget of bytes a command is answered as in an office that is the same and has all
//! memory, or with want of memory: then it changed nothing, and is answered so when it is given again. What each is answered stands in
//! `clr_cases/data/commands_one_by_one.txt`.

use clr_call_test_kit::{Hoard, Scarce, first_with_memory, first_wrong_while_scarce};
use clr_engine::{Command, Office, Reply};
use clr_office_test_kit::{commands_of, is_right_but_for_lost, office_after};
use std::alloc::Global;
use std::test::Fail;

/// The step from one budget to the next, in bytes.
const STEP: usize = 16;

/// A command.
struct OneCommand;

/// Returns what a command is answered with so many bytes of memory.
fn reply_within(
    hoard: &mut Hoard,
    budget: usize,
    office: &mut Office,
    command: &Command,
) -> Option<Reply> {
    hoard.leave(budget).ok()?;
    let reply = office.perform(command);
    hoard.give_back();
    Some(reply)
}

/// Returns whether the command of a script is answered rightly in the first of two offices.
fn is_right_in(
    alloc: Global,
    hoard: &mut Hoard,
    budget: usize,
    (office, other): (&mut Office, &mut Office),
    asked: &str,
) -> Option<bool> {
    let commands = commands_of(alloc, office, asked)?;
    let command = commands.as_slice().first()?;
    let replies = [reply_within(hoard, budget, office, command)?];
    is_right_but_for_lost(alloc, (office, other), (commands.as_slice(), &replies))
}

impl Scarce for OneCommand {
    fn is_right_within(
        &self,
        alloc: Global,
        hoard: &mut Hoard,
        budget: usize,
        setting: &str,
        rest: &str,
    ) -> Option<bool> {
        match (office_after(alloc, setting), office_after(alloc, setting)) {
            (Some(mut office), Some(mut other)) => {
                is_right_in(alloc, hoard, budget, (&mut office, &mut other), rest)
            }
            _ => None,
        }
    }
}

/// Commands where no rule is to hold.
const FREE: &str = "one node
----
create,W1,LIVE
====
one node
create,W1,LIVE
----
create,W2,W1
====
one node
create,W1,LIVE
----
apply,LIVE,2
insert,node,10,tee,7,7
update,node,9,tap,5,5
====
one node
create,W1,LIVE
create,W2,W1
----
apply,W1,2
insert,node,10,tee,7,7
delete,node,9
====
one node
create,W1,LIVE
apply,W1,2
insert,node,10,tee,7,7
delete,node,9
----
mark,W1,s1
====
one node
create,W1,LIVE
mark,W1,s1
create,W2,W1
remove,W2
apply,W1,1
delete,node,9
----
rollto,W1,s1
====
one node
create,W1,LIVE
apply,W1,2
insert,node,10,tee,7,7
delete,node,9
apply,LIVE,1
insert,node,11,tee,8,8
----
refresh,W1
====
one node
create,W1,LIVE
create,W2,W1
apply,W1,1
delete,node,9
----
refresh,W2
====
one node
create,W1,LIVE
apply,W1,2
insert,node,10,tee,7,7
delete,node,9
----
merge,W1,keep
====
one node
create,W1,LIVE
create,W2,W1
apply,W2,1
insert,node,10,tee,7,7
----
merge,W2,remove
====
one node
create,W1,LIVE
apply,W1,1
delete,node,9
apply,LIVE,1
update,node,9,tap,5,5
----
resolve,W1,node,9,PARENT
====
one node
create,W1,LIVE
apply,W1,1
delete,node,9
apply,LIVE,1
update,node,9,tap,5,5
----
resolve,W1,node,9,BASE
====
";

#[test]
fn commands_over_no_rules(rt: HostRuntime) -> Result<(), Fail> {
    let wrong = first_wrong_while_scarce(rt.alloc(), &OneCommand, STEP, FREE)?;
    assert_eq!(rt; wrong, None);
    Ok(())
}

/// Commands that look at rules.
const RULES: &str = "one code
create,W1,LIVE
----
apply,LIVE,1
insert,code,2,B
====
one code
create,W1,LIVE
----
apply,LIVE,1
insert,code,2,A
====
one code
create,W1,LIVE
apply,W1,1
insert,code,2,B
----
merge,W1,remove
====
one code
create,W1,LIVE
apply,W1,1
insert,code,2,A
----
merge,W1,keep
====
one code
create,W1,LIVE
apply,W1,1
delete,code,1
apply,LIVE,1
update,code,1,B
----
merge,W1,keep
====
one code
create,W1,LIVE
apply,W1,1
insert,code,2,B
----
hold,W1
====
one code
create,W1,LIVE
apply,W1,1
insert,code,2,A
----
hold,W1
====
one code
create,W1,LIVE
hold,W1
----
apply,W1,1
update,code,1,B
====
one code
create,W1,LIVE
hold,W1
mark,W1,s1
apply,W1,1
update,code,1,B
----
rollto,W1,s1
====
one code
create,W1,LIVE
hold,W1
apply,W1,1
update,code,1,B
----
rollall,W1
====
one code
create,W1,LIVE
hold,W1
apply,LIVE,1
insert,code,2,B
----
refresh,W1
====
one code
create,W1,LIVE
hold,W1
create,W2,W1
apply,W2,1
update,code,1,B
----
merge,W2,keep
====
one code
create,W1,LIVE
hold,W1
apply,W1,1
update,code,1,B
apply,LIVE,1
update,code,1,C
----
resolve,W1,code,1,PARENT
====
crossing
create,W1,LIVE
apply,W1,2
delete,node,9
insert,node,10,tee,5,5
----
merge,W1,keep
====
";

#[test]
fn commands_over_rules(rt: HostRuntime) -> Result<(), Fail> {
    let wrong = first_wrong_while_scarce(rt.alloc(), &OneCommand, STEP, RULES)?;
    assert_eq!(rt; wrong, None);
    Ok(())
}

/// Commands that take no memory.
const NO_MEMORY: &str = "one node
create,W1,LIVE
apply,W1,2
insert,node,10,tee,7,7
delete,node,9
create,W2,W1
----
remove,W2
====
one node
create,W1,LIVE
apply,W1,2
insert,node,10,tee,7,7
delete,node,9
----
remove,W1
====
one node
create,W1,LIVE
apply,W1,2
insert,node,10,tee,7,7
delete,node,9
mark,W1,s1
apply,W1,1
insert,node,9,tap,5,5
----
unmark,W1,s1
====
one code
create,W1,LIVE
hold,W1
apply,W1,1
update,code,1,B
----
release,W1
====
one node
create,W1,LIVE
----
remove,LIVE
====
one node
create,W1,LIVE
----
unmark,W1,s1
====
one node
create,W1,LIVE
----
release,W2
====
";

#[test]
fn commands_that_take_no_memory(rt: HostRuntime) -> Result<(), Fail> {
    let wrong = first_with_memory(rt.alloc(), &OneCommand, STEP, NO_MEMORY)?;
    assert_eq!(rt; wrong, None);
    Ok(())
}
