//! How offices are made, by name: the name of a network, and a script over it.

/// W1 puts another node in the place of one that a crossing needs.
const A_NODE_REPLACED: &str = "crossing
create,W1,LIVE
apply,W1,2
delete,node,9
insert,node,10,valve,5,5
";

/// A node is replaced beside W2, which lays a main, and other workspaces.
const A_NODE_REPLACED_BESIDE_OTHERS: &str = "crossing
create,W1,LIVE
create,W2,LIVE
create,Z,LIVE
create,Z2,LIVE
create,Z3,LIVE
create,Z4,LIVE
create,Z5,LIVE
create,Z6,LIVE
apply,W1,2
delete,node,9
insert,node,10,valve,5,5
apply,W2,1
insert,main,20,D,100,0,100,10
";

/// W1 and W2 lay a main each.
const TWO_MAINS: &str = "crossing
create,W1,LIVE
create,W2,LIVE
apply,W1,1
insert,main,20,D,100,0,100,10
apply,W2,1
insert,main,21,E,200,0,200,10
";

/// W1 has a savepoint, a main and a child.
const A_MARK_AND_A_CHILD: &str = "crossing
create,W1,LIVE
mark,W1,s1
apply,W1,1
insert,main,20,D,100,0,100,10
create,W2,W1
";

/// LIVE has a main that W1 lacks.
const LIVE_AHEAD: &str = "crossing
create,W1,LIVE
apply,LIVE,1
insert,main,20,D,100,0,100,10
";

/// W1 takes away the node of a crossing.
const A_NODE_TAKEN_AWAY: &str = "crossing
create,W1,LIVE
apply,W1,1
delete,node,9
";

/// W1 and W2 lay one main.
const ONE_CELL_TWICE: &str = "crossing
create,W1,LIVE
create,W2,LIVE
apply,W1,1
insert,main,20,D,100,0,100,10
apply,W2,1
insert,main,20,D,100,0,100,10
";

/// W1 gives up a code that W2 takes.
const A_CODE_GIVEN_UP_AND_TAKEN: &str = "crossing
create,W1,LIVE
create,W2,LIVE
apply,W1,1
update,main,1,B,0,0,10,10
apply,W2,1
insert,main,30,A,300,0,300,10
";

/// W1, W2 and W3 each take away another node of one crossing.
const THREE_NODES: &str = "crossing
apply,LIVE,2
insert,node,10,valve,5,5
insert,node,11,valve,5,5
create,W1,LIVE
create,W2,LIVE
create,W3,LIVE
apply,W1,1
delete,node,9
apply,W2,1
delete,node,10
apply,W3,1
delete,node,11
";

/// W1 and LIVE change one main.
const A_CONFLICT: &str = "crossing
create,W1,LIVE
apply,W1,1
update,main,1,W,0,0,10,10
apply,LIVE,1
update,main,1,L,0,0,10,10
";

/// W2 stands under W1, which isn't kept.
const A_CHILD_OF_A_CHILD: &str = "crossing
create,W1,LIVE
mark,W1,s1
create,W2,W1
";

/// Returns the setting whose name stands in a line.
pub(crate) fn setting_of(line: &str) -> Option<&'static str> {
    match line.trim_end() {
        "the crossing" => Some("crossing\n"),
        "a node replaced" => Some(A_NODE_REPLACED),
        "a node replaced beside others" => Some(A_NODE_REPLACED_BESIDE_OTHERS),
        "two mains" => Some(TWO_MAINS),
        "a mark and a child" => Some(A_MARK_AND_A_CHILD),
        "live ahead" => Some(LIVE_AHEAD),
        "a node taken away" => Some(A_NODE_TAKEN_AWAY),
        "one cell twice" => Some(ONE_CELL_TWICE),
        "a code given up and taken" => Some(A_CODE_GIVEN_UP_AND_TAKEN),
        "three nodes" => Some(THREE_NODES),
        "a conflict" => Some(A_CONFLICT),
        "a child of a child" => Some(A_CHILD_OF_A_CHILD),
        _ => None,
    }
}
