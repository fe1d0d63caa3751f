//! Edits and scripts as lines, with strokes in place of line ends, and what is read of them: edits with cells and rows,
//! commands with the workspace and what ends them in brackets, and reports with names behind strokes; or the number of a
//! bad record, and why.

/// A byte order mark, a quoted field, a blank line, quotes inside a field, a lone carriage return, and no line end at the end.
/// Then routes, by their coordinates, of which only an even count from 4 to 64 is read.
pub(crate) const EDITS: &str =
    "edits \u{feff}insert,main,20,\"a,\"\"b\",-7,0,0,50000,0\r//\"up\"date,main,1,,3,1,2,3,4\rdelete,note,4 \
=> insert 1.20 'a,\"b -7 0,0 50000,0, update 1.1 ' 3 1,2 3,4, delete 2.4
edits insert,route,5,R,0,0,10,0,10,-7 => insert 3.5 'R path 0,0 10,0 10,-7
route 0 => 1 FieldCount
route 2 => 1 FieldCount
route 4 => read
route 5 => 1 FieldCount
route 64 => read
route 66 => 1 FieldCount";

/// Edits that can't be read.
pub(crate) const EDIT_FAULTS: &str = r#"edits move,node,9 => 1 BadWord
edits Insert,node,9,tee,1,1 => 1 BadWord
edits "" => 1 BadWord
edits delete,note,4//move => 2 BadWord
edits insert,pipe => 1 FieldCount
edits delete,note => 1 FieldCount
edits delete,pipe,9,9 => 1 NoTable
edits delete,Note,4 => 1 NoTable
edits delete,note,4,4 => 1 FieldCount
edits insert,node,x,tee,1 => 1 FieldCount
edits insert,note,4,5 => 1 FieldCount
edits insert,main,1,A,3,0,0,9 => 1 FieldCount
edits delete,note,+4 => 1 BadNumber
edits delete,note,-0 => 1 BadNumber
edits insert,node,9,tee,1,01 => 1 BadNumber
edits insert,main,1,A,,0,0,9,9 => 1 BadNumber
edits insert,route,1,A,x,0,0,9,9 => 1 FieldCount
edits update,route,1,A,0,0,0,01 => 1 BadNumber
edits delete,route,1,A => 1 FieldCount
edits delete,note,9223372036854775808 => 1 BadNumber
edits delete,note,4/delete,note, 4/move => 2 BadNumber"#;

/// Commands.
pub(crate) const COMMANDS: &str = "script create,W1,LIVE => create [W1] [LIVE]
script remove,W1 => remove [W1] []
script mark,W1,s1 => mark [W1] [s1]
script unmark,W1,s1 => unmark [W1] [s1]
script rollto,W1,s1 => rollto [W1] [s1]
script rollall,W1 => rollall [W1] []
script refresh,W1 => refresh [W1] []
script merge,W1,keep => merge [W1] [keep]
script merge,W1,remove => merge [W1] [remove]
script hold,K => hold [K] []
script release,K => release [K] []
script resolve,W1,main,20,PARENT => resolve [W1] [PARENT] 1.20
script resolve,W1,main,20,CHILD => resolve [W1] [CHILD] 1.20
script resolve,W1,main,20,BASE => resolve [W1] [BASE] 1.20";

/// Reports. Plans have any count of names.
pub(crate) const REPORTS: &str = "script show,W1 => Show/W1
script changes,W1 => Changes/W1
script conflicts,W1 => Conflicts/W1
script audit,W1 => Audit/W1
script plan,W1 => Plan/W1
script planunder,W1 => PlanUnder/W1
script plan => Plan
script plan, => Plan/
script plan,W1,W2,W1 => Plan/W1/W2/W1
script planunder,K => PlanUnder/K
script planunder,K,V1,V2 => PlanUnder/K/V1/V2
script planinorder => PlanInOrder
script planinorder,W2,W1 => PlanInOrder/W2/W1
script planinorderunder,K => PlanInOrderUnder/K
script planinorderunder,K,V2,V1 => PlanInOrderUnder/K/V2/V1
script independence,W1,W2 => Independence/W1/W2
script independence => Independence
script independence, => Independence/
script independenceunder,K => IndependenceUnder/K
script independenceunder,K,V1,V2 => IndependenceUnder/K/V1/V2
script workspaces/dump => Workspaces; Dump";

/// Several steps.
pub(crate) const SCRIPTS: &str =
    "script \"cre\"ate,W1,LIVE//apply,W1,2/delete,note,4/delete,node,-9/apply,,0/show,W 1 \
=> create [W1] [LIVE]; apply [W1] [] delete 2.4, delete 0.-9; apply [] []; Show/W 1";

/// Records of too few or too many fields, parted by semicolons.
pub(crate) const COUNTS: &str =
    "create,W1; create,W1,LIVE,; remove; remove,W1,W2; mark,W1; unmark,W1,s1,; rollto,W1; rollall,W1,s1; refresh; merge,W1; \
merge,W1,drop,now; resolve,W1,pipe,x; resolve,W1,main,20,CHILD,; hold; hold,K,W1; release,K,; show; show,W1,W2; changes; \
conflicts; conflicts,W1,W2; audit; audit,W1,W2; workspaces,W1; dump,W1; planunder; planinorderunder; independenceunder";

/// Which of two faults of a record counts.
pub(crate) const TURNS: &str = "script Hold,K => 1 BadWord
script show ,W1 => 1 BadWord
script weak => 1 BadWord
script Conflicts,W1 => 1 BadWord
script dumps => 1 BadWord
script plans => 1 BadWord
script planinorders => 1 BadWord
script independences => 1 BadWord
script merge,W1,drop => 1 BadWord
script merge,W1,Keep => 1 BadWord
script resolve,W1,main,20,parent => 1 BadWord
script resolve,W1,main,x,parent => 1 BadNumber
script resolve,W1,main,020,CHILD => 1 BadNumber
script resolve,W1,pipe,x,parent => 1 NoTable";

/// Scripts that can't be read.
pub(crate) const SCRIPT_FAULTS: &str = r#"script open,W1 => 1 BadWord
script "" => 1 BadWord
script insert,node,9,tee,1,1 => 1 BadWord
script show,LIVE//weak,W1 => 2 BadWord
script apply,W1 => 1 FieldCount
script apply,W1,-1 => 1 BadNumber
script apply,W1,+1 => 1 BadNumber
script apply,W1,01 => 1 BadNumber
script apply,W1,1/show,W1 => 2 BadWord
script apply,W1,2/delete,note,4 => 1 FieldCount
script apply,W1,2/delete,pipe,4 => 2 NoTable
script show,W1/apply,W1,2/delete,note,x => 3 BadNumber
script show,W1/apply,W1,9223372036854775807/delete,note,4 => 2 FieldCount
script apply,W1,1/delete,note,4/delete,note,4 => 3 BadWord"#;
