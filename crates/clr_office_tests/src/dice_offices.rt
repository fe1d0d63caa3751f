//! Offices that dice make: a square of mains and nodes, and what five members change in it, no two of them the same cell.

use crate::plain::{Form, Version};
use clr_call_test_kit::Dice;
use std::alloc::{AllocError, Global};

/// Two mains across a square and two up it, with a node wherever two cross.
pub(crate) const NETWORK: &str = r#"{"format":1,"tables":[
{"name":"node","columns":[["kind","TEXT"]],"shape":"POINT"},
{"name":"main","columns":[["code","TEXT"]],"shape":"SEGMENT"}],
"rules":[{"kind":"CROSSING","a":{"table":"main"},"b":{"table":"main"},"server":{"table":"node"}},
{"kind":"ENDNODE","subject":{"table":"main"},"tip":"FIRST","server":{"table":"node"}},
{"kind":"NEAR","a":{"table":"node"},"b":{"table":"node"},"d":1}],
"live":[{"t":"main","k":1,"v":["A"],"s":[0,0,20,0]},
{"t":"main","k":2,"v":["A"],"s":[0,10,20,10]},
{"t":"main","k":3,"v":["A"],"s":[0,0,0,20]},
{"t":"main","k":4,"v":["A"],"s":[10,0,10,20]},
{"t":"node","k":5,"v":["valve"],"s":[0,0]},
{"t":"node","k":6,"v":["valve"],"s":[0,10]},
{"t":"node","k":7,"v":["valve"],"s":[10,0]},
{"t":"node","k":8,"v":["valve"],"s":[10,10]}]}"#;

/// The rows of LIVE by their keys.
const LIVE: [(u64, Form); 8] = [
    (1, Form::Across(0)),
    (2, Form::Across(10)),
    (3, Form::Up(0)),
    (4, Form::Up(10)),
    (5, Form::Node(0, 0)),
    (6, Form::Node(0, 10)),
    (7, Form::Node(10, 0)),
    (8, Form::Node(10, 10)),
];

/// A workspace for each member.
const CREATES: &str = "create,W1,LIVE
create,W2,LIVE
create,W3,LIVE
create,W4,LIVE
create,W5,LIVE
";

/// What members change: a script, and all versions that there are then.
#[derive(Drop)]
pub(crate) struct MadeUp {
    pub(crate) script: String,
    pub(crate) versions: Vec<Version>,
}

/// Returns the set of one member.
pub(crate) fn only(member: usize) -> u16 {
    match member {
        0 => 1,
        1 => 2,
        2 => 4,
        3 => 8,
        _ => 16,
    }
}

/// Returns a new row.
fn new_form(dice: &mut Dice, is_node: bool) -> Form {
    let (x, y) = (dice.throw(3) * 10, dice.throw(3) * 10);
    if is_node {
        Form::Node(x, y)
    } else if dice.throw(2) == 0 {
        Form::Across(y)
    } else {
        Form::Up(x)
    }
}

/// Returns the record of an edit that puts a row in.
fn record(alloc: Global, word: &str, key: u64, form: Form) -> Result<String, AllocError> {
    match form {
        Form::Node(x, y) => format!(in alloc; "{word},node,{key},tee,{x},{y}\n"),
        Form::Across(y) => format!(in alloc; "{word},main,{key},B,0,{y},20,{y}\n"),
        Form::Up(x) => format!(in alloc; "{word},main,{key},B,{x},0,{x},20\n"),
    }
}

impl MadeUp {
    /// Adds an edit of a member.
    fn add_edit(&mut self, alloc: Global, member: usize, edit: &str) -> Result<(), AllocError> {
        let number = member.saturating_add(1);
        let step = format!(in alloc; "apply,W{number},1\n{edit}")?;
        self.script.push_str(step.as_str())
    }

    /// Adds a new row of a member.
    fn add_row(
        &mut self,
        alloc: Global,
        member: usize,
        (word, key, form): (&str, u64, Form),
    ) -> Result<(), AllocError> {
        let with = only(member);
        self.versions.push(Version {
            form,
            with,
            without: 0,
        })?;
        let edit = record(alloc, word, key, form)?;
        self.add_edit(alloc, member, edit.as_str())
    }

    /// Adds what becomes of a row of LIVE: a member may take it away, or put another row in its place.
    fn add_old(
        &mut self,
        alloc: Global,
        dice: &mut Dice,
        (key, form): (u64, Form),
    ) -> Result<(), AllocError> {
        let member = dice.throw(20) as usize;
        let without = if member < 5 { only(member) } else { 0 };
        self.versions.push(Version {
            form,
            with: 0,
            without,
        })?;
        if without == 0 {
            return Ok(());
        }
        let is_node = key > 4;
        if dice.throw(2) == 0 {
            let table = if is_node { "node" } else { "main" };
            let edit = format!(in alloc; "delete,{table},{key}\n")?;
            return self.add_edit(alloc, member, edit.as_str());
        }
        self.add_row(alloc, member, ("update", key, new_form(dice, is_node)))
    }

    /// Adds the rows that members bring.
    fn add_new(&mut self, alloc: Global, dice: &mut Dice) -> Result<(), AllocError> {
        for key in 9..15 {
            let member = dice.throw(8) as usize;
            if member < 5 {
                let is_node = dice.throw(2) == 0;
                self.add_row(alloc, member, ("insert", key, new_form(dice, is_node)))?;
            }
        }
        Ok(())
    }
}

/// Returns what members change, as dice choose.
pub(crate) fn made_up(alloc: Global, dice: &mut Dice) -> Result<MadeUp, AllocError> {
    let mut made = MadeUp {
        script: String::from_str(alloc, CREATES)?,
        versions: Vec::new(alloc),
    };
    for row in LIVE {
        made.add_old(alloc, dice, row)?;
    }
    made.add_new(alloc, dice)?;
    Ok(made)
}
