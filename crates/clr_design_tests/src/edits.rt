//! Edits that dice choose, as steps of a script.

use clr_call_test_kit::Dice;
use std::alloc::{AllocError, Global};

/// Returns a code of a main.
fn code(dice: &mut Dice) -> char {
    match dice.throw(4) {
        0 => 'A',
        1 => 'B',
        2 => 'C',
        _ => 'D',
    }
}

/// Returns the record of an edit of a main or a node, as it comes.
fn edit(alloc: Global, dice: &mut Dice) -> Result<String, AllocError> {
    let key = dice.throw(6) + 1;
    let (x, y) = (dice.throw(4), dice.throw(4));
    match dice.throw(6) {
        0 => format!(in alloc; "delete,main,{key}\n"),
        1 => format!(in alloc; "delete,node,{key}\n"),
        2 => format!(in alloc;
            "update,main,{key},{},{x},{y},{},9\n",
            code(dice),
            dice.throw(4)
        ),
        3 => format!(in alloc;
            "insert,main,{key},{},{x},{y},{},9\n",
            code(dice),
            dice.throw(4)
        ),
        4 => format!(in alloc; "update,node,{key},tee,{x},{y}\n"),
        _ => format!(in alloc; "insert,node,{key},valve,{x},{y}\n"),
    }
}

/// Returns edits of LIVE or a workspace, each in a step of its own, so that one that is refused leaves the others.
pub(crate) fn edits(
    alloc: Global,
    dice: &mut Dice,
    name: &str,
    count: u64,
) -> Result<String, AllocError> {
    let mut script = String::new(alloc);
    for _ in 0..count {
        let edit = edit(alloc, dice)?;
        let step = format!(in alloc; "apply,{name},1\n{edit}")?;
        script.push_str(step.as_str())?;
    }
    Ok(script)
}
