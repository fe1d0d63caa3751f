//! Edits that dice choose, as records.

use clr_call_test_kit::Dice;
use std::alloc::{AllocError, Global};

/// Returns a code of a main.
fn code(dice: &mut Dice) -> char {
    match dice.throw(6) {
        0 => 'A',
        1 => 'B',
        2 => 'C',
        3 => 'D',
        4 => 'E',
        _ => 'F',
    }
}

/// Returns the record of an edit of the row of a main.
fn main_row(alloc: Global, dice: &mut Dice, word: &str) -> Result<String, AllocError> {
    let (key, code) = (dice.throw(6) + 1, code(dice));
    let (x, y) = (dice.throw(4), dice.throw(4));
    let (right, up) = (dice.throw(4), dice.throw(4));
    format!(in alloc; "{word},main,{key},{code},{x},{y},{right},{up}\n")
}

/// Returns the record of an edit, as it comes.
pub(crate) fn edit(alloc: Global, dice: &mut Dice) -> Result<String, AllocError> {
    let key = dice.throw(6) + 1;
    match dice.throw(9) {
        0 => format!(in alloc; "delete,node,{key}\n"),
        1 => format!(in alloc; "delete,main,{key}\n"),
        2 => format!(in alloc; "delete,hydrant,{key}\n"),
        3 => format!(in alloc;
            "insert,hydrant,{key},{},{},0\n",
            dice.throw(6) + 1,
            dice.throw(4)
        ),
        4 => main_row(alloc, dice, "update"),
        5 => main_row(alloc, dice, "insert"),
        6 => format!(in alloc;
            "update,node,{key},tee,{},{}\n",
            dice.throw(4),
            dice.throw(4)
        ),
        _ => format!(in alloc;
            "insert,node,{key},valve,{},{}\n",
            dice.throw(4),
            dice.throw(4)
        ),
    }
}
