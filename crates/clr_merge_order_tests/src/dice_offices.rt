//! Offices that dice make, with up to five members: in some these lay mains and nodes, and in others they give codes away and take them.

use clr_call_test_kit::Dice;
use clr_engine::Office;
use clr_office_test_kit::{network, office_of, perform_script};
use clr_office_texts::write_office;
use std::alloc::{AllocError, Global};

/// The names of members.
pub(crate) const NAMES: [&str; 5] = ["W1", "W2", "W3", "W4", "W5"];

/// Returns a code of a main.
fn code(dice: &mut Dice) -> char {
    match dice.throw(5) {
        0 => 'A',
        1 => 'B',
        2 => 'C',
        3 => 'D',
        _ => 'E',
    }
}

/// Returns an edit of a main, as dice choose.
fn main_edit(alloc: Global, dice: &mut Dice, word: &str) -> Result<String, AllocError> {
    let (key, code) = (dice.throw(5) + 1, code(dice));
    let (x, y) = (dice.throw(3), dice.throw(3));
    format!(in alloc; "{word},main,{key},{code},{x},{y},{},{}\n", y + 1, x)
}

/// Returns an edit, as dice choose.
fn edit(alloc: Global, dice: &mut Dice) -> Result<String, AllocError> {
    let key = dice.throw(5) + 1;
    match dice.throw(8) {
        0 => format!(in alloc; "delete,node,{key}\n"),
        1 => format!(in alloc; "delete,main,{key}\n"),
        2 => format!(in alloc;
            "insert,hydrant,{key},{},{},0\n",
            dice.throw(5) + 1,
            dice.throw(3)
        ),
        3 | 4 => main_edit(alloc, dice, "update"),
        5 => main_edit(alloc, dice, "insert"),
        _ => format!(in alloc;
            "insert,node,{key},valve,{},{}\n",
            dice.throw(3),
            dice.throw(3)
        ),
    }
}

/// Adds edits of a workspace, each in a command of its own, so that one that is refused leaves the others.
fn add_edits(
    alloc: Global,
    dice: &mut Dice,
    script: &mut String,
    name: &str,
    count: u64,
) -> Result<(), AllocError> {
    for _ in 0..count {
        let edit = edit(alloc, dice)?;
        let step = format!(in alloc; "apply,{name},1\n{edit}")?;
        script.push_str(step.as_str())?;
    }
    Ok(())
}

/// Adds that a workspace `Other` is created under LIVE, and then some more.
fn add_creates(alloc: Global, script: &mut String, names: &[&str]) -> Result<(), AllocError> {
    script.push_str("create,Other,LIVE\n")?;
    for name in names {
        let create = format!(in alloc; "create,{name},LIVE\n")?;
        script.push_str(create.as_str())?;
    }
    Ok(())
}

/// Returns edits of LIVE, and then of each of some workspaces under it, in a network of mains and nodes.
fn network_script(alloc: Global, dice: &mut Dice, names: &[&str]) -> Result<String, AllocError> {
    let mut script = String::new(alloc);
    add_edits(alloc, dice, &mut script, "LIVE", 10)?;
    add_creates(alloc, &mut script, names)?;
    for name in names {
        add_edits(alloc, dice, &mut script, name, 2)?;
    }
    Ok(script)
}

/// Returns the code that one of so many members takes: that of one of their rows, or one that no row has.
fn wanted_code(dice: &mut Dice, count: u64) -> &'static str {
    let codes = match count {
        2 => ["A", "B", "F", "G", "H", "F", "G", "H"],
        3 => ["A", "B", "C", "F", "G", "H", "F", "G"],
        4 => ["A", "B", "C", "D", "F", "G", "H", "F"],
        _ => ["A", "B", "C", "D", "E", "F", "G", "H"],
    };
    codes[dice.throw(8) as usize]
}

/// Returns edits of LIVE, which then has five codes, and one of each of some workspaces under it, which gives a row of its own another code.
fn code_script(alloc: Global, dice: &mut Dice, names: &[&str]) -> Result<String, AllocError> {
    let codes =
        "apply,LIVE,4\ninsert,code,2,B\ninsert,code,3,C\ninsert,code,4,D\ninsert,code,5,E\n";
    let mut script = String::from_str(alloc, codes)?;
    add_creates(alloc, &mut script, names)?;
    let mut key: u64 = 1;
    for name in names {
        let code = wanted_code(dice, names.len() as u64);
        let step = format!(in alloc; "apply,{name},1\nupdate,code,{key},{code}\n")?;
        script.push_str(step.as_str())?;
        key = key.saturating_add(1);
    }
    Ok(script)
}

/// An office that dice made, its text, and how many members it has.
#[derive(Drop)]
pub(crate) struct MadeUp {
    pub(crate) office: Office,
    pub(crate) text: String,
    pub(crate) count: u16,
}

/// Returns the text of an office.
fn text_of(alloc: Global, office: &Office) -> Option<String> {
    let bytes = write_office(alloc, office).ok()?;
    String::from_str(alloc, str::from_utf8(bytes.as_slice()).ok()?).ok()
}

/// Returns the office that a seed makes, with two to five members: of an even one a network of mains and nodes, of an odd one codes.
pub(crate) fn made_up(alloc: Global, seed: u64) -> Option<MadeUp> {
    let mut dice = Dice::new(seed);
    let count = 2 + dice.throw(4);
    let names = NAMES.get(..count as usize)?;
    let (kind, script) = if seed % 2 == 0 {
        ("one main", network_script(alloc, &mut dice, names).ok()?)
    } else {
        ("one code", code_script(alloc, &mut dice, names).ok()?)
    };
    let mut office = office_of(alloc, network(kind)?)?;
    perform_script(alloc, &mut office, script.as_str())?;
    let text = text_of(alloc, &office)?;
    Some(MadeUp {
        office,
        text,
        count: count as u16,
    })
}
