//! Designs that are brought as layers over an office from which LIVE has moved on.

use crate::edits::edits;
use clr_call_test_kit::Dice;
use clr_desk_layers::{GivenLayer, LayerOptions, answer_design_since, answer_layer};
use clr_desk_prints::{Print, RunFault};
use clr_engine::Office;
use clr_office_reports::dump_text;
use clr_office_test_kit::{office_of, perform_script};
use clr_office_texts::read_office;
use clr_rows::{CellId, Sheet, Words};
use std::alloc::{AllocError, Global};
use std::test::Fail;

/// An empty network, in which no two mains may have the code A, so that some steps are refused.
const NETWORK: &str =
    r#"{"format":3,"tables":[{"name":"node","columns":[["kind","TEXT"]],"shape":"POINT"},
{"name":"main","columns":[["code","TEXT"]],"shape":"SEGMENT"}],
"rules":[{"kind":"UNIQUE","subject":{"table":"main","where":[["code","A"]]},"columns":["code"]}],"live":[]}"#;

pub(crate) const DESIGN: &str = "Design";

const TABLES: [&str; 2] = ["node", "main"];

/// Returns the office of a text, in which each broken need is known.
pub(crate) fn opened(alloc: Global, text: &[u8]) -> Option<Office> {
    let read = read_office(alloc, text).ok()?;
    read.draft.admit(read.known.as_slice()).ok()
}

/// Performs a script, whatever its steps are answered.
pub(crate) fn perform(alloc: Global, office: &mut Office, script: &str) -> Option<()> {
    perform_script(alloc, office, script)?;
    Some(())
}

/// Gives LIVE or a workspace edits that dice choose.
fn edit(alloc: Global, dice: &mut Dice, office: &mut Office, name: &str, count: u64) -> Option<()> {
    let script = edits(alloc, dice, name, count).ok()?;
    perform(alloc, office, script.as_str())
}

/// Returns the layer of a table of a workspace of an office text, under the table's name.
fn layer_of(alloc: Global, office: &[u8], table: &str) -> Option<GivenLayer> {
    let print = answer_layer(alloc, office, table, DESIGN).ok()?;
    Some(GivenLayer {
        table: Words::from_str(alloc, table).ok()?,
        text: print.text,
    })
}

/// Returns the layers of all tables of the design of an office text.
pub(crate) fn layers_of(alloc: Global, office: &[u8]) -> Option<Vec<GivenLayer>> {
    let mut layers = Vec::new(alloc);
    for table in TABLES {
        layers.push(layer_of(alloc, office, table)?).ok()?;
    }
    Some(layers)
}

/// The texts of offices in the order of time: when the layers were copied, when the design was made, and when LIVE had moved on, with the design
/// and without it.
#[derive(Drop)]
pub(crate) struct Times {
    pub(crate) copied: Vec<u8>,
    pub(crate) made: Vec<u8>,
    pub(crate) moved: Vec<u8>,
    pub(crate) without: Vec<u8>,
}

/// Returns what a seed makes, by commands in the order of time.
pub(crate) fn texts_of(alloc: Global, seed: u64) -> Option<Times> {
    let mut dice = Dice::new(seed);
    let mut office = office_of(alloc, NETWORK)?;
    edit(alloc, &mut dice, &mut office, "LIVE", 16)?;
    perform(alloc, &mut office, "create,Other,LIVE\n")?;
    edit(alloc, &mut dice, &mut office, "Other", 4)?;
    let copied = dump_text(alloc, &office).ok()?;
    let mut without = opened(alloc, copied.as_slice())?;
    perform(alloc, &mut office, "create,Design,LIVE\n")?;
    edit(alloc, &mut dice, &mut office, DESIGN, 6)?;
    let made = dump_text(alloc, &office).ok()?;
    let since = edits(alloc, &mut dice, "LIVE", 6).ok()?;
    perform(alloc, &mut office, since.as_str())?;
    perform(alloc, &mut without, since.as_str())?;
    Some(Times {
        copied,
        made,
        moved: dump_text(alloc, &office).ok()?,
        without: dump_text(alloc, &without).ok()?,
    })
}

/// Returns how layers are read.
pub(crate) fn layer_options() -> LayerOptions {
    LayerOptions {
        first_key: 1,
        rounded: false,
    }
}

/// Returns what is printed of the design, brought as layers over the office from which LIVE moved on.
pub(crate) fn brought(
    alloc: Global,
    times: &Times,
    layers: &[GivenLayer],
) -> Result<Print, RunFault> {
    answer_design_since(
        alloc,
        times.without.as_slice(),
        times.copied.as_slice(),
        DESIGN,
        layer_options(),
        true,
        layers,
    )
}

/// Returns whether two contents differ at a cell.
fn differ(one: &Sheet, other: &Sheet, cell: CellId) -> bool {
    match (one.get(cell), other.get(cell)) {
        (Some(a), Some(b)) => !a.same(b),
        (None, None) => false,
        _ => true,
    }
}

/// Adds the cells of a table that a design and LIVE both changed of what was copied.
fn add_changed_twice(
    cells: &mut Vec<CellId>,
    table: u16,
    copied: &Sheet,
    design: &Sheet,
    live: &Sheet,
) -> Result<(), AllocError> {
    for key in 1..7 {
        let cell = CellId { table, key };
        if differ(copied, design, cell) && differ(copied, live, cell) {
            cells.push(cell)?;
        }
    }
    Ok(())
}

/// Returns the cells that a design and LIVE both changed of what was copied, ascending.
fn changed_twice(
    alloc: Global,
    copied: &Sheet,
    design: &Sheet,
    live: &Sheet,
) -> Result<Vec<CellId>, AllocError> {
    let mut cells = Vec::new(alloc);
    for table in 0..2 {
        add_changed_twice(&mut cells, table, copied, design, live)?;
    }
    Ok(cells)
}

/// How a design is brought that a seed makes.
#[derive(Clone, Copy, Debug, PartialEq, Eq)]
enum Outcome {
    /// As by commands, without conflicts.
    Free,
    /// As by commands, and its conflicts are just the cells that both changed.
    InConflict,
    /// Otherwise.
    Wrong,
}

/// Returns how a design is brought that a seed makes.
fn outcome_of(alloc: Global, seed: u64) -> Option<Outcome> {
    let times = texts_of(alloc, seed)?;
    let layers = layers_of(alloc, times.made.as_slice())?;
    let text = brought(alloc, &times, layers.as_slice()).ok()?.text;
    let copied = opened(alloc, times.copied.as_slice())?;
    let office = opened(alloc, text.as_slice())?;
    let design = office.rows(DESIGN).ok()??;
    let wanted = changed_twice(alloc, copied.live(), &design, office.live()).ok()?;
    let conflicts = office.conflicts(DESIGN).ok()??;
    if text.as_slice() != times.moved.as_slice() || conflicts.as_slice() != wanted.as_slice() {
        return Some(Outcome::Wrong);
    }
    Some(if wanted.is_empty() {
        Outcome::Free
    } else {
        Outcome::InConflict
    })
}

/// Returns how the designs of two hundred seeds are brought.
fn outcomes(alloc: Global) -> Result<Vec<Outcome>, Fail> {
    let mut list = Vec::new(alloc);
    for seed in 0..200 {
        list.push(outcome_of(alloc, seed).ok_or("no design is brought")?)?;
    }
    Ok(list)
}

/// Returns how many are brought so.
fn count(outcomes: &[Outcome], wanted: Outcome) -> usize {
    outcomes
        .iter()
        .filter(|outcome| **outcome == wanted)
        .count()
}

#[test]
fn designs_over_made_up_offices(rt: HostRuntime) -> Result<(), Fail> {
    let list = outcomes(rt.alloc())?;
    let free = count(list.as_slice(), Outcome::Free);
    let in_conflict = count(list.as_slice(), Outcome::InConflict);
    let wrong = count(list.as_slice(), Outcome::Wrong);
    assert!(rt;
        free > 20 && in_conflict > 20 && wrong == 0,
        "{free} free, {in_conflict} in conflict, {wrong} wrong"
    );
    Ok(())
}
