//! What finders find after one change and another.

ghost use Rattle.std.specs.Prelude.{◌≡◌};
ghost use Rattle.std.specs.FinMap as finite;

use crate::network::{CROSSING, Drawn, MAIN, Network, Search, row_of};
use clr_grid::{ListFinder, RowFinder, SpotIndex};
use std::alloc::Global;
use std::test::Fail;

/// What is done with a row.
#[derive(Clone, Copy)]
enum Step {
    NoteAndForget,
    Add,
    Take,
}

/// Takes a step with a row.
fn change<F: RowFinder>(
    alloc: Global,
    network: &Network,
    finder: &mut F,
    step: Step,
    drawn: Drawn,
) -> Result<(), Fail>
    requires { F.pending finder.old ≡ finite.empty }
    ensures { F.pending finder.new ≡ finite.empty }
{
    let row = row_of(alloc, drawn)?;
    match step {
        Step::NoteAndForget => network.note_and_forget(finder, &row),
        Step::Add => network.add(finder, &row),
        Step::Take => network.take(finder, row.cell),
    }
}

const HERE: Drawn = (MAIN, 1, 0, [0, 0, 10, 10]);

const THERE: Drawn = (MAIN, 1, 0, [900_000, 0, 900_010, 10]);

const NEAR: Drawn = (MAIN, 2, 0, [0, 10, 10, 0]);

const FAR: Drawn = (MAIN, 2, 0, [900_000, 10, 900_010, 0]);

/// A row is found as it was settled last: not where it was only noted, not where it stood before, and
/// not once it is gone.
const STEPS: [(Step, Drawn, &[Search]); 5] = [
    (Step::NoteAndForget, HERE, &[(CROSSING, false, NEAR, &[])]),
    (Step::Add, HERE, &[(CROSSING, false, NEAR, &[(MAIN, 1)])]),
    (
        Step::NoteAndForget,
        THERE,
        &[(CROSSING, false, NEAR, &[(MAIN, 1)])],
    ),
    (
        Step::Add,
        THERE,
        &[
            (CROSSING, false, NEAR, &[]),
            (CROSSING, false, FAR, &[(MAIN, 1)]),
        ],
    ),
    (Step::Take, THERE, &[(CROSSING, false, FAR, &[])]),
];

/// Returns whether searches find just their cells after each step.
fn follows_changes<F: RowFinder>(alloc: Global, finder: &mut F) -> Result<bool, Fail>
    requires { F.pending finder.old ≡ finite.empty }
{
    let network = Network::new(alloc)?;
    for (step, drawn, searches) in STEPS {
        change(alloc, &network, finder, step, drawn)?;
        if !network.finds_all(alloc, finder, searches)? {
            return Ok(false);
        }
    }
    Ok(true)
}

#[test]
fn rows_are_noted_settled_and_forgotten(rt: HostRuntime) -> Result<(), Fail> {
    let alloc = rt.alloc();
    assert!(rt; follows_changes(alloc, &mut SpotIndex::new(alloc))?);
    assert!(rt; follows_changes(alloc, &mut ListFinder::new(alloc))?);
    Ok(())
}
