//! The steps to items of an office text.
ghost use Rattle.std.specs.Prelude.{◌≡◌, IfOk};
ghost use Rattle.clr_explanations.specs.Places.{steps_in_workspace, steps_to};

use clr_faults::FaultyItem;
use clr_text_positions::{Key, PathStep};
use std::alloc::{AllocError, Global};

/// Returns the steps to an item of a list of a workspace.
fn steps_in_workspace(
    alloc: Global,
    at: usize,
    key: Key,
    item: usize,
) -> Result<Vec<PathStep>, AllocError>
    ensures { IfOk result (λ steps. steps.items ≡ steps_in_workspace at key item) }
{
    Vec::from_slice(
        alloc,
        &[
            PathStep::Key(Key::Workspaces),
            PathStep::At(at),
            PathStep::Key(key),
            PathStep::At(item),
        ],
    )
}

/// Returns the steps from the whole text to an item.
pub fn spot_steps(alloc: Global, spot: FaultyItem) -> Result<Vec<PathStep>, AllocError>
    ensures { IfOk result (λ steps. steps.items ≡ steps_to spot) }
{
    match spot {
        FaultyItem::Whole => Ok(Vec::new(alloc)),
        FaultyItem::Table(at) => Vec::from_slice(
            alloc,
            &[PathStep::Key(Key::Tables), PathStep::At(at)],
        ),
        FaultyItem::Rule(at) => Vec::from_slice(
            alloc,
            &[PathStep::Key(Key::Rules), PathStep::At(at)],
        ),
        FaultyItem::Live(at) => Vec::from_slice(
            alloc,
            &[PathStep::Key(Key::Live), PathStep::At(at)],
        ),
        FaultyItem::Workspace(at) => {
            Vec::from_slice(alloc, &[PathStep::Key(Key::Workspaces), PathStep::At(at)])
        }
        FaultyItem::Base(at, cell) => steps_in_workspace(alloc, at, Key::Base, cell),
        FaultyItem::Row(at, cell) => steps_in_workspace(alloc, at, Key::Rows, cell),
        FaultyItem::Mark(at, mark) => steps_in_workspace(alloc, at, Key::Marks, mark),
        FaultyItem::Saved(at, mark, cell) => {
            let mut steps = steps_in_workspace(alloc, at, Key::Marks, mark)?;
            steps.push(PathStep::Key(Key::Rows))?;
            steps.push(PathStep::At(cell))?;
            Ok(steps)
        }
    }
}
