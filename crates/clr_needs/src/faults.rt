//! Why change sets make no scene.

ghost use Rattle.std.specs.Prelude.{◌≡◌};
ghost use Rattle.clr_needs.specs.declared.faults.SceneFault.TheVariants as scene_fault;

use clr_rows::CellId;
use std::alloc::AllocError;

/// Why change sets make no scene.
#[derive(Clone, Copy, Debug, PartialEq, Eq)]
pub enum SceneFault {
    /// The least cell that two members change, with the first two that do, by position.
    SharedCell {
        cell: CellId,
        first: u16,
        second: u16,
    },
    /// No memory was found.
    OutOfMemory,
}

impl From<AllocError> for SceneFault {
    ghost from_gives = { λ _ e. e ≡ scene_fault.OutOfMemory };

    fn from(_error: AllocError) -> SceneFault {
        SceneFault::OutOfMemory
    }
}
