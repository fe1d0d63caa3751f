//! Faults of which none is want of memory.

ghost use Rattle.std.specs.Prelude.{◌≡◌, ◌≢◌, IfOk};

use clr_office_reading::TextFault;
use std::alloc::AllocError;

/// Returns the answer that goes with a fault. Fails where the fault is want of memory.
pub fn unless_lost<T: Copy>(fault: TextFault, answer: T) -> Result<T, AllocError>
    ensures { IfOk result (λ given. (given ≡ answer) × (fault ≢ TextFault.OutOfMemory)) }
{
    match fault {
        TextFault::OutOfMemory => Err(AllocError),
        _ => Ok(answer),
    }
}
