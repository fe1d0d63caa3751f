//! What a test answers of members that can't stand together.
ghost use Rattle.std.specs.Prelude.{IfOk};
ghost use Rattle.clr_clash_helpers.specs.FailedTests.{IsRefused};

use clr_clearance::Verdict;
use std::alloc::AllocError;

/// Returns that a test fails, where this is why some members can't stand together. Fails for want of memory.
pub(crate) fn refused(fault: Verdict) -> Result<bool, AllocError>
    ensures { IfOk result (IsRefused fault) }
{
    match fault {
        Verdict::OutOfMemory => Err(AllocError),
        _ => Ok(false),
    }
}
