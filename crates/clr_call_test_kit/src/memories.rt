//! The memory that calls have.

ghost use Rattle.std.specs.Prelude.{◌≡◌, Ok, IfOk};

use crate::hoards::Hoard;
use std::alloc::AllocError;

/// Budgets end here, in bytes.
const MOST: usize = 65_536;

/// The memory that calls have: all that there is, or at first so little that they are refused.
#[derive(Drop)]
pub enum Memory {
    All,
    Hoarded(Hoard),
}

/// Returns what a call answers within more and more bytes, once it isn't refused. It fails where it never
/// was, or always is.
fn answer_after_refusals<T: Drop, C: Fn() -> Result<T, AllocError>>(
    hoard: &mut Hoard,
    call: C,
) -> Result<T, AllocError>
    requires { C.IsAlwaysCallable call }
    ensures { IfOk result (λ answer. C.post call (Ok answer)) }
{
    for budget in (0..MOST).step_by(16) {
        hoard.leave(budget)?;
        let answer = call();
        hoard.give_back();
        match answer {
            Ok(_) if budget == 0 => return Err(AllocError),
            Ok(answer) => return Ok(answer),
            Err(_) => {}
        }
    }
    Err(AllocError)
}

impl Memory {
    /// Returns what a call answers. It fails for want of memory, and where too little of it isn't refused.
    pub fn answer<T: Drop, C: Fn() -> Result<T, AllocError>>(
        &mut self,
        call: C,
    ) -> Result<T, AllocError>
        requires { C.IsAlwaysCallable call }
        ensures { IfOk result (λ answer. C.post call (Ok answer)) }
    {
        match self {
            Memory::All => call(),
            Memory::Hoarded(hoard) => answer_after_refusals(hoard, call),
        }
    }
}
