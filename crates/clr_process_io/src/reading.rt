//! Reading a whole input.

ghost use Rattle.std.specs.Prelude.{◌≡◌, ◌<◌, false, vec_len, IfOk, IfErr};
ghost use Rattle.clr_process_io.specs.Input.{GivesInput, IsReadFault};

use crate::faults::RunFault;
use clr_streams::Source;
use std::alloc::{AllocError, Global};

/// The most bytes of an input.
pub const MOST_INPUT_BYTES: usize = 67_108_864;

/// An input has at most 67,108,864 bytes.
pub fn inputs_have_a_limit()
    ensures { MOST_INPUT_BYTES ≡ 67108864 }
{}

/// How many bytes one read asks for.
const PIECE: usize = 65_536;

/// Returns a buffer for one read.
fn empty_piece(alloc: Global) -> Result<Vec<u8>, AllocError>
    ensures { IfOk result (λ buffer. 0 < vec_len buffer) }
{
    vec![in alloc; 0u8; PIECE]
}

/// Returns all the bytes that a source gives until its end. Fails with `ReadFailed` where a read
/// fails, which is not tried again, with `TooLong` where the source gives more than
/// `MOST_INPUT_BYTES`, and with `OutOfMemory` if memory runs out.
/// For example, of a `Text` of the bytes `abc` it returns `abc`. Of a `Text` of 67,108,865 bytes it fails with
/// `TooLong`, unless memory runs out.
pub fn read_input<R: Source>(alloc: Global, reader: &mut R) -> Result<Vec<u8>, RunFault>
    requires { R.failed reader.old ≡ false }
    ensures whole { IfOk result (λ text. GivesInput (R.remaining reader.old) (R.remaining reader.new) text.items) }
    ensures good { IfOk result (λ _. R.failed reader.new ≡ false) }
    ensures fault { IfErr result (IsReadFault (R.remaining reader.old) (R.remaining reader.new) (R.failed reader.new)) }
{
    let mut text = Vec::new(alloc);
    let mut piece = empty_piece(alloc)?;
    let buffer = piece.as_mut_slice();
    while text.len() <= MOST_INPUT_BYTES {
        let count = match reader.read_some(buffer) {
            Ok(count) => count,
            Err(_) => return Err(RunFault::ReadFailed),
        };
        if count == 0 {
            return Ok(text);
        }
        text.extend_from_slice(&buffer[..count])?;
    }
    Err(RunFault::TooLong)
}
