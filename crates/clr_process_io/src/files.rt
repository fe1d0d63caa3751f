//! The bytes of files.

ghost use Rattle.std.specs.Prelude.{◌≡◌, ◌≤◌, [], All, length, slice_get, IfErr, IfOk};
ghost use Rattle.std.specs.Option.{option_map_or};
ghost use Rattle.clr_process_io.specs.Input.{IsFaultOfFile, IsFileFault};
ghost use Rattle.clr_process_io.specs.declared.reading.TheConstants.{MOST_INPUT_BYTES};

use crate::faults::{FileFault, RunFault};
use crate::reading::read_input;
use clr_rows::Words;
use clr_streams::Port;
use std::fs::File;
use std::io::ErrorKind;

/// Returns the bytes of a file.
fn read_file(rt: &HostRuntime, name: &str) -> Result<Vec<u8>, RunFault>
    ensures within { IfOk result (λ text. length text.items ≤ MOST_INPUT_BYTES) }
    ensures fault { IfErr result IsFaultOfFile }
{
    match File::open(rt, name) {
        Ok(file) => read_input(rt.alloc(), &mut Port::new(file)),
        Err(error) if error.kind() == ErrorKind::OutOfMemory => Err(RunFault::OutOfMemory),
        Err(_) => Err(RunFault::ReadFailed),
    }
}

/// Returns the bytes of files, in their order. Fails with `ReadFailed` where a file can't be opened or
/// read, with `TooLong` where one has more than `MOST_INPUT_BYTES`, and with `OutOfMemory` for want of
/// memory, and tells which file that is, by its position. A file that can't be read is told before one that is too long.
pub fn read_files(rt: &HostRuntime, files: &[Words]) -> Result<Vec<Vec<u8>>, FileFault>
    ensures each { IfOk result (λ texts. length texts.items ≡ length files.now) }
    ensures within { IfOk result (λ texts. All (λ text. length text.items ≤ MOST_INPUT_BYTES) texts.items) }
    ensures fault { IfErr result (IsFileFault (length files.now)) }
{
    let mut texts = Vec::new(rt.alloc());
    let mut too_long = None;
    for (file, name) in files.iter().enumerate() {
        let read = match read_file(rt, name.as_str()) {
            Ok(text) => texts.push(text).map_err(RunFault::from),
            Err(fault) => Err(fault),
        };
        match read {
            Ok(()) => {}
            Err(RunFault::TooLong) => too_long = too_long.or(Some(file)),
            Err(fault) => return Err(FileFault { file, fault }),
        }
    }
    match too_long {
        Some(file) => Err(FileFault {
            file,
            fault: RunFault::TooLong,
        }),
        None => Ok(texts),
    }
}

/// Returns the bytes of the file at a position, no bytes where there is none.
pub fn text_at(texts: &[Vec<u8>], at: usize) -> &[u8]
    ensures { result.now ≡ option_map_or (λ text. text.items) (slice_get texts.now at) [] }
{
    match texts.get(at) {
        Some(text) => text.as_slice(),
        None => &[],
    }
}

/// Returns the name of the file at a position, no text where there is none.
pub fn file_name(files: &[Words], at: usize) -> &str
    ensures { result.now ≡ option_map_or (λ name. name) (slice_get files.now at) [] }
{
    match files.get(at) {
        Some(name) => name.as_str(),
        None => "",
    }
}
