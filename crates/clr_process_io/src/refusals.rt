//! What is printed on standard error, and the exit status of it.

ghost use Rattle.std.specs.Prelude.{◌≡◌, ◌≢◌, ◌⊎◌, IfOk, IfErr, OnOk};
ghost use Rattle.std.specs.Io.KnownBytes.{Appends};
ghost use Rattle.clap.specs.Values.{kind_of};
ghost use Rattle.clap.specs.declared.error.ErrorKind.{ErrorKind};
ghost use Rattle.clr_process_io.specs.Input.{input_remark};
ghost use Rattle.clr_process_io.specs.ExitStatuses.{end_status, exit_status};
ghost use Rattle.clr_process_io.specs.declared.faults.RunFault.TheVariants as run_fault;

use crate::faults::RunFault;
use clr_streams::{Sink, show_on_one_line};
use std::alloc::{AllocError, Global};
use std::io;

/// The exit status for a bad command line.
pub const BAD_WORDS: u8 = 2;

/// The exit status where nobody reads what is printed any more, as a shell gives it of a program that the signal SIGPIPE ends.
const CLOSED_PIPE: u8 = 141;

/// The exit statuses are these.
pub fn exit_statuses()
    ensures words { BAD_WORDS ≡ 2 }
    ensures pipe { CLOSED_PIPE ≡ 141 }
{}

/// Prints a fault's line on standard error, and gives its exit status. A line that can't be printed
/// changes nothing.
pub fn print_fault(rt: &HostRuntime, fault: RunFault) -> u8
    ensures { result ≡ exit_status fault }
{
    let _ = eprintln!(rt; "{fault}");
    fault.status()
}

/// Prints the line of the fault with which a run ended, and gives the exit status. Where a write failed because nobody reads any more,
/// nothing is printed, and the status is that of a program which the system ends for that.
pub fn end_run(rt: &HostRuntime, ended: Result<u8, RunFault>, is_closed: bool) -> u8
    ensures { result ≡ end_status is_closed ended }
{
    match ended {
        Ok(status) => status,
        Err(RunFault::WriteFailed) if is_closed => CLOSED_PIPE,
        Err(fault) => print_fault(rt, fault),
    }
}

/// Returns the line that says which input can't be read or is too long, and how many bytes it may have; no line of another fault.
pub fn input_remark(alloc: Global, name: &str, fault: RunFault) -> Result<Vec<u8>, AllocError>
    ensures { IfOk result (λ line. line.items ≡ input_remark name.now fault) }
{
    let sentence = match fault {
        RunFault::ReadFailed => ": it can't be opened or read\n",
        RunFault::TooLong => ": it has more than 67,108,864 bytes\n",
        _ => return Ok(Vec::new(alloc)),
    };
    let mut line = show_on_one_line(alloc, name.as_bytes())?;
    line.extend_from_slice(sentence.as_bytes())?;
    Ok(line)
}

/// Writes which input can't be read or is too long. Fails with `OutOfMemory` if memory runs out, and then nothing was written, and with
/// `WriteFailed` where the sink fails.
pub fn put_input_remark<N: Sink>(
    alloc: Global,
    notes: &mut N,
    name: &str,
    fault: RunFault,
) -> Result<(), RunFault>
    ensures line { OnOk result (Appends (N.contents notes.old) (N.contents notes.new) (input_remark name.now fault)) }
    ensures keeps { IfErr result (λ e. e ≡ run_fault.OutOfMemory → notes.new ≡ notes.old) }
{
    let line = input_remark(alloc, name, fault)?;
    notes
        .put(line.as_slice())
        .map_err(|_| RunFault::WriteFailed)
}

/// Prints what the parser of the command line says, and gives the exit status: 2 where that is no help and no version, and else 0
/// where it is printed, that of a failed write where it isn't, with the line of that fault, or 141 where nobody reads any more.
pub fn print_parser_message(rt: &HostRuntime, error: &clap::Error) -> u8
    ensures either { (result ≡ 0) ⊎ ((result ≡ 2) ⊎ (result ≡ 141)) }
    ensures bad { kind_of error.now ≢ ErrorKind.DisplayHelp → kind_of error.now ≢ ErrorKind.DisplayVersion → result ≡ 2 }
{
    let printed = error.print(rt);
    if error.use_stderr() {
        return BAD_WORDS;
    }
    match printed {
        Ok(()) => 0,
        Err(fault) if fault.kind() == io::ErrorKind::BrokenPipe => CLOSED_PIPE,
        Err(_) => print_fault(rt, RunFault::WriteFailed),
    }
}
