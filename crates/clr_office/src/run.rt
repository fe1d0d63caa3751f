//! The run without words: an office text and a script in one input.

ghost use Rattle.std.specs.Prelude.{◌≡◌, ◌≢◌, false, IfErr};
ghost use Rattle.clr_office.specs.Session.{AnswersRun};
ghost use Rattle.clr_process_io.specs.declared.faults.RunFault.TheVariants as run_fault;

use crate::answers::answer_run;
use crate::disposals::Disposal;
use clr_process_io::{RunFault, read_input};
use clr_streams::{Sink, Source, split_at_separator};
use std::alloc::Global;

/// Reads an office text, a separator line and a script to the end of the reader, writes the lines
/// that the script prints by one put, and returns the exit status: 0 all done, 1 something refused,
/// a plan that is blocked or unfit, or a rule that doesn't hold in the office, 3 a command or a
/// plan found no memory. Once the lines are known, the office is disposed of as asked.
///
/// For example, for this input it writes the lines `done` and `refused 2 NameTaken`, and returns 1:
///
/// ```text
/// {"format":1,"tables":[{"name":"node","columns":[["kind","TEXT"]],"shape":"POINT"}],"live":[]}
/// ---
/// create,W1,LIVE
/// create,W1,LIVE
/// ```
///
/// The fault is the first that applies. Nothing is written then, unless the writer failed. Fails
/// with `ReadFailed` where a read fails, which is not tried again, with `TooLong` where the input
/// has more than `MOST_INPUT_BYTES`, with `NoSeparator` where no line is `---`, or `---` and one
/// `\r`, with `BadOffice` where the text before that line is no office, with `BadScript` where the
/// text after it is no script, and with `WriteFailed` where the writer fails; how much went out is
/// then not known. Fails with `OutOfMemory` if memory runs out, which may come in place of any
/// other answer.
pub fn run_office<R: Source, W: Sink>(
    alloc: Global,
    disposal: Disposal,
    reader: &mut R,
    writer: &mut W,
) -> Result<u8, RunFault>
    requires reader { R.failed reader.old ≡ false }
    requires writer { W.failed writer.old ≡ false }
    ensures answers { AnswersRun (record {
      input = R.remaining reader.old;
      left = R.remaining reader.new;
      read_failed = R.failed reader.new;
      held = W.contents writer.old;
      holds = W.contents writer.new;
      write_failed = W.failed writer.new;
    }) result }
    ensures keeps { IfErr result (λ e. e ≢ run_fault.WriteFailed → writer.new ≡ writer.old) }
{
    let text = read_input(alloc, reader)?;
    let Some((office, script)) = split_at_separator(text.as_slice()) else {
        return Err(RunFault::NoSeparator);
    };
    let output = match answer_run(alloc, office, script, disposal) {
        Ok(output) => output,
        Err(fault) => return Err(fault),
    };
    let status = output.status();
    match writer.put(output.lines.as_slice()) {
        Ok(()) => Ok(status),
        Err(_) => Err(RunFault::WriteFailed),
    }
}
