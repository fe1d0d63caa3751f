//! Merge clearance. Without words it reads an office text, a separator line and a script from
//! standard input, and prints the lines that the script asks for; with words it does what a
//! subcommand asks of files.
//!
//! It is safe; what it does with words, files, streams and statuses no contract says.
#![tactic(auto)]

use clr_office::{Ask, AskFault, Disposal, Port, RunFault, Words, answer, ask_of, run_office};
use clr_process_io::{
    BAD_WORDS, end_run, file_name, has_words, print_fault, print_parser_message, put_input_remark,
    read_files, text_at, texts_of_words, words,
};
use std::io::{ErrorKind, IsTerminal, Write, sink};
use std::process::ExitCode;

/// From what the program was built, behind its version. `write_build` of bin/program.sh writes over these characters once the program is proved and built.
const BUILD: &str =
    "sources not recorded                                                    \ntoolchain not recorded                                      ";

/// Prints a fault's line on standard error, and gives its exit status. Where somebody reads it on a terminal, a second line says of
/// which input it is, if it is that of one.
fn refuse_input(rt: &HostRuntime, name: &str, fault: RunFault) -> u8 {
    let status = print_fault(rt, fault);
    if rt.stderr().is_terminal() {
        let _ = put_input_remark(rt.alloc(), &mut Port::new(rt.stderr()), name, fault);
    }
    status
}

/// Runs on standard input and output, and gives the exit status.
fn run(rt: &HostRuntime) -> u8 {
    let mut reader = Port::new(rt.stdin());
    let mut writer = Port::new(rt.stdout());
    match run_office(rt.alloc(), Disposal::Leak, &mut reader, &mut writer) {
        Err(fault @ (RunFault::ReadFailed | RunFault::TooLong)) => {
            refuse_input(rt, "standard input", fault)
        }
        ended => end_run(rt, ended, writer.is_closed()),
    }
}

/// Answers what the words ask of texts on standard output, hints on notes, and gives the exit status.
fn answer_on<W: Write + Drop>(
    rt: &HostRuntime,
    ask: &Ask,
    (office, second): (&[u8], &[u8]),
    mut notes: Port<W>,
) -> u8 {
    let mut writer = Port::new(rt.stdout());
    let ended = answer(
        rt.alloc(),
        Disposal::Leak,
        ask,
        office,
        second,
        &mut writer,
        &mut notes,
    );
    end_run(rt, ended, writer.is_closed())
}

/// Answers what the words ask of files on standard output, and gives the exit status. Hints at names go to standard error where somebody
/// reads it on a terminal, so that a program which reads the lines finds no other.
fn answer_files(rt: &HostRuntime, ask: &Ask, files: &[Words]) -> u8 {
    let texts = match read_files(rt, files) {
        Ok(texts) => texts,
        Err(refused) => return refuse_input(rt, file_name(files, refused.file), refused.fault),
    };
    let given = (text_at(&texts, 0), text_at(&texts, 1));
    if rt.stderr().is_terminal() {
        answer_on(rt, ask, given, Port::new(rt.stderr()))
    } else {
        answer_on(rt, ask, given, Port::new(sink()))
    }
}

/// Prints what the parser of the command line says, and behind a version from what the program was built; and gives the exit status.
fn print_message(rt: &HostRuntime, error: &clap::Error) -> u8 {
    let status = print_parser_message(rt, error);
    if status == 0 && error.kind() == clap::error::ErrorKind::DisplayVersion {
        let _ = println!(rt; "{BUILD}");
    }
    status
}

/// Does what the words ask for, and gives the exit status.
fn run_words(rt: &HostRuntime, words: &[String]) -> Result<u8, RunFault> {
    let texts = texts_of_words(rt, words)?;
    match ask_of(rt.alloc(), texts.as_slice()) {
        Ok((ask, files)) => Ok(answer_files(rt, &ask, files.as_slice())),
        Err(AskFault::Refused(error)) => Ok(print_message(rt, &error)),
        Err(AskFault::OutOfMemory) => Err(RunFault::OutOfMemory),
    }
}

/// Does what the words ask for, where all of them are UTF-8, and gives the exit status.
fn answer_words(rt: &HostRuntime) -> u8 {
    let ended = match words(rt) {
        Ok(words) => run_words(rt, words.as_slice()),
        Err(ErrorKind::OutOfMemory) => Err(RunFault::OutOfMemory),
        Err(_) => {
            let _ = eprintln!(rt; "error: a word isn't UTF-8");
            Ok(BAD_WORDS)
        }
    };
    end_run(rt, ended, false)
}

fn main(rt: HostRuntime) -> ExitCode {
    let status = if has_words(&rt) {
        answer_words(&rt)
    } else {
        run(&rt)
    };
    ExitCode::from(status)
}
