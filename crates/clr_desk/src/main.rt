//! The desk of those who plan: with words it does what a subcommand asks of files, and prints the
//! answer on standard output and its notes on standard error.
//!
//! The program is safe; what it does with words, files, streams and statuses no contract says. Each answer is made by a call that has one, as a text,
//! notes and a status:
//!
//! - `answer` [`answers`]: if the sinks show their bytes and there is a status, the bytes on both and
//!   the status are what `IsDeskAnswerTo` says, and each fault is answered only where the texts have it,
//!   want of memory aside. So: of `certificate` the records of a certificate by which the members are
//!   safe, and nothing else, or the lines of the plan as notes; of `check` the line of the verdict, with status 0 only where it is clear and the
//!   certificate names a design; of `merge` the text of the office that a
//!   run leaves as `perform_cleared` promises it, and the replies and the stop as notes, with the member for which the merge waits; of `format` the
//!   text of the same office with each object of a list on a line of its own, which is read as that office; of `keep` the certificate
//!   of the members taken, each of which is cleared with those taken before it, and as notes who they
//!   are and, of each other, the plan that isn't cleared (`IsChoicePrint`); of `clashes` the smallest sets
//!   of members that can't be merged in every order, each with its cause and the members that help it, and the members in none
//!   (`IsClashesPrint`); of `order` an order of the members with the pairs of which one goes before the other, or why none was found, and of
//!   `certificate` and `keep` in an order what these print of the members in the order of their names (`IsInOrderPrint`); of `why` status 2 exactly where
//!   the text has a fault, and then lines that begin with it and have the line, the column and the path of
//!   the item that has it, 1 exactly where an office can be read and a need is broken in it that isn't known, and else how many old errors it has,
//!   by rule (`IsWhyPrint`), and of layers status 2 exactly where something is said of one, and then the lines that are said where they are refused
//!   (`IsLayersWhy`);
//!   of `words` a work order that ends with the lines of the plan, with the plan's status
//!   (`IsOrderPrint`); of `map` a page of vector graphics whose title begins with the word for what the plan says, which it shows, and whose
//!   description ends with the lines of the plan, with the plan's status (`IsMapPrint`); of `report` a page of hypertext that
//!   begins with that word and that picture, and ends with the command of `clr_office` and the lines of the plan (`IsReportPrint`); of
//!   `board` a page of hypertext that says of each member how it stands, each clash with who helps it, and who goes before whom (`IsBoardPrint`); of
//!   `geojson` the features of a plan, with the plan's status, and of `layer` the layer of a table; of `office` the text of the office whose LIVE
//!   has the rows of layers, of `design` that of the office with one more design that has them, or with one that is brought again, or the script
//!   that does so, of `designs` that of the office with several, or why there is none, and of `cut` that of a cut with the rows of layers
//!   (`IsGeographicAnswer`); of `accept` the text of the same office with just its broken needs as known, of `mended` the known needs that aren't
//!   broken any more, and of `errors` the broken needs of LIVE, whether known or not, with status 0 only where all are known; of `edits` the edits that
//!   take LIVE of one office to LIVE of another, as CSV or as a transaction in SQL, and of `propose` SQL that proposes a cut (`IsDatabaseAnswer`).
//! - `fault_place`, `take_layers`, `faults_of_layers`, `degrees_of_layers` and `split_given` of `clr_desk_faults` say what is wrong with texts and layers,
//!   and where. That the layer without the records that `split_given` skips is given to `answer`, and the text of those goes into the file, no contract says.
//! - `texts_have_one_answer` [`answer`]: memory aside, what is asked has one answer alone, but for what the definitions of clashes, of orders, of faults,
//!   and of sentences, pictures, pages, features, layers and errors leave open.
//! - `answer_reach`, of `reach`: what goes to both sinks is what `IsReachAnswer` of `clr_desk_cuts` says. It is written as the table is read, so the
//!   two points below don't speak of it.
//! - [`silent`]: with status 3 nothing went to the sink of the text.
//! - [`keeps`]: with any fault but WriteFailed nothing was written. After a failed write it isn't known
//!   how much was; where the sink of the notes failed, nothing went to that of the text (`IsTorn`).
#![tactic(auto)]

mod answers;
mod cut_marks;
mod databases;
mod designs_over;
mod geographic;
mod laws;
mod skipped_files;

use crate::answers::answer;
use crate::skipped_files::{begin_file, drop_file, end_file};
use clr_design_folders::{FolderDesigns, FolderFault, read_designs, unfit_remark};
use clr_desk_command_line::{AskFault, Asked, DeskAsk, GeographicAsk, ReachAsk, ask_of};
use clr_desk_cuts::{Aim, LayerSource, ReachOptions, answer_reach};
use clr_desk_faults::{
    SplitLayer, degrees_of_layers, fault_place, faults_of_layers, split_given, take_layers,
};
use clr_desk_layers::GivenLayer;
use clr_office::{Port, RunFault, Sink, Words};
use clr_process_io::{
    BAD_WORDS, end_run, file_name, print_fault, print_parser_message, put_input_remark, read_files,
    text_at, texts_of_words, words,
};
use clr_streams::Screen;
use std::alloc::AllocError;
use std::io::ErrorKind;
use std::process::ExitCode;

/// From what the program was built, behind its version. `write_build` of bin/program.sh writes over these characters once the program is proved and built.
const BUILD: &str =
    "sources not recorded                                                    \ntoolchain not recorded                                      ";

/// The exit status where a layer has a fault, as where a text has one that `why` asks about.
const UNREADABLE: u8 = 2;

/// Prints a fault's line on standard error, and behind it where the fault is, if a text has it; and gives
/// its exit status. Where no memory is found for the place, that is what is printed.
fn refuse_texts(
    rt: &HostRuntime,
    fault: RunFault,
    files: &[Words],
    office: &[u8],
    second: &[u8],
) -> u8 {
    let Ok(place) = fault_place(rt.alloc(), fault, files, office, second) else {
        return print_fault(rt, RunFault::OutOfMemory);
    };
    let status = print_fault(rt, fault);
    let _ = Screen::new(rt.alloc(), Port::new(rt.stderr()), true).put(place.as_slice());
    status
}

/// Prints the line of a fault of a file on standard error, and behind it which file that is; and gives its exit status.
fn refuse_file(rt: &HostRuntime, name: &str, fault: RunFault) -> u8 {
    let status = print_fault(rt, fault);
    let _ = put_input_remark(rt.alloc(), &mut Port::new(rt.stderr()), name, fault);
    status
}

/// Prints lines on standard error, unless no memory was found for them.
fn print_remarks(rt: &HostRuntime, lines: Result<Vec<u8>, AllocError>) {
    if let Ok(lines) = lines {
        let _ = Screen::new(rt.alloc(), Port::new(rt.stderr()), true).put(lines.as_slice());
    }
}

/// Prints remarks on layers on standard error: what is wrong with them, behind the line of the first fault, where this is the status; and which of them
/// look like degrees. Where no memory is found for it, the line stands alone.
fn print_layer_remarks(
    rt: &HostRuntime,
    ask: &DeskAsk,
    files: &[Words],
    office: &[u8],
    layers: &[GivenLayer],
    status: u8,
) {
    if layers.is_empty() || matches!(ask, DeskAsk::WhyLayers(_)) {
        return;
    }
    if status == UNREADABLE {
        print_remarks(rt, faults_of_layers(rt.alloc(), ask, files, office, layers));
    }
    print_remarks(rt, degrees_of_layers(rt.alloc(), ask, files, layers));
}

/// What the words name: the names of files, the texts of the first two, and the layers and the designs of others.
#[derive(Drop)]
struct Given<'a> {
    files: &'a [Words],
    office: &'a [u8],
    second: &'a [u8],
    layers: &'a [GivenLayer],
    folder: &'a FolderDesigns,
}

/// Returns the designs of the folder that is asked for, or none where no folder is.
fn designs_asked(
    rt: &HostRuntime,
    ask: &DeskAsk,
    offices: &[Words],
) -> Result<FolderDesigns, FolderFault> {
    match ask {
        DeskAsk::Geographic(GeographicAsk::Designs(asked) | GeographicAsk::DesignsSince(asked)) =>
            read_designs(rt, asked.folder.as_str(), offices),
        _ => Ok(FolderDesigns {
            designs: Vec::new(rt.alloc()),
            files: Vec::new(rt.alloc()),
        }),
    }
}

/// Prints why a folder gives no designs on standard error, and gives the exit status.
fn refuse_folder(rt: &HostRuntime, fault: FolderFault) -> u8 {
    match fault {
        FolderFault::Unread(name, fault) => refuse_file(rt, name.as_str(), fault),
        FolderFault::Unfit(name, sentence) => {
            print_remarks(rt, unfit_remark(rt.alloc(), name.as_str(), sentence));
            UNREADABLE
        }
        FolderFault::OutOfMemory => print_fault(rt, RunFault::OutOfMemory),
    }
}

/// Prints remarks on the layers that are given, and on those of each design.
fn print_all_remarks(rt: &HostRuntime, ask: &DeskAsk, given: &Given<'_>, status: u8) {
    print_layer_remarks(rt, ask, given.files, given.office, given.layers, status);
    let folder = given.folder;
    for (design, names) in folder.designs.iter().zip(folder.files.iter()) {
        let layers = design.layers.as_slice();
        print_layer_remarks(rt, ask, names.as_slice(), given.office, layers, status);
    }
}

/// Gives the exit status of an answer whose text and notes went to these, with the line of its fault and its place.
fn end_answer(
    rt: &HostRuntime,
    ended: Result<u8, RunFault>,
    is_closed: bool,
    files: &[Words],
    office: &[u8],
    second: &[u8],
) -> u8 {
    match ended {
        Ok(_) | Err(RunFault::WriteFailed) => end_run(rt, ended, is_closed),
        Err(fault) => refuse_texts(rt, fault, files, office, second),
    }
}

/// Holds a table, read from standard input, against the cut of a file, and gives the exit status.
fn answer_stream(rt: &HostRuntime, ask: &ReachAsk, files: &[Words]) -> Result<u8, RunFault> {
    let texts = match read_files(rt, files) {
        Ok(texts) => texts,
        Err(refused) => return Ok(refuse_file(rt, file_name(files, refused.file), refused.fault)),
    };
    let aim = if ask.is_for_groups {
        Aim::Groups
    } else {
        Aim::Plans
    };
    let options = ReachOptions {
        aim,
        rounded: ask.is_rounded,
    };
    let office = text_at(&texts, 0);
    let mut source = LayerSource::new(rt.alloc(), rt.stdin());
    let mut writer = Port::new(rt.stdout());
    let mut notes = Screen::new(rt.alloc(), Port::new(rt.stderr()), true);
    let ended = answer_reach(
        rt.alloc(),
        options,
        office,
        ask.table.as_str(),
        ask.names.as_slice(),
        &mut source,
        &mut writer,
        &mut notes,
    );
    let is_closed = writer.is_closed() || notes.below().is_closed();
    Ok(end_answer(rt, ended, is_closed, files, office, &[]))
}

/// Answers what is asked of texts, layers and designs, and gives the exit status. What is said of layers as texts is said of those that were given.
fn answer_texts(rt: &HostRuntime, ask: &DeskAsk, given: &Given<'_>, layers: &[GivenLayer]) -> u8 {
    let is_read = matches!(
        ask,
        DeskAsk::WorkOrder(..) | DeskAsk::Why(_) | DeskAsk::WhyLayers(_)
    );
    let mut writer = Screen::new(rt.alloc(), Port::new(rt.stdout()), is_read);
    let mut notes = Screen::new(rt.alloc(), Port::new(rt.stderr()), true);
    let ended = answer(
        rt.alloc(),
        ask,
        given.office,
        given.second,
        layers,
        given.folder.designs.as_slice(),
        &mut writer,
        &mut notes,
    );
    if let Ok(status) = ended {
        print_all_remarks(rt, ask, given, status);
    }
    let is_closed = writer.below().is_closed() || notes.below().is_closed();
    end_answer(
        rt,
        ended,
        is_closed,
        given.files,
        given.office,
        given.second,
    )
}

/// Prints how many records are skipped on standard error.
fn print_skipped(rt: &HostRuntime, count: usize) {
    let _ = eprintln!(rt; "skipped {count}");
}

/// Answers what is asked of the records of a layer that have no fault, and gives the exit status. The others go into a new file of this name, which is
/// written whole beside it before anything is printed, and gets its name where all is done.
fn answer_skipping(
    rt: &HostRuntime,
    ask: &DeskAsk,
    given: &Given<'_>,
    name: &str,
    table: &Words,
    split: SplitLayer,
) -> Result<u8, RunFault> {
    let SplitLayer {
        taken,
        skipped,
        count,
    } = split;
    let beside = format!(in rt.alloc(); "{name}.part")?;
    let mut layers = Vec::new(rt.alloc());
    layers.push(GivenLayer {
        table: table.copy()?,
        text: taken,
    })?;
    if let Err(status) = begin_file(rt, name, beside.as_str(), skipped.as_slice()) {
        return Ok(status);
    }
    let status = answer_texts(rt, ask, given, layers.as_slice());
    if status != 0 {
        drop_file(rt, beside.as_str());
        return Ok(status);
    }
    if let Err(status) = end_file(rt, name, beside.as_str()) {
        return Ok(status);
    }
    print_skipped(rt, count);
    Ok(0)
}

/// Answers what is asked of what the words name, of which records may have to be skipped, and gives the exit status.
fn answer_given(rt: &HostRuntime, ask: &DeskAsk, given: &Given<'_>) -> Result<u8, RunFault> {
    if let (DeskAsk::Skipping(_, name), [layer]) = (ask, given.layers) {
        if let Some(split) = split_given(rt.alloc(), ask, given.office, layer)? {
            return answer_skipping(rt, ask, given, name.as_str(), &layer.table, split);
        }
    }
    Ok(answer_texts(rt, ask, given, given.layers))
}

/// Answers what the words ask of files, and gives the exit status.
fn answer_files(rt: &HostRuntime, ask: &DeskAsk, files: &[Words]) -> Result<u8, RunFault> {
    let mut texts = match read_files(rt, files) {
        Ok(texts) => texts,
        Err(refused) => return Ok(refuse_file(rt, file_name(files, refused.file), refused.fault)),
    };
    let layers = take_layers(rt.alloc(), ask, &mut texts)?;
    let folder = match designs_asked(rt, ask, files) {
        Ok(folder) => folder,
        Err(fault) => return Ok(refuse_folder(rt, fault)),
    };
    let given = Given {
        files,
        office: text_at(&texts, 0),
        second: text_at(&texts, 1),
        layers: layers.as_slice(),
        folder: &folder,
    };
    answer_given(rt, ask, &given)
}

/// Prints what the parser of the command line says, and behind a version from what the program was built; and gives the exit status.
fn print_message(rt: &HostRuntime, error: &clap::Error) -> u8 {
    let status = print_parser_message(rt, error);
    if status == 0 && error.kind() == clap::error::ErrorKind::DisplayVersion {
        let _ = println!(rt; "{BUILD}");
    }
    status
}

/// Does what the words ask for, and gives the exit status.
fn run_words(rt: &HostRuntime, words: &[String]) -> Result<u8, RunFault> {
    let texts = texts_of_words(rt, words)?;
    let (asked, files) = match ask_of(rt.alloc(), texts.as_slice()) {
        Ok(found) => found,
        Err(AskFault::Refused(error)) => return Ok(print_message(rt, &error)),
        Err(AskFault::OutOfMemory) => return Err(RunFault::OutOfMemory),
    };
    match asked {
        Asked::OfTexts(ask) => answer_files(rt, &ask, files.as_slice()),
        Asked::Reach(ask) => answer_stream(rt, &ask, files.as_slice()),
    }
}

fn main(rt: HostRuntime) -> ExitCode {
    let ended = match words(&rt) {
        Ok(words) => run_words(&rt, words.as_slice()),
        Err(ErrorKind::OutOfMemory) => Err(RunFault::OutOfMemory),
        Err(_) => {
            let _ = eprintln!(&rt; "error: a word isn't UTF-8");
            Ok(BAD_WORDS)
        }
    };
    let status = match ended {
        Ok(status) => status,
        Err(fault) => print_fault(&rt, fault),
    };
    ExitCode::from(status)
}
