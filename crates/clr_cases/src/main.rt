//! Runs the cases of the files that `index` names, and prints those that are answered otherwise, and how many were run. How a
//! case is written stands in src/cases.rt, and what it can ask in src/asks.rt.
#![tactic(auto)]

mod asks;
mod cases;
mod checks;
mod offices;
mod plans;
mod reports;
mod runs;
mod steps;
mod trees;

use asks::answer;
use cases::{Case, OfficeText, case_of};
use offices::office_after;
use std::alloc::Global;
use std::fs::read_to_string;
use std::io::Result as IoResult;
use std::process::ExitCode;
use trees::answer_alone;

/// How many cases were run, and how many of them were answered otherwise.
#[derive(Clone, Copy, Drop)]
struct Counts {
    cases: u32,
    differ: u32,
}

/// Returns the lines that a case is answered over the text of its office; none where its script isn't done, or it can't be asked.
fn lines_over(alloc: Global, text: &str, case: &Case<'_>) -> Option<Vec<u8>> {
    let mut office = office_after(alloc, text, case.script)?;
    answer(alloc, &mut office, text, case)
}

/// Returns the lines that a case is answered.
fn lines_of(rt: &HostRuntime, case: &Case<'_>) -> IoResult<Option<Vec<u8>>> {
    match case.office {
        OfficeText::None => Ok(answer_alone(rt.alloc(), case.ask.words, case.ask.text)),
        OfficeText::Whole(text) => Ok(lines_over(rt.alloc(), text, case)),
        OfficeText::File(name) => {
            let text = read_to_string(rt, name)?;
            Ok(lines_over(rt.alloc(), text.as_str(), case))
        }
    }
}

/// Prints a case that is answered otherwise, with what is wanted and what is found.
fn tell(rt: &HostRuntime, file: &str, case: &Case<'_>, found: Option<&[u8]>) -> IoResult<()> {
    println!(rt; "{file}: {} is answered otherwise. Wanted is:", case.name)?;
    print!(rt; "{}", case.lines)?;
    match found {
        Some(lines) => {
            println!(rt; "Found is:")?;
            rt.stdout().write_all(lines)
        }
        None => println!(rt; "There is no answer."),
    }
}

/// Runs a case, and answers whether its lines are those that are wanted.
fn is_so(rt: &HostRuntime, file: &str, case: &Case<'_>) -> IoResult<bool> {
    let lines = lines_of(rt, case)?;
    let found = lines.as_ref().map(|lines| lines.as_slice());
    let is_so = found == Some(case.lines.as_bytes());
    if !is_so {
        tell(rt, file, case, found)?;
    }
    Ok(is_so)
}

/// Runs the cases of a file. A part that is no case counts as one that is answered otherwise.
fn run_file(rt: &HostRuntime, file: &str, counts: &mut Counts) -> IoResult<()> {
    let text = read_to_string(rt, file)?;
    for part in text.as_str().split("== case ").skip(1) {
        counts.cases = counts.cases.saturating_add(1);
        let is_so = match case_of(part) {
            Some(case) => is_so(rt, file, &case)?,
            None => {
                println!(rt; "{file}: a part of case {} is missing", counts.cases)?;
                false
            }
        };
        if !is_so {
            counts.differ = counts.differ.saturating_add(1);
        }
    }
    Ok(())
}

/// Runs the cases of all files.
fn run_files(rt: &HostRuntime, index: &str) -> IoResult<Counts> {
    let mut counts = Counts {
        cases: 0,
        differ: 0,
    };
    for file in index.split_whitespace() {
        run_file(rt, file, &mut counts)?;
    }
    Ok(counts)
}

fn main(rt: HostRuntime) -> IoResult<ExitCode> {
    let index = read_to_string(&rt, "index")?;
    let counts = run_files(&rt, index.as_str())?;
    println!(rt; "{} cases, {} differ", counts.cases, counts.differ)?;
    Ok(ExitCode::from(u8::from(counts.differ > 0)))
}
