//! An example of a program over the libraries. It opens the office of the file `designs.json`, plans the merges of two designs into LIVE, checks the
//! certificate, makes the merges, and prints how many were done and the office that they leave.
#![tactic(auto)]

ghost use Rattle.std.specs.Prelude.{IfSome};
ghost use Rattle.clr_clearance.specs.Headline.{Headline};
ghost use Rattle.clr_merge_sets.specs.Certificates.{merge_set_of};

use clr_cert::Certificate;
use clr_check::{Verdict, check};
use clr_engine::{Command, Office, Reply};
use clr_office_texts::{read_office, write_office};
use clr_plan::{Plan, plan};
use clr_rows::{LIVE, Words};
use std::alloc::{AllocError, Global};
use std::fs::read_to_string;
use std::io::Result as IoResult;
use std::process::ExitCode;

/// Returns the office of a text, in which each broken need is known.
fn open(alloc: Global, text: &str) -> Option<Office> {
    let read = read_office(alloc, text.as_bytes()).ok()?;
    read.draft.admit(read.known.as_slice()).ok()
}

/// Returns a certificate of designs, once it is checked: until a command is given that isn't quiet, no merge or refresh of one of its members meets a
/// conflict or breaks a rule, and every rule goes on holding in LIVE.
fn clearance(alloc: Global, office: &Office, designs: &[&str]) -> Option<Certificate>
    ensures { IfSome result (λ certificate. Headline office.now (merge_set_of certificate)) }
{
    let Plan::Cleared(certificate) = plan(alloc, office, LIVE, designs) else {
        return None;
    };
    match check(alloc, office, &certificate) {
        Verdict::Clear => Some(certificate),
        _ => None,
    }
}

/// Returns the commands that merge the members of a certificate, one after another.
fn merges(alloc: Global, certificate: &Certificate) -> Result<Vec<Command>, AllocError> {
    let mut commands = Vec::new(alloc);
    for name in certificate.members.as_slice() {
        let ws = Words::from_str(alloc, name.as_str())?;
        commands.push(Command::Merge { ws, remove: false })?;
    }
    Ok(commands)
}

/// Returns how many merges of two designs were done in the office of a text, and the text of the office that they leave.
fn answer(alloc: Global, text: &str) -> Option<(usize, Vec<u8>)> {
    let mut office = open(alloc, text)?;
    let certificate = clearance(alloc, &office, &["Renewal", "Extension"])?;
    let commands = merges(alloc, &certificate).ok()?;
    let replies = office.perform_all(commands.as_slice()).ok()?;
    let done = replies
        .iter()
        .filter(|reply| **reply == Reply::Done)
        .count();
    Some((done, write_office(alloc, &office).ok()?))
}

fn main(rt: HostRuntime) -> IoResult<ExitCode> {
    let text = read_to_string(&rt, "designs.json")?;
    let Some((done, office)) = answer(rt.alloc(), text.as_str()) else {
        eprintln!(rt; "these designs can't be merged, or memory ran out")?;
        return Ok(ExitCode::from(1));
    };
    println!(rt; "merged {done}")?;
    rt.stdout().write_all(office.as_slice())?;
    println!(rt; "")?;
    Ok(ExitCode::from(0))
}
