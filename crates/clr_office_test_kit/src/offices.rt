//! Offices of texts, and what is performed in them.

use crate::networks::network;
use clr_engine::{Command, Office, Reply};
use clr_lines::{reply_line, rows_lines};
use clr_office_texts::read_office;
use clr_rows::Schema;
use clr_scripts::{Step, read_script};
use std::alloc::Global;

/// Returns the office of a text, in which each broken need is known.
pub fn office_of(alloc: Global, text: &str) -> Option<Office> {
    let read = read_office(alloc, text.as_bytes()).ok()?;
    read.draft.admit(read.known.as_slice()).ok()
}

/// Returns the steps of a script.
pub fn steps_of(alloc: Global, office: &Office, script: &str) -> Option<Vec<Step>> {
    read_script(alloc, office.schema(), script.as_bytes()).ok()
}

/// Returns the commands of a script, without its reports.
pub fn commands_of(alloc: Global, office: &Office, script: &str) -> Option<Vec<Command>> {
    let mut commands = Vec::new(alloc);
    for step in steps_of(alloc, office, script)? {
        if let Step::Act(command) = step {
            commands.push(command).ok()?;
        }
    }
    Some(commands)
}

/// Returns the lines of replies.
pub fn reply_lines(alloc: Global, schema: &Schema, replies: &[Reply]) -> Option<Vec<u8>> {
    let mut lines = Vec::new(alloc);
    for reply in replies {
        let line = reply_line(alloc, schema, reply).ok()?;
        lines.extend_from_slice(line.as_slice()).ok()?;
    }
    Some(lines)
}

/// Returns the lines of what the commands of a script are answered, all at once.
pub fn replies_to(alloc: Global, office: &mut Office, script: &str) -> Option<Vec<u8>> {
    let commands = commands_of(alloc, office, script)?;
    let replies = office.perform_all(commands.as_slice()).ok()?;
    reply_lines(alloc, office.schema(), replies.as_slice())
}

/// Performs the commands of a script, and answers whether each is done.
pub fn perform_script(alloc: Global, office: &mut Office, script: &str) -> Option<bool> {
    let commands = commands_of(alloc, office, script)?;
    let replies = office.perform_all(commands.as_slice()).ok()?;
    Some(replies.iter().all(|reply| *reply == Reply::Done))
}

/// Returns the office that a script, each of whose commands is done, makes of a network: the first line is the network's name, and the
/// rest is the script.
pub fn office_after(alloc: Global, setting: &str) -> Option<Office> {
    let (name, script) = setting.split_once("\n")?;
    let mut office = office_of(alloc, network(name)?)?;
    if perform_script(alloc, &mut office, script)? {
        Some(office)
    } else {
        None
    }
}

/// Returns the lines of the rows of LIVE or a workspace; none where there is no such workspace.
pub fn rows_of(alloc: Global, office: &Office, name: &str) -> Option<Vec<u8>> {
    let rows = office.rows(name).ok()??;
    rows_lines(alloc, office.schema(), &rows).ok()
}
