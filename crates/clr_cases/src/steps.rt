//! What the steps of a script are answered, as lines: commands by their replies, and reports by the calls that show what an
//! office has. What the commands are answered must also be the same where they are performed all at once.

use crate::offices::office_after;
use crate::reports::report_lines;
use clr_engine::Office;
use clr_lines::reply_line;
use clr_office_test_kit::{add_picture, replies_to, steps_of};
use clr_scripts::Step;
use std::alloc::Global;

/// What the steps of a script are answered, and what its commands are, with all that the office has
/// after them.
#[derive(Drop)]
struct Answers {
    lines: Vec<u8>,
    commands: Vec<u8>,
}

impl Answers {
    /// Adds what a step is answered.
    fn add(&mut self, lines: &[u8], is_command: bool) -> Option<()> {
        self.lines.extend_from_slice(lines).ok()?;
        if is_command {
            self.commands.extend_from_slice(lines).ok()?;
        }
        Some(())
    }
}

/// Returns what a step is answered.
fn step_lines(alloc: Global, office: &mut Office, step: &Step) -> Option<Vec<u8>> {
    match step {
        Step::Act(command) => {
            let reply = office.perform(command);
            reply_line(alloc, office.schema(), &reply).ok()
        }
        Step::Report(word, names) => report_lines(alloc, office, *word, names.as_slice()),
    }
}

/// Performs the steps one after another.
fn answer_steps(
    alloc: Global,
    office: &mut Office,
    steps: &[Step],
    answers: &mut Answers,
) -> Option<()> {
    for step in steps {
        let lines = step_lines(alloc, office, step)?;
        answers.add(lines.as_slice(), matches!(step, Step::Act(_)))?;
    }
    add_picture(&mut answers.commands, alloc, office)
}

/// Returns what a script is answered, step by step.
fn step_by_step(alloc: Global, office: &mut Office, script: &str) -> Option<Answers> {
    let steps = steps_of(alloc, office, script)?;
    let mut answers = Answers {
        lines: Vec::new(alloc),
        commands: Vec::new(alloc),
    };
    answer_steps(alloc, office, steps.as_slice(), &mut answers)?;
    Some(answers)
}

/// Returns what the commands of a script are answered all at once, in the office of a text and of the script before, with all that the
/// office has after them.
fn at_once(alloc: Global, before: (&str, &str), script: &str) -> Option<Vec<u8>> {
    let mut office = office_after(alloc, before.0, before.1)?;
    let mut lines = replies_to(alloc, &mut office, script)?;
    add_picture(&mut lines, alloc, &office)?;
    Some(lines)
}

/// Returns what a script is answered in the office of a text and of the script before; none where its commands are answered otherwise all
/// at once.
pub fn script_lines(
    alloc: Global,
    office: &mut Office,
    before: (&str, &str),
    script: &str,
) -> Option<Vec<u8>> {
    let answers = step_by_step(alloc, office, script)?;
    let commands = at_once(alloc, before, script)?;
    if commands.as_slice() == answers.commands.as_slice() {
        Some(answers.lines)
    } else {
        None
    }
}
