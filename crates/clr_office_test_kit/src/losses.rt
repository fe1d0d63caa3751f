//! Commands of which some were answered by want of memory: the lost ones.

use crate::offices::reply_lines;
use clr_engine::{Command, Office, Reply};
use clr_office_texts::write_office;
use std::alloc::Global;

/// Returns whether two offices have the same text; none where no memory is found for the texts.
pub fn are_same(alloc: Global, first: &Office, second: &Office) -> Option<bool> {
    let text = write_office(alloc, first).ok()?;
    let other = write_office(alloc, second).ok()?;
    Some(text.as_slice() == other.as_slice())
}

/// Returns whether any command was lost.
fn has_lost(replies: &[Reply]) -> bool {
    replies.iter().any(|reply| *reply == Reply::OutOfMemory)
}

/// Returns whether an office answers the other commands as they were answered, where the lost ones aren't given.
fn answers_without_lost(office: &mut Office, commands: &[Command], replies: &[Reply]) -> bool {
    for (command, reply) in commands.iter().zip(replies) {
        if *reply != Reply::OutOfMemory && office.perform(command) != *reply {
            return false;
        }
    }
    true
}

/// Returns the lines of what the lost commands are answered where they are given again.
fn lost_again(
    alloc: Global,
    office: &mut Office,
    commands: &[Command],
    replies: &[Reply],
) -> Option<Vec<u8>> {
    let mut again = Vec::new(alloc);
    for (command, reply) in commands.iter().zip(replies) {
        if *reply == Reply::OutOfMemory {
            again.push(office.perform(command)).ok()?;
        }
    }
    reply_lines(alloc, office.schema(), again.as_slice())
}

/// Returns `Some(false)` where two offices answer the lost commands alike when they are given again and then have the same text, and none where they don't.
fn is_right_of_lost(
    alloc: Global,
    (office, other): (&mut Office, &mut Office),
    (commands, replies): (&[Command], &[Reply]),
) -> Option<bool> {
    let again = lost_again(alloc, office, commands, replies)?;
    let wanted = lost_again(alloc, other, commands, replies)?;
    if again.as_slice() == wanted.as_slice() && are_same(alloc, office, other)? {
        Some(false)
    } else {
        None
    }
}

/// Returns whether no command was lost. Another office, which was the same before, must answer the commands that weren't lost alike and then have the same
/// text. Where some were lost, both offices must answer them alike when they are given again, and have the same text then. Returns none where that isn't so.
pub fn is_right_but_for_lost(
    alloc: Global,
    (office, other): (&mut Office, &mut Office),
    (commands, replies): (&[Command], &[Reply]),
) -> Option<bool> {
    if !answers_without_lost(other, commands, replies) || !are_same(alloc, office, other)? {
        return None;
    }
    if has_lost(replies) {
        is_right_of_lost(alloc, (office, other), (commands, replies))
    } else {
        Some(true)
    }
}
