//! A command line without words behind the program's name. What words ask for is shown by sessions.

use clr_command_line::{AskFault, ask_of};
use std::alloc::Global;

/// Returns whether a command line that has the program's name alone is refused.
fn is_refused(alloc: Global) -> Option<bool> {
    let mut words = Vec::new(alloc);
    words.push("clr_office").ok()?;
    match ask_of(alloc, words.as_slice()) {
        Ok((_ask, _files)) => Some(false),
        Err(AskFault::Refused(error)) => Some(error.use_stderr()),
        Err(AskFault::OutOfMemory) => None,
    }
}

#[test]
fn no_words_ask_for_nothing(rt: HostRuntime) {
    assert!(rt; is_refused(rt.alloc()).unwrap_or(false));
}
