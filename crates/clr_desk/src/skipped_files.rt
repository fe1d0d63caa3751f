//! The file of the records that are skipped. No contract says what a file holds.

use clr_office::{Port, RunFault, Sink};
use clr_process_io::print_fault;
use clr_streams::Screen;
use std::fs;
use std::fs::File;
use std::io::ErrorKind;

/// What is said of a file that mustn't be there.
const IS_THERE: &str = ": there is such a file already\n";

/// What is said of a file that can't be written.
const NOT_WRITTEN: &str = ": it can't be written\n";

/// Prints that a write failed, and behind it which file that is and why; and gives the exit status.
fn refuse(rt: &HostRuntime, name: &str, why: &str) -> u8 {
    let status = print_fault(rt, RunFault::WriteFailed);
    let mut notes = Screen::new(rt.alloc(), Port::new(rt.stderr()), true);
    let _ = notes.put(name.as_bytes());
    let _ = notes.put(why.as_bytes());
    status
}

/// Writes a new file. Returns what is to be said of it where it can't be written, and leaves no beginning of it.
fn write_new(rt: &HostRuntime, name: &str, text: &[u8]) -> Option<&'static str> {
    let file = match File::create_new(rt, name) {
        Ok(file) => file,
        Err(error) if error.kind() == ErrorKind::AlreadyExists => return Some(IS_THERE),
        Err(_) => return Some(NOT_WRITTEN),
    };
    if Port::new(file).put(text).is_ok() {
        return None;
    }
    let _ = fs::remove_file(rt, name);
    Some(NOT_WRITTEN)
}

/// Writes a text into the file `beside`, which is to become `name`. Returns the exit status where one of them is there already or can't be written; that
/// is told then, and nothing is written.
pub(crate) fn begin_file(
    rt: &HostRuntime,
    name: &str,
    beside: &str,
    text: &[u8],
) -> Result<(), u8> {
    match fs::exists(rt, name) {
        Ok(false) => {}
        Ok(true) => return Err(refuse(rt, name, IS_THERE)),
        Err(_) => return Err(refuse(rt, name, NOT_WRITTEN)),
    }
    match write_new(rt, beside, text) {
        Some(why) => Err(refuse(rt, beside, why)),
        None => Ok(()),
    }
}

/// Gives the file `beside` its name. Returns the exit status where that can't be done; that is told then, and the file is removed.
pub(crate) fn end_file(rt: &HostRuntime, name: &str, beside: &str) -> Result<(), u8> {
    if fs::rename(rt, beside, name).is_ok() {
        return Ok(());
    }
    let _ = fs::remove_file(rt, beside);
    Err(refuse(rt, name, NOT_WRITTEN))
}

/// Removes the file `beside`.
pub(crate) fn drop_file(rt: &HostRuntime, beside: &str) {
    let _ = fs::remove_file(rt, beside);
}
