//! Layers as they are read one record at a time, or why they aren't.

use crate::layers::cases::{FAULTS, HEADERS, LINES, POINTS, ROUNDED};
use crate::layers::{TABLES, lines_of};
use crate::networks::schema_of;
use crate::questions::check_of;
use crate::texts::unfold;
use clr_layer_streams::{LayerSource, LayerStream, StreamFault};
use clr_layer_text::{header_line, row_line};
use std::alloc::Global;
use std::io;
use std::io::{ErrorKind, Read};

/// The most records that are read of a text.
const MOST_RECORDS: usize = 100;

/// Bytes that are given in pieces of a size, and then an error or the end.
#[derive(Drop)]
struct Pieces<'a> {
    rest: &'a [u8],
    size: usize,
    fails: bool,
}

impl Read for Pieces<'_> {
    fn read(&mut self, buffer: &mut [u8]) -> io::Result<usize> {
        let count = self.size.min(self.rest.len()).min(buffer.len());
        if count == 0 && self.fails {
            return Err(io::Error::from(ErrorKind::Other));
        }
        let (front, rest) = self.rest.split_at(count);
        buffer[..count].copy_from_slice(front);
        self.rest = rest;
        Ok(count)
    }
}

/// Returns a fault as `read_layer` tells it, or as a word.
fn fault_words(alloc: Global, fault: StreamFault) -> Option<String> {
    match fault {
        StreamFault::Record(number, fault) => format!(in alloc; "{number} {fault:?}").ok(),
        fault => format!(in alloc; "{fault:?}").ok(),
    }
}

/// Returns the text of the rows that are read, or the fault.
fn text_of<R: Read + Drop>(alloc: Global, name: &str, rounded: bool, reader: R) -> Option<String> {
    let schema = schema_of(alloc, TABLES)?;
    let table = schema.table(name).unwrap_or(9);
    let mut source = LayerSource::new(alloc, reader);
    let mut stream = match LayerStream::open(alloc, &schema, table, rounded, &mut source) {
        Ok(stream) => stream,
        Err(fault) => return fault_words(alloc, fault),
    };
    let mut text = header_line(alloc, schema.def(table)?).ok()?;
    for _ in 0..MOST_RECORDS {
        match stream.next_row(&mut source) {
            Ok(Some(row)) => {
                let line = row_line(alloc, &row).ok()?;
                text.extend_from_slice(line.as_slice()).ok()?;
            }
            Ok(None) => return lines_of(alloc, text.as_slice()),
            Err(fault) => return fault_words(alloc, fault),
        }
    }
    None
}

/// Returns what is read of a layer one record after another, behind the name of its table, in pieces of one byte.
pub(crate) fn answer(alloc: Global, rounded: bool, question: &str) -> Option<String> {
    let (name, layer) = question.split_once(' ')?;
    let text = unfold(alloc, layer)?;
    let source = Pieces {
        rest: text.as_bytes(),
        size: 1,
        fails: false,
    };
    text_of(alloc, name, rounded, source)
}

#[test]
fn points(rt: HostRuntime) {
    check_of(&rt, rt.alloc(), "stream", POINTS);
}

#[test]
fn lines(rt: HostRuntime) {
    check_of(&rt, rt.alloc(), "stream", LINES);
}

#[test]
fn headers(rt: HostRuntime) {
    check_of(&rt, rt.alloc(), "stream", HEADERS);
}

#[test]
fn faults(rt: HostRuntime) {
    check_of(&rt, rt.alloc(), "stream", FAULTS);
}

#[test]
fn rounded(rt: HostRuntime) {
    check_of(&rt, rt.alloc(), "rounded stream", ROUNDED);
}

/// A source that fails in mid-stream is told, and not taken for the end.
#[test]
fn failing_sources(rt: HostRuntime) {
    let text = "KEY,text\n1,a\n2,b\n";
    for end in 0..text.len() {
        let source = Pieces {
            rest: &text.as_bytes()[..end],
            size: 3,
            fails: true,
        };
        let told = text_of(rt.alloc(), "note", false, source);
        let is_told = told.is_some_and(|words| words.as_str() == "Unreadable");
        assert!(rt; is_told, "{end}");
    }
}
