//! A source and a sink over bytes in memory.

ghost use Rattle.std.specs.Prelude.{◌≡◌, ◌+◌, ◌≤◌, ◌<◌, Some, false, true, length, min, take, IfOk, OnOk, OnErr, IsOk, IsErr, []};
ghost use Rattle.std.specs.Io.KnownBytes.{Appends, Consumes, IsAtEnd};

use crate::devices::{DeviceFault, Sink, Source};
use std::alloc::{AllocError, Global};
use std::marker::Model;

/// A source over bytes in memory, seen as the bytes that are still to be read. It never fails.
#[derive(Drop)]
pub struct Text<'a> {
    rest: &'a [u8],
}

impl<'a> Model for Text<'a> {
    ghost use Rattle.std.specs.Prelude.{List, ℕ};

    ghost Value = { List ℕ };

    ghost view = { λ a. a.rest.now };
}

impl<'a> Text<'a> {
    /// Returns a source of these bytes.
    pub fn new(bytes: &'a [u8]) -> Text<'a>
        ensures { result ≡ bytes.entry.now }
    {
        Text { rest: bytes }
    }
}

impl Source for Text<'_> {
    ghost remaining = { λ text. Some text };

    ghost failed = { λ _. false };

    /// Reads as many bytes as the buffer takes and the text has.
    /// For example, with a buffer of two bytes the text `abc` is read as `ab`, then `c`, and then nothing.
    fn read_some(&mut self, buffer: &mut [u8]) -> Result<usize, DeviceFault>
        requires { 0 < length buffer.old }
        ensures bound { IfOk result (λ count. count ≤ length buffer.new) }
        ensures bytes { IfOk result (λ count. Consumes (Some self.old) (Some self.new) (take count buffer.new)) }
        ensures end { IfOk result (λ count. count ≡ 0 → IsAtEnd (Some self.new)) }
        ensures goes_on { OnOk result (false ≡ false) }
        ensures fails { OnErr result (false ≡ true) }
        ensures count { IfOk result (λ count. count ≡ min (length buffer.new) (length self.old)) }
        ensures succeeds { IsOk result }
    {
        let count = buffer.len().min(self.rest.len());
        let (front, rest) = self.rest.split_at(count);
        buffer[..count].copy_from_slice(front);
        self.rest = rest;
        Ok(count)
    }
}

/// A sink in memory, with room for a number of bytes that is made beforehand.
#[derive(Drop)]
pub struct Page {
    bytes: Vec<u8>,
    room: usize,
    failed: bool,
}

impl Model for Page {
    ghost use Rattle.std.specs.Prelude.{◌≤◌, length, vec_capacity};
    ghost use Rattle.clr_streams.specs.Devices.{PageState};

    ghost Value = { PageState };

    ghost view = { λ a. record { contents = a.bytes.items; room = a.room; failed = a.failed } };

    ghost invariant = { λ a. (length a.bytes.items ≤ a.room) × (a.room ≤ vec_capacity a.bytes) };
}

impl Page {
    /// Returns an empty page with room for this many bytes.
    pub fn new(alloc: Global, room: usize) -> Result<Page, AllocError>
        ensures { IfOk result (λ page. page ≡ record { contents = []; room = room; failed = false }) }
    {
        Ok(Page {
            bytes: Vec::with_capacity(alloc, room)?,
            room,
            failed: false,
        })
    }

    /// Returns the bytes that were put on the page.
    pub fn as_slice(&self) -> &[u8]
        ensures { result.now ≡ self.now.contents }
    {
        self.bytes.as_slice()
    }
}

impl Sink for Page {
    ghost contents = { λ page. Some page.contents };

    ghost failed = { λ page. page.failed };

    /// Writes all the bytes. It fails exactly where they don't fit in the room that is left, and
    /// then nothing is put on the page.
    /// For example, a page with room for three bytes takes `ab`. Then it refuses `cd`, and still has `ab`.
    fn put(&mut self, bytes: &[u8]) -> Result<(), DeviceFault>
        ensures bytes { OnOk result (Appends (Some self.old.contents) (Some self.new.contents) bytes.now) }
        ensures goes_on { OnOk result (self.new.failed ≡ self.old.failed) }
        ensures fails { OnErr result (self.new.failed ≡ true) }
        ensures keeps { OnErr result (self.new.contents ≡ self.old.contents) }
        ensures room { self.new.room ≡ self.old.room }
        ensures within { length self.old.contents + length bytes.now ≤ self.old.room → IsOk result }
        ensures past { self.old.room < length self.old.contents + length bytes.now → IsErr result }
    {
        if bytes.len() <= self.room - self.bytes.len()
            && self.bytes.extend_from_slice(bytes).is_ok()
        {
            return Ok(());
        }
        self.failed = true;
        Err(DeviceFault)
    }
}
