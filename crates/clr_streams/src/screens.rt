//! A sink that shows texts to readers.

ghost use Rattle.std.specs.Prelude.{◌≡◌, false, true, if◌then◌else◌, OnOk, OnErr, None};
ghost use Rattle.std.specs.Io.KnownBytes.{Appends};
ghost use Rattle.clr_streams.specs.Shown.{shown};

use crate::devices::{DeviceFault, Sink};
use crate::shown::{show_lines, shown_byte};
use std::alloc::Global;

/// A sink over another. Where it shows, a text goes to the one below as a terminal shows it, in its lines; else all goes there as
/// it is.
#[derive(Drop)]
pub struct Screen<W> {
    alloc: Global,
    below: W,
    shows: bool,
}

impl<W> Screen<W> {
    /// Returns a sink over another, which shows texts or not.
    pub fn new(alloc: Global, below: W, shows: bool) -> Screen<W>
        ensures { result ≡ record { alloc = alloc; below = below; shows = shows } }
    {
        Screen {
            alloc,
            below,
            shows,
        }
    }

    /// Returns the sink below.
    pub fn below(&self) -> &W
        ensures { result.now ≡ self.now.below }
    {
        &self.below
    }
}

/// Puts a text as a terminal shows it, byte by byte, which takes no memory.
fn put_bytes<W: Sink>(below: &mut W, text: &[u8]) -> Result<(), DeviceFault>
    ensures bytes { OnOk result (Appends (W.contents below.old) (W.contents below.new) (shown true text.now)) }
    ensures goes_on { OnOk result (W.failed below.new ≡ W.failed below.old) }
    ensures fails { OnErr result (W.failed below.new ≡ true) }
{
    let (mut first, mut second) = (0, 0);
    for byte in text {
        let shown = shown_byte(true, first, second, *byte);
        below.put(&[shown])?;
        first = second;
        second = shown;
    }
    Ok(())
}

impl<W: Sink> Sink for Screen<W> {
    ghost contents = { λ screen. None };

    ghost failed = { λ screen. W.failed screen.below };

    /// Puts a text on the sink below, as a terminal shows it where this sink shows texts. Where no memory is found for it, it
    /// goes there byte by byte. It fails where the sink below does.
    fn put(&mut self, bytes: &[u8]) -> Result<(), DeviceFault>
        ensures bytes { OnOk result (Appends None None bytes.now) }
        ensures goes_on { OnOk result (W.failed self.new.below ≡ W.failed self.old.below) }
        ensures fails { OnErr result (W.failed self.new.below ≡ true) }
        ensures shows { OnOk result (Appends (W.contents self.old.below) (W.contents self.new.below)
            (if self.old.shows then shown true bytes.now else bytes.now)) }
    {
        if !self.shows {
            return self.below.put(bytes);
        }
        match show_lines(self.alloc, bytes) {
            Ok(text) => self.below.put(text.as_slice()),
            Err(_) => put_bytes(&mut self.below, bytes),
        }
    }
}
