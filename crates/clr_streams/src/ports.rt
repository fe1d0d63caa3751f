//! Sources and sinks over readers and writers of `std`.

ghost use Rattle.std.specs.Prelude.{◌≡◌, false, true, IsTrue};

use crate::devices::{DeviceFault, Sink, Source};
use std::io::{ErrorKind, Read, Write};
use std::marker::Model;

/// A source over a reader of `std`, or a sink over a writer. Contracts know its bytes where they
/// know those of the reader or writer.
#[derive(Drop)]
pub struct Port<T> {
    inner: T,
    failed: bool,
    closed: bool,
}

impl<T> Model for Port<T> {
    ghost use Rattle.std.specs.Prelude.{◌≡◌, true};
    ghost use Rattle.clr_streams.specs.Devices.{PortState};

    ghost Value = { PortState T };

    ghost view = { λ a. record { inner = a.inner; failed = a.failed; closed = a.closed } };

    ghost invariant = { λ a. a.closed ≡ true → a.failed ≡ true };
}

impl<T> Port<T> {
    /// Returns a port over this reader or writer.
    pub fn new(inner: T) -> Port<T>
        ensures { result ≡ record { inner = inner; failed = false; closed = false } }
    {
        Port {
            inner,
            failed: false,
            closed: false,
        }
    }

    /// Returns whether a write failed because nobody reads what is written any more, as where the reader of a pipe has ended.
    pub fn is_closed(&self) -> bool
        ensures told { result ≡ self.now.closed }
        ensures failed { IsTrue result → self.now.failed ≡ true }
    {
        self.closed
    }
}

impl<R: Read> Source for Port<R> {
    ghost remaining = { λ port. R.remaining port.inner };

    ghost failed = { λ port. port.failed };

    /// Makes one read. It fails where the reader gives an error, also that it was interrupted.
    fn read_some(&mut self, buffer: &mut [u8]) -> Result<usize, DeviceFault> {
        match self.inner.read(buffer) {
            Ok(count) => Ok(count),
            Err(_) => {
                self.failed = true;
                Err(DeviceFault)
            }
        }
    }
}

impl<W: Write> Sink for Port<W> {
    ghost contents = { λ port. W.contents port.inner };

    ghost failed = { λ port. port.failed };

    /// Writes all the bytes and flushes the writer. It fails where either gives an error, and notes whether that says
    /// that nobody reads any more.
    fn put(&mut self, bytes: &[u8]) -> Result<(), DeviceFault> {
        let written = match self.inner.write_all(bytes) {
            Ok(()) => self.inner.flush(),
            Err(error) => Err(error),
        };
        match written {
            Ok(()) => Ok(()),
            Err(error) => {
                self.failed = true;
                self.closed = error.kind() == ErrorKind::BrokenPipe;
                Err(DeviceFault)
            }
        }
    }
}
