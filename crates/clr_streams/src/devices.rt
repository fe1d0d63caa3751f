//! Sources and sinks of bytes.

ghost use Rattle.std.specs.Prelude.{◌≡◌, ◌<◌, ◌≤◌, List, ℕ, Bool, true, Option, length, take, IfOk, OnOk, OnErr};
ghost use Rattle.std.specs.Io.KnownBytes.{Appends, Consumes, IsAtEnd};

/// A read or a write that failed.
#[derive(Clone, Copy, Debug, PartialEq, Eq)]
pub struct DeviceFault;

/// What bytes are read from.
pub trait Source {
    /// The bytes that are still to be read, where the source tells.
    ghost remaining: { Self → Option (List ℕ) };

    /// Whether a read has failed so far.
    ghost failed: { Self → Bool };

    /// Reads some bytes to the front of a buffer that isn't empty, and returns how many: 0 only at
    /// the end. It fails where the device does, and the source has failed from then on.
    fn read_some(&mut self, buffer: &mut [u8]) -> Result<usize, DeviceFault>
        requires { 0 < length buffer.old }
        ensures bound { IfOk result (λ count. count ≤ length buffer.new) }
        ensures bytes { IfOk result (λ count. Consumes (remaining self.old) (remaining self.new) (take count buffer.new)) }
        ensures end { IfOk result (λ count. count ≡ 0 → IsAtEnd (remaining self.new)) }
        ensures goes_on { OnOk result (failed self.new ≡ failed self.old) }
        ensures fails { OnErr result (failed self.new ≡ true) };
}

/// What bytes are written to.
pub trait Sink {
    /// The bytes that were written, where the sink tells.
    ghost contents: { Self → Option (List ℕ) };

    /// Whether a write has failed so far.
    ghost failed: { Self → Bool };

    /// Writes all the bytes. It fails where the device does: how many went out is then not known,
    /// and the sink has failed from then on.
    fn put(&mut self, bytes: &[u8]) -> Result<(), DeviceFault>
        ensures bytes { OnOk result (Appends (contents self.old) (contents self.new) bytes.now) }
        ensures goes_on { OnOk result (failed self.new ≡ failed self.old) }
        ensures fails { OnErr result (failed self.new ≡ true) };
}
