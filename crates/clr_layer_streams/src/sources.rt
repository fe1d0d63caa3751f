//! What the records of a layer are read from, one at a time.

ghost use Rattle.std.specs.Prelude.{◌≡◌, true, IfErr, IfOk, OnErr, OnOk};
ghost use Rattle.std.specs.Io.{ReadsAtMost};
ghost use Rattle.std.specs.Io.KnownBytes.{ReadConsumes};
ghost use Rattle.csv.specs.Reading.{ReadRecord};
ghost use Rattle.csv.specs.Records.{fields_of};
ghost use Rattle.clr_layer_streams.specs.Faults.{is_unreadable};
ghost use Rattle.clr_layer_streams.specs.Sources.{CanGoOn, IsFaultOfRecord, IsUnread, below, bytes_of, is_failed};

use crate::faults::{StreamFault, fault_of};
use csv::{Reader, ReaderBuilder, StringRecord};
use std::alloc::Global;
use std::io;
use std::io::Read;

/// A reader, and whether a read of it has failed. The errors of `csv` don't say whether one has.
#[derive(Drop)]
pub(crate) struct Watched<R> {
    inner: R,
    failed: bool,
}

impl<R: Read> Read for Watched<R> {
    ghost remaining = { λ watched. R.remaining watched.inner };

    fn read(&mut self, buffer: &mut [u8]) -> io::Result<usize>
        ensures bound { ReadsAtMost result buffer.new }
        ensures bytes { ReadConsumes (R.remaining self.old.inner) (R.remaining self.new.inner) result buffer.new }
        ensures goes_on { OnOk result (self.new.failed ≡ self.old.failed) }
        ensures fails { OnErr result (self.new.failed ≡ true) }
    {
        let count = self.inner.read(buffer);
        if count.is_err() {
            self.failed = true;
        }
        count
    }
}

/// What the records of a layer are read from. It keeps one record, and what its reader holds back.
#[derive(Drop)]
pub struct LayerSource<R> {
    reader: Reader<Watched<R>>,
    last: StringRecord,
}

impl<R: Read> LayerSource<R> {
    /// Returns a source of the records of this reader, of which none was read yet.
    pub fn new(alloc: Global, inner: R) -> LayerSource<R>
        ensures unread { IsUnread R.remaining result }
        ensures bytes { bytes_of R.remaining result ≡ R.remaining inner }
    {
        let watched = Watched {
            inner,
            failed: false,
        };
        LayerSource {
            reader: ReaderBuilder::new()
                .has_headers(false)
                .flexible(true)
                .from_reader(alloc, watched),
            last: StringRecord::new(alloc),
        }
    }

    /// Reads the next record, which has a number, and returns whether there is one.
    ///
    /// Fails with `Unreadable` where a read fails, with `NotCsv` at that number where the record isn't UTF-8, and
    /// with `OutOfMemory` for want of memory, which may come in place of any other answer.
    pub(crate) fn read_record(&mut self, number: usize) -> Result<bool, StreamFault>
        requires { CanGoOn self.old }
        ensures took { IfOk result (λ found. ReadRecord (below R.remaining) self.old.reader self.new.reader found (fields_of self.new.last)) }
        ensures reading { OnOk result (CanGoOn self.new) }
        ensures source { is_failed self.new ≡ is_unreadable result }
        ensures fault { IfErr result (IsFaultOfRecord R.remaining self.old self.new number) }
    {
        let found = self.reader.read_record(&mut self.last);
        if self.reader.get_ref().failed {
            return Err(StreamFault::Unreadable);
        }
        match found {
            Ok(found) => Ok(found),
            Err(error) => Err(fault_of(number, &error)),
        }
    }

    /// Returns the record that was read last.
    pub(crate) fn last(&self) -> &StringRecord
        ensures { result.now ≡ self.now.last }
    {
        &self.last
    }
}
