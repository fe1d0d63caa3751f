//! Layers, one record at a time.

ghost use Rattle.std.specs.Prelude.{◌≡◌, [], ℕ, List, Some, IfErr, IfOk, IfSome, OnOk};
ghost use Rattle.clr_layer_text.specs.Layers.{IsFitting};
ghost use Rattle.clr_layer_text.specs.declared.rows.LayerRow.{LayerRow as OneRow};
ghost use Rattle.clr_layer_streams.specs.Faults.{is_unreadable};
ghost use Rattle.clr_layer_streams.specs.Sources.{CanGoOn, IsUnread, bytes_of, is_failed};
ghost use Rattle.clr_layer_streams.specs.Streams.{GoesOn, HasRead, IsFaultOfNext, IsHeaderFault, form_of, number_behind};

use crate::faults::{StreamFault, record_fault};
use crate::sources::LayerSource;
use clr_layer_text::{Headings, LayerFault, LayerRow, find_headings, read_row};
use clr_rows::Schema;
use std::alloc::Global;
use std::io::Read;

/// A layer that is read one record at a time, from a source that is handed over for each: how its rows are read, and
/// the number of the record that was read last.
#[derive(Drop)]
pub struct LayerStream<'a> {
    alloc: Global,
    schema: &'a Schema,
    table: u16,
    rounded: bool,
    headings: Headings,
    number: usize,
}

impl<'a> LayerStream<'a> {
    /// Reads the header of a table's layer. Coordinates that are finer than a millimetre are refused
    /// by `next_row`, or rounded where `rounded` says so.
    ///
    /// Fails with `Unreadable` where a read of the source fails, and only there; at record 1 with `NotCsv` where the
    /// header isn't UTF-8, with `Unfit` and `NoTable` where the schema hasn't the table, with `NoColumn` where the
    /// header lacks one of its names or where there is no record, and with `ColumnTwice` where it has one of them
    /// twice; and with `OutOfMemory` for want of memory, which may come in place of any other answer.
    pub fn open<R: Read>(
        alloc: Global,
        schema: &'a Schema,
        table: u16,
        rounded: bool,
        source: &mut LayerSource<R>,
    ) -> Result<LayerStream<'a>, StreamFault>
        requires { IsUnread R.remaining source.old }
        ensures begun { (bytes : List ℕ) → bytes_of R.remaining source.old ≡ Some bytes
            → IfOk result (HasRead R.remaining bytes [] source.new) }
        ensures reading { OnOk result (CanGoOn source.new) }
        ensures schema { IfOk result (λ stream. (form_of stream).tables ≡ schema.entry.now) }
        ensures table { IfOk result (λ stream. (form_of stream).table ≡ table) }
        ensures rounded { IfOk result (λ stream. (form_of stream).rounded ≡ rounded) }
        ensures number { IfOk result (λ stream. stream.number ≡ 1) }
        ensures source { is_failed source.new ≡ is_unreadable result }
        ensures fault { IfErr result (IsHeaderFault schema.entry.now table (bytes_of R.remaining source.old) (is_failed source.new)) }
    {
        if !source.read_record(1)? {
            return Err(StreamFault::Record(1, LayerFault::NoColumn));
        }
        match find_headings(alloc, source.last(), schema.def(table)) {
            Ok(headings) => Ok(LayerStream {
                alloc,
                schema,
                table,
                rounded,
                headings,
                number: 1,
            }),
            Err(fault) => Err(record_fault(1, fault)),
        }
    }

    /// Returns the row of the next record, or none behind the last one.
    ///
    /// Fails with `Unreadable` where a read of the source fails, and only there; with the number of the record and its
    /// first fault as `clr_layer_text: read_layer` does; and with `OutOfMemory` for want of memory, which may come in
    /// place of any other answer. The fields of each record are tested by themselves, so `NotCsv` comes at the record
    /// that isn't UTF-8.
    pub fn next_row<R: Read>(
        &mut self,
        source: &mut LayerSource<R>,
    ) -> Result<Option<LayerRow>, StreamFault>
        requires { CanGoOn source.old }
        ensures row { (bytes : List ℕ) (rows : List OneRow) → HasRead R.remaining bytes rows source.old self.old
            → IfOk result (λ row. GoesOn R.remaining bytes rows row source.new self.new) }
        ensures fits { IfOk result (λ row. IfSome row (IsFitting (form_of self.old).tables (form_of self.old).table)) }
        ensures reading { OnOk result (CanGoOn source.new) }
        ensures form { form_of self.new ≡ form_of self.old }
        ensures number { self.new.number ≡ number_behind self.old.number }
        ensures source { is_failed source.new ≡ is_unreadable result }
        ensures fault { IfErr result (IsFaultOfNext R.remaining source.old source.new (form_of self.old) self.new.number) }
    {
        self.number = self.number.saturating_add(1);
        if !source.read_record(self.number)? {
            return Ok(None);
        }
        let row = read_row(
            self.alloc,
            self.schema,
            self.table,
            self.rounded,
            &self.headings,
            source.last(),
        );
        match row {
            Ok(row) => Ok(Some(row)),
            Err(fault) => Err(record_fault(self.number, fault)),
        }
    }

    /// Returns the number of the record that was read last, or of the one behind the last record, counted from 1.
    pub fn number(&self) -> usize
        ensures { result ≡ self.now.number }
    {
        self.number
    }

    /// Returns the table whose layer is read.
    pub fn table(&self) -> u16
        ensures { result ≡ (form_of self.now).table }
    {
        self.table
    }
}
