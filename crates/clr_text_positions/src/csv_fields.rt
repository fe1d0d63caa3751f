//! Where the fields of a CSV text begin.

ghost use Rattle.std.specs.Prelude.{◌≡◌, ◌≤◌, length, IfSome};

/// The byte order mark that a text may begin with.
const BYTE_ORDER_MARK: &[u8] = b"\xEF\xBB\xBF";

/// Where a scan of records is.
#[derive(Clone, Copy, PartialEq, Eq)]
enum State {
    /// Before a record: blank lines are none.
    Between,
    /// Before a field.
    Before,
    /// In a field without quotes, or behind its closing quote.
    Bare,
    /// In a field in quotes.
    Quoted,
    /// Behind a quote in a field in quotes, which may be its closing one or the first of two.
    Closing,
}

/// A scan of records: its state, the record that it is in, counted from 1, and the field, from 0.
#[derive(Clone, Copy)]
struct Scan {
    state: State,
    record: usize,
    field: usize,
}

fn is_record_end(byte: u8) -> bool {
    byte == b'\n' || byte == b'\r'
}

impl Scan {
    /// Returns the scan at a byte, where a record begins that isn't blank.
    fn at(self, byte: u8) -> Scan {
        if self.state != State::Between || is_record_end(byte) {
            return self;
        }
        Scan {
            state: State::Before,
            record: self.record.saturating_add(1),
            field: 0,
        }
    }

    /// Returns whether this field of this record begins here.
    fn begins(self, record: usize, field: usize) -> bool {
        self.state == State::Before && self.record == record && self.field == field
    }

    /// Returns the scan behind a byte of a field that isn't in quotes, or no longer.
    fn after_bare(self, byte: u8) -> Scan {
        let Scan { record, field, .. } = self;
        match byte {
            b',' => Scan {
                state: State::Before,
                record,
                field: field.saturating_add(1),
            },
            b'\n' | b'\r' => Scan {
                state: State::Between,
                record,
                field,
            },
            _ => Scan {
                state: State::Bare,
                record,
                field,
            },
        }
    }

    /// Returns the scan behind a byte.
    fn after(self, byte: u8) -> Scan {
        let Scan { record, field, .. } = self;
        let in_quotes = Scan {
            state: State::Quoted,
            record,
            field,
        };
        match self.state {
            State::Before if byte == b'"' => in_quotes,
            State::Closing if byte == b'"' => in_quotes,
            State::Quoted if byte == b'"' => Scan {
                state: State::Closing,
                record,
                field,
            },
            State::Quoted => in_quotes,
            State::Between => self,
            State::Before | State::Bare | State::Closing => self.after_bare(byte),
        }
    }
}

/// Returns how many bytes the byte order mark has that a text begins with, if any.
fn mark_length(text: &[u8]) -> usize
    ensures { result ≤ length text.now }
{
    if text.starts_with(BYTE_ORDER_MARK) {
        text.len().min(BYTE_ORDER_MARK.len())
    } else {
        0
    }
}

/// Returns where a field of a record of a CSV text begins: the offset of its first byte, or of its
/// opening quote; or none where there is no such record or field. Records are counted from 1, without
/// blank lines, and fields from 0. A record ends at `\n` or `\r` outside quotes.
pub fn field_at(text: &[u8], record: usize, field: usize) -> Option<usize>
    ensures { IfSome result (λ found. found ≤ length text.now) }
{
    let first = mark_length(text);
    let mut scan = Scan {
        state: State::Between,
        record: 0,
        field: 0,
    };
    for (at, byte) in text.iter().enumerate() {
        if at >= first {
            scan = scan.at(*byte);
            if scan.begins(record, field) {
                return Some(at);
            }
            scan = scan.after(*byte);
        }
    }
    if scan.begins(record, field) {
        Some(text.len())
    } else {
        None
    }
}
