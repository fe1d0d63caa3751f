//! Bytes that are no UTF-8, and the mark that some programs put before a text.
ghost use Rattle.std.specs.Prelude.{◌≡◌, ◌≤◌, length, IfSome};
ghost use Rattle.clr_hints.specs.Encodings.{IsEncodingFault, has_mark};

/// The byte order mark that some programs put before a text.
const BYTE_ORDER_MARK: &[u8] = b"\xEF\xBB\xBF";

/// Tests whether a text begins with a byte order mark.
pub fn has_byte_order_mark(text: &[u8]) -> bool
    ensures { result ≡ has_mark text.now }
{
    text.starts_with(BYTE_ORDER_MARK)
}

/// Returns the offset of the first byte of a text that is no UTF-8, or none where it is UTF-8: the length of its longest front that
/// is UTF-8.
pub fn encoding_fault(text: &[u8]) -> Option<usize>
    ensures fault { IsEncodingFault text.now result }
    ensures within { IfSome result (λ offset. offset ≤ length text.now) }
{
    match str::from_utf8(text) {
        Ok(_) => None,
        Err(fault) => Some(fault.valid_up_to()),
    }
}
