//! What is wrong in a text in double quotes of JSON.
ghost use Rattle.std.specs.Prelude.{◌≡◌, ◌≤◌, ◌<◌, ◌+◌, drop, get_or, length, IfSome};
ghost use Rattle.clr_hints.specs.QuotedTexts.{escape_length, has_unit, is_digit_d, is_first_half, is_half, is_hex, is_pair, is_second_half, is_short_escape};
ghost use Rattle.clr_hints.specs.QuotedTexts.{quoted_fault_from, quoted_hint, quoted_sentence, quoted_step, raw_fault};

/// Why a text in double quotes can't be read.
#[derive(Clone, Copy, Debug, PartialEq, Eq)]
pub enum QuotedFault {
    /// A raw tab stands in it.
    Tab,
    /// A raw line feed or carriage return stands in it.
    LineEnd,
    /// Another raw control character stands in it.
    Control,
    /// A backslash begins no escape.
    Escape,
    /// The bytes end before the closing quote.
    NoEnd,
}

/// What a byte of a text in double quotes is that belongs to no escape before it.
#[derive(Clone, Copy, Debug, PartialEq, Eq)]
pub enum QuotedStep {
    /// The closing quote.
    Ends,
    /// A byte that can't stand there.
    Stops(QuotedFault),
    /// A byte that may, with so many bytes behind it that belong to the same escape.
    Passes(usize),
}

/// Returns the byte at a place, or 0.
fn byte_at(text: &[u8], at: usize) -> u8
    ensures { result ≡ get_or text.now at 0 }
{
    match text.get(at) {
        Some(byte) => *byte,
        None => 0,
    }
}

fn is_hex(byte: u8) -> bool
    ensures { result ≡ is_hex byte }
{
    matches!(byte, b'0'..=b'9' | b'A'..=b'F' | b'a'..=b'f')
}

/// Returns whether four hexadecimal digits stand from a place on.
fn has_unit(text: &[u8], at: usize) -> bool
    requires { at < 16 }
    ensures { result ≡ has_unit text.now at }
{
    is_hex(byte_at(text, at))
        && is_hex(byte_at(text, at + 1))
        && is_hex(byte_at(text, at + 2))
        && is_hex(byte_at(text, at + 3))
}

fn is_digit_d(byte: u8) -> bool
    ensures { result ≡ is_digit_d byte }
{
    matches!(byte, b'D' | b'd')
}

fn is_first_half(byte: u8) -> bool
    ensures { result ≡ is_first_half byte }
{
    matches!(byte, b'8' | b'9' | b'A' | b'B' | b'a' | b'b')
}

fn is_second_half(byte: u8) -> bool
    ensures { result ≡ is_second_half byte }
{
    matches!(byte, b'C'..=b'F' | b'c'..=b'f')
}

/// Returns whether the four digits from a place on are half of a surrogate pair.
fn is_half(text: &[u8], at: usize) -> bool
    requires { at < 16 }
    ensures { result ≡ is_half text.now at }
{
    let second = byte_at(text, at + 1);
    is_digit_d(byte_at(text, at)) && (is_first_half(second) || is_second_half(second))
}

/// Returns whether both halves of a surrogate pair stand behind `u`.
fn is_pair(text: &[u8]) -> bool
    ensures { result ≡ is_pair text.now }
{
    is_first_half(byte_at(text, 2))
        && byte_at(text, 5) == b'\\'
        && byte_at(text, 6) == b'u'
        && has_unit(text, 7)
        && is_digit_d(byte_at(text, 7))
        && is_second_half(byte_at(text, 8))
}

fn is_short_escape(byte: u8) -> bool
    ensures { result ≡ is_short_escape byte }
{
    matches!(byte, b'"' | b'\\' | b'/' | b'b' | b'f' | b'n' | b'r' | b't')
}

/// Returns how many bytes an escape has behind its backslash, or none where no escape begins.
fn escape_length(text: &[u8]) -> Option<usize>
    ensures { result ≡ escape_length text.now }
{
    if is_short_escape(byte_at(text, 0)) {
        Some(1)
    } else if !(byte_at(text, 0) == b'u' && has_unit(text, 1)) {
        None
    } else if !is_half(text, 1) {
        Some(5)
    } else if is_pair(text) {
        Some(11)
    } else {
        None
    }
}

fn raw_fault(byte: u8) -> QuotedFault
    ensures { result ≡ raw_fault byte }
{
    match byte {
        b'\t' => QuotedFault::Tab,
        b'\n' | b'\r' => QuotedFault::LineEnd,
        _ => QuotedFault::Control,
    }
}

/// Returns what a byte is that belongs to no escape before it, by what stands behind it.
fn quoted_step(byte: u8, behind: &[u8]) -> QuotedStep
    ensures { result ≡ quoted_step byte behind.now }
{
    if byte == b'"' {
        return QuotedStep::Ends;
    }
    if byte == b'\\' {
        return match escape_length(behind) {
            Some(count) => QuotedStep::Passes(count),
            None => QuotedStep::Stops(QuotedFault::Escape),
        };
    }
    if byte < 32 {
        QuotedStep::Stops(raw_fault(byte))
    } else {
        QuotedStep::Passes(0)
    }
}

/// Returns the place of the first byte that can't stand in a text in double quotes, whose first byte behind the opening quote stands
/// at a place, and why; the end, where the closing quote is missing; or none where the text can be read.
pub fn quoted_fault(text: &[u8], start: usize) -> Option<(usize, QuotedFault)>
    requires { start ≤ length text.now }
    ensures value { result ≡ quoted_fault_from start 0 (drop start text.now) }
    ensures bound { IfSome result (λ found. found.0 ≤ length text.now) }
{
    let mut skipped = 0;
    for at in start..text.len() {
        if skipped > 0 {
            skipped -= 1;
        } else {
            match quoted_step(text[at], &text[at + 1..]) {
                QuotedStep::Ends => return None,
                QuotedStep::Stops(fault) => return Some((at, fault)),
                QuotedStep::Passes(count) => skipped = count,
            }
        }
    }
    Some((text.len(), QuotedFault::NoEnd))
}

/// Returns what is said of a fault of a text in double quotes.
pub fn quoted_sentence(fault: QuotedFault) -> &'static str
    ensures { result.now ≡ quoted_sentence fault }
{
    match fault {
        QuotedFault::Tab => "a raw tab can't stand in a text in quotes",
        QuotedFault::LineEnd => "a line end can't stand in a text in quotes",
        QuotedFault::Control => "a control character can't stand in a text in quotes",
        QuotedFault::Escape => "no escape begins with this backslash",
        QuotedFault::NoEnd => "the file ends here, and a text in quotes hasn't ended",
    }
}

/// Returns the hint that goes with a fault of a text in double quotes.
pub fn quoted_hint(fault: QuotedFault) -> &'static str
    ensures { result.now ≡ quoted_hint fault }
{
    match fault {
        QuotedFault::Tab => "write \\t for a tab",
        QuotedFault::LineEnd => {
            "is the closing quote missing? a line end within a text is written \\n"
        }
        QuotedFault::Control => "write \\u and four hexadecimal digits",
        QuotedFault::Escape => "a backslash itself is written \\\\",
        QuotedFault::NoEnd => "is a closing quote missing?",
    }
}
