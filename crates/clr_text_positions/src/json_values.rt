//! Where the values of a JSON text begin.

ghost use Rattle.std.specs.Prelude.{◌≡◌, ◌+◌, ◌<◌, ◌≤◌, length, IfSome};

use crate::paths::PathStep;

/// Returns how many bytes of white space a text begins with.
fn space_length(text: &[u8]) -> usize
    ensures { result ≤ length text.now }
{
    match text.iter().position(|byte| !is_space(*byte)) {
        Some(count) => count,
        None => text.len(),
    }
}

fn is_space(byte: u8) -> bool {
    matches!(byte, b' ' | b'\t' | b'\n' | b'\r')
}

/// Returns how many bytes a text in quotes has from behind its opening quote, with the closing one.
fn quoted_length(text: &[u8]) -> usize
    ensures { result ≤ length text.now }
{
    let mut is_escaped = false;
    for (at, byte) in text.iter().enumerate() {
        if is_escaped {
            is_escaped = false;
        } else if *byte == b'\\' {
            is_escaped = true;
        } else if *byte == b'"' {
            return at + 1;
        }
    }
    text.len()
}

/// What a scan of a value knows at a byte: how many lists and objects are open, and whether it is
/// within a text, and there behind a backslash.
#[derive(Clone, Copy)]
struct Scan {
    depth: usize,
    in_text: bool,
    is_escaped: bool,
}

impl Scan {
    /// Returns whether a value that is no list, no object and no text ends before this byte.
    fn ends_before(self, byte: u8) -> bool {
        self.depth == 0
            && !self.in_text
            && (is_space(byte) || matches!(byte, b',' | b']' | b'}' | b':'))
    }

    /// Returns the scan behind a byte.
    fn after(self, byte: u8) -> Scan {
        let Scan {
            depth,
            in_text,
            is_escaped,
        } = self;
        if in_text {
            let ends = !is_escaped && byte == b'"';
            let escapes = !is_escaped && byte == b'\\';
            return Scan {
                depth,
                in_text: !ends,
                is_escaped: escapes,
            };
        }
        let depth = match byte {
            b'[' | b'{' => depth.saturating_add(1),
            b']' | b'}' => depth.saturating_sub(1),
            _ => depth,
        };
        Scan {
            depth,
            in_text: byte == b'"',
            is_escaped: false,
        }
    }
}

fn closes(byte: u8) -> bool {
    matches!(byte, b']' | b'}' | b'"')
}

/// Returns how many bytes the value has that a text begins with.
fn value_length(text: &[u8]) -> usize
    ensures { result ≤ length text.now }
{
    let mut scan = Scan {
        depth: 0,
        in_text: false,
        is_escaped: false,
    };
    for (at, byte) in text.iter().enumerate() {
        if scan.ends_before(*byte) {
            return at;
        }
        scan = scan.after(*byte);
        if scan.depth == 0 && !scan.in_text && closes(*byte) {
            return at + 1;
        }
    }
    text.len()
}

/// A member of an object: where its key begins and ends, without quotes, where its value begins, and
/// the first byte behind the value that is no white space.
#[derive(Clone, Copy)]
struct Member {
    key_start: usize,
    key_end: usize,
    value: usize,
    next: usize,
}

/// Returns the first byte from an offset on that is no white space.
fn skip_space(text: &[u8], at: usize) -> usize
    requires { at ≤ length text.now }
    ensures bound { result ≤ length text.now }
    ensures order { at ≤ result }
{
    at + space_length(&text[at..])
}

/// Returns the first byte behind the value that begins at an offset, and behind the white space
/// there.
fn skip_value(text: &[u8], at: usize) -> usize
    requires { at ≤ length text.now }
    ensures bound { result ≤ length text.now }
    ensures order { at ≤ result }
{
    let end = at + value_length(&text[at..]);
    skip_space(text, end)
}

/// Returns the offset behind this byte, if it stands at an offset.
fn behind(text: &[u8], at: usize, byte: u8) -> Option<usize>
    requires { at ≤ length text.now }
    ensures { IfSome result (λ next. (at < next) × (next ≤ length text.now)) }
{
    if at < text.len() && text[at] == byte {
        Some(at + 1)
    } else {
        None
    }
}

/// Returns the member that begins at an offset, behind white space.
fn member_at(text: &[u8], at: usize) -> Option<Member>
    requires { at ≤ length text.now }
    ensures key { IfSome result (λ m. (m.key_start ≤ m.key_end) × (m.key_end ≤ length text.now)) }
    ensures value { IfSome result (λ m. (m.value ≤ m.next) × (m.next ≤ length text.now)) }
{
    let key_start = behind(text, skip_space(text, at), b'"')?;
    let key_end = key_start + quoted_length(&text[key_start..]).saturating_sub(1);
    let colon = skip_space(text, (key_end + 1).min(text.len()));
    let value = skip_space(text, behind(text, colon, b':')?);
    let next = skip_value(text, value);
    Some(Member {
        key_start,
        key_end,
        value,
        next,
    })
}

/// Returns where the value begins at a key of the object that begins at an offset: of two equal keys
/// the last one counts. A key that is written with escapes isn't found.
fn member_value(text: &[u8], at: usize, key: &str) -> Option<usize>
    requires { at ≤ length text.now }
    ensures { IfSome result (λ found. found ≤ length text.now) }
{
    let mut found = None;
    let mut next = behind(text, at, b'{')?;
    'members: for _ in 0..text.len() {
        let Some(member) = member_at(text, next) else {
            return found;
        };
        if &text[member.key_start..member.key_end] == key.as_bytes() {
            found = Some(member.value);
        }
        match behind(text, member.next, b',') {
            Some(behind) => next = behind,
            None => return found,
        }
    }
    found
}

/// Returns where an item of the list begins that begins at an offset. Items are counted from 0.
fn item_value(text: &[u8], at: usize, item: usize) -> Option<usize>
    requires { at ≤ length text.now }
    ensures { IfSome result (λ found. found ≤ length text.now) }
{
    let mut next = skip_space(text, behind(text, at, b'[')?);
    'items: for _ in 0..item {
        let end = skip_value(text, next);
        next = skip_space(text, behind(text, end, b',')?);
    }
    if next < text.len() && text[next] != b']' {
        Some(next)
    } else {
        None
    }
}

/// Returns where the value at a path of a JSON text begins: the offset of its first byte; or none
/// where no value stands there. Of a text that isn't JSON the answer is some offset within it, or
/// none. A key that is written with escapes isn't found.
pub fn value_at(text: &[u8], path: &[PathStep]) -> Option<usize>
    ensures { IfSome result (λ found. found ≤ length text.now) }
{
    let mut at = skip_space(text, 0);
    for step in path {
        at = match step {
            PathStep::Key(key) => member_value(text, at, key.as_str())?,
            PathStep::At(item) => item_value(text, at, *item)?,
        };
    }
    Some(at)
}
