//! The separator between an office text and a script.

ghost use Rattle.std.specs.Prelude.{◌≡◌, length, option_map};
ghost use Rattle.std.specs.Io.BufRead.{take_through};
ghost use Rattle.clr_streams.specs.Separator.{is_separator as separates, around_separator};

/// Returns how many bytes the first line of a text has, with the `\n` that ends it.
fn line_len(text: &[u8]) -> usize
    ensures { result ≡ length (take_through 10 text.now) }
{
    for i in 0..text.len() {
        if text[i] == b'\n' {
            return i + 1;
        }
    }
    text.len()
}

/// Returns whether a line, with the `\n` that may end it, is exactly `---`, or so with one `\r`
/// after it.
fn is_separator(line: &[u8]) -> bool
    ensures { result ≡ separates line.now }
{
    let line = line.strip_suffix(b"\n").unwrap_or(line);
    line == b"---".as_slice() || line == b"---\r".as_slice()
}

/// Returns the text before the first line that is the separator, and the text after that line, or
/// none where no line is the separator.
/// For example, `a\n---\nb\n---\n` is split into `a\n` and `b\n---\n`.
pub fn split_at_separator(text: &[u8]) -> Option<(&[u8], &[u8])>
    ensures { option_map (λ parts. (parts.0.now, parts.1.now)) result ≡ around_separator text.now }
{
    let mut start = 0;
    while start < text.len() {
        let (before, rest) = text.split_at(start);
        let (line, after) = rest.split_at(line_len(rest));
        if is_separator(line) {
            return Some((before, after));
        }
        start += line.len();
    }
    None
}
