//! Names and texts in quotes.

ghost use Rattle.std.specs.Prelude.{◌≡◌, ◌++◌, OnOk};
ghost use Rattle.std.specs.List.{flat_map};
ghost use Rattle.clr_sql.specs.Quoting.{quoted, quoted_byte, quoted_name, quoted_text};

use std::alloc::AllocError;

/// Adds a byte within quotes: a quote twice.
fn add_quoted_byte(text: &mut Vec<u8>, quote: u8, byte: u8) -> Result<(), AllocError>
    ensures { OnOk result (text.new.items ≡ text.old.items ++ quoted_byte quote byte) }
{
    if byte == quote {
        text.extend_from_slice(&[quote, quote])
    } else {
        text.extend_from_slice(&[byte])
    }
}

/// Adds what stands within quotes.
fn add_within(text: &mut Vec<u8>, quote: u8, words: &[u8]) -> Result<(), AllocError>
    ensures { OnOk result (text.new.items ≡ text.old.items ++ flat_map (quoted_byte quote) words.now) }
{
    for byte in words {
        add_quoted_byte(text, quote, *byte)?;
    }
    Ok(())
}

/// Adds a text in quotes.
fn add_quoted(text: &mut Vec<u8>, quote: u8, words: &[u8]) -> Result<(), AllocError>
    ensures { OnOk result (text.new.items ≡ text.old.items ++ quoted quote words.now) }
{
    text.push(quote)?;
    add_within(text, quote, words)?;
    text.push(quote)?;
    Ok(())
}

/// Adds the name of a table or of a column in double quotes, as `"main"`. A double quote within the name stands there twice. If memory runs out, part of
/// it may have been added.
pub fn add_name(text: &mut Vec<u8>, name: &str) -> Result<(), AllocError>
    ensures { OnOk result (text.new.items ≡ text.old.items ++ quoted_name name.now) }
{
    add_quoted(text, b'"', name.as_bytes())
}

/// Adds a text in single quotes, as `'O''Hara'`. A single quote within it stands there twice. If memory runs out, part of it may have been added.
pub fn add_text(text: &mut Vec<u8>, words: &[u8]) -> Result<(), AllocError>
    ensures { OnOk result (text.new.items ≡ text.old.items ++ quoted_text words.now) }
{
    add_quoted(text, b'\'', words)
}
