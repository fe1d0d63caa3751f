//! The words of commands that a page tells.

ghost use Rattle.std.specs.Prelude.{◌≡◌, ◌++◌, map, OnOk};
ghost use Rattle.clr_page_parts.specs.Commands.{word_text, words_text};

use std::alloc::AllocError;

/// Adds a word of a command, behind a space.
pub fn add_word(text: &mut Vec<u8>, word: &str) -> Result<(), AllocError>
    ensures { OnOk result (text.new.items ≡ text.old.items ++ word_text word.now) }
{
    text.extend_from_slice(b" ")?;
    text.extend_from_slice(word.as_bytes())
}

/// Adds words of a command, each behind a space.
pub fn add_words(text: &mut Vec<u8>, words: &[&str]) -> Result<(), AllocError>
    ensures { OnOk result (text.new.items ≡ text.old.items ++ words_text (map (λ word. word.now) words.now)) }
{
    for word in words {
        add_word(text, word)?;
    }
    Ok(())
}
