//! The words of the command line.

ghost use Rattle.std.specs.Prelude.{◌≡◌, map, string_bytes, IfOk};

use std::alloc::AllocError;
use std::env;
use std::env::{Env, FillError};
use std::io::ErrorKind;

/// Returns the texts of words, in their order.
pub fn texts_of_words<'a>(rt: &HostRuntime, words: &'a [String]) -> Result<Vec<&'a str>, AllocError>
    ensures { IfOk result (λ texts. map (λ text. text.now) texts.items ≡ map string_bytes words.entry.now) }
{
    let mut texts = Vec::new(rt.alloc());
    for word in words {
        texts.push(word.as_str())?;
    }
    Ok(texts)
}

/// Returns the words of the command line, with the program's name first. Fails with `OutOfMemory` if memory runs out, and
/// with `InvalidData` where a word isn't UTF-8.
pub fn words(rt: &HostRuntime) -> Result<Vec<String>, ErrorKind> {
    match env::args(rt) {
        Ok(words) => words
            .collect(rt.alloc())
            .map_err(|_| ErrorKind::OutOfMemory),
        Err(error) => Err(error.kind()),
    }
}

/// Returns whether the command line has a word behind the program's name. It takes no memory.
pub fn has_words(rt: &HostRuntime) -> bool {
    !matches!(rt.arg(1, &mut [0]), Err(FillError::NotPresent))
}
