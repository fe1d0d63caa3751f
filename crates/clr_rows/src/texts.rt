//! Texts that are compared by their bytes.

ghost use Rattle.std.specs.Prelude.{◌≡◌, ◌↔◌, string_bytes, IfOk, IsTrue};

use std::alloc::{AllocError, Global};
use std::marker::Model;

/// A text, compared by its bytes.
#[derive(Debug, Drop)]
pub struct Words {
    text: String,
}

impl Model for Words {
    ghost use Rattle.std.specs.Prelude.{List, ℕ, string_bytes};

    ghost Value = { List ℕ };

    ghost view = { λ a. string_bytes a.text };
}

impl Words {
    /// Returns a text that holds this string.
    pub fn new(text: String) -> Words
        ensures { result ≡ string_bytes text }
    {
        Words { text }
    }

    /// Returns a text with the bytes of this string.
    pub fn from_str(alloc: Global, text: &str) -> Result<Words, AllocError>
        ensures { IfOk result (λ words. words ≡ text.now) }
    {
        Ok(Words {
            text: String::from_str(alloc, text)?,
        })
    }

    /// Returns the text as a string.
    pub fn as_str(&self) -> &str
        ensures { result.now ≡ self.now }
    {
        self.text.as_str()
    }

    /// Returns the underlying string.
    pub fn into_string(self) -> String
        ensures { string_bytes result ≡ self }
    {
        self.text
    }

    /// Returns a copy of the text.
    pub fn copy(&self) -> Result<Words, AllocError>
        ensures { IfOk result (λ text. text ≡ self.now) }
    {
        Ok(Words {
            text: self.text.clone()?,
        })
    }

    /// Returns whether both texts have the same bytes.
    pub fn same(&self, other: &Words) -> bool
        ensures { IsTrue result ↔ (self.now ≡ other.now) }
    {
        self.text.as_str() == other.text.as_str()
    }
}
