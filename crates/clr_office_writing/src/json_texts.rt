//! A JSON text that is written token by token.

ghost use Rattle.std.specs.Prelude.{◌≡◌, [], ◌∷◌, ◌++◌, IfOk, OnErr, OnOk};
ghost use Rattle.std.specs.Str.{IsUtf8};
ghost use Rattle.json.specs.Lex.{tokens as tokens_in};
ghost use Rattle.json.specs.Print.{print};
ghost use Rattle.json.specs.Token.{begin_object, end_object, begin_array, end_array, key as key_token};
ghost use Rattle.serde_json.specs.Data.{boolean as boolean_data, string as string_data};
ghost use Rattle.clr_office_writing.specs.Tokens.{tokens_of};
ghost use Rattle.clr_office_writing.specs.Values.{number_data};

use json::Writer;
use std::alloc::{AllocError, Global};
use std::marker::Model;

/// The bytes that a text has room for at first.
const FIRST_ROOM: usize = 128;

/// A JSON text while it is written, with no space in it. Commas and colons come by themselves; that
/// keys stand in objects, and that each bracket is closed, is left to who writes.
#[derive(Drop)]
pub struct JsonText {
    writer: Writer,
}

impl Model for JsonText {
    ghost use Rattle.std.specs.Prelude.{◌≡◌, List, []};
    ghost use Rattle.json.specs.Token.{Token, tokens_code};

    ghost Value = { List Token };

    ghost coded = { tokens_code };

    ghost view = { λ t. t.writer.tokens };

    ghost invariant = { λ t. t.writer.before ≡ [] };
}

impl JsonText {
    /// Returns the empty text.
    pub fn new(alloc: Global) -> Result<JsonText, AllocError>
        ensures { IfOk result (λ text. text ≡ []) }
    {
        let writer = Writer::new(Vec::with_capacity(alloc, FIRST_ROOM)?);
        Ok(JsonText { writer })
    }

    /// Returns the bytes of the text, which are read as the same tokens.
    pub fn into_bytes(self) -> Vec<u8>
        ensures bytes { result.items ≡ print self }
        ensures again { tokens_in result.items ≡ self }
        ensures utf8 { IsUtf8 result.items }
    {
        self.writer.into_inner()
    }

    /// Opens an object. If memory runs out, the text stays.
    pub fn begin_object(&mut self) -> Result<(), AllocError>
        ensures ok { OnOk result (self.new ≡ self.old ++ begin_object ∷ []) }
        ensures err { OnErr result (self.new ≡ self.old) }
    {
        self.writer.begin_object()
    }

    /// Closes an object. If memory runs out, the text stays.
    pub fn end_object(&mut self) -> Result<(), AllocError>
        ensures ok { OnOk result (self.new ≡ self.old ++ end_object ∷ []) }
        ensures err { OnErr result (self.new ≡ self.old) }
    {
        self.writer.end_object()
    }

    /// Opens an array. If memory runs out, the text stays.
    pub fn begin_array(&mut self) -> Result<(), AllocError>
        ensures ok { OnOk result (self.new ≡ self.old ++ begin_array ∷ []) }
        ensures err { OnErr result (self.new ≡ self.old) }
    {
        self.writer.begin_array()
    }

    /// Closes an array. If memory runs out, the text stays.
    pub fn end_array(&mut self) -> Result<(), AllocError>
        ensures ok { OnOk result (self.new ≡ self.old ++ end_array ∷ []) }
        ensures err { OnErr result (self.new ≡ self.old) }
    {
        self.writer.end_array()
    }

    /// Writes the key of a member, whose value is due next. If memory runs out, the text stays.
    pub fn key(&mut self, name: &str) -> Result<(), AllocError>
        ensures ok { OnOk result (self.new ≡ self.old ++ key_token name.now ∷ []) }
        ensures err { OnErr result (self.new ≡ self.old) }
    {
        self.writer.key(name)
    }

    /// Writes a text as a value. If memory runs out, the text stays.
    pub fn string(&mut self, words: &str) -> Result<(), AllocError>
        ensures ok { OnOk result (self.new ≡ self.old ++ tokens_of (string_data words.now)) }
        ensures err { OnErr result (self.new ≡ self.old) }
    {
        self.writer.string(words)
    }

    /// Writes a whole number. If memory runs out, the text stays.
    pub fn number(&mut self, number: i64) -> Result<(), AllocError>
        ensures ok { OnOk result (self.new ≡ self.old ++ tokens_of (number_data number)) }
        ensures err { OnErr result (self.new ≡ self.old) }
    {
        self.writer.i64(number)
    }

    /// Writes a flag. If memory runs out, the text stays.
    pub fn boolean(&mut self, flag: bool) -> Result<(), AllocError>
        ensures ok { OnOk result (self.new ≡ self.old ++ tokens_of (boolean_data flag)) }
        ensures err { OnErr result (self.new ≡ self.old) }
    {
        self.writer.boolean(flag)
    }
}
