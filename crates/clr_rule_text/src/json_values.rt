//! JSON values that can be looked into.

ghost use Rattle.std.specs.Prelude.{◌≡◌, option_and_then, option_map};
ghost use Rattle.serde_json.specs.Data.{Data};
ghost use Rattle.serde_json.specs.Find.{as_array, as_bool, as_i64, as_number, as_str, get};
ghost use Rattle.serde_json.specs.View.{view};
ghost use Rattle.clr_rule_text.specs.Seen.{items_seen};

use serde_json::Value;

/// A JSON value that can be looked into.
pub trait JsonValue: Sized {
    /// The data that a value stands for.
    ghost stands_for: { Self → Data };

    /// Returns the value at a key of an object, or none.
    fn member(&self, key: &str) -> Option<&Self>
        ensures { option_map (λ v. stands_for v.now) result ≡ get key.now (stands_for self.now) };

    /// Returns the text that a value is, or none.
    fn text(&self) -> Option<&str>
        ensures { option_map (λ s. s.now) result ≡ as_str (stands_for self.now) };

    /// Returns the flag that a value is, or none.
    fn flag(&self) -> Option<bool>
        ensures { result ≡ as_bool (stands_for self.now) };

    /// Returns the whole number of 64 bits that a value is, or none.
    fn whole_number(&self) -> Option<i64>
        ensures { result ≡ option_and_then as_i64 (as_number (stands_for self.now)) };

    /// Returns the items of the array that a value is, or none.
    fn items(&self) -> Option<&[Self]>
        ensures { option_map (λ v. items_seen stands_for v.now) result ≡ as_array (stands_for self.now) };
}

impl JsonValue for Value {
    ghost stands_for = { view };

    fn member(&self, key: &str) -> Option<&Value> {
        self.get(key)
    }

    fn text(&self) -> Option<&str> {
        self.as_str()
    }

    fn flag(&self) -> Option<bool> {
        self.as_bool()
    }

    fn whole_number(&self) -> Option<i64> {
        self.as_i64()
    }

    fn items(&self) -> Option<&[Value]> {
        match self.as_array() {
            Some(found) => Some(found.as_slice()),
            None => None,
        }
    }
}
