//! What is wrong with a record.

ghost use Rattle.std.specs.Prelude.{◌≡◌, None, IfOk};
ghost use Rattle.clr_record_explanations.specs.RecordSlips.{said};

use std::alloc::{AllocError, Global};

/// What is wrong with a record: the field, counted from 0, a sentence, and a hint where one helps.
#[derive(Debug, Drop)]
pub struct RecordSlip {
    pub field: usize,
    pub sentence: String,
    pub hint: Option<String>,
}

impl RecordSlip {
    /// Returns a slip with a sentence on a field, without a hint.
    pub fn new(field: usize, sentence: String) -> RecordSlip
        ensures { result ≡ record { field = field; sentence = sentence; hint = None } }
    {
        RecordSlip {
            field,
            sentence,
            hint: None,
        }
    }

    /// Returns a slip with these words as its sentence, without a hint.
    pub fn of_words(alloc: Global, field: usize, sentence: &str) -> Result<RecordSlip, AllocError>
        ensures said { IfOk result (λ slip. said slip ≡ (field, sentence.now)) }
        ensures hint { IfOk result (λ slip. slip.hint ≡ None) }
    {
        Ok(RecordSlip::new(field, String::from_str(alloc, sentence)?))
    }

    /// Returns this slip with a hint, if there is one.
    pub fn with_hint(self, hint: Option<String>) -> RecordSlip
        ensures { result ≡ record { field = self.field; sentence = self.sentence; hint = hint } }
    {
        RecordSlip {
            field: self.field,
            sentence: self.sentence,
            hint,
        }
    }
}
