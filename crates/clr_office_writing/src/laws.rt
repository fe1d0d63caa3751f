//! Laws of the JSON of office texts, each proved by a function that does nothing.

ghost use Rattle.clr_office_writing.specs.Laws.{IsPlain, ReadsBack};

/// What is written of an office text is read as the same office text: its schema, its rules, LIVE
/// the needs that are known to be broken, and the differences, marks and flags of its workspaces. Its rows and rules fit
/// the schema, the known needs ascend and are some that its rules can have, and its workspaces stand after their parents.
pub fn office_text_is_read_back()
    ensures { ReadsBack }
{}

/// What is written of an office text nests little and has no floats.
pub fn office_text_is_plain()
    ensures { IsPlain }
{}
