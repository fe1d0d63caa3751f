//! Marks, as they are written.

ghost use Rattle.std.specs.Prelude.{◌≡◌};
ghost use Rattle.clr_readings.specs.Readings.{Gives};
ghost use Rattle.clr_rule_text.specs.Fields.{text_lacks_memory};
ghost use Rattle.clr_office_reading.specs.Workspaces.{mark_over, marks_of, named_mark_of, named_marks_of, saved_of};

use crate::named_cells::{NamedCells, named_cells};
use crate::patches::differences;
use clr_deltas::StoredMark;
use clr_rows::{Schema, Words};
use clr_rule_text::TextFault;
use clr_rule_text::fields::{optional_list, words, words_from, words_in};
use clr_rule_text::json_values::JsonValue;
use clr_rule_text::lists::{make_each, read_items};
use std::alloc::Global;

/// A mark as it is written: that of a child, or a savepoint with the cells that are put over the
/// base.
#[derive(Debug, Drop)]
pub enum NamedMark {
    Child(Words),
    Saved(Words, NamedCells),
}

#[tactic(auto, unfolding(crate::specs::Workspaces::saved_of))]
fn read_savepoint<J: JsonValue>(
    alloc: Global,
    json: &J,
    schema: &Schema,
) -> Result<NamedMark, TextFault>
    ensures { Gives text_lacks_memory (λ m. m) result (saved_of schema.now (J.stands_for json.now)) }
{
    let name = words_in(alloc, json, "savepoint")?;
    let cells = named_cells(alloc, json, "rows", schema)?;
    Ok(NamedMark::Saved(name, cells))
}

/// Returns a mark of a workspace as it is written. Fails with `BadField` where a key is missing, or a value is
/// none of those that may stand there.
#[tactic(auto, unfolding(crate::specs::Workspaces::named_mark_of))]
pub fn named_mark<J: JsonValue>(
    alloc: Global,
    json: &J,
    schema: &Schema,
) -> Result<NamedMark, TextFault>
    ensures { Gives text_lacks_memory (λ m. m) result (named_mark_of schema.now (J.stands_for json.now)) }
{
    match json.member("child") {
        Some(child) => Ok(NamedMark::Child(words_from(alloc, words(child)?)?)),
        None => read_savepoint(alloc, json, schema),
    }
}

#[tactic(auto, unfolding(crate::specs::Workspaces::named_marks_of))]
fn named_marks<J: JsonValue>(
    alloc: Global,
    json: &J,
    schema: &Schema,
) -> Result<Vec<NamedMark>, TextFault>
    ensures { Gives text_lacks_memory (λ v. v.items) result (named_marks_of schema.now (J.stands_for json.now)) }
{
    read_items(alloc, optional_list(json, "marks")?, |item| {
        named_mark(alloc, item, schema)
    })
}

/// Returns a mark of a workspace. The cells of a savepoint fail as `differences` does.
pub fn mark(alloc: Global, schema: &Schema, named: NamedMark) -> Result<StoredMark, TextFault>
    ensures { Gives text_lacks_memory (λ m. m) result (mark_over schema.now named) }
{
    match named {
        NamedMark::Child(name) => Ok(StoredMark::Child(name)),
        NamedMark::Saved(name, cells) => {
            Ok(StoredMark::Saved(name, differences(alloc, schema, cells)?))
        }
    }
}

/// Returns the marks of a workspace, savepoints by their differences from the base; a missing list
/// is empty. Fails with `BadField` where a key is missing in one of the marks, or a value is none
/// of those that may stand there, and then, mark by mark, as the cells of a savepoint do.
#[tactic(auto, unfolding(crate::specs::Workspaces::marks_of))]
pub fn marks<J: JsonValue>(
    alloc: Global,
    json: &J,
    schema: &Schema,
) -> Result<Vec<StoredMark>, TextFault>
    ensures { Gives text_lacks_memory (λ v. v.items) result (marks_of schema.now (J.stands_for json.now)) }
{
    make_each(alloc, named_marks(alloc, json, schema)?, |item| {
        mark(alloc, schema, item)
    })
}
