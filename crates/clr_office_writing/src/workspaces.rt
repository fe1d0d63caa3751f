//! Workspaces, written as JSON by what is stored of them.

ghost use Rattle.std.specs.Prelude.{◌≡◌, ◌++◌, IfOk, OnOk};
ghost use Rattle.std.specs.Option.{option_copied};
ghost use Rattle.clr_deltas.specs.declared.stored_marks.StoredMark.TheVariants.{Child, Saved};
ghost use Rattle.clr_office_writing.specs.CellData.{differences_data, named_cell, named_cell_data};
ghost use Rattle.clr_office_writing.specs.Tokens.{tokens_of};
ghost use Rattle.clr_office_writing.specs.WorkspaceData.{delta_data, marks_data, named_mark, named_mark_data};

use crate::cells::{write_gone, write_row};
use crate::json_texts::JsonText;
use crate::lists::write_each;
use clr_deltas::{DeltaView, Differences, StoredMark};
use clr_office_reading::named_marks::NamedMark;
use clr_rows::{CellId, Row, Schema};
use std::alloc::AllocError;

fn write_cell(
    text: &mut JsonText,
    schema: &Schema,
    cell: CellId,
    row: Option<&Row>,
) -> Result<(), AllocError>
    ensures { OnOk result (text.new ≡ text.old ++ tokens_of (named_cell_data (named_cell schema.now (cell, option_copied row.entry)))) }
{
    match row {
        Some(row) => write_row(text, schema, cell, row),
        None => write_gone(text, schema, cell),
    }
}

/// Writes each cell of differences, ascending.
fn write_differences(
    text: &mut JsonText,
    schema: &Schema,
    differences: &Differences,
) -> Result<(), AllocError>
    ensures { OnOk result (text.new ≡ text.old ++ tokens_of (differences_data schema.now differences.now)) }
{
    text.begin_array()?;
    for (cell, row) in differences.iter() {
        write_cell(text, schema, *cell, row.as_ref())?;
    }
    text.end_array()
}

fn write_savepoint(
    text: &mut JsonText,
    schema: &Schema,
    name: &str,
    differences: &Differences,
) -> Result<(), AllocError>
    ensures { OnOk result (text.new ≡ text.old ++ tokens_of (named_mark_data (named_mark schema.now (Saved name.now differences.now)))) }
{
    text.begin_object()?;
    text.key("rows")?;
    write_differences(text, schema, differences)?;
    text.key("savepoint")?;
    text.string(name)?;
    text.end_object()
}

fn write_child(text: &mut JsonText, schema: &Schema, name: &str) -> Result<(), AllocError>
    ensures { OnOk result (text.new ≡ text.old ++ tokens_of (named_mark_data (named_mark schema.now (Child name.now)))) }
{
    text.begin_object()?;
    text.key("child")?;
    text.string(name)?;
    text.end_object()
}

fn write_mark(text: &mut JsonText, schema: &Schema, mark: &StoredMark) -> Result<(), AllocError>
    ensures { OnOk result (text.new ≡ text.old ++ tokens_of (named_mark_data (named_mark schema.now mark.now))) }
{
    match mark {
        StoredMark::Saved(name, differences) => {
            write_savepoint(text, schema, name.as_str(), differences)
        }
        StoredMark::Child(name) => write_child(text, schema, name.as_str()),
    }
}

fn write_marks(text: &mut JsonText, schema: &Schema, marks: &[StoredMark]) -> Result<(), AllocError>
    ensures { OnOk result (text.new ≡ text.old ++ tokens_of (marks_data schema.now marks.now)) }
{
    write_each::<NamedMark, _, _>(text, marks, |text, mark| write_mark(text, schema, mark))
}

fn write_workspace(
    text: &mut JsonText,
    schema: &Schema,
    delta: &DeltaView<'_>,
) -> Result<(), AllocError>
    ensures { OnOk result (text.new ≡ text.old ++ tokens_of (delta_data schema.now delta.now)) }
{
    text.begin_object()?;
    text.key("base")?;
    write_differences(text, schema, delta.base())?;
    text.key("kept")?;
    text.boolean(delta.is_kept())?;
    text.key("marks")?;
    write_marks(text, schema, delta.marks())?;
    text.key("name")?;
    text.string(delta.name())?;
    text.key("parent")?;
    text.string(delta.parent())?;
    text.key("rows")?;
    write_differences(text, schema, delta.current())?;
    text.end_object()
}

/// Returns a text with a workspace written at its end by what is stored of it: the differences of
/// its base, of its rows and of its savepoints, its marks in their order, and its flag. If memory
/// runs out, the text is dropped.
pub fn with_workspace(
    mut text: JsonText,
    schema: &Schema,
    delta: &DeltaView<'_>,
) -> Result<JsonText, AllocError>
    ensures { IfOk result (λ longer. longer ≡ text ++ tokens_of (delta_data schema.now delta.now)) }
{
    write_workspace(&mut text, schema, delta)?;
    Ok(text)
}
