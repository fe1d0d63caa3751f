//! Cells that are put over a content, as they are written.

ghost use Rattle.std.specs.Prelude.{◌≡◌};
ghost use Rattle.clr_readings.specs.Readings.{Gives};
ghost use Rattle.clr_rule_text.specs.Fields.{text_lacks_memory};
ghost use Rattle.clr_office_reading.specs.Patches.{named_cell_of, named_cells_at, row_unless_gone as row_meant};

use crate::cells::{has_paths, row};
use clr_rows::{List, Row, Schema, Words};
use clr_rule_text::TextFault;
use clr_rule_text::fields::{number_in, optional_flag, optional_list, words_in};
use clr_rule_text::json_values::JsonValue;
use clr_rule_text::lists::read_items;
use std::alloc::Global;

/// A cell that is put over a content, with the row that stands there then, or none. The name of its
/// table may be unknown.
#[derive(Debug, Drop)]
pub struct NamedCell {
    pub table: Words,
    pub key: i64,
    pub row: Option<Row>,
}

/// Cells that are put over a content.
pub type NamedCells = List<NamedCell>;

fn row_unless_gone<J: JsonValue>(
    alloc: Global,
    is_gone: bool,
    is_path: bool,
    json: &J,
) -> Result<Option<Row>, TextFault>
    ensures { Gives text_lacks_memory (λ r. r) result (row_meant is_gone is_path (J.stands_for json.now)) }
{
    if is_gone {
        return Ok(None);
    }
    Ok(Some(row(alloc, json, is_path)?))
}

/// Returns a cell that is put over a content. Fails with `BadField` where a key is missing, or a value is none
/// of those that may stand there.
#[tactic(auto, unfolding(crate::specs::Patches::named_cell_of))]
pub fn named_cell<J: JsonValue>(
    alloc: Global,
    json: &J,
    schema: &Schema,
) -> Result<NamedCell, TextFault>
    ensures { Gives text_lacks_memory (λ c. c) result (named_cell_of schema.now (J.stands_for json.now)) }
{
    let table = words_in(alloc, json, "t")?;
    let key = number_in(json, "k")?;
    let is_gone = optional_flag(json, "gone")?;
    let is_path = has_paths(schema, table.as_str());
    let row = row_unless_gone(alloc, is_gone, is_path, json)?;
    Ok(NamedCell { table, key, row })
}

/// Returns the cells at a key that are put over a content; a missing list is empty. Fails with
/// `BadField` where a key is missing in a cell, or a value is none of those that may stand there.
#[tactic(auto, unfolding(crate::specs::Patches::named_cells_at))]
pub fn named_cells<J: JsonValue>(
    alloc: Global,
    json: &J,
    key: &str,
    schema: &Schema,
) -> Result<NamedCells, TextFault>
    ensures { Gives text_lacks_memory (λ v. v) result (named_cells_at key.now schema.now (J.stands_for json.now)) }
{
    let list = read_items(
        alloc,
        optional_list(json, key)?,
        |item| named_cell(alloc, item, schema),
    )?;
    Ok(NamedCells::new(list))
}
