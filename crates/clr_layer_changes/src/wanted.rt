//! The content that layers ask for.

ghost use Rattle.std.specs.Prelude.{◌≡◌, ◌++◌, IfOk, OnOk};
ghost use Rattle.std.specs.FinMap as finite;
ghost use Rattle.std.specs.List.{list_any};
ghost use Rattle.clr_rows.specs.Schemas.{FitsSchema};
ghost use Rattle.clr_rows.specs.Sheets.{with_none, with_rows};
ghost use Rattle.clr_layer_changes.specs.Wanted.{Replaces, table_cells_in, is_layer_of_table, replaced, table_of, united, wanted_over, with_layer};

use crate::faults::{FaultyLayer, LayersFault};
use crate::layer_rows::layer_rows;
use crate::options::{GivenLayer, LayerOptions};
use clr_rows::{CellId, Row, Schema, Sheet};
use std::alloc::{AllocError, Global};

/// Returns, for each cell of a table that has a row, the change that leaves no row there.
pub(crate) fn without_rows(
    alloc: Global,
    content: &Sheet,
    table: u16,
) -> Result<Vec<(CellId, Option<Row>)>, AllocError>
    ensures { IfOk result (λ cells. cells.items ≡ with_none (table_cells_in content.now table)) }
{
    let mut cells = Vec::new(alloc);
    for (cell, _) in content.iter() {
        if cell.table == table {
            cells.push((*cell, None))?;
        }
    }
    Ok(cells)
}

/// Adds the rows of a sheet behind others.
pub(crate) fn add_rows(
    cells: &mut Vec<(CellId, Option<Row>)>,
    rows: &Sheet,
) -> Result<(), AllocError>
    ensures { OnOk result (cells.new.items ≡ cells.old.items ++ with_rows (finite.entries rows.now)) }
{
    for (cell, row) in rows.iter() {
        cells.push((*cell, Some(row.copy()?)))?;
    }
    Ok(())
}

/// Puts other rows in place of a table's.
#[tactic(auto, unfolding(crate::specs::Wanted::replaced))]
fn replace(alloc: Global, content: &mut Sheet, table: u16, rows: &Sheet) -> Result<(), AllocError>
    ensures { OnOk result (content.new ≡ replaced content.old table rows.now) }
{
    let mut cells = without_rows(alloc, content, table)?;
    add_rows(&mut cells, rows)?;
    content.put_all(cells)
}

/// Returns whether one of some layers is of the table of this name.
fn is_given(layers: &[GivenLayer], name: &str) -> bool
    ensures { result ≡ list_any (is_layer_of_table name.now) layers.now }
{
    layers.iter().any(|layer| layer.table.as_str() == name)
}

/// Returns the number of a layer's table. Fails with `TableTwice` at 0 where a layer before it has the same table, and with `NoTable` at 0
/// where no table has the name.
pub(crate) fn table_of(
    schema: &Schema,
    earlier: &[GivenLayer],
    layer: &GivenLayer,
) -> Result<u16, (usize, LayersFault)>
    ensures { result ≡ table_of schema.now earlier.now layer.now }
{
    let name = layer.table.as_str();
    if is_given(earlier, name) {
        return Err((0, LayersFault::TableTwice));
    }
    schema.table(name).ok_or((0, LayersFault::NoTable))
}

/// Puts the rows of one more layer in place of its table's, or returns why it can't.
#[tactic(auto, unfolding(crate::specs::Wanted::with_layer))]
fn put_layer(
    alloc: Global,
    schema: &Schema,
    live: &Sheet,
    options: LayerOptions,
    earlier: &[GivenLayer],
    layer: &GivenLayer,
    content: &mut Sheet,
) -> Result<Result<(), (usize, LayersFault)>, AllocError>
    ensures { IfOk result (Replaces (with_layer schema.now live.now options earlier.now content.old layer.now) content.new) }
{
    let table = match table_of(schema, earlier, layer) {
        Ok(table) => table,
        Err(fault) => return Ok(Err(fault)),
    };
    match layer_rows(alloc, schema, live, options, table, layer.text.as_slice())? {
        Ok(rows) => {
            replace(alloc, content, table, &rows)?;
            Ok(Ok(()))
        }
        Err(fault) => Ok(Err(fault)),
    }
}

/// Returns a base content with the rows of layers in place of those of their tables. A row without a key gets the least key from the first
/// one on at which neither the content of taken keys nor the layer so far has a row, those with keys of their own being put first. The fault is that of
/// the first layer that has one. In each the tests come in this order: `TableTwice` where a layer before it has the same table, and
/// `NoTable` where no table has the name, both beside 0; then, beside the number of the record, `Unread` with the first fault of the
/// text, `KeyTwice` for the first row with the key of a row before it, and `NoKey` for the first row for which no key is left. Where the base
/// content fits the schema, so does the one that is returned.
/// For example, where the base has main 1, main 2 was laid since, and the layer of mains has main 1 and a row without a key, this row is main 3 if
/// the taken keys are those of both.
pub fn wanted_content(
    alloc: Global,
    schema: &Schema,
    base: &Sheet,
    taken: &Sheet,
    options: LayerOptions,
    layers: &[GivenLayer],
) -> Result<Result<Sheet, FaultyLayer>, AllocError>
    ensures content { IfOk result (λ found. found ≡ wanted_over schema.now base.now taken.now options layers.now) }
    ensures fit { FitsSchema schema.now base.now → IfOk result (λ found. IfOk found (FitsSchema schema.now)) }
{
    let mut content = base.copy()?;
    for i in 0..layers.len() {
        let put = put_layer(
            alloc,
            schema,
            taken,
            options,
            &layers[..i],
            &layers[i],
            &mut content,
        )?;
        if let Err((number, fault)) = put {
            return Ok(Err(FaultyLayer {
                layer: i,
                number,
                fault,
            }));
        }
    }
    Ok(Ok(content))
}

/// Returns the rows of two contents; where both have one at a cell, that of the second.
pub fn united_content(alloc: Global, one: &Sheet, other: &Sheet) -> Result<Sheet, AllocError>
    ensures { IfOk result (λ content. content ≡ united one.now other.now) }
{
    let mut content = one.copy()?;
    let mut cells = Vec::new(alloc);
    add_rows(&mut cells, other)?;
    content.put_all(cells)?;
    Ok(content)
}
