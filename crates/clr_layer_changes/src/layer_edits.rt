//! The edits that lead to the content that layers ask for, of which just the tables of the layers are looked at.

ghost use Rattle.std.specs.Prelude.{◌≡◌, IfOk, OnOk};
ghost use Rattle.clr_rows.specs.Contents.{Content, changes, over};
ghost use Rattle.clr_rows.specs.Sheets.{with_none};
ghost use Rattle.clr_layer_changes.specs.LayerEdits.{IsNoted, changed_cells_in, wanted_edits};
ghost use Rattle.clr_layer_changes.specs.Wanted.{replaced, with_layer};

use crate::changes::edits_of;
use crate::faults::{FaultyLayer, LayersFault};
use crate::layer_rows::layer_rows;
use crate::options::{GivenLayer, LayerOptions};
use crate::wanted::{add_rows, table_of, without_rows};
use clr_change::{ChangeSet, Edits};
use clr_rows::{CellId, Row, Schema, Sheet};
use std::alloc::{AllocError, Global};

/// Returns, for each changed cell of a table, that no row stands there.
fn without_changes(
    alloc: Global,
    set: &ChangeSet,
    table: u16,
) -> Result<Vec<(CellId, Option<Row>)>, AllocError>
    ensures { IfOk result (λ cells. cells.items ≡ with_none (changed_cells_in set.now table)) }
{
    let mut cells = Vec::new(alloc);
    for (cell, _) in set.iter() {
        if cell.table == table {
            cells.push((*cell, None))?;
        }
    }
    Ok(cells)
}

/// Puts rows, or none, over the content to which changes lead from a base, at some cells.
fn put_over(
    set: &mut ChangeSet,
    base: &Sheet,
    cells: &[(CellId, Option<Row>)],
) -> Result<(), AllocError>
    ensures { OnOk result ((content : Content) → set.old ≡ changes base.now content → set.new ≡ changes base.now (over content cells.now)) }
{
    for at in cells {
        set.set(at.0, base.get(at.0), at.1.as_ref())?;
    }
    Ok(())
}

/// Puts other rows in place of a table's, in the content to which changes lead from a base.
fn note_rows(
    alloc: Global,
    set: &mut ChangeSet,
    base: &Sheet,
    table: u16,
    rows: &Sheet,
) -> Result<(), AllocError>
    ensures { OnOk result ((content : Content) → set.old ≡ changes base.now content → set.new ≡ changes base.now (replaced content table rows.now)) }
{
    let changed = without_changes(alloc, set, table)?;
    put_over(set, base, changed.as_slice())?;
    let stood = without_rows(alloc, base, table)?;
    put_over(set, base, stood.as_slice())?;
    let mut stands = Vec::new(alloc);
    add_rows(&mut stands, rows)?;
    put_over(set, base, stands.as_slice())
}

/// Puts the rows of one more layer in place of its table's, in the content to which changes lead from a base; or returns why it can't.
fn note_layer(
    alloc: Global,
    schema: &Schema,
    base: &Sheet,
    taken: &Sheet,
    options: LayerOptions,
    earlier: &[GivenLayer],
    layer: &GivenLayer,
    set: &mut ChangeSet,
) -> Result<Result<(), (usize, LayersFault)>, AllocError>
    ensures { IfOk result (λ noted. (content : Content) → set.old ≡ changes base.now content
        → IsNoted base.now (with_layer schema.now taken.now options earlier.now content layer.now) set.new noted) }
{
    let table = match table_of(schema, earlier, layer) {
        Ok(table) => table,
        Err(fault) => return Ok(Err(fault)),
    };
    match layer_rows(alloc, schema, taken, options, table, layer.text.as_slice())? {
        Ok(rows) => {
            note_rows(alloc, set, base, table, &rows)?;
            Ok(Ok(()))
        }
        Err(fault) => Ok(Err(fault)),
    }
}

/// Returns the edits that lead from a base content to the one that `wanted_content` gives, or the same fault. No row of another table than the
/// layers' is compared or copied.
/// For example, where LIVE has mains 1 and 2 and 1,000 valves, and a layer of mains has main 1 as it is and not main 2, main 2 is deleted.
pub fn wanted_edits(
    alloc: Global,
    schema: &Schema,
    base: &Sheet,
    taken: &Sheet,
    options: LayerOptions,
    layers: &[GivenLayer],
) -> Result<Result<Edits, FaultyLayer>, AllocError>
    ensures { IfOk result (λ found. found ≡ wanted_edits schema.now base.now taken.now options layers.now) }
{
    let mut set = ChangeSet::new(alloc);
    for i in 0..layers.len() {
        let noted = note_layer(
            alloc,
            schema,
            base,
            taken,
            options,
            &layers[..i],
            &layers[i],
            &mut set,
        )?;
        if let Err((number, fault)) = noted {
            return Ok(Err(FaultyLayer {
                layer: i,
                number,
                fault,
            }));
        }
    }
    let edits = edits_of(alloc, &set)?;
    Ok(Ok(edits))
}
