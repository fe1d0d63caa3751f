//! Tables as layers.
ghost use Rattle.std.specs.Prelude.{◌∷◌, [], IfOk};
ghost use Rattle.clr_rows.specs.Schemas.{FitsSchema};
ghost use Rattle.clr_office_texts.specs.Drafts.{opened_in};
ghost use Rattle.clr_desk_layers.specs.Layers.{IsLayerPrint, IsPrintOfTable};
ghost use Rattle.clr_desk_prints.specs.NameHints.{IsHinted};
ghost use Rattle.clr_desk_prints.specs.Printing.{IsMadePrintout, IsPrintoutIn, printed};

use crate::layer_refusals::{no_table, no_workspace, wkt_column};
use clr_desk_prints::{Print, RunFault, answer_over_office};
use clr_engine::Office;
use clr_layer_text::table_layer;
use clr_rows::{Schema, Sheet};
use std::alloc::{AllocError, Global};

/// Returns what is printed of a table's rows in a content: their layer, or that a column is called as the field of shapes.
fn print_of_table(
    alloc: Global,
    schema: &Schema,
    at: u16,
    table: &str,
    content: &Sheet,
) -> Result<Print, AllocError>
    requires { FitsSchema schema.now content.now }
    ensures { IfOk result (λ p. IsPrintOfTable schema.now at table.now content.now (printed p)) }
{
    match table_layer(alloc, schema, at, content)? {
        Some(text) => Ok(Print::of_text(alloc, text)),
        None => wkt_column(alloc, table),
    }
}

/// Returns what is printed of a table's rows in LIVE or in a workspace.
fn layer_print(
    alloc: Global,
    office: &Office,
    table: &str,
    workspace: &str,
) -> Result<Print, AllocError>
    ensures { IfOk result (λ p. IsLayerPrint table.now workspace.now office.now (printed p)) }
{
    let schema = office.schema();
    let Some(at) = schema.table(table) else {
        return no_table(alloc, table);
    };
    let Some(content) = office.rows(workspace)? else {
        return no_workspace(alloc, workspace);
    };
    print_of_table(alloc, schema, at, table, &content)
}

/// Returns the layer of a table's rows in LIVE, or in the current content of a workspace, of the office of a text: CSV with WKT in metres, in
/// the order of the keys, which is read as the same rows. Where no table or no workspace has its name, or where a column is called `WKT` in a
/// table whose rows have shapes, there is no text, and a note says which; it counts as a refusal. Behind that note stands a hint at the workspace that
/// may be meant. Where a rule doesn't hold the line that says so is the only note, and there is no text. Fails with `BadOffice` where the text
/// is no office, and with `OutOfMemory` for want of memory, which may come in place of any other answer.
pub fn answer_layer(
    alloc: Global,
    office: &[u8],
    table: &str,
    workspace: &str,
) -> Result<Print, RunFault>
    ensures { IsMadePrintout (IsPrintoutIn (IsHinted (IsLayerPrint table.now workspace.now) (workspace.now ∷ [])) (opened_in office.now)) result }
{
    answer_over_office(alloc, office, workspace, &[], |office| {
        layer_print(alloc, office, table, workspace)
    })
}
