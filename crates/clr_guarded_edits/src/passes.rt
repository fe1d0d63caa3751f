//! Passes over tables, as psql and sqlite3 make them.

ghost use Rattle.std.specs.Prelude.{◌≡◌, ◌++◌, OnOk};
ghost use Rattle.std.specs.List.{flat_map};
ghost use Rattle.clr_guarded_edits.specs.SqlTexts.{filter_text, pass_text, psql_pass, sqlite_pass};

use clr_rows::TableDef;
use clr_sql::{Dialect, Target, add_layer_query, add_titled_query};
use std::alloc::AllocError;

/// Adds the filter that a table of this name is led through.
fn add_filter(text: &mut Vec<u8>, name: &str) -> Result<(), AllocError>
    ensures { OnOk result (text.new.items ≡ text.old.items ++ filter_text name.now) }
{
    text.extend_from_slice(b"clr_desk reach \"$CUT\" ")?;
    text.extend_from_slice(name.as_bytes())?;
    text.extend_from_slice(b" $DESIGNS")
}

fn add_psql_pass(text: &mut Vec<u8>, target: &Target, table: &TableDef) -> Result<(), AllocError>
    ensures { OnOk result (text.new.items ≡ text.old.items ++ psql_pass target.now table.now) }
{
    text.extend_from_slice(b"\\copy (")?;
    add_layer_query(text, target, table)?;
    text.extend_from_slice(b") TO PROGRAM '")?;
    add_filter(text, table.name.as_str())?;
    text.extend_from_slice(b"' CSV HEADER\n")
}

fn add_sqlite_pass(text: &mut Vec<u8>, target: &Target, table: &TableDef) -> Result<(), AllocError>
    ensures { OnOk result (text.new.items ≡ text.old.items ++ sqlite_pass target.now table.now) }
{
    text.extend_from_slice(b".system rm -f clr_passed.sql\n.headers off\n.mode csv\n.once '|")?;
    add_filter(text, table.name.as_str())?;
    text.extend_from_slice(
        b"; echo \"INSERT INTO clr_row_count VALUES (NULL, 1 - $?);\" > clr_passed.sql'\n",
    )?;
    add_titled_query(text, target, table)?;
    text.extend_from_slice(b";\n.read clr_passed.sql\n")
}

/// Adds a pass over a table: its rows are led through `clr_desk reach`, and where that fails, so does the pass.
pub(crate) fn add_pass(
    text: &mut Vec<u8>,
    target: &Target,
    table: &TableDef,
) -> Result<(), AllocError>
    ensures { OnOk result (text.new.items ≡ text.old.items ++ pass_text target.now table.now) }
{
    match target.dialect {
        Dialect::PostGis => add_psql_pass(text, target, table),
        Dialect::SpatiaLite => add_sqlite_pass(text, target, table),
    }
}
