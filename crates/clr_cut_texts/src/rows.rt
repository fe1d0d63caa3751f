//! Rows that are put into a cut.

ghost use Rattle.std.specs.Prelude.{◌≡◌, IfOk, OnErr, OnOk};
ghost use Rattle.clr_rows.specs.Contents.{no_rows};
ghost use Rattle.clr_rows.specs.Schemas.{FitsSchema};
ghost use Rattle.clr_layer_changes.specs.Wanted.{united};
ghost use Rattle.clr_office_reading.specs.Offices.{office_read};
ghost use Rattle.clr_cut_texts.specs.Rows.{keyed, rows_of_layers, with_rows_put};

use clr_layer_changes::{FaultyLayer, GivenLayer, LayerOptions, united_content, wanted_content};
use clr_office_reading::OfficeParts;
use clr_rows::{Schema, Sheet};
use std::alloc::{AllocError, Global};

/// The least number above all keys, from which on no key is left.
pub const NO_KEY: u64 = 1_000_000_000_000_000;

/// This number is above all keys.
pub fn limit_of_keys()
    ensures { NO_KEY ≡ 1_000_000_000_000_000 }
{}

/// Returns the rows of layers alone, or the first fault, as `wanted_content` has it. A row without a key is one: `NoKey`. The rows fit the schema.
pub fn rows_of_layers(
    alloc: Global,
    schema: &Schema,
    rounded: bool,
    layers: &[GivenLayer],
) -> Result<Result<Sheet, FaultyLayer>, AllocError>
    ensures rows { IfOk result (λ found. found ≡ rows_of_layers schema.now rounded layers.now) }
    ensures fit { IfOk result (λ found. IfOk found (FitsSchema schema.now)) }
{
    let none = Sheet::new(alloc);
    let options = LayerOptions {
        first_key: NO_KEY,
        rounded,
    };
    wanted_content(alloc, schema, &none, &none, options, layers)
}

/// Puts rows into LIVE of what was read of an office text: a row stands in place of the one that was at its cell, and no row goes. If memory runs out, nothing
/// changes.
pub fn put_rows(alloc: Global, office: &mut OfficeParts, rows: &Sheet) -> Result<(), AllocError>
    ensures put { OnOk result (office_read office.new ≡ with_rows_put (office_read office.old) rows.now) }
    ensures err { OnErr result (office.new ≡ office.old) }
{
    office.live = united_content(alloc, &office.live, rows)?;
    Ok(())
}
