//! The names of a header that are near those of columns.

ghost use Rattle.std.specs.Prelude.{◌≡◌, IfOk, map};
ghost use Rattle.clr_hints.specs.Names.{IsNearest};
ghost use Rattle.clr_layer_reports.specs.NearNames.{AreNear};

use clr_hints::nearest;
use clr_layer_faults::{column_count, column_name};
use clr_rows::{TableDef, Words};
use std::alloc::{AllocError, Global};

/// Returns names as texts.
fn texts_of<'a>(alloc: Global, names: &'a [Words]) -> Result<Vec<&'a str>, AllocError>
    ensures { IfOk result (λ texts. map (λ text. text.now) texts.items ≡ names.now) }
{
    let mut texts = Vec::new(alloc);
    for name in names {
        texts.push(name.as_str())?;
    }
    Ok(texts)
}

/// Returns the name that may be meant by another one, if one is like enough.
fn near_name(alloc: Global, names: &[&str], name: &str) -> Result<Option<Words>, AllocError>
    ensures { IfOk result (λ near. IsNearest name.now (map (λ other. other.now) names.now) near) }
{
    match nearest(alloc, name, names)? {
        Some(other) => {
            let copied = Words::from_str(alloc, other)?;
            Ok(Some(copied))
        }
        None => Ok(None),
    }
}

/// Returns of each column of the layers of a table, in their order, the name of a header that may be meant by its name, if one is like enough.
pub(crate) fn near_names(
    alloc: Global,
    table: &TableDef,
    names: &[Words],
) -> Result<Vec<Option<Words>>, AllocError>
    ensures { IfOk result (λ near. AreNear table.now names.now near.items) }
{
    let texts = texts_of(alloc, names)?;
    let mut near = Vec::new(alloc);
    for column in 0..column_count(table) {
        let one = near_name(alloc, texts.as_slice(), column_name(table, column))?;
        near.push(one)?;
    }
    Ok(near)
}
