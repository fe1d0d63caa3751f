//! What is printed where edits can't be said in SQL: one note, which says why.

ghost use Rattle.std.specs.Prelude.{◌≡◌, ◌++◌, codes, decimal, IfOk};
ghost use Rattle.clr_desk_layers.specs.Layers.{unfit_print};
ghost use Rattle.clr_desk_prints.specs.Printing.{printed};
ghost use Rattle.clr_guarded_edits.specs.declared.fits.Unsayable.TheVariants.{LostByte};
ghost use Rattle.clr_desk_edits.specs.Edits.{lost_byte_word, unsayable_print};

use clr_desk_prints::Print;
use clr_guarded_edits::Unsayable;
use clr_layer_faults::unfit_line;
use clr_lines::{add_cell, add_count};
use clr_rows::{CellId, Schema};
use std::alloc::{AllocError, Global};

/// Returns the print of what can't be said: no text, and the line that says why as its only note, which counts as a refusal.
fn unfit_print(alloc: Global, why: &[u8], name: &[u8]) -> Result<Print, AllocError>
    ensures { IfOk result (λ p. printed p ≡ unfit_print why.now name.now) }
{
    let line = unfit_line(alloc, why, name)?;
    Ok(Print::new(Vec::new(alloc), line, true, false))
}

/// Returns what is printed where the row of a cell has a text that isn't handed on as it is.
pub(crate) fn lost_byte(alloc: Global, schema: &Schema, cell: CellId) -> Result<Print, AllocError>
    ensures { IfOk result (λ p. printed p ≡ unsayable_print schema.now (LostByte cell)) }
{
    let mut row = Vec::new(alloc);
    add_cell(&mut row, schema, cell)?;
    unfit_print(alloc, b"14 LostByte", row.as_slice())
}

/// Returns what is printed where a literal of a rule has a text that isn't handed on as it is.
pub(crate) fn lost_byte_of_rule(alloc: Global, number: usize) -> Result<Print, AllocError>
    ensures { IfOk result (λ p. printed p ≡ unfit_print lost_byte_word (codes "rule " ++ decimal number)) }
{
    let mut rule = Vec::from_slice(alloc, b"rule ")?;
    add_count(&mut rule, number)?;
    unfit_print(alloc, b"14 LostByte", rule.as_slice())
}

/// Returns what is printed where edits can't be said in SQL.
pub(crate) fn unsayable(alloc: Global, schema: &Schema, why: Unsayable) -> Result<Print, AllocError>
    ensures { IfOk result (λ p. printed p ≡ unsayable_print schema.now why) }
{
    match why {
        Unsayable::WktColumn(number) => {
            let name = schema.name_of_table(number);
            unfit_print(alloc, b"9 WktColumn", name.as_bytes())
        }
        Unsayable::LostByte(cell) => lost_byte(alloc, schema, cell),
    }
}
