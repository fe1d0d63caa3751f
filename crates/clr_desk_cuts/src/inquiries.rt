//! What is asked of a cut and of a table that is held against it.

ghost use Rattle.std.specs.Prelude.{◌≡◌, map, None, Some, IfOk, IfSome, slice_get};
ghost use Rattle.clr_foot.specs.Scenes.{IsReady};
ghost use Rattle.clr_clearance.specs.MergeSets.{change_sets, setting_by_position};
ghost use Rattle.clr_cut_rows.specs.Searches.{aim_of, model_of, setting_in};
ghost use Rattle.clr_rows.specs.Schemas.{table_named};
ghost use Rattle.clr_desk_cuts.specs.Members.{AreTogether, live_set};
ghost use Rattle.clr_desk_cuts.specs.Reach.{rows_of_table};

use crate::members::references;
use crate::opening::OpenedCut;
use crate::options::ReachOptions;
use clr_change::ChangeSet;
use clr_cut_rows::CutRows;
use clr_engine::{Office, SpotIndex};
use clr_reach::Aim;
use clr_rows::{Schema, Sheet, TableDef};
use std::alloc::{AllocError, Global};

/// A table that is held against a cut, and the designs of the cut with what each changes.
#[derive(Drop)]
pub(crate) struct Inquiry<'a> {
    pub(crate) opened: &'a OpenedCut,
    pub(crate) options: ReachOptions,
    pub(crate) table: u16,
    pub(crate) def: &'a TableDef,
    pub(crate) names: &'a [&'a str],
    pub(crate) changes: &'a [ChangeSet],
}

/// Counts the rows of a table.
pub(crate) fn rows_of_table(rows: &Sheet, table: u16) -> usize
    ensures { result ≡ rows_of_table rows.now table }
{
    rows.iter().filter(|(cell, _)| cell.table == table).count()
}

/// Returns the number of the table of a name, and the table, if there is one.
pub(crate) fn table_of<'a>(schema: &'a Schema, name: &str) -> Option<(u16, &'a TableDef)>
    ensures found { IfSome result (λ found. (table_named schema.entry.now name.now ≡ Some found.0) × (slice_get schema.entry.now found.0 ≡ Some found.1.now)) }
    ensures none { result ≡ None → table_named schema.entry.now name.now ≡ None }
{
    let at = schema.table(name)?;
    let def = schema.def(at)?;
    Some((at, def))
}

/// Returns the rows of LIVE, with what designs change there.
pub(crate) fn cut_rows<'a>(
    alloc: Global,
    office: &'a Office,
    aim: Aim,
    names: &[&str],
    changes: &'a [ChangeSet],
) -> Result<CutRows<'a, Sheet, SpotIndex>, AllocError>
    requires changes { changes.now ≡ change_sets office.now (live_set (map (λ name. name.now) names.now)) }
    requires together { AreTogether office.now (live_set (map (λ name. name.now) names.now)) }
    ensures aim { IfOk result (λ cut. aim_of cut ≡ aim) }
    ensures setting { IfOk result (λ cut. setting_in (λ rows. rows) cut
        ≡ setting_by_position office.entry.now (live_set (map (λ name. name.now) names.now))) }
    ensures ready { IfOk result (λ cut. IsReady (λ finder. finder.settled) (model_of (λ rows. rows) cut)) }
{
    let _sound = office.len();
    let _names = names;
    let finder = office.finder(0).unwrap();
    let sets = references(alloc, changes)?;
    let cut = CutRows::new(alloc, aim, office.book(), office.live(), finder, sets)?;
    Ok(cut)
}
