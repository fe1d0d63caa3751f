//! Schemas: tables found by number and by name, and the test whether a row fits.

ghost use Rattle.std.specs.Prelude.{◌≡◌, ◌<◌, ◌≤◌, length, IfOk, IfSome, MatchResult, Some, None, slice_get, option_map};
ghost use Rattle.std.specs.Option.{option_copied};
ghost use Rattle.clr_rows.specs.Schemas.{Answers, schema_fault, name_of_table, table_named, named_in, column_named, cell_fault, row_fault};

mod row_checks;
mod table_checks;

use crate::cells::CellId;
use crate::faults::{RowFault, SchemaFault};
use crate::limits::MOST_TABLES;
use crate::rows::Row;
use crate::schemas::row_checks::{check_row, is_key};
use crate::schemas::table_checks::check_tables;
use crate::tables::{Kind, TableDef};
use crate::texts::Words;
use std::marker::Model;

/// The tables of a database, numbered from 0: at most 32, each of at most 16 columns, with good names that differ.
#[derive(Debug, Drop)]
pub struct Schema {
    tables: Vec<TableDef>,
}

impl Model for Schema {
    ghost use Rattle.std.specs.Prelude.{◌≡◌, List, None};
    ghost use Rattle.clr_rows.specs.declared.tables.TableDef.{TableDef as OneTable};

    ghost Value = { List OneTable };

    ghost use Rattle.clr_rows.specs.Schemas.{schema_fault};

    ghost view = { λ a. a.tables.items };

    ghost invariant = { λ a. schema_fault a.tables.items ≡ None };
}

impl Schema {
    /// Returns the schema of these tables, numbered in their order. Each test is made over all
    /// tables before the next. Fails with `TooMany` where there are more than 32 tables or a table
    /// has more than 16 columns, with `BadName` where a name isn't good or a column is called
    /// `KEY`, and with `NameTaken` where a table's name, or a column's in one table, stands twice.
    /// For example, two tables called `t` fail with `NameTaken`, while `t` and `T` make a schema.
    pub fn new(tables: Vec<TableDef>) -> Result<Schema, SchemaFault>
        ensures made { IfOk result (λ schema. schema ≡ tables.items) }
        ensures judged { MatchResult result (λ _. schema_fault tables.items ≡ None) (λ fault. schema_fault tables.items ≡ Some fault) }
    {
        match check_tables(tables.as_slice()) {
            Ok(()) => Ok(Schema { tables }),
            Err(fault) => Err(fault),
        }
    }

    /// Returns the tables in the order of their numbers.
    pub fn tables(&self) -> &[TableDef]
        ensures value { result.now ≡ self.now }
        ensures sound { schema_fault self.now ≡ None }
    {
        self.tables.as_slice()
    }

    /// Returns the number of the table of this name, or none. Upper and lower case differ.
    /// For example, where the tables are `node`, `main`, `hydrant` and `pipe`, in this order, it returns 1 for `main` and none for `Main`.
    #[tactic(auto, using(crate::proofs::SchemaLemmas::few_tables))]
    pub fn table(&self, name: &str) -> Option<u16>
        ensures value { result ≡ table_named self.now name.now }
        ensures small { length self.now ≤ MOST_TABLES }
    {
        match table_position(self.tables(), name) {
            Some(at) => Some(at as u16),
            None => None,
        }
    }

    /// Returns the name of the table of this number, or none.
    /// For example, where the tables are `node`, `main`, `hydrant` and `pipe`, in this order, it returns `hydrant` for 2 and none for 4.
    pub fn table_name(&self, table: u16) -> Option<&str>
        ensures { option_map (λ s. s.now) result ≡ option_map (λ t. t.name) (slice_get self.now table) }
    {
        match self.def(table) {
            Some(table) => Some(table.name.as_str()),
            None => None,
        }
    }

    /// Returns the name of the table of this number, or no bytes where there is no such table.
    /// For example, where the tables are `node`, `main`, `hydrant` and `pipe`, in this order, it returns `hydrant` for 2 and the empty text for 4.
    pub fn name_of_table(&self, table: u16) -> &str
        ensures value { result.now ≡ name_of_table self.now table }
        ensures sound { schema_fault self.now ≡ None }
    {
        match self.def(table) {
            Some(table) => table.name.as_str(),
            None => "",
        }
    }

    /// Returns the number of the column of this name in a table, counted from 0. Returns none where
    /// the table has no such column, and where there is no such table. Upper and lower case differ.
    /// For example, where there are four tables, and table 1 has the columns `code` and `size`, in this order, it
    /// returns 1 for `size` in table 1. It returns none for `Size` in table 1, and for `size` in table 4.
    pub fn column(&self, table: u16, name: &str) -> Option<u16>
        ensures { result ≡ column_named self.now table name.now }
    {
        let table = self.def(table)?;
        match column_position(table.columns.as_slice(), name) {
            Some(at) => Some(at as u16),
            None => None,
        }
    }

    /// Returns the table of this number, or none. For example, where the tables are `node`, `main`, `hydrant` and `pipe`, in this order, it returns for 2 the
    /// table with the name `hydrant`, its columns and the shape of its rows, and none for 4.
    #[tactic(auto, using(crate::proofs::SchemaLemmas::few_tables))]
    pub fn def(&self, table: u16) -> Option<&TableDef>
        ensures value { option_copied result ≡ slice_get self.now table }
        ensures sound { schema_fault self.now ≡ None }
        ensures small { length self.now ≤ MOST_TABLES }
    {
        self.tables.get(table as usize)
    }

    /// Tests whether some row could stand at this cell. Fails with `NoTable` where no table has its
    /// number, and with `OutOfRange` where its key isn't 1 to 999,999,999,999,999.
    /// For example, where there are four tables, it succeeds for key 1 of table 3. It fails with `OutOfRange` for key
    /// 0 of table 3, and with `NoTable` for key 0 of table 4.
    #[tactic(auto, unfolding(crate::specs::Schemas::cell_fault))]
    pub fn names_cell(&self, cell: CellId) -> Result<(), RowFault>
        ensures { Answers result (cell_fault self.now cell) }
    {
        match self.def(cell.table) {
            None => Err(RowFault::NoTable),
            Some(_) if is_key(cell.key) => Ok(()),
            Some(_) => Err(RowFault::OutOfRange),
        }
    }

    /// Tests whether this row can stand at this cell. The tests are made in the order in which the
    /// faults stand here. Fails with `NoTable` where no table has the cell's number, with
    /// `WrongCount` where there is another number of values than columns, with `WrongKind` where a
    /// value isn't of its column's kind, with `WordsTooLong` where a text has more than 200 bytes,
    /// with `WrongShape` where the shape isn't of the table's form, with `OutOfRange` where the key
    /// isn't 1 to 999,999,999,999,999 or a coordinate is beyond 1,000,000,000 millimetres either
    /// way, with `ZeroSegment` where the ends of a segment are one point or a vertex of a path
    /// equals the next one, and with `BadPath` where a path has fewer than 2 or more than 32 vertices.
    /// For example, a main from (3, 3) to (3, 3) fails with `ZeroSegment` at key 1 and with `OutOfRange` at key 0.
    #[tactic(auto, unfolding(crate::specs::Schemas::row_fault))]
    pub fn fits(&self, cell: CellId, row: &Row) -> Result<(), RowFault>
        ensures { Answers result (row_fault self.now cell row.now) }
    {
        match self.def(cell.table) {
            None => Err(RowFault::NoTable),
            Some(table) => check_row(table, cell, row),
        }
    }
}

fn table_position(tables: &[TableDef], name: &str) -> Option<usize>
    ensures value { result ≡ table_named tables.now name.now }
    ensures bound { IfSome result (λ at. at < length tables.now) }
{
    tables.iter().position(|table| table.name.as_str() == name)
}

fn column_position(columns: &[(Words, Kind)], name: &str) -> Option<usize>
    ensures value { result ≡ named_in columns.now name.now }
    ensures bound { IfSome result (λ at. at < length columns.now) }
{
    columns.iter().position(|column| column.0.as_str() == name)
}
