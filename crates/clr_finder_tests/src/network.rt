//! Rows of a small network, and a finder that has them.
ghost use Rattle.std.specs.Prelude.{◌≡◌};
ghost use Rattle.std.specs.FinMap as finite;
ghost use Rattle.clr_rules.specs.Books.{FitsBook};

use clr_grid::RowFinder;
use clr_rows::{
    CellId, Columns, Form, Held, Kind, Place, Row, Schema, Shape, TableDef, Value, Values, Words,
};
use clr_rules::{Col, ColumnList, Filter, Rule, RuleBook, Side};
use std::alloc::{AllocError, Global};
use std::test::Fail;

pub(crate) const NODE: u16 = 0;

pub(crate) const MAIN: u16 = 1;

pub(crate) const HYDRANT: u16 = 2;

/// The rule that mains cross at nodes alone.
pub(crate) const CROSSING: u16 = 0;

/// The rule that the number of a hydrant is the key of a main.
pub(crate) const PARTNER: u16 = 1;

fn table(alloc: Global, name: &str, shape: Form) -> Result<TableDef, AllocError> {
    let mut columns = Vec::new(alloc);
    columns.push((Words::from_str(alloc, "number")?, Kind::Int))?;
    Ok(TableDef {
        name: Words::from_str(alloc, name)?,
        columns: Columns::new(columns),
        shape,
    })
}

fn schema(alloc: Global) -> Result<Schema, Fail> {
    let mut tables = Vec::new(alloc);
    tables.push(table(alloc, "node", Form::Point)?)?;
    tables.push(table(alloc, "main", Form::Segment)?)?;
    tables.push(table(alloc, "hydrant", Form::Point)?)?;
    Ok(Schema::new(tables)?)
}

fn rows(alloc: Global, table: u16) -> Side {
    Side {
        table,
        filter: Filter::new(Vec::new(alloc)),
    }
}

fn list_of(alloc: Global, column: Col) -> Result<ColumnList, AllocError> {
    let mut list = Vec::new(alloc);
    list.push(column)?;
    Ok(ColumnList::new(list))
}

fn rules(alloc: Global) -> Result<Vec<Rule>, AllocError> {
    let mut rules = Vec::new(alloc);
    rules.push(Rule::Crossing {
        a: rows(alloc, MAIN),
        b: rows(alloc, MAIN),
        server: rows(alloc, NODE),
    })?;
    rules.push(Rule::Partner {
        subject: rows(alloc, HYDRANT),
        columns: list_of(alloc, Col::At(0))?,
        server: rows(alloc, MAIN),
        server_columns: list_of(alloc, Col::Key)?,
    })?;
    Ok(rules)
}

/// A row with its cell.
#[derive(Drop)]
pub(crate) struct RowAt {
    pub cell: CellId,
    pub row: Row,
}

impl RowAt {
    pub(crate) fn as_held(&self) -> Held
        ensures cell { result.cell ≡ self.now.cell }
        ensures row { result.row.now ≡ self.now.row }
    {
        Held {
            cell: self.cell,
            row: &self.row,
        }
    }
}

fn row_at(
    alloc: Global,
    table: u16,
    key: i64,
    number: i64,
    shape: Shape,
) -> Result<RowAt, AllocError> {
    let mut values = Vec::new(alloc);
    values.push(Value::Int(number))?;
    Ok(RowAt {
        cell: CellId { table, key },
        row: Row {
            values: Values::new(values),
            shape,
        },
    })
}

/// A row in a table of values: its table, key and number, and the ends of a main, or one place twice.
pub(crate) type Drawn = (u16, i64, i64, [i64; 4]);

/// Returns the row of such a line.
pub(crate) fn row_of(alloc: Global, drawn: Drawn) -> Result<RowAt, AllocError> {
    let (table, key, number, ends) = drawn;
    let from = Place {
        x: ends[0],
        y: ends[1],
    };
    let to = Place {
        x: ends[2],
        y: ends[3],
    };
    let shape = if table == MAIN {
        Shape::Line(from, to)
    } else {
        Shape::At(from)
    };
    row_at(alloc, table, key, number, shape)
}

/// A search: its rule, whether it is for servers alone, its row, and the cells that it finds, by table
/// and key.
pub(crate) type Search = (u16, bool, Drawn, &'static [(u16, i64)]);

/// The tables and rules of the network.
#[derive(Drop)]
pub(crate) struct Network {
    pub schema: Schema,
    pub book: RuleBook,
    ghost fits: { FitsBook schema book },
}

impl Network {
    pub(crate) fn new(alloc: Global) -> Result<Network, Fail> {
        let schema = schema(alloc)?;
        let book = RuleBook::new(&schema, rules(alloc)?).ok().ok_or("no book")?;
        Ok(Network { schema, book })
    }

    /// Gives a finder without pending changes a row.
    pub(crate) fn add<F: RowFinder>(&self, finder: &mut F, row: &RowAt) -> Result<(), Fail>
        requires { F.pending finder.old ≡ finite.empty }
        ensures { F.pending finder.new ≡ finite.empty }
    {
        self.schema.fits(row.cell, &row.row)?;
        finder.note(&self.book, row.cell, Some(&row.row))?;
        finder.settle();
        Ok(())
    }

    /// Notes a row that is then forgotten.
    pub(crate) fn note_and_forget<F: RowFinder>(
        &self,
        finder: &mut F,
        row: &RowAt,
    ) -> Result<(), Fail>
        requires { F.pending finder.old ≡ finite.empty }
        ensures { F.pending finder.new ≡ finite.empty }
    {
        self.schema.fits(row.cell, &row.row)?;
        finder.note(&self.book, row.cell, Some(&row.row))?;
        finder.forget();
        Ok(())
    }

    /// Takes the row of a cell away.
    pub(crate) fn take<F: RowFinder>(&self, finder: &mut F, cell: CellId) -> Result<(), Fail>
        requires { F.pending finder.old ≡ finite.empty }
        ensures { F.pending finder.new ≡ finite.empty }
    {
        finder.note(&self.book, cell, None)?;
        finder.settle();
        Ok(())
    }

    /// Gives a finder without pending changes some rows.
    pub(crate) fn add_all<F: RowFinder>(
        &self,
        alloc: Global,
        finder: &mut F,
        rows: &[Drawn],
    ) -> Result<(), Fail>
        requires { F.pending finder.old ≡ finite.empty }
        ensures { F.pending finder.new ≡ finite.empty }
    {
        for drawn in rows {
            self.add(finder, &row_of(alloc, *drawn)?)?;
        }
        Ok(())
    }

    /// Returns the cells whose rows share a spot with a row under a rule, all or servers alone.
    fn search<F: RowFinder>(
        &self,
        finder: &F,
        rule: u16,
        servers: bool,
        row: &RowAt,
    ) -> Result<Vec<CellId>, Fail> {
        self.schema.fits(row.cell, &row.row)?;
        if usize::from(rule) >= self.book.len() {
            return Err("no such rule".into());
        }
        if servers {
            Ok(finder.sharing_servers(&self.book, rule, row.as_held())?)
        } else {
            Ok(finder.sharing(&self.book, rule, row.as_held())?)
        }
    }

    /// Returns whether a search finds just its cells.
    fn finds<F: RowFinder>(&self, alloc: Global, finder: &F, search: Search) -> Result<bool, Fail> {
        let (rule, servers, drawn, cells) = search;
        let found = self.search(finder, rule, servers, &row_of(alloc, drawn)?)?;
        Ok(are_cells(found.as_slice(), cells))
    }

    /// Returns whether each of some searches does.
    pub(crate) fn finds_all<F: RowFinder>(
        &self,
        alloc: Global,
        finder: &F,
        searches: &[Search],
    ) -> Result<bool, Fail> {
        for search in searches {
            if !self.finds(alloc, finder, *search)? {
                return Ok(false);
            }
        }
        Ok(true)
    }
}

/// Returns whether a list has these cells, by table and key, in this order.
pub(crate) fn are_cells(found: &[CellId], cells: &[(u16, i64)]) -> bool {
    if found.len() != cells.len() {
        return false;
    }
    for i in 0..cells.len() {
        let (table, key) = cells[i];
        if found[i] != (CellId { table, key }) {
            return false;
        }
    }
    true
}
