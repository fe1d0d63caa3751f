//! Rows of typed tables, their cells, schemas, and sheets of rows.
//!
//! - `Schema::new` [`made`, `judged`] makes a schema of just these tables, or answers the first
//!   test that they fail. `fits` and `names_cell` say whether a row can stand at a cell, or some
//!   row could, or answer the first failing test. `table`, `table_name`, `name_of_table`, `column`,
//!   `def` and `tables` look up exactly; `good_name` is the rule of names. None takes memory.
//! - `Row::copy` gives the same row, `same` tells equal contents; so do those of `Shape`, `Value`,
//!   `Values`, `Words` and `Vertices`. What holds a `Vec` gives its list back (`into_vec`), and
//!   `Words` its text (`into_string`).
//! - `Sheet` is a finite map from cells to rows: `get`, `put` [`before`, `ok`, `err`, `held`],
//!   `take`, `len`, `cell_at`, `iter`, `copy`. A `put` that finds no memory changes nothing; over a
//!   row that stands it can't fail. `put_all` puts all rows or none, and copies no sheet. Neither
//!   asks anything of its rows; `iter` [`within`] tells that each number in a sheet is within 64
//!   bits.
//! - `List` is a `Vec` of which a contract sees the elements alone; `Names` and `Columns` are lists.
//!   `push` [`ok`, `err`, `given_back`] adds an element behind the others; where it finds no memory
//!   the list stays as it is, and the element comes back.
//! - `changes_law` and `over_law`: the changes of two contents, and a content with changes over it,
//!   told cell by cell.
#![tactic(auto)]

mod cells;
mod faults;
mod laws;
mod limits;
mod lists;
mod names;
mod numbers;
mod places;
mod rows;
mod schemas;
mod sheets;
mod tables;
mod texts;
mod vertices;
mod views;

pub use cells::{CellId, Change, Held};
pub use faults::{RowFault, SchemaFault};
pub use laws::{changes_law, over_law};
pub use limits::{
    GREATEST_COORDINATE, GREATEST_KEY, KEY, LEAST_VERTICES, LIVE, MOST_COLUMNS, MOST_NAME_BYTES,
    MOST_TABLES, MOST_TEXT_BYTES, MOST_VERTICES, limits_of_rows,
};
pub use lists::List;
pub use names::{Names, good_name};
pub use places::{Place, Shape};
pub use rows::{Row, Value, Values};
pub use schemas::Schema;
pub use sheets::Sheet;
pub use tables::{Columns, Form, Kind, TableDef};
pub use texts::Words;
pub use vertices::Vertices;
pub use views::RowView;
