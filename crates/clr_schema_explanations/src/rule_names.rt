//! The tables and columns that a rule names.
ghost use Rattle.std.specs.Prelude.{◌≡◌, ◌++◌, [], IfOk, OnOk, map, option_map, unwrap_or};
ghost use Rattle.std.specs.List.{find, list_any};
ghost use Rattle.std.specs.Str.{bytes_eq};
ghost use Rattle.clr_schema_explanations.specs.Names.{is_primary_key, is_unknown, name_in_rule, names_of_columns, names_of_literals};
ghost use Rattle.clr_schema_explanations.specs.Names.{names_of_rule, names_of_side, steps_to_name};

use clr_hints::table_of;
use clr_office_reading::named_rules::NamedRule;
use clr_office_reading::named_sides::{ColumnNames, NamedSide};
use clr_rows::{KEY, Schema, TableDef};
use clr_text_positions::{Key, PathStep};
use std::alloc::{AllocError, Global};

/// Where in a rule a name is.
#[derive(Clone, Copy)]
pub(crate) enum NamePlace {
    /// The table of the side at a key.
    Side(Key),
    /// The column of a literal of the side at a key.
    Literal(Key, usize),
    /// A column of the list at a key.
    Column(Key, usize),
}

/// The name of a table, or of a column of it, and where in a rule it is.
#[derive(Clone, Copy)]
pub(crate) struct RuleName<'a> {
    pub place: NamePlace,
    pub table: &'a str,
    pub column: Option<&'a str>,
}

impl NamePlace {
    /// Returns the steps from a rule to a name in it.
    pub(crate) fn steps(self, alloc: Global) -> Result<Vec<PathStep>, AllocError>
        ensures { IfOk result (λ steps. steps.items ≡ steps_to_name self) }
    {
        match self {
            NamePlace::Side(key) => {
                Vec::from_slice(alloc, &[PathStep::Key(key), PathStep::Key(Key::Table)])
            }
            NamePlace::Literal(key, at) => Vec::from_slice(
                alloc,
                &[
                    PathStep::Key(key),
                    PathStep::Key(Key::Where),
                    PathStep::At(at),
                    PathStep::At(0),
                ],
            ),
            NamePlace::Column(key, at) => {
                Vec::from_slice(alloc, &[PathStep::Key(key), PathStep::At(at)])
            }
        }
    }

    /// Returns whether a name means the primary key there.
    fn is_primary_key(self, name: &str) -> bool
        ensures { result ≡ is_primary_key self name.now }
    {
        match self {
            NamePlace::Column(_, _) => name == KEY,
            NamePlace::Side(_) | NamePlace::Literal(_, _) => false,
        }
    }
}

impl<'a> RuleName<'a> {
    /// Returns the column of a name, or no text.
    pub(crate) fn column_text(self) -> &'a str
        ensures { result.now ≡ unwrap_or (name_in_rule self.entry).column [] }
    {
        match self.column {
            Some(column) => column,
            None => "",
        }
    }
}

/// Adds the columns that the literals of a side name.
#[tactic(auto, unfolding(crate::specs::Names::names_of_literals))]
fn add_literals<'a>(
    names: &mut Vec<RuleName<'a>>,
    key: Key,
    side: &'a NamedSide,
) -> Result<(), AllocError>
    ensures { OnOk result (map name_in_rule names.new.items ≡ map name_in_rule names.old.items ++ names_of_literals key side.now) }
{
    let literals = side.filter.as_slice();
    for at in 0..literals.len() {
        names.push(RuleName {
            place: NamePlace::Literal(key, at),
            table: side.table.as_str(),
            column: Some(literals[at].0.as_str()),
        })?;
    }
    Ok(())
}

/// Adds the table that a side names, and the columns of its literals.
fn add_side<'a>(
    names: &mut Vec<RuleName<'a>>,
    key: Key,
    side: &'a NamedSide,
) -> Result<(), AllocError>
    ensures { OnOk result (map name_in_rule names.new.items ≡ map name_in_rule names.old.items ++ names_of_side key side.now) }
{
    names.push(RuleName {
        place: NamePlace::Side(key),
        table: side.table.as_str(),
        column: None,
    })?;
    add_literals(names, key, side)
}

/// Adds the columns of a list.
#[tactic(auto, unfolding(crate::specs::Names::names_of_columns))]
fn add_columns<'a>(
    names: &mut Vec<RuleName<'a>>,
    key: Key,
    table: &'a str,
    columns: &'a ColumnNames,
) -> Result<(), AllocError>
    ensures { OnOk result (map name_in_rule names.new.items ≡ map name_in_rule names.old.items ++ names_of_columns key table.now columns.now) }
{
    let listed = columns.as_slice();
    for at in 0..listed.len() {
        names.push(RuleName {
            place: NamePlace::Column(key, at),
            table,
            column: Some(listed[at].as_str()),
        })?;
    }
    Ok(())
}

/// Adds the names of a side, and those of a list of columns of its table.
fn add_side_and_columns<'a>(
    names: &mut Vec<RuleName<'a>>,
    keys: (Key, Key),
    side: &'a NamedSide,
    columns: &'a ColumnNames,
) -> Result<(), AllocError>
    ensures { OnOk result (map name_in_rule names.new.items
        ≡ map name_in_rule names.old.items ++ (names_of_side keys.0 side.now ++ names_of_columns keys.1 side.now.table columns.now)) }
{
    add_side(names, keys.0, side)?;
    add_columns(names, keys.1, side.table.as_str(), columns)
}

/// Adds the names of two sides.
fn add_sides<'a>(
    names: &mut Vec<RuleName<'a>>,
    keys: (Key, Key),
    first: &'a NamedSide,
    second: &'a NamedSide,
) -> Result<(), AllocError>
    ensures { OnOk result (map name_in_rule names.new.items
        ≡ map name_in_rule names.old.items ++ (names_of_side keys.0 first.now ++ names_of_side keys.1 second.now)) }
{
    add_side(names, keys.0, first)?;
    add_side(names, keys.1, second)
}

/// Adds the names of a rule.
fn add_names<'a>(names: &mut Vec<RuleName<'a>>, rule: &'a NamedRule) -> Result<(), AllocError>
    ensures { OnOk result (map name_in_rule names.new.items ≡ map name_in_rule names.old.items ++ names_of_rule rule.now) }
{
    match rule {
        NamedRule::Unique { subject, columns } => {
            add_side_and_columns(names, (Key::Subject, Key::Columns), subject, columns)
        }
        NamedRule::Partner {
            subject,
            columns,
            server,
            server_columns,
        } => {
            add_side_and_columns(names, (Key::Subject, Key::Columns), subject, columns)?;
            add_side_and_columns(
                names,
                (Key::Server, Key::ServerColumns),
                server,
                server_columns,
            )
        }
        NamedRule::EndNode {
            subject,
            tip: _,
            server,
        } => add_sides(names, (Key::Subject, Key::Server), subject, server),
        NamedRule::Crossing { a, b, server } => {
            add_sides(names, (Key::A, Key::B), a, b)?;
            add_side(names, Key::Server, server)
        }
        NamedRule::Near { a, b, d: _ } => add_sides(names, (Key::A, Key::B), a, b),
    }
}

/// Returns the names of a rule, in the order in which they are looked up.
pub(crate) fn names_of_rule<'a>(
    alloc: Global,
    rule: &'a NamedRule,
) -> Result<Vec<RuleName<'a>>, AllocError>
    ensures { IfOk result (λ names. map name_in_rule names.items ≡ names_of_rule rule.now) }
{
    let mut names = Vec::new(alloc);
    add_names(&mut names, rule)?;
    Ok(names)
}

/// Returns whether a table has a column of a name.
fn has_column(table: &TableDef, name: &str) -> bool
    ensures { result ≡ list_any (λ column. bytes_eq column.0 name.now) table.now.columns }
{
    table
        .columns
        .as_slice()
        .iter()
        .any(|column| column.0.as_str() == name)
}

/// Returns whether a schema hasn't the table of a name, or the table hasn't the column.
fn is_unknown(schema: &Schema, name: RuleName) -> bool
    ensures { result ≡ is_unknown schema.now (name_in_rule name.entry) }
{
    let Some(table) = table_of(schema, name.table) else {
        return true;
    };
    match name.column {
        Some(column) => !name.place.is_primary_key(column) && !has_column(table, column),
        None => false,
    }
}

/// Returns the first of these names that a schema hasn't, or none.
pub(crate) fn first_unknown<'a>(schema: &Schema, names: &[RuleName<'a>]) -> Option<RuleName<'a>>
    ensures { option_map name_in_rule result ≡ find (is_unknown schema.now) (map name_in_rule names.now) }
{
    for name in names {
        if is_unknown(schema, *name) {
            return Some(*name);
        }
    }
    None
}
