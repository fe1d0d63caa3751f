//! The few words beside the place of a cause.

ghost use Rattle.std.specs.Prelude.{◌≡◌, ◌++◌, IfOk, OnOk, codes, string_bytes};
ghost use Rattle.std.specs.Fmt.{signed_decimal};
ghost use Rattle.std.specs.List.{flat_map};
ghost use Rattle.clr_plan_causes.specs.Badges.{badge_words, column_name, conflict_words, is_between, same_words, server_words, shared_words};

use clr_map_scenes::Mark;
use clr_phrases::Metres;
use clr_rows::{CellId, Schema};
use clr_rules::{Col, Rule};
use std::alloc::{AllocError, Global};

/// Returns whether a ring marks a place where no row can stand.
fn is_between(mark: Mark) -> bool
    ensures { result ≡ is_between mark }
{
    match mark {
        Mark::Ring(ring) => !ring.is_whole,
        Mark::Link | Mark::Near(_) | Mark::Nothing => false,
    }
}

/// Returns the few words for a server that is missing.
fn badge_of_server(
    alloc: Global,
    server: &str,
    mark: Mark,
    goers: usize,
) -> Result<String, AllocError>
    ensures { IfOk result (λ text. string_bytes text ≡ server_words server.now mark goers) }
{
    if goers > 1 {
        return format!(in alloc; "all its {server}s go");
    }
    if goers == 1 {
        return format!(in alloc; "its {server} goes");
    }
    if is_between(mark) {
        return format!(in alloc; "no {server} can stand here");
    }
    format!(in alloc; "no {server} here")
}

/// Adds the names of columns of a table, each behind a comma.
fn add_others(
    text: &mut String,
    schema: &Schema,
    table: u16,
    columns: &[Col],
) -> Result<(), AllocError>
    ensures { OnOk result (string_bytes text.new
        ≡ string_bytes text.old ++ flat_map (λ other. codes ", " ++ column_name schema.now table other) columns.now) }
{
    for column in columns {
        text.push_str(", ")?;
        text.push_str(column_name(schema, table, *column))?;
    }
    Ok(())
}

/// Adds the names of columns of a table that rows have in common.
fn add_columns(
    text: &mut String,
    schema: &Schema,
    table: u16,
    columns: &[Col],
) -> Result<(), AllocError>
    ensures { OnOk result (string_bytes text.new ≡ string_bytes text.old ++ same_words schema.now table columns.now) }
{
    let [first, others @ ..] = columns else {
        return Ok(());
    };
    text.push_str("the same ")?;
    text.push_str(column_name(schema, table, *first))?;
    add_others(text, schema, table, others)
}

/// Returns the name of a column, or no bytes where there is none.
fn column_name<'a>(schema: &'a Schema, table: u16, column: Col) -> &'a str
    ensures { result.now ≡ column_name schema.now table column }
{
    let Col::At(at) = column else {
        return "KEY";
    };
    match schema.def(table) {
        Some(table) => match table.columns.as_slice().get(at as usize) {
            Some((name, _)) => name.as_str(),
            None => "",
        },
        None => "",
    }
}

/// Returns the few words that say why a need fails under a rule, where this many rows that served it go.
pub(crate) fn badge_of_need(
    alloc: Global,
    schema: &Schema,
    rule: &Rule,
    mark: Mark,
    goers: usize,
) -> Result<String, AllocError>
    ensures { IfOk result (λ text. string_bytes text ≡ badge_words schema.now rule.now mark goers) }
{
    match rule {
        Rule::Unique { subject, columns } => {
            let mut text = String::new(alloc);
            add_columns(&mut text, schema, subject.table, columns.as_slice())?;
            Ok(text)
        }
        Rule::Partner { server, .. } if goers == 0 => {
            let server = schema.name_of_table(server.table);
            format!(in alloc; "its {server} is missing")
        }
        Rule::Partner { server, .. }
        | Rule::EndNode { server, .. }
        | Rule::Crossing { server, .. } => {
            badge_of_server(alloc, schema.name_of_table(server.table), mark, goers)
        }
        Rule::Near { d, .. } => {
            let distance = Metres(*d);
            format!(in alloc; "closer than {distance} m")
        }
    }
}

/// Returns the few words for a cell that a design and the root both change.
pub(crate) fn conflict_words(alloc: Global, root: &str) -> Result<String, AllocError>
    ensures { IfOk result (λ text. string_bytes text ≡ conflict_words root.now) }
{
    format!(in alloc; "{root} changed too")
}

/// Returns the digits of a key.
fn key_words(alloc: Global, key: i64) -> Result<String, AllocError>
    ensures { IfOk result (λ text. string_bytes text ≡ signed_decimal key) }
{
    format!(in alloc; "{key}")
}

/// Returns the few words for a cell that two designs change.
pub(crate) fn shared_words(
    alloc: Global,
    schema: &Schema,
    cell: CellId,
) -> Result<String, AllocError>
    ensures { IfOk result (λ text. string_bytes text ≡ shared_words schema.now cell) }
{
    let key = key_words(alloc, cell.key)?;
    let mut text = String::from_str(alloc, "both change ")?;
    text.push_str(schema.name_of_table(cell.table))?;
    text.push_str(" ")?;
    text.push_str(key.as_str())?;
    Ok(text)
}
