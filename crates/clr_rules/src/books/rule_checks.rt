//! The tests that rules must pass to stand over a schema.

ghost use Rattle.std.specs.Prelude.{◌≡◌, ◌≤◌, not, length};
ghost use Rattle.std.specs.List.{list_all, zip};
ghost use Rattle.std.specs.Option.{option_copied};
ghost use Rattle.clr_rows.specs.Schemas.{Answers};
ghost use Rattle.clr_rules.specs.declared.limits.TheConstants.{MOST_RULES};
ghost use Rattle.clr_rules.specs.Books.{has_table, has_tables, kind_of, is_column_of, are_columns_of, is_primary_key, has_columns};
ghost use Rattle.clr_rules.specs.Books.{same_kind, has_same_kinds, is_point_form, is_line_form, has_form, has_forms};
ghost use Rattle.clr_rules.specs.Books.{is_distance, has_distance, is_literal_of, has_filter, has_filters, rule_fault, first_fault};
ghost use Rattle.clr_rules.specs.Sides.{if_any};

use crate::books::RuleFault;
use crate::columns::{Col, ColumnList};
use crate::limits::LEAST_DISTANCE;
use crate::rules::Rule;
use crate::sides::Side;
use clr_rows::{Form, Kind, Schema, Value};
use clr_segments::GREATEST_DISTANCE;

/// Returns whether the schema has the table of a side, if there is one.
fn has_table(schema: &Schema, side: Option<&Side>) -> bool
    ensures { result ≡ if_any (has_table schema.now) (option_copied side.entry) }
{
    match side {
        Some(side) => schema.def(side.table).is_some(),
        None => true,
    }
}

/// Returns whether the schema has the table of each side of a rule.
fn has_tables(schema: &Schema, rule: &Rule) -> bool
    ensures { result ≡ has_tables schema.now rule.now }
{
    let sides = rule.sides();
    has_table(schema, sides.alone)
        && has_table(schema, sides.first)
        && has_table(schema, sides.second)
        && has_table(schema, sides.server)
}

/// Returns the kind of a column of a table, or none where there is no such column.
fn kind_of(schema: &Schema, table: u16, column: Col) -> Option<Kind>
    ensures { result ≡ kind_of schema.now table column }
{
    let table = schema.def(table)?;
    match column {
        Col::Key => Some(Kind::Int),
        Col::At(number) => match table.columns.as_slice().get(number as usize) {
            Some(column) => Some(column.1),
            None => None,
        },
    }
}

fn is_column_of(schema: &Schema, side: &Side, column: Col) -> bool
    ensures { result ≡ is_column_of schema.now side.now column }
{
    kind_of(schema, side.table, column).is_some()
}

fn is_primary_key(column: Col) -> bool
    ensures { result ≡ is_primary_key column }
{
    match column {
        Col::Key => true,
        Col::At(_) => false,
    }
}

fn all_are_columns_of(schema: &Schema, side: &Side, columns: &[Col]) -> bool
    ensures { result ≡ list_all (is_column_of schema.now side.now) columns.now }
{
    columns
        .iter()
        .all(|column| is_column_of(schema, side, *column))
}

fn are_columns_of(schema: &Schema, side: &Side, columns: &ColumnList) -> bool
    ensures { result ≡ are_columns_of schema.now side.now columns.now }
{
    let columns = columns.as_slice();
    columns.len() != 0 && all_are_columns_of(schema, side, columns)
}

fn have_no_primary_key(columns: &ColumnList) -> bool
    ensures { result ≡ list_all (λ c. not (is_primary_key c)) columns.now }
{
    columns
        .as_slice()
        .iter()
        .all(|column| !is_primary_key(*column))
}

/// Returns whether each list of columns of a rule isn't empty and has columns of its side's table
/// alone, and whether a `Unique` names no primary key.
fn has_columns(schema: &Schema, rule: &Rule) -> bool
    ensures { result ≡ has_columns schema.now rule.now }
{
    match rule {
        Rule::Unique { subject, columns } => {
            are_columns_of(schema, subject, columns) && have_no_primary_key(columns)
        }
        Rule::Partner {
            subject,
            columns,
            server,
            server_columns,
        } => {
            are_columns_of(schema, subject, columns)
                && are_columns_of(schema, server, server_columns)
        }
        _ => true,
    }
}

fn same_kind(one: Option<Kind>, other: Option<Kind>) -> bool
    ensures { result ≡ same_kind one other }
{
    match (one, other) {
        (Some(Kind::Int), Some(Kind::Int)) => true,
        (Some(Kind::Words), Some(Kind::Words)) => true,
        _ => false,
    }
}

/// Returns whether each column of the subject is of the same kind as the server's at the same
/// position.
fn are_of_same_kinds(
    schema: &Schema,
    subject: &Side,
    columns: &[Col],
    server: &Side,
    others: &[Col],
) -> bool
    ensures { result ≡ list_all
        (λ p. same_kind (kind_of schema.now subject.now.table p.0) (kind_of schema.now server.now.table p.1)) (zip columns.now others.now) }
{
    columns.iter().zip(others.iter()).all(|(one, other)| {
        same_kind(
            kind_of(schema, subject.table, *one),
            kind_of(schema, server.table, *other),
        )
    })
}

/// Returns whether the two lists of a `Partner` have the same length and the same kinds.
fn has_same_kinds(schema: &Schema, rule: &Rule) -> bool
    ensures { result ≡ has_same_kinds schema.now rule.now }
{
    match rule {
        Rule::Partner {
            subject,
            columns,
            server,
            server_columns,
        } => {
            let columns = columns.as_slice();
            let others = server_columns.as_slice();
            columns.len() == others.len()
                && are_of_same_kinds(schema, subject, columns, server, others)
        }
        _ => true,
    }
}

fn is_point_form(form: Form) -> bool
    ensures { result ≡ is_point_form form }
{
    match form {
        Form::Point => true,
        Form::Bare | Form::Segment | Form::Path => false,
    }
}

fn is_line_form(form: Form) -> bool
    ensures { result ≡ is_line_form form }
{
    match form {
        Form::Segment | Form::Path => true,
        Form::Bare | Form::Point => false,
    }
}

fn has_points(schema: &Schema, side: &Side) -> bool
    ensures { result ≡ has_form schema.now is_point_form side.now }
{
    match schema.def(side.table) {
        Some(table) => is_point_form(table.shape),
        None => false,
    }
}

fn has_lines(schema: &Schema, side: &Side) -> bool
    ensures { result ≡ has_form schema.now is_line_form side.now }
{
    match schema.def(side.table) {
        Some(table) => is_line_form(table.shape),
        None => false,
    }
}

/// Returns whether each side of a rule has the shape that the rule asks for.
fn has_forms(schema: &Schema, rule: &Rule) -> bool
    ensures { result ≡ has_forms schema.now rule.now }
{
    match rule {
        Rule::EndNode {
            subject,
            server,
            ..
        } => has_lines(schema, subject) && has_points(schema, server),
        Rule::Crossing { a, b, server } => {
            has_lines(schema, a) && has_lines(schema, b) && has_points(schema, server)
        }
        Rule::Near { a, b, .. } => has_points(schema, a) && has_points(schema, b),
        _ => true,
    }
}

fn is_distance(distance: i64) -> bool
    ensures { result ≡ is_distance distance }
{
    LEAST_DISTANCE <= distance && distance <= GREATEST_DISTANCE
}

fn has_distance(rule: &Rule) -> bool
    ensures { result ≡ has_distance rule.now }
{
    match rule {
        Rule::Near { d, .. } => is_distance(*d),
        _ => true,
    }
}

/// Returns whether there is a column of this kind and a value is of it. Reading a number shows that
/// it is within 64 bits.
fn is_literal_of(kind: Option<Kind>, value: &Value) -> bool
    ensures { result ≡ is_literal_of kind value.now }
{
    match (kind, value) {
        (Some(Kind::Int), Value::Int(number)) => {
            let _number = *number;
            true
        }
        (Some(Kind::Words), Value::Words(_)) => true,
        _ => false,
    }
}

/// Returns whether each literal of a side's filter is of its column's kind.
fn has_filter_of(schema: &Schema, side: &Side) -> bool
    ensures { result ≡ has_filter schema.now side.now }
{
    side.filter.as_slice().iter().all(|part| is_literal_of(
        kind_of(schema, side.table, Col::At(part.0)),
        &part.1,
    ))
}

/// Returns whether each literal of a side's filter is of its column's kind, if there is a side.
fn has_filter(schema: &Schema, side: Option<&Side>) -> bool
    ensures { result ≡ if_any (has_filter schema.now) (option_copied side.entry) }
{
    match side {
        Some(side) => has_filter_of(schema, side),
        None => true,
    }
}

/// Returns whether each literal of a rule's filters is of its column's kind.
fn has_filters(schema: &Schema, rule: &Rule) -> bool
    ensures { result ≡ has_filters schema.now rule.now }
{
    let sides = rule.sides();
    has_filter(schema, sides.alone)
        && has_filter(schema, sides.first)
        && has_filter(schema, sides.second)
        && has_filter(schema, sides.server)
}

/// Tests whether a rule can stand over the schema. Fails with the fault of the first test that it
/// doesn't pass.
#[tactic(auto, unfolding(crate::specs::Books::rule_fault))]
fn check_rule(schema: &Schema, rule: &Rule) -> Result<(), RuleFault>
    ensures { Answers result (rule_fault schema.now rule.now) }
{
    if !has_tables(schema, rule) {
        Err(RuleFault::NoTable)
    } else if !has_columns(schema, rule) {
        Err(RuleFault::NoColumn)
    } else if !has_same_kinds(schema, rule) {
        Err(RuleFault::KindsDiffer)
    } else if !has_forms(schema, rule) {
        Err(RuleFault::WrongShape)
    } else if !has_distance(rule) {
        Err(RuleFault::BadDistance)
    } else if !has_filters(schema, rule) {
        Err(RuleFault::BadFilter)
    } else {
        Ok(())
    }
}

/// Tests whether each of at most 64 rules can stand over the schema. Fails with the number of the
/// first that can't, and with its fault.
pub(super) fn check_rules(schema: &Schema, rules: &[Rule]) -> Result<(), (u16, RuleFault)>
    requires { length rules.now ≤ MOST_RULES }
    ensures { Answers result (first_fault schema.now 0 rules.now) }
{
    for number in 0..rules.len() {
        if let Err(fault) = check_rule(schema, &rules[number]) {
            return Err((number as u16, fault));
        }
    }
    Ok(())
}
