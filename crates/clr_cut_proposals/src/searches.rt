//! Statements that look for rows near versions.

ghost use Rattle.std.specs.Prelude.{◌≡◌, ◌++◌, ℕ, List, OnOk, map};
ghost use Rattle.clr_rules.specs.declared.columns.Col.TheVariants.{At};
ghost use Rattle.clr_phrases.specs.Rules.{column_name};
ghost use Rattle.clr_sql.specs.Quoting.{quoted_name};
ghost use Rattle.std.specs.List.{flat_map, zip};
ghost use Rattle.clr_cut_proposals.specs.RoleModels.{role_of, table_of};
ghost use Rattle.clr_cut_proposals.specs.Searches.{column_text, equal_text, equal_value, equal_words, except_found, filter_text, has_literal, into_found};
ghost use Rattle.clr_cut_proposals.specs.Searches.{is_wide_text, near_text, search_text, searches, served_text, side_by_side, span_text, square_number};
ghost use Rattle.clr_cut_proposals.specs.Searches.{touched_text, wide_rows_text, wide_text};

use crate::places::{add_meets, add_squares_box, least_x, least_y, most_x, most_y};
use crate::roles::{RoleMark, RuleRole, all_roles, paired_roles, serving_marks, serving_roles};
use crate::squares::{add_most_spots, add_side};
use clr_rows::{Schema, Value};
use clr_rules::{Col, Rule, Side};
use clr_sql::{Dialect, Target, add_name, add_value};
use std::alloc::{AllocError, Global};

/// The versions from which a search goes out, each in a temporary table of its own.
#[derive(Clone, Copy, Debug)]
pub(crate) enum Versions {
    /// Rows that designs bring.
    New,
    /// Rows that stand where designs change something.
    Old,
    /// All rows that were found.
    Kept,
}

impl Versions {
    /// Returns what the names of these temporary tables begin with.
    fn prefix(self) -> &'static str
        ensures { (name : List ℕ) → result.now ++ name ≡ table_of self name }
    {
        match self {
            Versions::New => "clr_new_",
            Versions::Old => "clr_old_",
            Versions::Kept => "clr_kept_",
        }
    }
}

/// Adds the name of a temporary table in quotes.
pub(crate) fn add_temporary(
    alloc: Global,
    text: &mut Vec<u8>,
    prefix: &str,
    table: &str,
) -> Result<(), AllocError>
    ensures { OnOk result (text.new.items ≡ text.old.items ++ quoted_name (prefix.now ++ table.now)) }
{
    let mut name = String::from_str(alloc, prefix)?;
    name.push_str(table)?;
    add_name(text, name.as_str())
}

/// Returns the name of a column of a side's table; of one that isn't there it is empty.
fn column_name<'a>(schema: &'a Schema, side: &Side, column: Col) -> &'a str
    ensures { result.now ≡ column_name schema.now side.now column }
{
    let Col::At(at) = column else {
        return "KEY";
    };
    match schema.def(side.table) {
        Some(table) => match table.columns.as_slice().get(at as usize) {
            Some((name, _)) => name.as_str(),
            None => "",
        },
        None => "",
    }
}

/// Adds what a row has in a column.
fn add_column(
    text: &mut Vec<u8>,
    schema: &Schema,
    row: &str,
    side: &Side,
    column: Col,
) -> Result<(), AllocError>
    ensures { OnOk result (text.new.items ≡ text.old.items ++ column_text schema.now row.now side.now column) }
{
    text.extend_from_slice(row.as_bytes())?;
    text.extend_from_slice(b".")?;
    add_name(text, column_name(schema, side, column))
}

/// Adds that a column has a value.
fn add_equal_value(
    text: &mut Vec<u8>,
    schema: &Schema,
    row: &str,
    side: &Side,
    literal: &(u16, Value),
) -> Result<(), AllocError>
    ensures { OnOk result (text.new.items
        ≡ text.old.items ++ equal_value (column_text schema.now row.now side.now (At literal.now.0)) literal.now.1) }
{
    text.extend_from_slice(b" AND ")?;
    add_column(text, schema, row, side, Col::At(literal.0))?;
    text.extend_from_slice(b" = ")?;
    add_value(text, &literal.1)
}

/// Adds that a column has a text, or none where the text is empty.
fn add_equal_words(
    text: &mut Vec<u8>,
    schema: &Schema,
    row: &str,
    side: &Side,
    literal: &(u16, Value),
) -> Result<(), AllocError>
    ensures { OnOk result (text.new.items
        ≡ text.old.items ++ equal_words (column_text schema.now row.now side.now (At literal.now.0)) literal.now.1) }
{
    text.extend_from_slice(b" AND COALESCE(")?;
    add_column(text, schema, row, side, Col::At(literal.0))?;
    text.extend_from_slice(b", '') = ")?;
    add_value(text, &literal.1)
}

/// Adds that a row has a literal of a filter.
fn add_literal(
    text: &mut Vec<u8>,
    schema: &Schema,
    row: &str,
    side: &Side,
    literal: &(u16, Value),
) -> Result<(), AllocError>
    ensures { OnOk result (text.new.items ≡ text.old.items ++ has_literal schema.now row.now side.now literal.now) }
{
    match &literal.1 {
        Value::Int(_) => add_equal_value(text, schema, row, side, literal),
        Value::Words(_) => add_equal_words(text, schema, row, side, literal),
    }
}

/// Adds that a row is of a side.
fn add_filter(text: &mut Vec<u8>, schema: &Schema, row: &str, side: &Side) -> Result<(), AllocError>
    ensures { OnOk result (text.new.items ≡ text.old.items ++ filter_text schema.now row.now side.now) }
{
    for literal in side.filter.as_slice() {
        add_literal(text, schema, row, side, literal)?;
    }
    Ok(())
}

/// Adds that the row that is looked for has in its columns what the version has in its own.
fn add_equal_columns(
    text: &mut Vec<u8>,
    schema: &Schema,
    version: &Side,
    columns: &[Col],
    row: &Side,
    others: &[Col],
) -> Result<(), AllocError>
    ensures { OnOk result (text.new.items ≡ text.old.items ++ flat_map (equal_text schema.now version.now row.now) (zip columns.now others.now)) }
{
    for (column, other) in columns.iter().zip(others) {
        text.extend_from_slice(b" AND ")?;
        add_column(text, schema, "m", row, *other)?;
        text.extend_from_slice(b" = ")?;
        add_column(text, schema, "v", version, *column)?;
    }
    Ok(())
}

/// Adds that a row and a version may share a spot.
fn add_near(
    alloc: Global,
    text: &mut Vec<u8>,
    target: &Target,
    schema: &Schema,
    version: RuleRole<'_>,
    row: RuleRole<'_>,
) -> Result<(), AllocError>
    ensures { OnOk result (text.new.items ≡ text.old.items ++ near_text target.now schema.now (role_of version.entry) (role_of row.entry)) }
{
    if let (RoleMark::ByColumns(columns), RoleMark::ByColumns(others)) = (version.mark, row.mark) {
        return add_equal_columns(text, schema, version.side, columns, row.side, others);
    }
    let mut around = Vec::new(alloc);
    add_squares_box(&mut around, target, version.mark)?;
    let table = schema.name_of_table(row.side.table);
    add_meets(text, target.dialect, table, around.as_slice())
}

/// Adds that keys go into the table of those that are found.
pub(crate) fn add_into_found(
    alloc: Global,
    text: &mut Vec<u8>,
    table: &str,
) -> Result<(), AllocError>
    ensures { OnOk result (text.new.items ≡ text.old.items ++ into_found table.now) }
{
    text.extend_from_slice(b"INSERT INTO ")?;
    add_temporary(alloc, text, "clr_cut_", table)?;
    text.extend_from_slice(b" SELECT ")
}

/// Adds that keys that are there don't, and the end of the statement.
pub(crate) fn add_except_found(
    alloc: Global,
    text: &mut Vec<u8>,
    table: &str,
) -> Result<(), AllocError>
    ensures { OnOk result (text.new.items ≡ text.old.items ++ except_found table.now) }
{
    text.extend_from_slice(b" EXCEPT SELECT \"KEY\" FROM ")?;
    add_temporary(alloc, text, "clr_cut_", table)?;
    text.extend_from_slice(b";\n")
}

/// Adds rows of a table beside versions of another.
fn add_side_by_side(
    alloc: Global,
    text: &mut Vec<u8>,
    versions: Versions,
    from: &str,
    table: &str,
) -> Result<(), AllocError>
    ensures { OnOk result (text.new.items ≡ text.old.items ++ side_by_side (table_of versions from.now) table.now) }
{
    text.extend_from_slice(b"m.\"KEY\" FROM ")?;
    add_temporary(alloc, text, versions.prefix(), from)?;
    text.extend_from_slice(b" AS v, ")?;
    add_name(text, table)?;
    text.extend_from_slice(b" AS m WHERE 1 = 1")
}

/// Adds the statement that finds the rows of one role that may share a spot with some version of another.
fn add_search(
    alloc: Global,
    text: &mut Vec<u8>,
    target: &Target,
    schema: &Schema,
    versions: Versions,
    version: RuleRole<'_>,
    row: RuleRole<'_>,
) -> Result<(), AllocError>
    ensures { OnOk result (text.new.items
        ≡ text.old.items ++ search_text target.now schema.now (table_of versions) (role_of version.entry) (role_of row.entry)) }
{
    let table = schema.name_of_table(row.side.table);
    let from = schema.name_of_table(version.side.table);
    add_into_found(alloc, text, table)?;
    add_side_by_side(alloc, text, versions, from, table)?;
    add_filter(text, schema, "v", version.side)?;
    add_filter(text, schema, "m", row.side)?;
    add_near(alloc, text, target, schema, version, row)?;
    add_except_found(alloc, text, table)
}

/// Adds the searches from one role to others.
fn add_searches_from(
    alloc: Global,
    text: &mut Vec<u8>,
    target: &Target,
    schema: &Schema,
    versions: Versions,
    version: RuleRole<'_>,
    rows: &[RuleRole<'_>],
) -> Result<(), AllocError>
    ensures { OnOk result (text.new.items
        ≡ text.old.items ++ flat_map (search_text target.now schema.now (table_of versions) (role_of version.entry)) (map role_of rows.now)) }
{
    for row in rows {
        add_search(alloc, text, target, schema, versions, version, *row)?;
    }
    Ok(())
}

/// Adds the searches from each of some roles to each of others.
fn add_searches(
    alloc: Global,
    text: &mut Vec<u8>,
    target: &Target,
    schema: &Schema,
    versions: Versions,
    from: &[RuleRole<'_>],
    rows: &[RuleRole<'_>],
) -> Result<(), AllocError>
    ensures { OnOk result (text.new.items
        ≡ text.old.items ++ searches target.now schema.now (table_of versions) (map role_of from.now) (map role_of rows.now)) }
{
    for version in from {
        add_searches_from(alloc, text, target, schema, versions, *version, rows)?;
    }
    Ok(())
}

/// Adds the number of the square of a coordinate.
fn add_square_number(text: &mut Vec<u8>, function: &str) -> Result<(), AllocError>
    ensures { OnOk result (text.new.items ≡ text.old.items ++ square_number function.now) }
{
    text.extend_from_slice(b"floor(")?;
    text.extend_from_slice(function.as_bytes())?;
    text.extend_from_slice(b"(m.\"WKT\") / ")?;
    add_side(text)?;
    text.extend_from_slice(b")")
}

/// Adds how many squares a geometry may be in, in one direction.
fn add_span(text: &mut Vec<u8>, least: &str, most: &str) -> Result<(), AllocError>
    ensures { OnOk result (text.new.items ≡ text.old.items ++ span_text least.now most.now) }
{
    text.extend_from_slice(b"(")?;
    add_square_number(text, most)?;
    text.extend_from_slice(b" - ")?;
    add_square_number(text, least)?;
    text.extend_from_slice(b" + 2)")
}

/// Adds that a geometry may be in more squares than a row has spots.
fn add_is_wide(text: &mut Vec<u8>, dialect: Dialect) -> Result<(), AllocError>
    ensures { OnOk result (text.new.items ≡ text.old.items ++ is_wide_text dialect) }
{
    add_span(text, least_x(dialect), most_x(dialect))?;
    text.extend_from_slice(b" * ")?;
    add_span(text, least_y(dialect), most_y(dialect))?;
    text.extend_from_slice(b" > ")?;
    add_most_spots(text)
}

/// Adds the statement that finds the rows of a side that may be wide.
fn add_wide_rows_of(
    alloc: Global,
    text: &mut Vec<u8>,
    target: &Target,
    schema: &Schema,
    side: &Side,
) -> Result<(), AllocError>
    ensures { OnOk result (text.new.items ≡ text.old.items ++ wide_rows_text target.now schema.now side.now) }
{
    let table = schema.name_of_table(side.table);
    add_into_found(alloc, text, table)?;
    text.extend_from_slice(b"m.\"KEY\" FROM ")?;
    add_name(text, table)?;
    text.extend_from_slice(b" AS m WHERE ")?;
    add_is_wide(text, target.dialect)?;
    add_filter(text, schema, "m", side)?;
    add_except_found(alloc, text, table)
}

/// Adds the statement that finds the rows of a role that may be wide, where they are found by their whole geometry.
fn add_wide(
    alloc: Global,
    text: &mut Vec<u8>,
    target: &Target,
    schema: &Schema,
    role: RuleRole<'_>,
) -> Result<(), AllocError>
    ensures { OnOk result (text.new.items ≡ text.old.items ++ wide_text target.now schema.now (role_of role.entry)) }
{
    match role.mark {
        RoleMark::Whole => add_wide_rows_of(alloc, text, target, schema, role.side),
        _ => Ok(()),
    }
}

/// Adds the statements that find the wide rows of some roles.
fn add_wide_rows(
    alloc: Global,
    text: &mut Vec<u8>,
    target: &Target,
    schema: &Schema,
    roles: &[RuleRole<'_>],
) -> Result<(), AllocError>
    ensures { OnOk result (text.new.items ≡ text.old.items ++ flat_map (wide_text target.now schema.now) (map role_of roles.now)) }
{
    for role in roles {
        add_wide(alloc, text, target, schema, *role)?;
    }
    Ok(())
}

/// Adds the statements that find the rows near a version that may touch a need of a rule.
pub(crate) fn add_touched(
    alloc: Global,
    text: &mut Vec<u8>,
    target: &Target,
    schema: &Schema,
    rule: &Rule,
) -> Result<(), AllocError>
    ensures { OnOk result (text.new.items ≡ text.old.items ++ touched_text target.now schema.now rule.now) }
{
    let all = all_roles(alloc, rule)?;
    let paired = paired_roles(alloc, rule)?;
    let serving = serving_marks(alloc, rule)?;
    let (all, paired, serving) = (all.as_slice(), paired.as_slice(), serving.as_slice());
    add_searches(alloc, text, target, schema, Versions::New, paired, all)?;
    add_searches(alloc, text, target, schema, Versions::Old, serving, all)?;
    add_wide_rows(alloc, text, target, schema, paired)
}

/// Adds the statements that find the rows that may serve new rows, or rows that were found.
pub(crate) fn add_served(
    alloc: Global,
    text: &mut Vec<u8>,
    target: &Target,
    schema: &Schema,
    rule: &Rule,
) -> Result<(), AllocError>
    ensures { OnOk result (text.new.items ≡ text.old.items ++ served_text target.now schema.now rule.now) }
{
    let all = all_roles(alloc, rule)?;
    let serving = serving_roles(alloc, rule)?;
    let (all, serving) = (all.as_slice(), serving.as_slice());
    add_searches(alloc, text, target, schema, Versions::New, all, serving)?;
    add_searches(alloc, text, target, schema, Versions::Kept, all, serving)
}
