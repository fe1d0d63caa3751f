//! A rule in words.

ghost use Rattle.std.specs.Prelude.{◌≡◌, ◌++◌, IfOk, OnOk, string_bytes};
ghost use Rattle.clr_rows.specs.Held.{held_of};
ghost use Rattle.clr_rules.specs.declared.rules.Rule.TheVariants.{Crossing, EndNode, Near, Partner, Unique};
ghost use Rattle.clr_phrases.specs.Rules.{are_one_table, column_name, columns_text, condition_text, end_word, field_text, fields_text};
ghost use Rattle.clr_phrases.specs.Rules.{filter_text, one_text, rule_sentence, rule_title, side_text, two_text};

use crate::lists::{add_names, article};
use crate::measures::Metres;
use crate::rows::add_value;
use clr_rows::{Held, Schema, Value};
use clr_rules::{Col, ColumnList, Rule, Side, Tip};
use std::alloc::{AllocError, Global};

/// Returns what a rule is about, in a few words.
pub fn rule_title(rule: &Rule) -> &'static str
    ensures { result.now ≡ rule_title rule.now }
{
    match rule {
        Rule::Unique { .. } => "no two alike",
        Rule::Partner { .. } => "a partner",
        Rule::EndNode { .. } => "a node at an end",
        Rule::Crossing { .. } => "a node at each crossing",
        Rule::Near { .. } => "a distance",
    }
}

/// Returns the name of a column of a side's table; of one that isn't there it is empty.
fn column_name<'a>(schema: &'a Schema, side: &Side, column: Col) -> &'a str
    ensures { result.now ≡ column_name schema.now side.now column }
{
    let Col::At(at) = column else {
        return "KEY";
    };
    match schema.def(side.table) {
        Some(table) => match table.columns.as_slice().get(at as usize) {
            Some((name, _)) => name.as_str(),
            None => "",
        },
        None => "",
    }
}

/// Adds the names of columns.
fn add_columns(
    text: &mut String,
    alloc: Global,
    schema: &Schema,
    side: &Side,
    columns: &ColumnList,
) -> Result<(), AllocError>
    ensures { OnOk result (string_bytes text.new ≡ string_bytes text.old ++ columns_text schema.now side.now columns.now) }
{
    let mut names = Vec::new(alloc);
    for column in columns.as_slice() {
        names.push(column_name(schema, side, *column))?;
    }
    add_names(text, names.as_slice())
}

/// Adds the name of a column, and the value that a side asks for in it.
fn add_condition(
    text: &mut String,
    schema: &Schema,
    side: &Side,
    condition: &(u16, Value),
) -> Result<(), AllocError>
    ensures { OnOk result (string_bytes text.new ≡ string_bytes text.old ++ condition_text schema.now side.now condition.now) }
{
    let (column, value) = condition;
    text.push_str(column_name(schema, side, Col::At(*column)))?;
    text.push_str(" ")?;
    add_value(text, value)
}

/// Adds what the rows of a side have in common, as ` with kind 'gate'`, or nothing where the side has
/// the whole table.
fn add_filter(text: &mut String, schema: &Schema, side: &Side) -> Result<(), AllocError>
    ensures { OnOk result (string_bytes text.new ≡ string_bytes text.old ++ filter_text schema.now side.now side.now.filter) }
{
    let [first, others @ ..] = side.filter.as_slice() else {
        return Ok(());
    };
    text.push_str(" with ")?;
    add_condition(text, schema, side, first)?;
    for other in others {
        text.push_str(" and ")?;
        add_condition(text, schema, side, other)?;
    }
    Ok(())
}

/// Adds the table of a side, and what its rows have in common.
fn add_side(text: &mut String, schema: &Schema, side: &Side) -> Result<(), AllocError>
    ensures { OnOk result (string_bytes text.new ≡ string_bytes text.old ++ side_text schema.now side.now) }
{
    text.push_str(schema.name_of_table(side.table))?;
    add_filter(text, schema, side)
}

/// Returns the table of a side and what its rows have in common, as `valve with kind 'gate'`.
pub fn side_words(alloc: Global, schema: &Schema, side: &Side) -> Result<String, AllocError>
    ensures { IfOk result (λ text. string_bytes text ≡ side_text schema.now side.now) }
{
    let mut text = String::new(alloc);
    add_side(&mut text, schema, side)?;
    Ok(text)
}

/// Adds the name of a column, and what a row has in it.
fn add_field(
    text: &mut String,
    schema: &Schema,
    side: &Side,
    column: Col,
    held: Held<'_>,
) -> Result<(), AllocError>
    ensures { OnOk result (string_bytes text.new ≡ string_bytes text.old ++ field_text schema.now side.now (held_of held.entry) column) }
{
    text.push_str(column_name(schema, side, column))?;
    text.push_str(" ")?;
    let Col::At(at) = column else {
        let key = held.cell.key;
        return write!(text, "{key}");
    };
    match held.row.values.as_slice().get(at as usize) {
        Some(value) => add_value(text, value),
        None => Ok(()),
    }
}

/// Returns what a row has in columns, each behind its name, as `code 'D' and class 2`.
pub fn field_words(
    alloc: Global,
    schema: &Schema,
    side: &Side,
    columns: &ColumnList,
    held: Held<'_>,
) -> Result<String, AllocError>
    ensures { IfOk result (λ text. string_bytes text ≡ fields_text schema.now side.now (held_of held.entry) columns.now) }
{
    let mut text = String::new(alloc);
    let [first, others @ ..] = columns.as_slice() else {
        return Ok(text);
    };
    add_field(&mut text, schema, side, *first, held)?;
    for other in others {
        text.push_str(" and ")?;
        add_field(&mut text, schema, side, *other, held)?;
    }
    Ok(text)
}

/// Adds one row of a side, as `a valve with kind 'gate'`.
fn add_one(text: &mut String, schema: &Schema, side: &Side) -> Result<(), AllocError>
    ensures { OnOk result (string_bytes text.new ≡ string_bytes text.old ++ one_text schema.now side.now) }
{
    text.push_str(article(schema.name_of_table(side.table)))?;
    text.push_str(" ")?;
    add_side(text, schema, side)
}

/// Returns whether two sides are of one table, and neither has a filter.
fn are_one_table(a: &Side, b: &Side) -> bool
    ensures { result ≡ are_one_table a.now b.now }
{
    a.table == b.table && a.filter.as_slice().is_empty() && b.filter.as_slice().is_empty()
}

/// Adds the rows of two sides, as `two rows of main` or `a main and a pipe`.
fn add_two(text: &mut String, schema: &Schema, a: &Side, b: &Side) -> Result<(), AllocError>
    ensures { OnOk result (string_bytes text.new ≡ string_bytes text.old ++ two_text schema.now a.now b.now) }
{
    if are_one_table(a, b) {
        text.push_str("two rows of ")?;
        return add_side(text, schema, a);
    }
    add_one(text, schema, a)?;
    text.push_str(" and ")?;
    add_one(text, schema, b)
}

/// Returns the sentence of a rule that no two rows are alike.
fn unique_sentence(
    alloc: Global,
    schema: &Schema,
    subject: &Side,
    columns: &ColumnList,
) -> Result<String, AllocError>
    ensures { IfOk result (λ text. string_bytes text ≡ rule_sentence schema.now (Unique subject.now columns.now)) }
{
    let mut text = String::new(alloc);
    text.push_str("No two rows of ")?;
    add_side(&mut text, schema, subject)?;
    text.push_str(" have the same ")?;
    add_columns(&mut text, alloc, schema, subject, columns)?;
    text.push_str(".")?;
    Ok(text)
}

/// Returns the sentence of a rule that rows have a partner.
fn partner_sentence(
    alloc: Global,
    schema: &Schema,
    subject: &Side,
    columns: &ColumnList,
    server: &Side,
    server_columns: &ColumnList,
) -> Result<String, AllocError>
    ensures { IfOk result (λ text. string_bytes text ≡ rule_sentence schema.now (Partner subject.now columns.now server.now server_columns.now)) }
{
    let mut text = String::new(alloc);
    text.push_str("For each ")?;
    add_side(&mut text, schema, subject)?;
    text.push_str(" there is ")?;
    add_one(&mut text, schema, server)?;
    text.push_str(" whose ")?;
    add_columns(&mut text, alloc, schema, server, server_columns)?;
    text.push_str(" equals its ")?;
    add_columns(&mut text, alloc, schema, subject, columns)?;
    text.push_str(".")?;
    Ok(text)
}

/// Returns the sentence of a rule that a point stands at an end.
fn end_sentence(
    alloc: Global,
    schema: &Schema,
    subject: &Side,
    tip: Tip,
    server: &Side,
) -> Result<String, AllocError>
    ensures { IfOk result (λ text. string_bytes text ≡ rule_sentence schema.now (EndNode subject.now tip server.now)) }
{
    let mut text = String::new(alloc);
    text.push_str("At the ")?;
    text.push_str(tip_word(tip))?;
    text.push_str(" end of each ")?;
    add_side(&mut text, schema, subject)?;
    text.push_str(" stands ")?;
    add_one(&mut text, schema, server)?;
    text.push_str(".")?;
    Ok(text)
}

/// Returns the sentence of a rule that a point stands at each crossing.
fn crossing_sentence(
    alloc: Global,
    schema: &Schema,
    a: &Side,
    b: &Side,
    server: &Side,
) -> Result<String, AllocError>
    ensures { IfOk result (λ text. string_bytes text ≡ rule_sentence schema.now (Crossing a.now b.now server.now)) }
{
    let mut text = String::new(alloc);
    text.push_str("Where ")?;
    add_two(&mut text, schema, a, b)?;
    text.push_str(" cross or touch, there stands ")?;
    add_one(&mut text, schema, server)?;
    text.push_str(".")?;
    Ok(text)
}

/// Returns the sentence of a rule that points keep a distance.
fn near_sentence(
    alloc: Global,
    schema: &Schema,
    a: &Side,
    b: &Side,
    d: i64,
) -> Result<String, AllocError>
    ensures { IfOk result (λ text. string_bytes text ≡ rule_sentence schema.now (Near a.now b.now d)) }
{
    let mut text = String::new(alloc);
    let distance = Metres(d);
    text.push_str("Between ")?;
    add_two(&mut text, schema, a, b)?;
    text.push_str(" there are at least ")?;
    write!(text, "{distance}")?;
    text.push_str(" m.")?;
    Ok(text)
}

/// Returns a rule as a sentence of its own.
pub fn rule_sentence(alloc: Global, schema: &Schema, rule: &Rule) -> Result<String, AllocError>
    ensures { IfOk result (λ text. string_bytes text ≡ rule_sentence schema.now rule.now) }
{
    match rule {
        Rule::Unique { subject, columns } => unique_sentence(alloc, schema, subject, columns),
        Rule::Partner {
            subject,
            columns,
            server,
            server_columns,
        } => partner_sentence(alloc, schema, subject, columns, server, server_columns),
        Rule::EndNode {
            subject,
            tip,
            server,
        } => end_sentence(alloc, schema, subject, *tip, server),
        Rule::Crossing { a, b, server } => crossing_sentence(alloc, schema, a, b, server),
        Rule::Near { a, b, d } => near_sentence(alloc, schema, a, b, *d),
    }
}

/// Returns the word for an end.
fn tip_word(tip: Tip) -> &'static str
    ensures { result.now ≡ end_word tip }
{
    match tip {
        Tip::First => "first",
        Tip::Second => "second",
    }
}
