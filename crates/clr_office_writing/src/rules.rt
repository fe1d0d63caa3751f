//! Rules of a book, written as JSON.

ghost use Rattle.std.specs.Prelude.{◌≡◌, ◌++◌, map, IfOk, OnOk};
ghost use Rattle.std.specs.Option.{option_map};
ghost use Rattle.clr_rules.specs.declared.rules.Rule.TheVariants.{Unique, Partner, EndNode, Crossing, Near};
ghost use Rattle.clr_office_writing.specs.RuleData.{literal_data, name_of_number, named_columns, named_literal, named_rule, named_rule_data, rule_data};
ghost use Rattle.clr_office_writing.specs.RuleData.{named_side, names_data, rules_data, side_data, tip_word};
ghost use Rattle.clr_office_writing.specs.Tokens.{tokens_of};
ghost use Rattle.clr_office_writing.specs.Values.{list_data};

use crate::json_texts::JsonText;
use crate::known_needs::{needs_of_rule, write_known};
use crate::lists::write_each;
use crate::names::{column_name, numbered_name, write_value};
use clr_rows::{Schema, Value, Words};
use clr_rules::{Broken, Col, Rule, RuleBook, Side, Tip};
use std::alloc::{AllocError, Global};

fn write_literal(
    text: &mut JsonText,
    schema: &Schema,
    table: u16,
    column: u16,
    value: &Value,
) -> Result<(), AllocError>
    ensures { OnOk result (text.new ≡ text.old ++ tokens_of (literal_data (name_of_number schema.now table column, value.now))) }
{
    text.begin_array()?;
    text.string(numbered_name(schema, table, column))?;
    write_value(text, value)?;
    text.end_array()
}

fn write_filter(
    text: &mut JsonText,
    schema: &Schema,
    table: u16,
    filter: &[(u16, Value)],
) -> Result<(), AllocError>
    ensures { OnOk result (text.new ≡ text.old ++ tokens_of (list_data literal_data (map (named_literal schema.now table) filter.now))) }
{
    write_each::<(Words, Value), _, _>(text, filter, |text, (column, value)| {
        write_literal(text, schema, table, *column, value)
    })
}

fn write_side(text: &mut JsonText, schema: &Schema, side: &Side) -> Result<(), AllocError>
    ensures { OnOk result (text.new ≡ text.old ++ tokens_of (side_data (named_side schema.now side.now))) }
{
    text.begin_object()?;
    text.key("table")?;
    text.string(schema.name_of_table(side.table))?;
    text.key("where")?;
    write_filter(text, schema, side.table, side.filter.as_slice())?;
    text.end_object()
}

fn write_columns(
    text: &mut JsonText,
    schema: &Schema,
    side: &Side,
    columns: &[Col],
) -> Result<(), AllocError>
    ensures { OnOk result (text.new ≡ text.old ++ tokens_of (names_data (named_columns schema.now side.now columns.now))) }
{
    write_each::<Words, _, _>(text, columns, |text, column| {
        text.string(column_name(schema, side.table, *column))
    })
}

fn tip_text(tip: Tip) -> &'static str
    ensures { result.now ≡ tip_word tip }
{
    match tip {
        Tip::First => "FIRST",
        Tip::Second => "SECOND",
    }
}

fn write_unique(
    text: &mut JsonText,
    schema: &Schema,
    subject: &Side,
    columns: &[Col],
    known: Option<&[Broken]>,
) -> Result<(), AllocError>
    ensures { OnOk result (text.new ≡ text.old
        ++ tokens_of (named_rule_data (option_map (λ v. v.now) known.entry) (named_rule schema.now (Unique subject.now columns.now)))) }
{
    text.begin_object()?;
    text.key("columns")?;
    write_columns(text, schema, subject, columns)?;
    text.key("kind")?;
    text.string("UNIQUE")?;
    write_known(text, known)?;
    text.key("subject")?;
    write_side(text, schema, subject)?;
    text.end_object()
}

fn write_partner(
    text: &mut JsonText,
    schema: &Schema,
    subject: &Side,
    columns: &[Col],
    server: &Side,
    server_columns: &[Col],
    known: Option<&[Broken]>,
) -> Result<(), AllocError>
    ensures { OnOk result (text.new ≡ text.old
        ++ tokens_of (named_rule_data (option_map (λ v. v.now) known.entry)
        (named_rule schema.now (Partner subject.now columns.now server.now server_columns.now)))) }
{
    text.begin_object()?;
    text.key("columns")?;
    write_columns(text, schema, subject, columns)?;
    text.key("kind")?;
    text.string("PARTNER")?;
    write_known(text, known)?;
    text.key("server")?;
    write_side(text, schema, server)?;
    text.key("server_columns")?;
    write_columns(text, schema, server, server_columns)?;
    text.key("subject")?;
    write_side(text, schema, subject)?;
    text.end_object()
}

fn write_end_node(
    text: &mut JsonText,
    schema: &Schema,
    subject: &Side,
    tip: Tip,
    server: &Side,
    known: Option<&[Broken]>,
) -> Result<(), AllocError>
    ensures { OnOk result (text.new ≡ text.old
        ++ tokens_of (named_rule_data (option_map (λ v. v.now) known.entry) (named_rule schema.now (EndNode subject.now tip server.now)))) }
{
    text.begin_object()?;
    text.key("kind")?;
    text.string("ENDNODE")?;
    write_known(text, known)?;
    text.key("server")?;
    write_side(text, schema, server)?;
    text.key("subject")?;
    write_side(text, schema, subject)?;
    text.key("tip")?;
    text.string(tip_text(tip))?;
    text.end_object()
}

fn write_crossing(
    text: &mut JsonText,
    schema: &Schema,
    a: &Side,
    b: &Side,
    server: &Side,
    known: Option<&[Broken]>,
) -> Result<(), AllocError>
    ensures { OnOk result (text.new ≡ text.old
        ++ tokens_of (named_rule_data (option_map (λ v. v.now) known.entry) (named_rule schema.now (Crossing a.now b.now server.now)))) }
{
    text.begin_object()?;
    text.key("a")?;
    write_side(text, schema, a)?;
    text.key("b")?;
    write_side(text, schema, b)?;
    text.key("kind")?;
    text.string("CROSSING")?;
    write_known(text, known)?;
    text.key("server")?;
    write_side(text, schema, server)?;
    text.end_object()
}

fn write_near(
    text: &mut JsonText,
    schema: &Schema,
    a: &Side,
    b: &Side,
    d: i64,
    known: Option<&[Broken]>,
) -> Result<(), AllocError>
    ensures { OnOk result (text.new ≡ text.old
        ++ tokens_of (named_rule_data (option_map (λ v. v.now) known.entry) (named_rule schema.now (Near a.now b.now d)))) }
{
    text.begin_object()?;
    text.key("a")?;
    write_side(text, schema, a)?;
    text.key("b")?;
    write_side(text, schema, b)?;
    text.key("d")?;
    text.number(d)?;
    text.key("kind")?;
    text.string("NEAR")?;
    write_known(text, known)?;
    text.end_object()
}

fn write_rule(
    text: &mut JsonText,
    schema: &Schema,
    rule: &Rule,
    known: Option<&[Broken]>,
) -> Result<(), AllocError>
    ensures { OnOk result (text.new ≡ text.old
        ++ tokens_of (named_rule_data (option_map (λ v. v.now) known.entry) (named_rule schema.now rule.now))) }
{
    match rule {
        Rule::Unique { subject, columns } => {
            write_unique(text, schema, subject, columns.as_slice(), known)
        }
        Rule::Partner {
            subject,
            columns,
            server,
            server_columns,
        } => write_partner(
            text,
            schema,
            subject,
            columns.as_slice(),
            server,
            server_columns.as_slice(),
            known,
        ),
        Rule::EndNode {
            subject,
            tip,
            server,
        } => write_end_node(text, schema, subject, *tip, server, known),
        Rule::Crossing { a, b, server } => write_crossing(text, schema, a, b, server, known),
        Rule::Near { a, b, d } => write_near(text, schema, a, b, *d, known),
    }
}

/// Writes the rule of a number with its known needs, where any rule has some.
fn write_numbered(
    alloc: Global,
    text: &mut JsonText,
    schema: &Schema,
    known: &[Broken],
    number: u16,
    rule: &Rule,
) -> Result<(), AllocError>
    ensures { OnOk result (text.new ≡ text.old ++ tokens_of (rule_data schema.now known.now (number, rule.now))) }
{
    if known.is_empty() {
        return write_rule(text, schema, rule, None);
    }
    let needs = needs_of_rule(alloc, known, number)?;
    write_rule(text, schema, rule, Some(needs.as_slice()))
}

fn write_rules(
    alloc: Global,
    text: &mut JsonText,
    schema: &Schema,
    book: &RuleBook,
    known: &[Broken],
) -> Result<(), AllocError>
    ensures { OnOk result (text.new ≡ text.old ++ tokens_of (rules_data schema.now book.now known.now)) }
{
    let _small = book.len();
    let rules = book.rules();
    text.begin_array()?;
    for (number, rule) in rules.iter().enumerate() {
        write_numbered(alloc, text, schema, known, number as u16, rule)?;
    }
    text.end_array()
}

/// Returns a text with the rules of a book written at its end, in their order, with the names that
/// the schema has for tables and columns. Where some needs are known to be broken, each rule has a list of its own,
/// in their order. If memory runs out, the text is dropped.
pub fn with_rules(
    alloc: Global,
    mut text: JsonText,
    schema: &Schema,
    book: &RuleBook,
    known: &[Broken],
) -> Result<JsonText, AllocError>
    ensures { IfOk result (λ longer. longer ≡ text ++ tokens_of (rules_data schema.now book.now known.now)) }
{
    write_rules(alloc, &mut text, schema, book, known)?;
    Ok(text)
}
