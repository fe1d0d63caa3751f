//! Rules over a schema, made of rules with names.

ghost use Rattle.std.specs.Prelude.{◌≡◌, IfOk};
ghost use Rattle.clr_rules.specs.Books.{FitsBook};
ghost use Rattle.clr_readings.specs.Readings.{Gives};
ghost use Rattle.clr_rule_text.specs.Fields.{each_in, text_lacks_memory};
ghost use Rattle.clr_rule_text.specs.Rules.{column_number as number_meant, column_over, columns_over, crossing_over, end_node_over};
ghost use Rattle.clr_rule_text.specs.Rules.{literal_over, near_over, partner_over, rule_over, rules_of, side_over, unique_over};

use crate::faults::TextFault;
use crate::formats::Format;
use crate::json_values::JsonValue;
use crate::known_needs::{KnownNeeds, known_needs};
use crate::lists::{make_each, read_each};
use crate::named_rules::NamedRule;
use crate::named_sides::{ColumnNames, NamedSide};
use crate::stated_rules::{parted, stated_rules};
use clr_rows::{KEY, Schema, Value, Words};
use clr_rules::{Col, ColumnList, Filter, Rule, RuleBook, Side, Tip};
use std::alloc::Global;

fn column_number(schema: &Schema, table: u16, name: &Words) -> Result<u16, TextFault>
    ensures { Gives text_lacks_memory (λ n. n) result (number_meant schema.now table name.now) }
{
    match schema.column(table, name.as_str()) {
        Some(number) => Ok(number),
        None => Err(TextFault::BadRule),
    }
}

fn literal(schema: &Schema, table: u16, named: (Words, Value)) -> Result<(u16, Value), TextFault>
    ensures { Gives text_lacks_memory (λ l. l) result (literal_over schema.now table named) }
{
    let number = column_number(schema, table, &named.0)?;
    Ok((number, named.1))
}

#[tactic(auto, unfolding(crate::specs::Rules::side_over))]
fn side(alloc: Global, schema: &Schema, named: NamedSide) -> Result<Side, TextFault>
    ensures { Gives text_lacks_memory (λ s. s) result (side_over schema.now named) }
{
    let Some(table) = schema.table(named.table.as_str()) else {
        return Err(TextFault::BadRule);
    };
    let literals = make_each(alloc, named.filter.into_vec(), |item| {
        literal(schema, table, item)
    })?;
    Ok(Side {
        table,
        filter: Filter::new(literals),
    })
}

fn column(schema: &Schema, table: u16, name: &Words) -> Result<Col, TextFault>
    ensures { Gives text_lacks_memory (λ c. c) result (column_over schema.now table name.now) }
{
    if name.as_str() == KEY {
        return Ok(Col::Key);
    }
    Ok(Col::At(column_number(schema, table, name)?))
}

fn columns(
    alloc: Global,
    schema: &Schema,
    table: u16,
    names: &ColumnNames,
) -> Result<ColumnList, TextFault>
    ensures { Gives text_lacks_memory (λ v. v) result (columns_over schema.now table names.now) }
{
    let list = read_each(alloc, names.as_slice(), |name| column(schema, table, name))?;
    Ok(ColumnList::new(list))
}

#[tactic(auto, unfolding(crate::specs::Rules::unique_over))]
fn unique(
    alloc: Global,
    schema: &Schema,
    subject: NamedSide,
    names: ColumnNames,
) -> Result<Rule, TextFault>
    ensures { Gives text_lacks_memory (λ r. r) result (unique_over schema.now subject names) }
{
    let subject = side(alloc, schema, subject)?;
    let columns = columns(alloc, schema, subject.table, &names)?;
    Ok(Rule::Unique { subject, columns })
}

#[tactic(auto, unfolding(crate::specs::Rules::partner_over))]
fn partner(
    alloc: Global,
    schema: &Schema,
    subject: NamedSide,
    names: ColumnNames,
    server: NamedSide,
    server_names: ColumnNames,
) -> Result<Rule, TextFault>
    ensures { Gives text_lacks_memory (λ r. r) result (partner_over schema.now subject names server server_names) }
{
    let subject = side(alloc, schema, subject)?;
    let own_columns = columns(alloc, schema, subject.table, &names)?;
    let server = side(alloc, schema, server)?;
    let server_columns = columns(alloc, schema, server.table, &server_names)?;
    Ok(Rule::Partner {
        subject,
        columns: own_columns,
        server,
        server_columns,
    })
}

#[tactic(auto, unfolding(crate::specs::Rules::end_node_over))]
fn end_node(
    alloc: Global,
    schema: &Schema,
    subject: NamedSide,
    tip: Tip,
    server: NamedSide,
) -> Result<Rule, TextFault>
    ensures { Gives text_lacks_memory (λ r. r) result (end_node_over schema.now subject tip server) }
{
    let subject = side(alloc, schema, subject)?;
    let server = side(alloc, schema, server)?;
    Ok(Rule::EndNode {
        subject,
        tip,
        server,
    })
}

#[tactic(auto, unfolding(crate::specs::Rules::crossing_over))]
fn crossing(
    alloc: Global,
    schema: &Schema,
    a: NamedSide,
    b: NamedSide,
    server: NamedSide,
) -> Result<Rule, TextFault>
    ensures { Gives text_lacks_memory (λ r. r) result (crossing_over schema.now a b server) }
{
    let a = side(alloc, schema, a)?;
    let b = side(alloc, schema, b)?;
    let server = side(alloc, schema, server)?;
    Ok(Rule::Crossing { a, b, server })
}

#[tactic(auto, unfolding(crate::specs::Rules::near_over))]
fn near(
    alloc: Global,
    schema: &Schema,
    a: NamedSide,
    b: NamedSide,
    d: i64,
) -> Result<Rule, TextFault>
    ensures { Gives text_lacks_memory (λ r. r) result (near_over schema.now a b d) }
{
    let a = side(alloc, schema, a)?;
    let b = side(alloc, schema, b)?;
    Ok(Rule::Near { a, b, d })
}

/// Returns a rule with its tables and columns by their numbers. Fails with `BadRule` where the schema hasn't a
/// table or a column of a name.
pub fn rule(alloc: Global, schema: &Schema, named: NamedRule) -> Result<Rule, TextFault>
    ensures { Gives text_lacks_memory (λ r. r) result (rule_over schema.now named) }
{
    match named {
        NamedRule::Unique { subject, columns } => unique(alloc, schema, subject, columns),
        NamedRule::Partner {
            subject,
            columns,
            server,
            server_columns,
        } => partner(alloc, schema, subject, columns, server, server_columns),
        NamedRule::EndNode {
            subject,
            tip,
            server,
        } => end_node(alloc, schema, subject, tip, server),
        NamedRule::Crossing { a, b, server } => crossing(alloc, schema, a, b, server),
        NamedRule::Near { a, b, d } => near(alloc, schema, a, b, d),
    }
}

/// Returns rules with their tables and columns by number. Fails with the fault of the first rule for which `rule` fails.
pub fn each_rule(
    alloc: Global,
    schema: &Schema,
    named: Vec<NamedRule>,
) -> Result<Vec<Rule>, TextFault>
    ensures { Gives text_lacks_memory (λ v. v.items) result (each_in (rule_over schema.now) named.items) }
{
    make_each(alloc, named, |item| rule(alloc, schema, item))
}

/// The rules of an office text: a book, and the needs of its rules that are known to be broken, rule by rule in the
/// order in which they are written.
#[derive(Drop)]
pub struct BookText {
    pub book: RuleBook,
    pub known: KnownNeeds,
}

/// Returns the book of the rules of an office text and their known needs; a missing list is empty. Fails with `BadField`
/// where a key is missing in one of the rules, or a value is none of those that may stand there,
/// and then with `BadRule` where the schema hasn't a table or a column of a name, or the rules make
/// no book over the schema, or a known need is one that its rule can't have.
#[tactic(auto, unfolding(crate::specs::Rules::rules_of))]
pub fn read_rules<J: JsonValue>(
    alloc: Global,
    json: &J,
    format: Format,
    schema: &Schema,
) -> Result<BookText, TextFault>
    ensures value { Gives text_lacks_memory (λ b. (b.book, b.known)) result (rules_of format schema.now (J.stands_for json.now)) }
    ensures fits { IfOk result (λ b. FitsBook schema.now b.book) }
{
    let parts = parted(alloc, stated_rules(alloc, json, format)?)?;
    let rules = each_rule(alloc, schema, parts.0)?;
    let Ok(book) = RuleBook::new(schema, rules) else {
        return Err(TextFault::BadRule);
    };
    let known = known_needs(alloc, schema, &book, parts.1.as_slice())?;
    Ok(BookText {
        book,
        known: KnownNeeds::new(known),
    })
}
