//! Needs that are known to be broken, over the schema.

ghost use Rattle.std.specs.Prelude.{◌≡◌, length, max, min};
ghost use Rattle.clr_readings.specs.Readings.{Gives};
ghost use Rattle.clr_rule_text.specs.Fields.{each_in, text_lacks_memory};
ghost use Rattle.clr_rule_text.specs.Known.{greater_table, known_cell as cell_meant, known_need, known_needs as needs_meant};
ghost use Rattle.clr_rule_text.specs.Known.{known_part as part_meant, lesser_table, second_cell as second_meant};

use crate::faults::TextFault;
use crate::lists::read_each;
use crate::need_names::{NeedName, NeedNames};
use clr_rows::{CellId, List, MOST_VERTICES, Schema};
use clr_rules::{Broken, Rule, RuleBook, Side};
use std::alloc::Global;

/// Needs that are known to be broken.
pub type KnownNeeds = List<Broken>;

/// Returns the lesser and the greater number of the tables of two sides.
fn tables_of_two(a: &Side, b: &Side) -> (u16, u16)
    ensures lesser { result.0 ≡ min a.now.table b.now.table }
    ensures greater { result.1 ≡ max a.now.table b.now.table }
{
    (a.table.min(b.table), a.table.max(b.table))
}

/// Returns the tables of the lesser and of the greater cell of a rule's subjects, one table twice where its sides are of one.
pub fn subject_tables(rule: &Rule) -> (u16, u16)
    ensures lesser { result.0 ≡ lesser_table rule.now }
    ensures greater { result.1 ≡ greater_table rule.now }
{
    match rule {
        Rule::Unique { subject, .. }
        | Rule::Partner { subject, .. }
        | Rule::EndNode { subject, .. } => (subject.table, subject.table),
        Rule::Crossing { a, b, .. } | Rule::Near { a, b, .. } => tables_of_two(a, b),
    }
}

/// Returns the cell of a key in a table. Fails with `BadRule` where no row could stand there: the key isn't 1 to
/// 999,999,999,999,999.
pub fn known_cell(schema: &Schema, table: u16, key: i64) -> Result<CellId, TextFault>
    ensures { result ≡ cell_meant schema.now table key }
{
    let cell = CellId { table, key };
    match schema.names_cell(cell) {
        Ok(()) => Ok(cell),
        Err(_) => Err(TextFault::BadRule),
    }
}

fn second_cell(
    schema: &Schema,
    first: CellId,
    table: u16,
    key: Option<i64>,
) -> Result<Option<CellId>, TextFault>
    ensures { result ≡ second_meant schema.now first table key }
{
    let Some(key) = key else {
        return Ok(None);
    };
    let second = known_cell(schema, table, key)?;
    if first < second {
        Ok(Some(second))
    } else {
        Err(TextFault::BadRule)
    }
}

/// Returns the number of a part. Fails with `BadRule` where it isn't 1 to 31, so that no path has it.
pub fn known_part(number: i64) -> Result<u16, TextFault>
    ensures { result ≡ part_meant number }
{
    if number >= 1 && number < MOST_VERTICES as i64 {
        Ok(number as u16)
    } else {
        Err(TextFault::BadRule)
    }
}

/// Returns the need of a rule that a name is. Fails with `BadRule` where a key isn't 1 to 999,999,999,999,999, a part
/// isn't 1 to 31, or the cells don't ascend.
#[tactic(auto, unfolding(crate::specs::Known::known_need))]
pub fn need(schema: &Schema, number: u16, rule: &Rule, name: &NeedName) -> Result<Broken, TextFault>
    ensures { result ≡ known_need schema.now number rule.now name.now }
{
    let tables = subject_tables(rule);
    let first = known_cell(schema, tables.0, name.first)?;
    let second = second_cell(schema, first, tables.1, name.second)?;
    let first_part = known_part(name.first_part)?;
    let second_part = known_part(name.second_part)?;
    Ok(Broken {
        rule: number,
        first,
        second,
        first_part,
        second_part,
    })
}

/// Returns the need of a rule that a name is, or its fault.
#[tactic(auto, using(crate::proofs::KnownLemmas::given_exactly))]
fn need_or_fault(
    schema: &Schema,
    number: u16,
    rule: &Rule,
    name: &NeedName,
) -> Result<Broken, TextFault>
    ensures { Gives text_lacks_memory (λ b. b) result (known_need schema.now number rule.now name.now) }
{
    need(schema, number, rule, name)
}

fn needs_of_rule(
    alloc: Global,
    schema: &Schema,
    number: u16,
    rule: &Rule,
    names: &[NeedName],
) -> Result<Vec<Broken>, TextFault>
    ensures { Gives text_lacks_memory (λ v. v.items) result (each_in (known_need schema.now number rule.now) names.now) }
{
    read_each(alloc, names, |name| {
        need_or_fault(schema, number, rule, name)
    })
}

/// Returns the needs of the rules of a book by the names that each rule has, in the order in which they are written. There is
/// a list of names for each rule.
/// Fails with the fault of the first name for which `need` fails.
pub(crate) fn known_needs(
    alloc: Global,
    schema: &Schema,
    book: &RuleBook,
    names: &[NeedNames],
) -> Result<Vec<Broken>, TextFault>
    requires { length names.now ≡ length book.now }
    ensures { Gives text_lacks_memory (λ v. v.items) result (needs_meant schema.now 0 book.now names.now) }
{
    let mut all = Vec::new(alloc);
    let _small = book.len();
    for (number, of_rule) in names.iter().enumerate() {
        let rule = book.rule(number as u16);
        let mut needs = needs_of_rule(alloc, schema, number as u16, rule, of_rule.as_slice())?;
        all.append(&mut needs)?;
    }
    Ok(all)
}
