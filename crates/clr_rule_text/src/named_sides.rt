//! Sides of rules with names of tables and columns, as they are written.

ghost use Rattle.std.specs.Prelude.{◌≡◌};
ghost use Rattle.clr_readings.specs.Readings.{Gives};
ghost use Rattle.clr_rule_text.specs.Fields.{text_lacks_memory};
ghost use Rattle.clr_rule_text.specs.Seen.{items_seen};
ghost use Rattle.clr_rule_text.specs.Rules.{filter_of, literal_of, literal_pair, list_of_words_at, side_at, side_of};

use crate::faults::TextFault;
use crate::fields::{field, list, list_in, optional_list, words, words_from, words_in};
use crate::json_values::JsonValue;
use crate::lists::read_items;
use crate::values::value;
use clr_rows::{List, Value, Words};
use std::alloc::Global;

/// Literals beside the names of their columns, which may be unknown.
pub type NamedFilter = List<(Words, Value)>;

/// Names of columns, which may be unknown.
pub type ColumnNames = List<Words>;

/// A side of a rule with the name of its table, which may be unknown.
#[derive(Debug, Drop)]
pub struct NamedSide {
    pub table: Words,
    pub filter: NamedFilter,
}

#[tactic(auto, unfolding(crate::specs::Rules::literal_pair))]
fn literal_of_pair<J: JsonValue>(alloc: Global, items: &[J]) -> Result<(Words, Value), TextFault>
    ensures { Gives text_lacks_memory (λ p. p) result (literal_pair (items_seen J.stands_for items.now)) }
{
    match items {
        [name, literal] => {
            let name = words_from(alloc, words(name)?)?;
            Ok((name, value(alloc, literal)?))
        }
        _ => Err(TextFault::BadField),
    }
}

#[tactic(auto, unfolding(crate::specs::Rules::literal_of))]
fn literal<J: JsonValue>(alloc: Global, json: &J) -> Result<(Words, Value), TextFault>
    ensures { Gives text_lacks_memory (λ p. p) result (literal_of (J.stands_for json.now)) }
{
    literal_of_pair(alloc, list(json)?)
}

#[tactic(auto, unfolding(crate::specs::Rules::filter_of))]
fn filter<J: JsonValue>(alloc: Global, json: &J) -> Result<NamedFilter, TextFault>
    ensures { Gives text_lacks_memory (λ f. f) result (filter_of (J.stands_for json.now)) }
{
    let list = read_items(alloc, optional_list(json, "where")?, |item| {
        literal(alloc, item)
    })?;
    Ok(NamedFilter::new(list))
}

#[tactic(auto, unfolding(crate::specs::Rules::side_of))]
fn side<J: JsonValue>(alloc: Global, json: &J) -> Result<NamedSide, TextFault>
    ensures { Gives text_lacks_memory (λ s. s) result (side_of (J.stands_for json.now)) }
{
    let table = words_in(alloc, json, "table")?;
    let filter = filter(alloc, json)?;
    Ok(NamedSide { table, filter })
}

/// Returns the side at a key. Fails with `BadField` where there is none.
#[tactic(auto, unfolding(crate::specs::Rules::side_at))]
pub fn side_in<J: JsonValue>(alloc: Global, json: &J, key: &str) -> Result<NamedSide, TextFault>
    ensures { Gives text_lacks_memory (λ s. s) result (side_at key.now (J.stands_for json.now)) }
{
    side(alloc, field(json, key)?)
}

/// Returns the list of names at a key. Fails with `BadField` where there is none.
#[tactic(auto, unfolding(crate::specs::Rules::list_of_words_at))]
pub fn names_in<J: JsonValue>(alloc: Global, json: &J, key: &str) -> Result<ColumnNames, TextFault>
    ensures { Gives text_lacks_memory (λ v. v) result (list_of_words_at key.now (J.stands_for json.now)) }
{
    let list = read_items(alloc, list_in(json, key)?, |item| {
        words_from(alloc, words(item)?)
    })?;
    Ok(ColumnNames::new(list))
}
