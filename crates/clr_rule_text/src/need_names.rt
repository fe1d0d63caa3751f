//! Names of needs that are known to be broken, as they are written in a rule.

ghost use Rattle.std.specs.Prelude.{◌≡◌};
ghost use Rattle.clr_readings.specs.Readings.{Gives};
ghost use Rattle.clr_rule_text.specs.Fields.{text_lacks_memory};
ghost use Rattle.clr_rule_text.specs.Known.{keys_and_parts as keys_and_parts_in, name_of_items, need_name_of, need_names_of};
ghost use Rattle.clr_rule_text.specs.Known.{one_key as one_key_in, two_keys as two_keys_in, whole_name};
ghost use Rattle.clr_rule_text.specs.Seen.{items_seen};

use crate::faults::TextFault;
use crate::fields::{list, number, optional_list};
use crate::formats::Format;
use crate::json_values::JsonValue;
use crate::lists::read_items;
use crate::named_rules::NamedRule;
use clr_rows::List;
use std::alloc::Global;

/// The name of a need, as it is written: the keys of the rows that it is of, that of the lesser cell first, and the
/// part of each, which is 1 where none is written. Each of these numbers may be out of range.
#[derive(Clone, Copy, Debug)]
pub struct NeedName {
    pub first: i64,
    pub second: Option<i64>,
    pub first_part: i64,
    pub second_part: i64,
}

/// Names of needs.
pub type NeedNames = List<NeedName>;

impl NeedName {
    fn of_keys(first: i64, second: Option<i64>) -> NeedName
        ensures { result ≡ whole_name first second }
    {
        NeedName {
            first,
            second,
            first_part: 1,
            second_part: 1,
        }
    }
}

#[tactic(auto, unfolding(crate::specs::Known::one_key))]
fn one_key<J: JsonValue>(items: &[J]) -> Result<NeedName, TextFault>
    ensures { Gives text_lacks_memory (λ n. n) result (one_key_in (items_seen J.stands_for items.now)) }
{
    match items {
        [key] => Ok(NeedName::of_keys(number(key)?, None)),
        _ => Err(TextFault::BadField),
    }
}

#[tactic(auto, unfolding(crate::specs::Known::two_keys))]
fn two_keys<J: JsonValue>(items: &[J]) -> Result<NeedName, TextFault>
    ensures { Gives text_lacks_memory (λ n. n) result (two_keys_in (items_seen J.stands_for items.now)) }
{
    match items {
        [first, second] => {
            let first = number(first)?;
            Ok(NeedName::of_keys(first, Some(number(second)?)))
        }
        _ => Err(TextFault::BadField),
    }
}

#[tactic(auto, unfolding(crate::specs::Known::keys_and_parts))]
fn keys_and_parts<J: JsonValue>(items: &[J]) -> Result<NeedName, TextFault>
    ensures { Gives text_lacks_memory (λ n. n) result (keys_and_parts_in (items_seen J.stands_for items.now)) }
{
    match items {
        [first, second, first_part, second_part] => {
            let first = number(first)?;
            let second = number(second)?;
            let first_part = number(first_part)?;
            let second_part = number(second_part)?;
            Ok(NeedName {
                first,
                second: Some(second),
                first_part,
                second_part,
            })
        }
        _ => two_keys(items),
    }
}

fn need_name_in<J: JsonValue>(named: &NamedRule, items: &[J]) -> Result<NeedName, TextFault>
    ensures { Gives text_lacks_memory (λ n. n) result (name_of_items named.now (items_seen J.stands_for items.now)) }
{
    match named {
        NamedRule::Unique { .. } | NamedRule::Near { .. } => two_keys(items),
        NamedRule::Partner { .. } | NamedRule::EndNode { .. } => one_key(items),
        NamedRule::Crossing { .. } => keys_and_parts(items),
    }
}

/// Returns the name of a need of a rule. Fails with `BadField` where it is no list of whole numbers, or has another
/// count of them than the needs of the rule's kind: the key of one row in a `Partner` and an `EndNode`, the keys of two
/// rows in the others, and in a `Crossing` the keys alone or the keys and the parts.
/// For example, in a `Crossing` it reads `[1,2]` as the first parts of rows 1 and 2, and fails for `[1]` and `[1,2,1]`.
#[tactic(auto, unfolding(crate::specs::Known::need_name_of))]
pub fn need_name<J: JsonValue>(named: &NamedRule, json: &J) -> Result<NeedName, TextFault>
    ensures { Gives text_lacks_memory (λ n. n) result (need_name_of named.now (J.stands_for json.now)) }
{
    need_name_in(named, list(json)?)
}

/// Returns the names of a rule's needs that are known to be broken. In formats 1 to 3 there are none, whatever the rule
/// has at the key `known`; in format 4 a missing list is empty. Fails with `BadField` where something else than a list is there, or where
/// `need_name` fails.
pub fn need_names<J: JsonValue>(
    alloc: Global,
    json: &J,
    format: Format,
    named: &NamedRule,
) -> Result<NeedNames, TextFault>
    ensures { Gives text_lacks_memory (λ v. v) result (need_names_of format named.now (J.stands_for json.now)) }
{
    match format {
        Format::First | Format::Second | Format::Third => Ok(NeedNames::new(Vec::new(alloc))),
        Format::Fourth => {
            let list = read_items(alloc, optional_list(json, "known")?, |item| {
                need_name(named, item)
            })?;
            Ok(NeedNames::new(list))
        }
    }
}
