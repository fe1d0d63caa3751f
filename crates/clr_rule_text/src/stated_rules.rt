//! Rules beside their needs that are known to be broken, as they are written.

ghost use Rattle.std.specs.Prelude.{◌≡◌, map, IfOk};
ghost use Rattle.clr_readings.specs.Readings.{Gives};
ghost use Rattle.clr_rule_text.specs.Fields.{text_lacks_memory};
ghost use Rattle.clr_rule_text.specs.Rules.{stated_rule_of, stated_rules_of};

use crate::faults::TextFault;
use crate::fields::optional_list;
use crate::formats::Format;
use crate::json_values::JsonValue;
use crate::lists::read_items;
use crate::named_rules::{NamedRule, named_rule};
use crate::need_names::{NeedNames, need_names};
use std::alloc::{AllocError, Global};

/// A rule as it is written, and the names of its needs that are known to be broken.
#[derive(Debug, Drop)]
pub struct StatedRule {
    pub rule: NamedRule,
    pub known: NeedNames,
}

/// Returns a rule of an office text with its names. Fails with `BadField` where a key is missing, or a value is
/// none of those that may stand there: first in what makes the rule, and then in its known needs, which formats 1 to 3
/// don't have.
#[tactic(auto, unfolding(crate::specs::Rules::stated_rule_of))]
pub fn stated_rule<J: JsonValue>(
    alloc: Global,
    json: &J,
    format: Format,
) -> Result<StatedRule, TextFault>
    ensures { Gives text_lacks_memory (λ s. s) result (stated_rule_of format (J.stands_for json.now)) }
{
    let rule = named_rule(alloc, json)?;
    let known = need_names(alloc, json, format, &rule)?;
    Ok(StatedRule { rule, known })
}

/// Returns the rules of an office text with their names; a missing list is empty. Fails with
/// `BadField` where `stated_rule` does for one of them.
#[tactic(auto, unfolding(crate::specs::Rules::stated_rules_of))]
pub fn stated_rules<J: JsonValue>(
    alloc: Global,
    json: &J,
    format: Format,
) -> Result<Vec<StatedRule>, TextFault>
    ensures { Gives text_lacks_memory (λ v. v.items) result (stated_rules_of format (J.stands_for json.now)) }
{
    read_items(alloc, optional_list(json, "rules")?, |item| {
        stated_rule(alloc, item, format)
    })
}

/// Returns the rules of a list, and the names of each one's known needs.
pub fn parted(
    alloc: Global,
    stated: Vec<StatedRule>,
) -> Result<(Vec<NamedRule>, Vec<NeedNames>), AllocError>
    ensures rules { IfOk result (λ p. p.0.items ≡ map (λ s. s.rule) stated.items) }
    ensures known { IfOk result (λ p. p.1.items ≡ map (λ s. s.known) stated.items) }
{
    let mut rules = Vec::new(alloc);
    let mut known = Vec::new(alloc);
    for one in stated {
        let StatedRule { rule, known: names } = one;
        rules.push(rule)?;
        known.push(names)?;
    }
    Ok((rules, known))
}
