//! How many of some broken needs are of each rule, in words.

ghost use Rattle.std.specs.Prelude.{◌≡◌, ◌++◌, count_by, OnOk};
ghost use Rattle.clr_old_errors.specs.RuleCounts.{is_of_rule, rule_count_text, rule_counts_text};

use clr_lines::add_count;
use clr_phrases::rule_sentence;
use clr_rows::Schema;
use clr_rules::{Broken, Rule, RuleBook};
use std::alloc::{AllocError, Global};

/// Returns how many of some needs are of the rule of a number.
pub fn count_of_rule(needs: &[Broken], number: u16) -> usize
    ensures { result ≡ count_by (is_of_rule number) needs.now }
{
    needs.iter().filter(|need| need.rule == number).count()
}

/// Adds how many of some needs are of a rule, its number and its sentence, on a line; and nothing where none is of it.
pub fn add_rule_count(
    alloc: Global,
    lines: &mut Vec<u8>,
    schema: &Schema,
    needs: &[Broken],
    number: u16,
    rule: &Rule,
) -> Result<(), AllocError>
    ensures { OnOk result (lines.new.items ≡ lines.old.items ++ rule_count_text schema.now needs.now (number, rule.now)) }
{
    let count = count_of_rule(needs, number);
    if count == 0 {
        return Ok(());
    }
    let sentence = rule_sentence(alloc, schema, rule)?;
    add_count(lines, count)?;
    lines.extend_from_slice(b" of rule ")?;
    add_count(lines, number as usize)?;
    lines.extend_from_slice(b": ")?;
    lines.extend_from_slice(sentence.as_bytes())?;
    lines.extend_from_slice(b"\n")
}

/// Adds how many of some needs are of each rule of a book that has one of them, ascending, a line each, as
/// `2 of rule 0: No two rows of main have the same code.`
#[tactic(auto, unfolding(crate::specs::RuleCounts::rule_counts_text))]
pub fn add_rule_counts(
    alloc: Global,
    lines: &mut Vec<u8>,
    schema: &Schema,
    book: &RuleBook,
    needs: &[Broken],
) -> Result<(), AllocError>
    ensures { OnOk result (lines.new.items ≡ lines.old.items ++ rule_counts_text schema.now book.now needs.now) }
{
    let _small = book.len();
    let rules = book.rules();
    for at in 0..rules.len() {
        add_rule_count(alloc, lines, schema, needs, at as u16, &rules[at])?;
    }
    Ok(())
}
