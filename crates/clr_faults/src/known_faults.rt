//! The first known need that its rule can't have.

ghost use Rattle.std.specs.Prelude.{◌≡◌, length, IfOk};
ghost use Rattle.serde_json.specs.View.{view};
ghost use Rattle.clr_faults.specs.KnownFaults.{bad_need_stated, first_bad_name, first_bad_need, known_fault_of, need_fault as need_fault_meant};
ghost use Rattle.clr_faults.specs.KnownFaults.{part_fault as part_fault_meant, second_fault as second_fault_meant};

use crate::memory::unless_lost;
use clr_office_reading::formats::Format;
use clr_office_reading::rules::each_rule;
use clr_office_reading::stated_rules::{StatedRule, parted, stated_rules};
use clr_rows::{CellId, Schema};
use clr_rule_text::known_needs::{known_cell, known_part, subject_tables};
use clr_rule_text::need_names::{NeedName, NeedNames};
use clr_rules::{Rule, RuleBook};
use serde_json::Value as Json;
use std::alloc::{AllocError, Global};

/// Why the name of a known need is no need of its rule: the first reason that applies.
#[derive(Clone, Copy, Debug, PartialEq, Eq)]
pub enum NeedFault {
    /// The first key is out of range.
    FirstKey,
    /// The second key is out of range.
    SecondKey,
    /// The second cell isn't greater than the first.
    NotAscending,
    /// The first part is out of range.
    FirstPart,
    /// The second part is out of range.
    SecondPart,
}

/// A known need that its rule can't have: the rule's number, the place of the name in the rule's list, from 0, and why.
#[derive(Clone, Copy, Debug, PartialEq, Eq)]
pub struct BadNeed {
    pub rule: usize,
    pub place: usize,
    pub fault: NeedFault,
}

fn part_fault(name: &NeedName) -> Option<NeedFault>
    ensures { result ≡ part_fault_meant name.now }
{
    if known_part(name.first_part).is_err() {
        return Some(NeedFault::FirstPart);
    }
    if known_part(name.second_part).is_err() {
        return Some(NeedFault::SecondPart);
    }
    None
}

/// Returns what is wrong behind the first key.
fn second_fault(schema: &Schema, rule: &Rule, name: &NeedName) -> Option<NeedFault>
    ensures { result ≡ second_fault_meant schema.now rule.now name.now name.now.second }
{
    let Some(key) = name.second else {
        return part_fault(name);
    };
    let tables = subject_tables(rule);
    if known_cell(schema, tables.1, key).is_err() {
        return Some(NeedFault::SecondKey);
    }
    let first = CellId {
        table: tables.0,
        key: name.first,
    };
    let second = CellId {
        table: tables.1,
        key,
    };
    if first < second {
        part_fault(name)
    } else {
        Some(NeedFault::NotAscending)
    }
}

/// Returns why a name is no need of a rule, or none where it is one.
#[tactic(auto, unfolding(crate::specs::KnownFaults::need_fault))]
fn need_fault(schema: &Schema, rule: &Rule, name: &NeedName) -> Option<NeedFault>
    ensures { result ≡ need_fault_meant schema.now rule.now name.now }
{
    let tables = subject_tables(rule);
    if known_cell(schema, tables.0, name.first).is_err() {
        return Some(NeedFault::FirstKey);
    }
    second_fault(schema, rule, name)
}

/// Returns the place of the first of a rule's names that is no need of it, and why, or none.
fn bad_name(schema: &Schema, rule: &Rule, names: &[NeedName]) -> Option<(usize, NeedFault)>
    ensures { result ≡ first_bad_name schema.now rule.now 0 names.now }
{
    for (at, name) in names.iter().enumerate() {
        if let Some(fault) = need_fault(schema, rule, name) {
            return Some((at, fault));
        }
    }
    None
}

/// Returns the first name that is no need of its rule, or none. There is a list of names for each rule.
fn bad_need(schema: &Schema, book: &RuleBook, names: &[NeedNames]) -> Option<BadNeed>
    requires { length names.now ≡ length book.now }
    ensures { result ≡ first_bad_need schema.now 0 book.now names.now }
{
    let _small = book.len();
    for (number, of_rule) in names.iter().enumerate() {
        if let Some((place, fault)) = bad_name(
            schema,
            book.rule(number as u16),
            of_rule.as_slice(),
        ) {
            return Some(BadNeed {
                rule: number,
                place,
                fault,
            });
        }
    }
    None
}

/// Returns the first name of rules as they are stated that is no need of its rule, or none where the rules make no book.
#[tactic(auto, unfolding(crate::specs::KnownFaults::bad_need_stated))]
fn bad_need_of(
    alloc: Global,
    schema: &Schema,
    stated: Vec<StatedRule>,
) -> Result<Option<BadNeed>, AllocError>
    ensures { IfOk result (λ found. found ≡ bad_need_stated schema.now stated.items) }
{
    let parts = parted(alloc, stated)?;
    let rules = match each_rule(alloc, schema, parts.0) {
        Ok(rules) => rules,
        Err(fault) => return unless_lost(fault, None),
    };
    match RuleBook::new(schema, rules) {
        Ok(book) => Ok(bad_need(schema, &book, parts.1.as_slice())),
        Err(_) => Ok(None),
    }
}

/// Returns the first known need of an office text that its rule can't have, or none: also where the rules can't be read or make no
/// book over the schema.
#[tactic(auto, unfolding(crate::specs::KnownFaults::known_fault_of))]
pub fn known_need_fault_of(
    alloc: Global,
    json: &Json,
    format: Format,
    schema: &Schema,
) -> Result<Option<BadNeed>, AllocError>
    ensures { IfOk result (λ found. found ≡ known_fault_of format schema.now (view json.now)) }
{
    match stated_rules(alloc, json, format) {
        Ok(stated) => bad_need_of(alloc, schema, stated),
        Err(fault) => unless_lost(fault, None),
    }
}
