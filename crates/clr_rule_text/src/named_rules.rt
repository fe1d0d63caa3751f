//! Rules with names of tables and columns, as they are written.

ghost use Rattle.std.specs.Prelude.{◌≡◌};
ghost use Rattle.clr_readings.specs.Readings.{Gives};
ghost use Rattle.clr_rule_text.specs.Fields.{text_lacks_memory};
ghost use Rattle.clr_rule_text.specs.Rules.{crossing_of, end_node_of, named_rule_of, near_of, partner_of};
ghost use Rattle.clr_rule_text.specs.Rules.{rule_of_kind as meant_by, tip_of, unique_of};

use crate::faults::TextFault;
use crate::fields::{number_in, text_in};
use crate::json_values::JsonValue;
use crate::named_sides::{ColumnNames, NamedSide, names_in, side_in};
use clr_rules::Tip;
use std::alloc::Global;

/// A rule with names of tables and columns, which may be unknown.
#[derive(Debug, Drop)]
pub enum NamedRule {
    Unique {
        subject: NamedSide,
        columns: ColumnNames,
    },
    Partner {
        subject: NamedSide,
        columns: ColumnNames,
        server: NamedSide,
        server_columns: ColumnNames,
    },
    EndNode {
        subject: NamedSide,
        tip: Tip,
        server: NamedSide,
    },
    Crossing {
        a: NamedSide,
        b: NamedSide,
        server: NamedSide,
    },
    Near {
        a: NamedSide,
        b: NamedSide,
        d: i64,
    },
}

#[tactic(auto, unfolding(crate::specs::Rules::tip_of))]
fn tip<J: JsonValue>(json: &J) -> Result<Tip, TextFault>
    ensures { Gives text_lacks_memory (λ t. t) result (tip_of (J.stands_for json.now)) }
{
    match text_in(json, "tip")? {
        "FIRST" => Ok(Tip::First),
        "SECOND" => Ok(Tip::Second),
        _ => Err(TextFault::BadField),
    }
}

#[tactic(auto, unfolding(crate::specs::Rules::unique_of))]
fn unique<J: JsonValue>(alloc: Global, json: &J) -> Result<NamedRule, TextFault>
    ensures { Gives text_lacks_memory (λ r. r) result (unique_of (J.stands_for json.now)) }
{
    let subject = side_in(alloc, json, "subject")?;
    let columns = names_in(alloc, json, "columns")?;
    Ok(NamedRule::Unique { subject, columns })
}

#[tactic(auto, unfolding(crate::specs::Rules::partner_of))]
fn partner<J: JsonValue>(alloc: Global, json: &J) -> Result<NamedRule, TextFault>
    ensures { Gives text_lacks_memory (λ r. r) result (partner_of (J.stands_for json.now)) }
{
    let subject = side_in(alloc, json, "subject")?;
    let columns = names_in(alloc, json, "columns")?;
    let server = side_in(alloc, json, "server")?;
    let server_columns = names_in(alloc, json, "server_columns")?;
    Ok(NamedRule::Partner {
        subject,
        columns,
        server,
        server_columns,
    })
}

#[tactic(auto, unfolding(crate::specs::Rules::end_node_of))]
fn end_node<J: JsonValue>(alloc: Global, json: &J) -> Result<NamedRule, TextFault>
    ensures { Gives text_lacks_memory (λ r. r) result (end_node_of (J.stands_for json.now)) }
{
    let subject = side_in(alloc, json, "subject")?;
    let tip = tip(json)?;
    let server = side_in(alloc, json, "server")?;
    Ok(NamedRule::EndNode {
        subject,
        tip,
        server,
    })
}

#[tactic(auto, unfolding(crate::specs::Rules::crossing_of))]
fn crossing<J: JsonValue>(alloc: Global, json: &J) -> Result<NamedRule, TextFault>
    ensures { Gives text_lacks_memory (λ r. r) result (crossing_of (J.stands_for json.now)) }
{
    let a = side_in(alloc, json, "a")?;
    let b = side_in(alloc, json, "b")?;
    let server = side_in(alloc, json, "server")?;
    Ok(NamedRule::Crossing { a, b, server })
}

#[tactic(auto, unfolding(crate::specs::Rules::near_of))]
fn near<J: JsonValue>(alloc: Global, json: &J) -> Result<NamedRule, TextFault>
    ensures { Gives text_lacks_memory (λ r. r) result (near_of (J.stands_for json.now)) }
{
    let a = side_in(alloc, json, "a")?;
    let b = side_in(alloc, json, "b")?;
    let d = number_in(json, "d")?;
    Ok(NamedRule::Near { a, b, d })
}

fn rule_of_kind<J: JsonValue>(alloc: Global, kind: &str, json: &J) -> Result<NamedRule, TextFault>
    ensures { Gives text_lacks_memory (λ r. r) result (meant_by kind.now (J.stands_for json.now)) }
{
    match kind {
        "UNIQUE" => unique(alloc, json),
        "PARTNER" => partner(alloc, json),
        "ENDNODE" => end_node(alloc, json),
        "CROSSING" => crossing(alloc, json),
        "NEAR" => near(alloc, json),
        _ => Err(TextFault::BadField),
    }
}

/// Returns a rule of an office text with its names. Fails with `BadField` where a key is missing, or a value is
/// none of those that may stand there.
#[tactic(auto, unfolding(crate::specs::Rules::named_rule_of))]
pub fn named_rule<J: JsonValue>(alloc: Global, json: &J) -> Result<NamedRule, TextFault>
    ensures { Gives text_lacks_memory (λ r. r) result (named_rule_of (J.stands_for json.now)) }
{
    rule_of_kind(alloc, text_in(json, "kind")?, json)
}
