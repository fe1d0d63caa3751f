//! Rules that can be read and can't stand over the schema.
ghost use Rattle.std.specs.Prelude.{◌≡◌, IfOk};
ghost use Rattle.clr_schema_explanations.specs.RuleFaults.{rule_fault_name, rule_fault_text, wrong_of_rule};
ghost use Rattle.clr_item_explanations.specs.Slips.{said};
ghost use Rattle.clr_item_explanations.specs.Tellings.{TellsNamed};

use clr_item_explanations::Slip;
use clr_rules::RuleFault;
use std::alloc::{AllocError, Global};

/// Returns the name of a fault of a book of rules.
fn rule_fault_word(fault: RuleFault) -> &'static str
    ensures { result.now ≡ rule_fault_name fault }
{
    match fault {
        RuleFault::NoTable => "NoTable",
        RuleFault::NoColumn => "NoColumn",
        RuleFault::KindsDiffer => "KindsDiffer",
        RuleFault::WrongShape => "WrongShape",
        RuleFault::BadDistance => "BadDistance",
        RuleFault::BadFilter => "BadFilter",
        RuleFault::TooMany => "TooMany",
    }
}

/// Returns what a fault of a book of rules means.
fn sentence_of(fault: RuleFault) -> &'static str
    ensures { result.now ≡ rule_fault_text fault }
{
    match fault {
        RuleFault::NoTable => "the table of a side isn't known",
        RuleFault::NoColumn => "a list of columns is empty, or KEY stands in a UNIQUE",
        RuleFault::KindsDiffer => "the two lists of columns differ in length or kinds",
        RuleFault::WrongShape => "a side is of another shape than the rule asks for",
        RuleFault::BadDistance => "d isn't from 1 to 1000000 millimetres",
        RuleFault::BadFilter => "a literal is of another kind than its column",
        RuleFault::TooMany => "more than 64 rules",
    }
}

/// Returns why a rule can't stand in a book over the schema, for the fault that it has: the name of the fault, and a sentence.
#[tactic(auto, using(clr_item_explanations::proofs::TellingLemmas::plain_told))]
pub fn explain_rule_fault(alloc: Global, fault: RuleFault) -> Result<Slip, AllocError>
    ensures { IfOk result (λ slip. TellsNamed (rule_fault_name fault) (wrong_of_rule fault) (said slip)) }
{
    let slip = Slip::of_words(alloc, &[], sentence_of(fault))?;
    slip.with_name(alloc, rule_fault_word(fault))
}
