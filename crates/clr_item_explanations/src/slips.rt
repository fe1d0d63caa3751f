//! What is wrong within an item.
ghost use Rattle.std.specs.Prelude.{◌≡◌, ◌++◌, codes, string_bytes, unwrap_or, IfOk, None, Option};
ghost use Rattle.clr_item_explanations.specs.Slips.{said};
ghost use Rattle.clr_item_explanations.specs.Tellings.{Plain, Tells, TellsIfAny, TellsNamed, Wrong, below};

use clr_text_positions::PathStep;
use std::alloc::{AllocError, Global};

/// What is wrong within an item: the steps from the item to the value that is wrong, a sentence, and a hint where one helps.
#[derive(Debug, Drop)]
pub struct Slip {
    pub steps: Vec<PathStep>,
    pub sentence: String,
    pub hint: Option<String>,
}

impl Slip {
    /// Returns a slip with a sentence on the value at these steps, without a hint.
    pub fn new(alloc: Global, steps: &[PathStep], sentence: String) -> Result<Slip, AllocError>
        ensures steps { IfOk result (λ slip. slip.steps.items ≡ steps.now) }
        ensures sentence { IfOk result (λ slip. slip.sentence ≡ sentence) }
        ensures hint { IfOk result (λ slip. slip.hint ≡ None) }
    {
        Ok(Slip {
            steps: Vec::from_slice(alloc, steps)?,
            sentence,
            hint: None,
        })
    }

    /// Returns a slip with these words as its sentence, without a hint.
    pub fn of_words(alloc: Global, steps: &[PathStep], sentence: &str) -> Result<Slip, AllocError>
        ensures steps { IfOk result (λ slip. slip.steps.items ≡ steps.now) }
        ensures sentence { IfOk result (λ slip. string_bytes slip.sentence ≡ sentence.now) }
        ensures hint { IfOk result (λ slip. slip.hint ≡ None) }
    {
        let sentence = String::from_str(alloc, sentence)?;
        Slip::new(alloc, steps, sentence)
    }

    /// Returns this slip with a hint, if there is one.
    pub fn with_hint(self, hint: Option<String>) -> Slip
        ensures steps { result.steps ≡ self.steps }
        ensures sentence { result.sentence ≡ self.sentence }
        ensures hint { result.hint ≡ hint }
    {
        Slip {
            steps: self.steps,
            sentence: self.sentence,
            hint,
        }
    }

    /// Returns this slip as one of the item that holds this item, with more steps before its own.
    pub fn below(self, alloc: Global, steps: &[PathStep]) -> Result<Slip, AllocError>
        ensures steps { IfOk result (λ slip. slip.steps.items ≡ steps.now ++ self.steps.items) }
        ensures sentence { IfOk result (λ slip. slip.sentence ≡ self.sentence) }
        ensures hint { IfOk result (λ slip. slip.hint ≡ self.hint) }
    {
        let mut all = Vec::from_slice(alloc, steps)?;
        all.extend_from_slice(self.steps.as_slice())?;
        Ok(Slip {
            steps: all,
            sentence: self.sentence,
            hint: self.hint,
        })
    }

    /// Returns this slip with the name of a fault and a colon before its sentence.
    #[tactic(auto, using(crate::proofs::TellingLemmas::named_told))]
    pub fn with_name(self, alloc: Global, name: &str) -> Result<Slip, AllocError>
        ensures sentence { IfOk result (λ slip. string_bytes slip.sentence ≡ name.now ++ codes ": " ++ string_bytes self.sentence) }
        ensures told { IfOk result (λ slip. (wrong : Wrong) → Tells wrong (said self) → TellsNamed name.now wrong (said slip)) }
    {
        let told = self.sentence.as_str();
        let sentence = format!(in alloc; "{name}: {told}")?;
        Ok(Slip {
            steps: self.steps,
            sentence,
            hint: self.hint,
        })
    }
}

/// Returns a slip of an item, if there is one, as one of the item that holds this item, with more steps before its own.
pub(crate) fn below_any(
    alloc: Global,
    slip: Option<Slip>,
    steps: &[PathStep],
) -> Result<Option<Slip>, AllocError>
    ensures { IfOk result (λ found. (wrong : Option Wrong) → TellsIfAny wrong slip → TellsIfAny (below steps.now wrong) found) }
{
    match slip {
        Some(slip) => Ok(Some(slip.below(alloc, steps)?)),
        None => Ok(None),
    }
}

/// Returns a slip, or one of these words on the value at these steps where there is none.
#[tactic(auto, using(crate::proofs::TellingLemmas::found_told, crate::proofs::TellingLemmas::else_plain))]
pub fn or_words(
    alloc: Global,
    slip: Option<Slip>,
    steps: &[PathStep],
    words: &str,
) -> Result<Slip, AllocError>
    ensures { IfOk result (λ told. (wrong : Option Wrong) → TellsIfAny wrong slip
        → Tells (unwrap_or wrong (record { steps = steps.now; telling = Plain words.now })) (said told)) }
{
    match slip {
        Some(slip) => Ok(slip),
        None => {
            let told = Slip::of_words(alloc, steps, words)?;
            Ok(told)
        }
    }
}
