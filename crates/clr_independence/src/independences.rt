//! Which members are independent, where they are given by their names.
ghost use Rattle.std.specs.Prelude.{◌≡◌, not, IfOk};
ghost use Rattle.std.specs.List.{list_any};
ghost use Rattle.clr_merge_sets.specs.MergeSetNames.{merge_set};
ghost use Rattle.clr_office_reports.specs.Outcomes.{outcome_of};
ghost use Rattle.clr_independence.specs.IndependenceOutcomes.{IsIndependenceOutcome, has_dependence};

use crate::independent_members::{Independence, independence_of};
use crate::lines_of_pairs::lines_of_independence;
use crate::member_pairs::MemberPair;
use clr_engine::Office;
use clr_merge_sets::texts_of_names;
use clr_office_reports::Output;
use clr_rows::Words;
use std::alloc::{AllocError, Global};

/// Returns whether some pair is dependent.
fn has_dependent_pair(pairs: &[MemberPair]) -> bool
    ensures { result ≡ list_any (λ p. not p.independent) pairs.now }
{
    pairs.iter().any(|pair| !pair.independent)
}

/// Returns whether some pair is dependent, or the members are unfit.
fn has_dependence(said: &Independence) -> bool
    ensures { result ≡ has_dependence said.now }
{
    match said {
        Independence::Unfit(_) => true,
        Independence::Pairs(pairs) => has_dependent_pair(pairs.as_slice()),
    }
}

/// Returns the lines of the independence of members of a root: those of `independence_lines`. It counts as a refusal where
/// two members are dependent or a test of members fails.
pub fn independence_output(
    alloc: Global,
    office: &Office,
    root: &str,
    names: &[Words],
) -> Result<Output, AllocError>
    ensures { IfOk result (λ o. IsIndependenceOutcome office.now (merge_set root.now names.now) (outcome_of o office.now)) }
{
    let members = texts_of_names(alloc, names)?;
    let said = independence_of(alloc, office, root, members.as_slice())?;
    let lines = lines_of_independence(alloc, office.schema(), members.as_slice(), root, &said)?;
    Ok(Output {
        lines,
        refused: has_dependence(&said),
        lost: false,
    })
}
