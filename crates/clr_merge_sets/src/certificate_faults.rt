//! The tests of a certificate that look at names alone. None of them is ever answered by want of memory.

ghost use Rattle.std.specs.Prelude.{◌≡◌, None, not, position};
ghost use Rattle.clr_steps.specs.Names.{same_name};
ghost use Rattle.clr_clearance.specs.Verdicts.{first_repeated};
ghost use Rattle.clr_ordered_needs.specs.Turns.{is_earlier};
ghost use Rattle.clr_ordered_clearance.specs.Verdicts.{names_fault_in_turn};
ghost use Rattle.clr_engine.specs.Fitting.{IsAdmitted};
ghost use Rattle.clr_merge_sets.specs.Certificates.{ordered_merge_set_of, pairs_in};
ghost use Rattle.clr_merge_sets.specs.Faults.{is_told_first};

use crate::name_tests::name_fault;
use crate::precedence_pairs::pair_of;
use clr_cert::{Certificate, Precedence};
use clr_clearance::Verdict;
use clr_engine::Office;
use clr_rows::Names;
use std::alloc::Global;

/// Returns whether the earlier name of a precedence stands before its later one in a list in which no
/// name stands twice.
fn is_well_placed(members: &Names, precedence: &Precedence) -> bool
    requires { first_repeated members.now ≡ None }
    ensures { result ≡ is_earlier same_name members.now precedence.now.earlier precedence.now.later }
{
    match pair_of(members, precedence) {
        Some(pair) => pair.earlier < pair.later,
        None => false,
    }
}

/// Returns the position of the first precedence whose earlier name doesn't stand before its later one
/// in the list of members, in which no name stands twice.
fn first_misplaced(members: &Names, before: &[Precedence]) -> Option<usize>
    requires { first_repeated members.now ≡ None }
    ensures { result ≡ position (λ p. not (is_earlier same_name members.now p.0 p.1)) (pairs_in before.now) }
{
    for position in 0..before.len() {
        if !is_well_placed(members, &before[position]) {
            return Some(position);
        }
    }
    None
}

/// Returns whether a fault of names is that of a test that comes before the one of precedences.
fn is_told_first(fault: Option<Verdict>) -> bool
    ensures { result ≡ is_told_first fault }
{
    matches!(fault, Some(Verdict::NotKept | Verdict::RepeatedMember(_)))
}

/// Returns the first test of names that a certificate fails, or none. Each test is made over the whole
/// list before the next: the root stands and is kept, no name stands twice, of each precedence the
/// earlier name stands before the later one in the list of members, each name is that of a workspace,
/// and each is a child of the root. The answer is never want of memory.
pub fn certificate_fault(
    alloc: Global,
    office: &Office,
    certificate: &Certificate,
) -> Option<Verdict>
    ensures fault { result ≡ names_fault_in_turn office.now (ordered_merge_set_of certificate.now) }
    ensures admitted { IsAdmitted office.now }
{
    let root = certificate.root.as_str();
    let fault = name_fault(alloc, office, root, &certificate.members);
    if is_told_first(fault) {
        return fault;
    }
    match first_misplaced(&certificate.members, certificate.before.as_slice()) {
        Some(position) => Some(Verdict::NotBefore(position)),
        None => fault,
    }
}
