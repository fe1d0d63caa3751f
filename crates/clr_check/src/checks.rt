//! The check of a certificate in an office.

ghost use Rattle.std.specs.Prelude.{◌≡◌, [], None};
ghost use Rattle.clr_clearance.specs.MergeSets.{change_sets};
ghost use Rattle.clr_clearance.specs.declared.verdicts.Verdict.TheVariants as verdict;
ghost use Rattle.clr_ordered_clearance.specs.VerdictLaws.{IsClearedInEveryOrder, IsClearedInTurn};
ghost use Rattle.clr_ordered_clearance.specs.Verdicts.{names_fault_in_turn};
ghost use Rattle.clr_engine.specs.Fitting.{IsAdmitted};
ghost use Rattle.clr_check.specs.Answers.{IsCheckAnswer};
ghost use Rattle.clr_merge_sets.specs.Certificates.{entries_in, merge_set_of, ordered_merge_set_of};
ghost use Rattle.clr_merge_sets.specs.MergeSets.{AreParts};
ghost use Rattle.clr_merge_sets.specs.PositionPairs.{SayWhoGoesBefore};

use crate::covers::first_uncovered;
use clr_cert::Certificate;
use clr_change::ChangeSet;
use clr_clearance::Verdict;
use clr_engine::Office;
use clr_merge_sets::{
    MergeSetParts, PositionPair, certificate_fault, position_pairs, read_changes, read_merge_set,
    verdict_of,
};
use std::alloc::Global;

/// Returns what the tests of cells and needs say of the parts of a certificate's merge set, where these
/// pairs say who goes before whom.
fn judge_parts(
    alloc: Global,
    office: &Office,
    certificate: &Certificate,
    pairs: &[PositionPair],
    parts: &MergeSetParts,
) -> Verdict
    requires named { names_fault_in_turn office.now (ordered_merge_set_of certificate.now) ≡ None }
    requires pairs { SayWhoGoesBefore (ordered_merge_set_of certificate.now) pairs.now }
    requires parts { AreParts office.now (merge_set_of certificate.now) parts.now }
    ensures { IsCheckAnswer office.now (ordered_merge_set_of certificate.now) (entries_in certificate.now.entries) result }
{
    let entries = certificate.entries.as_slice();
    match parts.scene(alloc, office) {
        Ok(scene) => match first_uncovered(alloc, &scene, pairs, entries) {
            Ok(None) => Verdict::Clear,
            Ok(Some(need)) => Verdict::Uncovered(need),
            Err(_) => Verdict::OutOfMemory,
        },
        Err(fault) => verdict_of(fault),
    }
}

/// Returns what the tests behind those of names say of a certificate, over what its members changed,
/// where these pairs say who goes before whom.
fn judge_members(
    alloc: Global,
    office: &Office,
    certificate: &Certificate,
    pairs: &[PositionPair],
    changes: &[ChangeSet],
) -> Verdict
    requires named { names_fault_in_turn office.now (ordered_merge_set_of certificate.now) ≡ None }
    requires pairs { SayWhoGoesBefore (ordered_merge_set_of certificate.now) pairs.now }
    requires changed { changes.now ≡ change_sets office.now (merge_set_of certificate.now) }
    ensures { IsCheckAnswer office.now (ordered_merge_set_of certificate.now) (entries_in certificate.now.entries) result }
{
    match read_merge_set(
        alloc,
        office,
        certificate.root.as_str(),
        &certificate.members,
        changes,
    ) {
        Ok(parts) => judge_parts(alloc, office, certificate, pairs, &parts),
        Err(verdict) => verdict,
    }
}

/// Returns what the tests behind those of names say of a certificate, over what its members changed.
fn judge_changes(
    alloc: Global,
    office: &Office,
    certificate: &Certificate,
    changes: &[ChangeSet],
) -> Verdict
    requires named { names_fault_in_turn office.now (ordered_merge_set_of certificate.now) ≡ None }
    requires changed { changes.now ≡ change_sets office.now (merge_set_of certificate.now) }
    ensures { IsCheckAnswer office.now (ordered_merge_set_of certificate.now) (entries_in certificate.now.entries) result }
{
    match position_pairs(alloc, certificate) {
        Ok(pairs) => judge_members(alloc, office, certificate, pairs.as_slice(), changes),
        Err(_) => Verdict::OutOfMemory,
    }
}

/// Returns the verdict on a certificate in an office: clear, or the first test that fails.
/// `OutOfMemory` may come in its place where no test of names fails, and only where a growth was
/// refused.
///
/// Where the verdict is `Clear`, all of the following holds. A merge of a member comes in turn where the
/// members that go before it are merged. The root with the changes of more members over it who have
/// come in turn breaks no need but those that it breaks with fewer, and no other member is in conflict
/// with those rows. In every list of quiet commands in which merges come in turn, no merge of a member
/// is answered by a conflict or a broken rule, nor a refresh of one whose turn it is, and after each
/// command the root breaks no need but those that it broke at first. In turn or not, no merge or
/// refresh of a member meets a conflict. So where every rule holds in the root, it holds in the root
/// after each command. After any two quiet lists that merge the same members the root has the same
/// rows. The members can be merged as they are listed. What `Office::perform_all` answers to quiet
/// commands in which merges come in turn is then a cleared run. Where the certificate has no
/// precedence, each merge and each refresh comes in turn, and all this holds of every list of quiet
/// commands. Nothing that the certificate says is taken to be true.
///
/// For example, mains 1 and 2 may cross only at a node, and the member `W1` deletes node 9, at which they do, and
/// inserts node 10 there. The verdict is `Clear` where an entry names the old node 9 and the new node 10 as witnesses
/// of their need. It is `Uncovered` with that need where the entry names the old node 9 alone.
pub fn check(alloc: Global, office: &Office, certificate: &Certificate) -> Verdict
    ensures answer { IsCheckAnswer office.now (ordered_merge_set_of certificate.now) (entries_in certificate.now.entries) result }
    ensures cleared { result ≡ verdict.Clear → IsClearedInTurn office.now (ordered_merge_set_of certificate.now) }
    ensures every_order { certificate.now.before ≡ [] → result ≡ verdict.Clear → IsClearedInEveryOrder office.now (merge_set_of certificate.now) }
    ensures admitted { IsAdmitted office.now }
{
    let _rules = office.book();
    if let Some(fault) = certificate_fault(alloc, office, certificate) {
        return fault;
    }
    match read_changes(alloc, office, &certificate.members) {
        Ok(changes) => judge_changes(alloc, office, certificate, changes.as_slice()),
        Err(_) => Verdict::OutOfMemory,
    }
}
