//! Whether a command is due: a merge of a member comes once the members that go before it are merged.

ghost use Rattle.clr_needs.specs.Tests.{IsTestOf};
ghost use Rattle.std.specs.Prelude.{◌≡◌, map};
ghost use Rattle.clr_ordered_clearance.specs.Runs.{IsDue};
ghost use Rattle.clr_ordered_clearance.specs.Turns.{IsTurnOf};
ghost use Rattle.clr_steps.specs.Names.{has};
ghost use Rattle.clr_check.specs.Turns.{is_held_back_by};
ghost use Rattle.clr_merge_sets.specs.Certificates.{merge_set_of, ordered_merge_set_of};

use crate::quiet::is_member;
use clr_cert::{Certificate, Precedence};
use clr_engine::Command;

/// Returns whether a name is one of these.
pub fn is_one_of(these: &[&str], name: &str) -> bool
    ensures { result ≡ has (map (λ other. other.now) these.now) name.now }
{
    for other in these {
        if *other == name {
            return true;
        }
    }
    false
}

/// Returns whether a precedence holds a member back: another member goes before it and isn't merged.
#[tactic(auto, unfolding(clr_steps::specs::Names::same_name))]
fn is_held_back_by(
    certificate: &Certificate,
    merged: &[&str],
    name: &str,
    precedence: &Precedence,
) -> bool
    ensures { result ≡ is_held_back_by (merge_set_of certificate.now) (map (λ other. other.now) merged.now) name.now precedence.now }
{
    precedence.later.as_str() == name
        && is_member(certificate, precedence.earlier.as_str())
        && !is_one_of(merged, precedence.earlier.as_str())
}

/// Returns whether it is a member's turn: each member that goes before it is among the merged ones.
fn is_turn_of(certificate: &Certificate, merged: &[&str], name: &str) -> bool
    ensures { IsTestOf result (IsTurnOf (ordered_merge_set_of certificate.now) (map (λ other. other.now) merged.now) name.now) }
{
    for precedence in certificate.before.as_slice() {
        if is_held_back_by(certificate, merged, name, precedence) {
            return false;
        }
    }
    true
}

/// Returns whether a command is due once some members are merged: where it merges a member, it is the
/// member's turn.
pub(crate) fn is_due(certificate: &Certificate, merged: &[&str], command: &Command) -> bool
    ensures { IsTestOf result (IsDue (ordered_merge_set_of certificate.now) (map (λ other. other.now) merged.now) command.now) }
{
    match command {
        Command::Merge { ws, .. } => {
            if !is_member(certificate, ws.as_str()) {
                return true;
            }
            is_turn_of(certificate, merged, ws.as_str())
        }
        _ => true,
    }
}
