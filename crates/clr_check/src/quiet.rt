//! Whether a command is quiet for a merge set: one that leaves the root and the members alone, or a merge or a
//! refresh of a member. The test takes no memory.

ghost use Rattle.std.specs.Prelude.{◌≡◌, ◌||◌, ◌&&◌, not};
ghost use Rattle.clr_steps.specs.Names.{has};
ghost use Rattle.clr_steps.specs.Quiet.{is_other, is_quiet, is_root, is_under_other};
ghost use Rattle.clr_merge_sets.specs.Certificates.{merge_set_of};

use clr_cert::Certificate;
use clr_engine::{Command, Office};

/// Returns whether a name is that of a member.
pub(crate) fn is_member(certificate: &Certificate, name: &str) -> bool
    ensures { result ≡ has certificate.now.members name.now }
{
    for member in certificate.members.as_slice() {
        if member.as_str() == name {
            return true;
        }
    }
    false
}

/// Returns whether a name is that of the root.
#[tactic(auto, unfolding(clr_steps::specs::Quiet::is_root, clr_steps::specs::Names::same_name))]
fn is_root(certificate: &Certificate, name: &str) -> bool
    ensures { result ≡ is_root (merge_set_of certificate.now) name.now }
{
    name == certificate.root.as_str()
}

/// Returns whether a name is neither that of the root nor that of a member.
#[tactic(auto, unfolding(clr_steps::specs::Quiet::is_other))]
fn is_other(certificate: &Certificate, name: &str) -> bool
    ensures { result ≡ is_other (merge_set_of certificate.now) name.now }
{
    !is_root(certificate, name) && !is_member(certificate, name)
}

/// Returns whether a workspace stands and its parent is neither the root nor a member.
fn is_under_other(office: &Office, certificate: &Certificate, ws: &str) -> bool
    ensures { result ≡ is_under_other office.now (merge_set_of certificate.now) ws.now }
{
    match office.parent_of(ws) {
        Some(parent) => is_other(certificate, parent),
        None => false,
    }
}

/// Returns whether a name is that of a member, or neither that of the root nor of a member.
fn is_member_or_other(certificate: &Certificate, name: &str) -> bool
    ensures { result ≡ has certificate.now.members name.now || is_other (merge_set_of certificate.now) name.now }
{
    is_member(certificate, name) || is_other(certificate, name)
}

/// Returns whether a merge is quiet: of a member, or of a workspace under neither the root nor a
/// member.
fn is_quiet_merge(office: &Office, certificate: &Certificate, ws: &str) -> bool
    ensures { result ≡ has certificate.now.members ws.now
        || (not (is_root (merge_set_of certificate.now) ws.now) && is_under_other office.now (merge_set_of certificate.now) ws.now) }
{
    is_member(certificate, ws)
        || (!is_root(certificate, ws) && is_under_other(office, certificate, ws))
}

/// Returns whether a command is quiet for the root and members of a certificate in an office.
#[tactic(auto, unfolding(clr_steps::specs::Quiet::is_quiet))]
pub(crate) fn is_quiet(office: &Office, certificate: &Certificate, command: &Command) -> bool
    ensures { result ≡ is_quiet office.now (merge_set_of certificate.now) command.now }
{
    match command {
        Command::Create { name, .. } => !is_member(certificate, name.as_str()),
        Command::Remove { ws } => is_other(certificate, ws.as_str()),
        Command::Apply { ws, .. } => is_other(certificate, ws.as_str()),
        Command::RollTo { ws, .. } => is_other(certificate, ws.as_str()),
        Command::RollAll { ws } => is_other(certificate, ws.as_str()),
        Command::Resolve { ws, .. } => is_other(certificate, ws.as_str()),
        Command::Mark { ws, .. } => is_member_or_other(certificate, ws.as_str()),
        Command::Unmark { ws, .. } => is_member_or_other(certificate, ws.as_str()),
        Command::Refresh { ws } => is_member(certificate, ws.as_str())
            || !is_root(certificate, ws.as_str()),
        Command::Merge { ws, .. } => is_quiet_merge(office, certificate, ws.as_str()),
        Command::Hold { .. } => true,
        Command::Release { ws } => !is_root(certificate, ws.as_str()),
    }
}
