//! Commands that are performed where a certificate is clear, up to the first that isn't quiet, or that merges a
//! member before its turn.

ghost use Rattle.std.specs.Prelude.{◌≡◌, ◌≤◌, ◌<◌, ◌&&◌, ◌+◌, ◌++◌, [], Some, IfErr, IfOk, OnErr, OnOk, length, map, take, vec_capacity, vec_len};
ghost use Rattle.clr_clearance.specs.Runs.{merged_by};
ghost use Rattle.clr_clearance.specs.declared.verdicts.Verdict.TheVariants as verdict;
ghost use Rattle.clr_ordered_clearance.specs.Runs.{IsClearedRunInTurn, IsQuietStartInTurn};
ghost use Rattle.clr_ordered_clearance.specs.Verdicts.{IsVerdictInTurn};
ghost use Rattle.clr_check.specs.Answers.{IsRefusingVerdict};
ghost use Rattle.clr_check.specs.Turns.{is_done};
ghost use Rattle.clr_merge_sets.specs.Certificates.{entries_in, merge_set_of, ordered_merge_set_of};
ghost use Rattle.clr_steps.specs.Names.{has};

use crate::checks::check;
use crate::quiet::{is_member, is_quiet};
use crate::turns::is_due;
use clr_cert::Certificate;
use clr_clearance::Verdict;
use clr_engine::{Command, Office, Reply};
use std::alloc::Global;

/// What was performed of a list of commands: the replies to the first of them, and the number,
/// counted from 1, of the first that isn't quiet in the office in which it would be given, or that
/// merges a member before its turn, if there is one.
#[derive(Debug, Drop)]
pub struct ClearedRun {
    pub replies: Vec<Reply>,
    pub stopped: Option<usize>,
}

/// Returns whether a merge was that of a member, and was done.
fn is_merged(certificate: &Certificate, ws: &str, reply: &Reply) -> bool
    ensures { result ≡ is_done reply.now && has certificate.now.members ws.now }
{
    match reply {
        Reply::Done => is_member(certificate, ws),
        _ => false,
    }
}

/// Adds the member whose merge was done, if a command was such a merge.
fn add_merged<'a>(
    certificate: &Certificate,
    command: &'a Command,
    reply: &Reply,
    merged: &mut Vec<&'a str>,
)
    requires { vec_len merged.old < vec_capacity merged.old }
    ensures names { map (λ name. name.now) merged.new.items
        ≡ map (λ name. name.now) merged.old.items ++ merged_by (merge_set_of certificate.now) command.now reply.now }
    ensures len { vec_len merged.new ≤ vec_len merged.old + 1 }
    ensures room { vec_capacity merged.old ≤ vec_capacity merged.new }
{
    let Command::Merge { ws, .. } = command else {
        return;
    };
    if !is_merged(certificate, ws.as_str(), reply) {
        return;
    }
    merged.push(ws.as_str()).unwrap();
}

/// Returns the run that stops behind these replies, where commands are left.
fn stopped_behind(replies: Vec<Reply>) -> ClearedRun
    ensures { result ≡ record { replies = replies; stopped = Some (length replies.items + 1) } }
{
    let number = replies.len() + 1;
    ClearedRun {
        replies,
        stopped: Some(number),
    }
}

/// Performs commands one after another, up to the first that isn't quiet for the root and members of
/// a certificate, or that merges a member before its turn, adding the reply to each, and the names of
/// the members that are merged.
fn perform_quiet<'a>(
    office: &mut Office,
    certificate: &Certificate,
    commands: &'a [Command],
    mut replies: Vec<Reply>,
    mut merged: Vec<&'a str>,
) -> ClearedRun
    requires empty { replies.items ≡ [] }
    requires none { merged.items ≡ [] }
    requires room { length commands.now ≤ vec_capacity replies }
    requires room_for_names { length commands.now ≤ vec_capacity merged }
    ensures { IsQuietStartInTurn office.old (ordered_merge_set_of certificate.now) commands.now result.replies.items office.new result.stopped }
{
    for command in commands {
        if !is_quiet(office, certificate, command) {
            return stopped_behind(replies);
        }
        if !is_due(certificate, merged.as_slice(), command) {
            return stopped_behind(replies);
        }
        let reply = office.perform(command);
        add_merged(certificate, command, &reply, &mut merged);
        replies.push(reply).unwrap();
    }
    ClearedRun {
        replies,
        stopped: None,
    }
}

/// Performs commands one after another where `check` of a certificate is clear, up to the first
/// that isn't quiet for its root and members in the office in which it would be given, or that merges
/// a member before its turn: before each member that goes before it is merged, as the replies tell. A
/// refresh may come at any time. No merge of a member among them is answered by a conflict or a broken
/// rule, nor a refresh of one whose turn it is. If every rule holds in the root, it does afterwards, and
/// the root has the changes of the members whose merge was done over the rows that it had. Fails with a
/// verdict that isn't clear, or with `OutOfMemory` where no memory is found for the check or the
/// replies; then nothing changes.
/// For example, under a certificate that clears `W1` and `W2` for LIVE, a merge of `W1`, an apply of no edits to LIVE
/// and a merge of `W2` give the one reply `Done` and stop at 2, since an apply to LIVE isn't quiet. `W2` isn't merged.
/// Where the certificate says that `W1` goes before `W2`, a merge of `W2` alone gives no reply and stops at 1.
pub fn perform_cleared(
    alloc: Global,
    office: &mut Office,
    certificate: &Certificate,
    commands: &[Command],
) -> Result<ClearedRun, Verdict>
    ensures refused { IfErr result (IsRefusingVerdict office.old (ordered_merge_set_of certificate.now) (entries_in certificate.now.entries)) }
    ensures unchanged { OnErr result (office.new ≡ office.old) }
    ensures clear { OnOk result (IsVerdictInTurn office.old (ordered_merge_set_of certificate.now) (entries_in certificate.now.entries) verdict.Clear) }
    ensures start { IfOk result (λ run. IsQuietStartInTurn office.old (ordered_merge_set_of certificate.now)
        commands.now run.replies.items office.new run.stopped) }
    ensures run { IfOk result (λ run. IsClearedRunInTurn office.old (ordered_merge_set_of certificate.now)
        (take (length run.replies.items) commands.now) run.replies.items office.new) }
{
    match check(alloc, office, certificate) {
        Verdict::Clear => {}
        verdict => return Err(verdict),
    }
    let Ok(replies) = Vec::with_capacity(alloc, commands.len()) else {
        return Err(Verdict::OutOfMemory);
    };
    let Ok(merged) = Vec::with_capacity(alloc, commands.len()) else {
        return Err(Verdict::OutOfMemory);
    };
    Ok(perform_quiet(office, certificate, commands, replies, merged))
}
