//! The member for which a merge waits that comes before its turn.
ghost use Rattle.std.specs.Prelude.{◌≡◌, ◌&&◌, ◌++◌, ◌∷◌, [], filter, length, map, option_map, IfOk, OnOk};
ghost use Rattle.std.specs.List.{list_any, range_with_len};
ghost use Rattle.clr_merge_sets.specs.Certificates.{ordered_merge_set_of};
ghost use Rattle.clr_ordered_clearance.specs.MergeSets.{goes_before};
ghost use Rattle.clr_steps.specs.Names.{same_name};
ghost use Rattle.clr_desk_merges.specs.Waiting.{done_names, first_awaited, is_awaited, is_done_at, waiting_line, waiting_text};

use clr_cert::{Certificate, Precedence};
use clr_check::is_one_of;
use clr_merge_sets::{names_at, texts_of_names};
use clr_office::Words;
use clr_steps::Reply;
use std::alloc::{AllocError, Global};

/// Returns whether the merge at a position was done.
fn is_done_at(replies: &[Reply], at: usize) -> bool
    ensures { result ≡ is_done_at replies.now at }
{
    match replies.get(at) {
        Some(Reply::Done) => true,
        _ => false,
    }
}

/// Adds the position of a merge that was done.
fn add_done(replies: &[Reply], at: usize, list: &mut Vec<usize>) -> Result<(), AllocError>
    ensures { OnOk result (list.new.items ≡ list.old.items ++ filter (is_done_at replies.now) (at ∷ [])) }
{
    if is_done_at(replies, at) {
        list.push(at)?;
    }
    Ok(())
}

/// Returns the positions of the merges that were done.
fn done_positions(alloc: Global, replies: &[Reply]) -> Result<Vec<usize>, AllocError>
    ensures { IfOk result (λ list. list.items ≡ filter (is_done_at replies.now) (range_with_len 0 (length replies.now))) }
{
    let mut list = Vec::new(alloc);
    for at in 0..replies.len() {
        add_done(replies, at, &mut list)?;
    }
    Ok(list)
}

/// Returns the names of the merges that were done.
fn done_names<'a>(
    alloc: Global,
    names: &[&'a str],
    replies: &[Reply],
) -> Result<Vec<&'a str>, AllocError>
    ensures { IfOk result (λ list. map (λ name. name.now) list.items ≡ done_names (map (λ name. name.now) names.now) replies.now) }
{
    let positions = done_positions(alloc, replies)?;
    names_at(alloc, names, positions.as_slice())
}

/// Returns whether a precedence names these two.
#[tactic(auto, unfolding(clr_steps::specs::Names::same_name))]
fn is_of_these(precedence: &Precedence, earlier: &str, later: &str) -> bool
    ensures { result ≡ same_name precedence.now.earlier earlier.now && same_name precedence.now.later later.now }
{
    precedence.earlier.as_str() == earlier && precedence.later.as_str() == later
}

/// Returns whether one of some precedences names these two.
fn is_among(precedences: &[Precedence], earlier: &str, later: &str) -> bool
    ensures { result ≡ list_any (λ p. same_name p.earlier earlier.now && same_name p.later later.now) precedences.now }
{
    precedences
        .iter()
        .any(|precedence| is_of_these(precedence, earlier, later))
}

/// Returns whether a member goes before another.
fn goes_before(certificate: &Certificate, earlier: &str, later: &str) -> bool
    ensures { result ≡ goes_before (ordered_merge_set_of certificate.now) earlier.now later.now }
{
    is_among(certificate.before.as_slice(), earlier, later)
}

/// Returns whether a name waits for a member.
fn is_awaited(certificate: &Certificate, done: &[&str], name: &str, member: &str) -> bool
    ensures { result ≡ is_awaited (ordered_merge_set_of certificate.now) (map (λ other. other.now) done.now) name.now member.now }
{
    goes_before(certificate, member, name) && !is_one_of(done, member)
}

/// Returns the first member for which a name waits, if it waits for one.
fn first_awaited<'a>(certificate: &'a Certificate, done: &[&str], name: &str) -> Option<&'a str>
    ensures { option_map (λ member. member.now) result
        ≡ first_awaited (ordered_merge_set_of certificate.entry.now) (map (λ other. other.now) done.now) name.now }
{
    for member in certificate.members.as_slice() {
        if is_awaited(certificate, done, name, member.as_str()) {
            return Some(member.as_str());
        }
    }
    None
}

/// Returns the line that says for whom a merge waits, if it waits for anybody.
fn waiting_line(alloc: Global, awaited: Option<&str>) -> Result<Vec<u8>, AllocError>
    ensures { IfOk result (λ line. line.items ≡ waiting_line (option_map (λ member. member.now) awaited.entry)) }
{
    let mut line = Vec::new(alloc);
    let Some(member) = awaited else {
        return Ok(line);
    };
    line.extend_from_slice(b"waits for ")?;
    line.extend_from_slice(member.as_bytes())?;
    line.extend_from_slice(b"\n")?;
    Ok(line)
}

/// Returns the line that says for whom the first merge waits that wasn't made, where it waits for a member: the first in the
/// certificate's list that goes before it and whose merge wasn't done. These are the replies to the merges before it.
pub(crate) fn waiting_text(
    alloc: Global,
    certificate: &Certificate,
    names: &[Words],
    replies: &[Reply],
) -> Result<Vec<u8>, AllocError>
    ensures { IfOk result (λ line. line.items ≡ waiting_text (ordered_merge_set_of certificate.now) names.now replies.now) }
{
    let names = texts_of_names(alloc, names)?;
    let names = names.as_slice();
    let Some(name) = names.get(replies.len()) else {
        return Ok(Vec::new(alloc));
    };
    let done = done_names(alloc, names, replies)?;
    waiting_line(alloc, first_awaited(certificate, done.as_slice(), *name))
}
