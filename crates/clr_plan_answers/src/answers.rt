//! What a plan answers, in sentences.

ghost use Rattle.std.specs.Prelude.{◌≡◌, ◌++◌, IfOk, OnOk, length, string_bytes};
ghost use Rattle.clr_plan_answers.specs.Answers.{all_or_some_text, answer_text, blocked_text, cleared_text};
ghost use Rattle.clr_plan_answers.specs.Answers.{every_order_text, lasting_text, mergeable_text, order_sentence, order_text, refused_text, untouched_text};
ghost use Rattle.clr_merge_sets.specs.MemberChanges.{set_of};

use crate::unfit::add_unfit;
use clr_member_changes::MemberChanges;
use clr_merge_sets::Plan;
use clr_phrases::add_names;
use std::alloc::{AllocError, Global};

/// Adds members one after another, by their positions, as `Renewal, then Extension`. Of a position that no member has, it adds an empty name.
pub fn add_order_text(
    text: &mut String,
    members: &MemberChanges<'_>,
    order: &[usize],
) -> Result<(), AllocError>
    ensures { OnOk result (string_bytes text.new ≡ string_bytes text.old ++ order_text (set_of members.now).members order.now) }
{
    let [first, others @ ..] = order else {
        return Ok(());
    };
    text.push_str(members.name(*first))?;
    for other in others {
        text.push_str(", then ")?;
        text.push_str(members.name(*other))?;
    }
    Ok(())
}

/// Returns what becomes of so many merges.
fn refused_words(count: usize) -> &'static str
    ensures { result.now ≡ refused_text count }
{
    if count == 1 {
        ": the merge is refused.\n"
    } else {
        ", in this order: one of these merges is refused.\n"
    }
}

/// Adds in which order a merge is refused.
fn add_order(
    text: &mut String,
    members: &MemberChanges<'_>,
    order: &[usize],
) -> Result<(), AllocError>
    ensures { OnOk result (string_bytes text.new ≡ string_bytes text.old ++ order_sentence (set_of members.now).members order.now) }
{
    text.push_str("Merge ")?;
    add_order_text(text, members, order)?;
    text.push_str(refused_words(order.len()))
}

/// Returns what members can't that are blocked.
fn every_order_words(members: &MemberChanges<'_>) -> &'static str
    ensures { result.now ≡ every_order_text (length (set_of members.now).members) }
{
    if members.names.len() == 1 {
        ".\n"
    } else {
        " in every order.\n"
    }
}

/// Returns what members can that are cleared.
fn all_or_some_words(members: &MemberChanges<'_>) -> &'static str
    ensures { result.now ≡ all_or_some_text (length (set_of members.now).members) }
{
    if members.names.len() == 1 {
        ".\n"
    } else {
        " in every order, all or some of them.\n"
    }
}

/// Returns how members may be changed while they are cleared.
fn untouched_words(members: &MemberChanges<'_>) -> &'static str
    ensures { result.now ≡ untouched_text (length (set_of members.now).members) }
{
    if members.names.len() == 1 {
        " or this design, other than by merging or refreshing it.\n"
    } else {
        " or one of these designs, other than by merging or refreshing them.\n"
    }
}

/// Adds the sentence that members are blocked, and in which order.
fn add_blocked(
    text: &mut String,
    members: &MemberChanges<'_>,
    order: &[usize],
) -> Result<(), AllocError>
    ensures { OnOk result (string_bytes text.new ≡ string_bytes text.old ++ blocked_text (set_of members.now) order.now) }
{
    add_names(text, members.names)?;
    text.push_str(" can't be merged into ")?;
    text.push_str(members.root)?;
    text.push_str(every_order_words(members))?;
    add_order(text, members, order)?;
    Ok(())
}

/// Adds the sentence that members can be merged in every order.
fn add_mergeable(text: &mut String, members: &MemberChanges<'_>) -> Result<(), AllocError>
    ensures { OnOk result (string_bytes text.new ≡ string_bytes text.old ++ mergeable_text (set_of members.now)) }
{
    add_names(text, members.names)?;
    text.push_str(" can be merged into ")?;
    text.push_str(members.root)?;
    text.push_str(all_or_some_words(members))?;
    Ok(())
}

/// Adds how long it lasts that members can be merged.
fn add_lasting(text: &mut String, members: &MemberChanges<'_>) -> Result<(), AllocError>
    ensures { OnOk result (string_bytes text.new ≡ string_bytes text.old ++ lasting_text (set_of members.now)) }
{
    text.push_str("This lasts while nobody edits ")?;
    text.push_str(members.root)?;
    text.push_str(untouched_words(members))?;
    Ok(())
}

/// Adds the sentences that members can be merged in every order, and how long that lasts.
fn add_cleared(text: &mut String, members: &MemberChanges<'_>) -> Result<(), AllocError>
    ensures { OnOk result (string_bytes text.new ≡ string_bytes text.old ++ cleared_text (set_of members.now)) }
{
    if members.names.is_empty() {
        return text.push_str("Nothing is to be merged.\n");
    }
    add_mergeable(text, members)?;
    add_lasting(text, members)
}

/// Returns what a plan answers, in sentences, each a line: whether the members can be merged, and in which order a merge is
/// refused; or which name has to be mended first. Nothing is told of a plan that found no memory.
pub fn answer_words(
    alloc: Global,
    members: &MemberChanges<'_>,
    plan: &Plan,
) -> Result<String, AllocError>
    ensures { IfOk result (λ text. string_bytes text ≡ answer_text (set_of members.now) plan.now) }
{
    let mut text = String::new(alloc);
    match plan {
        Plan::Cleared(_) => add_cleared(&mut text, members)?,
        Plan::Blocked { order, .. } => add_blocked(&mut text, members, order.as_slice())?,
        Plan::Unfit(verdict) => add_unfit(&mut text, members, verdict)?,
        Plan::OutOfMemory => {}
    }
    Ok(text)
}
