//! What is said of the orders of members, in sentences.

ghost use Rattle.std.specs.Prelude.{◌≡◌, ◌++◌, IfOk, OnOk, length, string_bytes};
ghost use Rattle.clr_clearance.specs.Plans.{members_at};
ghost use Rattle.clr_merge_sets.specs.MemberChanges.{AreMembers, set_of};
ghost use Rattle.clr_order_sentences.specs.OrderSentences.{
  AreOrderSentences,
  AreSentencesOfMembers,
  alone_text,
  final_text,
  merge_order_sentences,
  ordered_text,
  refused_end,
  scene_order_sentences,
  stuck_text,
  together_text,
  too_many_text,
};
ghost use Rattle.clr_phrases.specs.Lists.{names_text};

use crate::pair_phrases::add_pairs;
use clr_engine::Office;
use clr_member_changes::MemberChanges;
use clr_merge_orders::{MergeOrder, order_of_changes};
use clr_merge_sets::Plan;
use clr_order_answers::Pair;
use clr_ordered_plans::names_in_order;
use clr_phrases::add_names;
use clr_scene_orders::SceneOrder;
use std::alloc::{AllocError, Global};

/// Adds the names of the members at positions, as `Extension, Hydrants and Spur`.
fn add_members_at(
    alloc: Global,
    text: &mut String,
    members: &MemberChanges<'_>,
    positions: &[u16],
) -> Result<(), AllocError>
    ensures { OnOk result (string_bytes text.new ≡ string_bytes text.old ++ names_text (members_at (set_of members.now) positions.now)) }
{
    let names = names_in_order(alloc, members.names, positions)?;
    add_names(text, names.as_slice())
}

/// Adds that members can be merged in an order, and which of them go before others.
fn add_ordered(
    alloc: Global,
    text: &mut String,
    members: &MemberChanges<'_>,
    order: &[u16],
    pairs: &[Pair],
) -> Result<(), AllocError>
    ensures { OnOk result (string_bytes text.new ≡ string_bytes text.old ++ ordered_text (set_of members.now) order.now pairs.now) }
{
    text.push_str("CLEARED IN THIS ORDER. ")?;
    add_members_at(alloc, text, members, order)?;
    text.push_str(" can be merged into ")?;
    text.push_str(members.root)?;
    text.push_str(" where ")?;
    add_pairs(alloc, text, members, pairs)?;
    text.push_str(".\nAll other merges, and refreshes, may come at any time.\n")?;
    Ok(())
}

/// Returns what is said of the one member that blocks a need which none of the members helps.
fn refused_end(members: &MemberChanges<'_>) -> &'static str
    ensures { result.now ≡ refused_end (length (set_of members.now).members) }
{
    if members.names.len() == 1 {
        " is refused. Change it, or name a design that helps it.\n"
    } else {
        " is refused in each order of these designs. Change it, leave it out, or name a design that helps it.\n"
    }
}

/// Adds that the one member that blocks a need is refused.
fn add_alone(
    alloc: Global,
    text: &mut String,
    members: &MemberChanges<'_>,
    blockers: &[u16],
) -> Result<(), AllocError>
    ensures { OnOk result (string_bytes text.new ≡ string_bytes text.old ++ alone_text (set_of members.now) blockers.now) }
{
    add_members_at(alloc, text, members, blockers)?;
    text.push_str(refused_end(members))?;
    Ok(())
}

/// Adds that each order of members is refused that merges all of those which block a need.
fn add_together(
    alloc: Global,
    text: &mut String,
    members: &MemberChanges<'_>,
    blockers: &[u16],
) -> Result<(), AllocError>
    ensures { OnOk result (string_bytes text.new ≡ string_bytes text.old ++ together_text (set_of members.now) blockers.now) }
{
    text.push_str("No order of these designs works: each that merges ")?;
    add_members_at(alloc, text, members, blockers)?;
    text.push_str(
        " is refused. Change one of them, leave one out, or name a design that helps.\n",
    )?;
    Ok(())
}

/// Adds that no member helps those that block a need.
fn add_final(
    alloc: Global,
    text: &mut String,
    members: &MemberChanges<'_>,
    blockers: &[u16],
) -> Result<(), AllocError>
    ensures { OnOk result (string_bytes text.new ≡ string_bytes text.old ++ final_text (set_of members.now) blockers.now) }
{
    if blockers.len() == 1 {
        add_alone(alloc, text, members, blockers)
    } else {
        add_together(alloc, text, members, blockers)
    }
}

/// Adds that no order of members works, though each need is served once all of them are merged.
fn add_stuck(
    alloc: Global,
    text: &mut String,
    members: &MemberChanges<'_>,
    concerned: &[u16],
) -> Result<(), AllocError>
    ensures { OnOk result (string_bytes text.new ≡ string_bytes text.old ++ stuck_text (set_of members.now) concerned.now) }
{
    text.push_str("No order of ")?;
    add_members_at(alloc, text, members, concerned)?;
    text.push_str(" works: each order is refused. Merge them as one design.\n")?;
    Ok(())
}

/// Adds that no order was looked for, and how to ask for one.
fn add_too_many(
    alloc: Global,
    text: &mut String,
    members: &MemberChanges<'_>,
    concerned: &[u16],
) -> Result<(), AllocError>
    ensures { OnOk result (string_bytes text.new ≡ string_bytes text.old ++ too_many_text (set_of members.now) concerned.now) }
{
    text.push_str("No order was looked for among so many designs: ")?;
    add_members_at(alloc, text, members, concerned)?;
    text.push_str(
        ".\nOf an order of your own, clr_desk certificate --in-order says whether it works.\n",
    )?;
    Ok(())
}

/// Adds what is said of a scene's orders.
fn add_scene_order(
    alloc: Global,
    text: &mut String,
    members: &MemberChanges<'_>,
    order: &SceneOrder,
) -> Result<(), AllocError>
    ensures { OnOk result (string_bytes text.new ≡ string_bytes text.old ++ scene_order_sentences (set_of members.now) order.now) }
{
    match order {
        SceneOrder::Order { order, pairs } => {
            add_ordered(alloc, text, members, order.as_slice(), pairs.as_slice())
        }
        SceneOrder::Final {
            members: blockers,
            ..
        } => add_final(alloc, text, members, blockers.as_slice()),
        SceneOrder::Stuck(concerned) => add_stuck(alloc, text, members, concerned.as_slice()),
        SceneOrder::TooMany(concerned) => add_too_many(alloc, text, members, concerned.as_slice()),
    }
}

/// Returns what is said of a scene's orders.
fn scene_order_sentences(
    alloc: Global,
    members: &MemberChanges<'_>,
    order: &SceneOrder,
) -> Result<String, AllocError>
    ensures { IfOk result (λ text. string_bytes text ≡ scene_order_sentences (set_of members.now) order.now) }
{
    let mut text = String::new(alloc);
    add_scene_order(alloc, &mut text, members, order)?;
    Ok(text)
}

/// Returns what is said of the orders of members; nothing where a member is in conflict or two change one cell.
fn merge_order_sentences(
    alloc: Global,
    members: &MemberChanges<'_>,
    order: &MergeOrder,
) -> Result<String, AllocError>
    ensures { IfOk result (λ text. string_bytes text ≡ merge_order_sentences (set_of members.now) order.now) }
{
    match order {
        MergeOrder::Planned(_) => Ok(String::new(alloc)),
        MergeOrder::Ordered(order) => scene_order_sentences(alloc, members, order),
    }
}

/// Returns what is said of the orders of members that were read from an office, with what it promises.
fn blocked_sentences(
    alloc: Global,
    office: &Office,
    members: &MemberChanges<'_>,
) -> Result<String, AllocError>
    requires { AreMembers office.now (set_of members.now) members.now }
    ensures { IfOk result (λ text. AreSentencesOfMembers office.now (set_of members.now) (string_bytes text)) }
{
    let (root, names) = (members.root, members.names);
    let order = order_of_changes(alloc, office, root, names, members.changes.as_slice())?;
    merge_order_sentences(alloc, members, &order)
}

/// Returns in which order members can be merged that a plan for every order blocks, in sentences, each a line: an order of all of them with the
/// pairs of which one goes before the other; or that no order works, and what else would help; or that no order was looked for, since open needs
/// concern too many members. Nothing is told where a member is in conflict or two change one cell, nor of a plan that isn't blocked.
///
/// For example, `Spur` inserts a main with a code that `Recode` gives up:
///
/// ```text
/// CLEARED IN THIS ORDER. Recode and Spur can be merged into LIVE where Recode goes before Spur.
/// All other merges, and refreshes, may come at any time.
/// ```
pub fn order_sentences(
    alloc: Global,
    office: &Office,
    members: &MemberChanges<'_>,
    plan: &Plan,
) -> Result<String, AllocError>
    requires { AreMembers office.now (set_of members.now) members.now }
    ensures { IfOk result (λ text. AreOrderSentences office.now (set_of members.now) plan.now (string_bytes text)) }
{
    match plan {
        Plan::Blocked { .. } => blocked_sentences(alloc, office, members),
        _ => Ok(String::new(alloc)),
    }
}
