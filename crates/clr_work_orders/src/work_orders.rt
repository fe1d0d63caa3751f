//! A plan as a work order.

ghost use Rattle.std.specs.Prelude.{◌≡◌, ◌++◌, codes, map, IfOk, OnOk};
ghost use Rattle.clr_merge_sets.specs.MergeSetNames.{merge_set};
ghost use Rattle.clr_work_orders.specs.WorkOrders.{IsWorkOrder, set_apart, trials_text};

use crate::among::{among_words, order_of};
use crate::trial_lines::add_trials;
use crate::trials::{Trial, try_remedies};
use clr_engine::Office;
use clr_merge_sets::read_member_changes;
use clr_order_sentences::order_sentences;
use clr_plan::{plan_changes, plan_lines};
use clr_plan_sentences::{Setting, plan_sentences};
use std::alloc::{AllocError, Global};

/// A plan in words: the text, whether the members are cleared, and whether the plan found no memory.
#[derive(Debug, Drop)]
pub struct WorkOrder {
    pub text: Vec<u8>,
    pub is_cleared: bool,
    pub is_lost: bool,
}

/// Adds sentences behind an empty line, if there are any.
fn add_apart(text: &mut Vec<u8>, sentences: &str) -> Result<(), AllocError>
    ensures { OnOk result (text.new.items ≡ text.old.items ++ set_apart sentences.now) }
{
    if sentences.is_empty() {
        return Ok(());
    }
    text.extend_from_slice(b"\n")?;
    text.extend_from_slice(sentences.as_bytes())
}

/// Returns sentences, then the lines of trials among some designs and the sentences of orders, and behind an empty line the lines of a plan.
fn order_text(
    alloc: Global,
    sentences: &str,
    among: &str,
    trials: &[Trial],
    orders: &str,
    lines: &[u8],
) -> Result<Vec<u8>, AllocError>
    ensures { IfOk result (λ text. text.items
        ≡ sentences.now ++ trials_text among.now trials.now ++ set_apart orders.now ++ codes "\n" ++ lines.now) }
{
    let mut text = Vec::from_slice(alloc, sentences.as_bytes())?;
    add_trials(&mut text, among, trials)?;
    add_apart(&mut text, orders)?;
    text.extend_from_slice(b"\n")?;
    text.extend_from_slice(lines)?;
    Ok(text)
}

/// Returns the plan of members that are to be merged into a root as a work order. Its text has sentences:
/// where the members are cleared what each of them changes, and what serves each need that they touch; where
/// they are blocked an order in which a merge is refused, the cause with its rows, and where they meet; where a
/// name is unfit what is wrong with it. Then come the remedies that were tried, each by itself, with what
/// `plan` answers of it, the cleared ones first: a member left out, a row brought or given up. They are tried among the
/// designs of the cause, which are in that order, and not among all members; behind a no stands its own cause. Of each member
/// that helps these, what `plan_in_order` answers if it goes first is told among them. Of members
/// that are blocked an order is told in which they can be merged, or why none was found. Behind an empty line stand the
/// lines of the plan. Lengths and places are told in metres, with three decimals. The office is
/// left as it was, unless memory runs out. A remedy that can't be tried isn't told, nor
/// is an edit in a workspace that has a savepoint `before_trial` or as many savepoints as there may be.
pub fn work_order(
    alloc: Global,
    office: &mut Office,
    root: &str,
    names: &[&str],
) -> Result<WorkOrder, AllocError>
    ensures order { IfOk result (IsWorkOrder office.old (merge_set root.now (map (λ name. name.now) names.now))) }
    ensures back { IfOk result (λ order. office.new ≡ office.old) }
{
    let members = read_member_changes(alloc, office, root, names)?;
    let planned = plan_changes(alloc, office, root, names, members.changes.as_slice());
    let lines = plan_lines(alloc, office.schema(), names, root, &planned)?;
    let setting = Setting {
        alloc,
        office,
        members: &members,
    };
    let sentences = plan_sentences(setting, &planned)?;
    let orders = order_sentences(alloc, office, &members, &planned)?;
    let among = among_words(alloc, names, order_of(&planned))?;
    let trials = try_remedies(alloc, office, &members, &planned)?;
    let text = order_text(
        alloc,
        sentences.as_str(),
        among.as_str(),
        trials.as_slice(),
        orders.as_str(),
        lines.as_slice(),
    )?;
    Ok(WorkOrder {
        text,
        is_cleared: planned.is_cleared(),
        is_lost: planned.is_out_of_memory(),
    })
}
