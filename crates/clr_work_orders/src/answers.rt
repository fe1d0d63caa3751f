//! What the planner answers of members, in short.

ghost use Rattle.std.specs.Prelude.{◌≡◌, ◌++◌, map, string_bytes, IfOk, OnOk};
ghost use Rattle.clr_clearance.specs.declared.verdicts.Verdict.TheVariants as verdict;
ghost use Rattle.clr_merge_sets.specs.MemberChanges.{set_of};
ghost use Rattle.clr_merge_clashes.specs.Laws.{merge_set_of_part};
ghost use Rattle.clr_merge_sets.specs.MergeSetNames.{merge_set};
ghost use Rattle.clr_plan_sentences.specs.ServedNeeds.{second_subject_text};
ghost use Rattle.clr_work_orders.specs.Answers.{cause_note, rows_front, why_not};
ghost use Rattle.clr_work_orders.specs.Trials.{IsInShort, TellsAnswer, TellsAnswerInOrder};

use clr_clearance::Verdict;
use clr_engine::Office;
use clr_merge_sets::{names_at, read_member_changes};
use clr_needs::{Need, VersionId};
use clr_ordered_plans::plan_changes_in_order;
use clr_plan::{Plan, plan_changes};
use clr_plan_sentences::{Setting, add_label};
use clr_rows::{Schema, Words};
use std::alloc::{AllocError, Global};

/// What the planner answers of members, in short.
#[derive(Debug, Drop)]
pub struct Answer {
    pub is_cleared: bool,
    /// Why they aren't cleared, a line; nothing where they are.
    pub why: Words,
}

/// Adds the second row that asks, if there is one.
fn add_second(
    text: &mut String,
    schema: &Schema,
    second: Option<VersionId>,
) -> Result<(), AllocError>
    ensures { OnOk result (string_bytes text.new ≡ string_bytes text.old ++ second_subject_text schema.now second) }
{
    match second {
        Some(version) => {
            text.push_str(" and ")?;
            add_label(text, schema, version.cell)
        }
        None => Ok(()),
    }
}

/// Returns the rows of a need that ask, before why it is so.
fn need_rows(setting: Setting<'_>, need: &Need) -> Result<String, AllocError>
    ensures { IfOk result (λ text. string_bytes text ≡ rows_front setting.entry.office.now.schema (verdict.Uncovered need.now)) }
{
    let schema = setting.office.schema();
    let mut text = String::new(setting.alloc);
    add_label(&mut text, schema, need.first.cell)?;
    add_second(&mut text, schema, need.second)?;
    text.push_str(": ")?;
    Ok(text)
}

/// Returns the rows that ask, if a verdict is on a need, before why it is so; nothing of any other.
fn rows_front(setting: Setting<'_>, cause: &Verdict) -> Result<String, AllocError>
    ensures { IfOk result (λ text. string_bytes text ≡ rows_front setting.entry.office.now.schema cause.now) }
{
    match cause {
        Verdict::Uncovered(need) => need_rows(setting, need),
        _ => Ok(String::new(setting.alloc)),
    }
}

/// Returns why members are blocked, with the rows, on a line.
fn cause_note(setting: Setting<'_>, cause: &Verdict) -> Result<String, AllocError>
    ensures { IfOk result (λ text. string_bytes text ≡ cause_note setting.entry.office.now (set_of setting.entry.members.now) cause.now) }
{
    let reason = setting.reason(cause)?;
    let mut text = rows_front(setting, cause)?;
    text.push_str(reason.as_str())?;
    Ok(text)
}

/// Returns why a plan isn't cleared, on a line; nothing of one that is.
fn why_not(setting: Setting<'_>, plan: &Plan) -> Result<String, AllocError>
    ensures { IfOk result (λ text. string_bytes text ≡ why_not setting.entry.office.now (set_of setting.entry.members.now) plan.now) }
{
    match plan {
        Plan::Blocked { cause, .. } => cause_note(setting, cause),
        Plan::Unfit(_) => String::from_str(setting.alloc, "A name has to be mended first.\n"),
        Plan::Cleared(_) | Plan::OutOfMemory => Ok(String::new(setting.alloc)),
    }
}

/// Returns a plan of members in short. Where it has no memory, this call fails too.
fn in_short(setting: Setting<'_>, plan: &Plan) -> Result<Answer, AllocError>
    ensures { IfOk result (IsInShort setting.entry.office.now (set_of setting.entry.members.now) plan.now) }
{
    if plan.is_out_of_memory() {
        return Err(AllocError);
    }
    let why = why_not(setting, plan)?;
    Ok(Answer {
        is_cleared: plan.is_cleared(),
        why: Words::new(why),
    })
}

/// Returns what `plan` answers of members, in short. Where the plan has no memory, this call fails too.
fn answer_of(
    alloc: Global,
    office: &Office,
    root: &str,
    names: &[&str],
) -> Result<Answer, AllocError>
    ensures { IfOk result (TellsAnswer office.now (merge_set root.now (map (λ name. name.now) names.now))) }
{
    let members = read_member_changes(alloc, office, root, names)?;
    let planned = plan_changes(alloc, office, root, names, members.changes.as_slice());
    let setting = Setting {
        alloc,
        office,
        members: &members,
    };
    let answer = in_short(setting, &planned)?;
    Ok(answer)
}

/// Returns what `plan_in_order` answers of members, in short. Where the plan has no memory, this call fails too.
fn answer_of_order(
    alloc: Global,
    office: &Office,
    root: &str,
    names: &[&str],
) -> Result<Answer, AllocError>
    ensures { IfOk result (TellsAnswerInOrder office.now (merge_set root.now (map (λ name. name.now) names.now))) }
{
    let members = read_member_changes(alloc, office, root, names)?;
    let planned = plan_changes_in_order(alloc, office, root, names, members.changes.as_slice());
    let setting = Setting {
        alloc,
        office,
        members: &members,
    };
    let answer = in_short(setting, &planned)?;
    Ok(answer)
}

/// Returns what `plan` answers of the members at some positions alone, in short. Where the plan has no memory, this call fails too.
pub(crate) fn answer_at(
    alloc: Global,
    office: &Office,
    root: &str,
    names: &[&str],
    positions: &[usize],
) -> Result<Answer, AllocError>
    ensures { IfOk result (TellsAnswer office.now (merge_set_of_part (merge_set root.now (map (λ name. name.now) names.now)) positions.now)) }
{
    let part = names_at(alloc, names, positions)?;
    answer_of(alloc, office, root, part.as_slice())
}

/// Returns what `plan_in_order` answers of the members at some positions alone, merged in the order of these, in short. Where the plan has no memory,
/// this call fails too.
pub(crate) fn answer_in_order(
    alloc: Global,
    office: &Office,
    root: &str,
    names: &[&str],
    positions: &[usize],
) -> Result<Answer, AllocError>
    ensures { IfOk result (TellsAnswerInOrder office.now (merge_set_of_part (merge_set root.now (map (λ name. name.now) names.now)) positions.now)) }
{
    let part = names_at(alloc, names, positions)?;
    answer_of_order(alloc, office, root, part.as_slice())
}
