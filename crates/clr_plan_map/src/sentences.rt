//! A plan in a sentence or two.

ghost use Rattle.std.specs.Prelude.{◌≡◌, ◌++◌, length, string_bytes, IfOk, OnOk};
ghost use Rattle.clr_merge_sets.specs.MemberChanges.{set_of};
ghost use Rattle.clr_serving_rows.specs.NeedPlaces.{rule_in};
ghost use Rattle.clr_plan_answers.specs.Answers.{answer_text};
ghost use Rattle.clr_plan_sentences.specs.Causes.{reason_text};
ghost use Rattle.clr_plan_map.specs.Sentences.{alone_text, behind_line, cause_sentence, cleared_sentence, end_before, in_order_text};
ghost use Rattle.clr_plan_map.specs.Sentences.{looked_text, mergeable_text, need_sentence, one_line, order_sentence, plan_sentence};
ghost use Rattle.clr_plan_map.specs.Sentences.{rule_line, several_text};

use clr_clearance::Verdict;
use clr_member_changes::MemberChanges;
use clr_needs::Need;
use clr_phrases::rule_sentence;
use clr_plan::Plan;
use clr_plan_answers::{add_order_text, answer_words};
use clr_plan_sentences::Setting;
use clr_rows::Schema;
use clr_rules::Rule;
use clr_serving_rows::rule_of;
use std::alloc::{AllocError, Global};

/// Adds a space, unless nothing follows.
fn add_space_before(line: &mut String, rest: &str) -> Result<(), AllocError>
    ensures { OnOk result (string_bytes line.new ≡ string_bytes line.old ++ end_before rest.now) }
{
    if rest.is_empty() {
        return Ok(());
    }
    line.push_str(" ")
}

/// Returns a text of several lines as one line, with a space in place of each line end but the last.
fn one_line(alloc: Global, text: &str) -> Result<String, AllocError>
    ensures { IfOk result (λ line. string_bytes line ≡ one_line text.now) }
{
    let mut line = String::new(alloc);
    let mut rest = text;
    while let Some((part, behind)) = rest.split_once('\n') {
        line.push_str(part)?;
        add_space_before(&mut line, behind)?;
        rest = behind;
    }
    line.push_str(rest)?;
    Ok(line)
}

/// Adds a text of several lines behind a line, on the same line, after a space; nothing where there is no text.
fn add_behind(line: &mut String, alloc: Global, text: &str) -> Result<(), AllocError>
    ensures { OnOk result (string_bytes line.new ≡ string_bytes line.old ++ behind_line text.now) }
{
    let more = one_line(alloc, text)?;
    add_space_before(line, text)?;
    line.push_str(more.as_str())
}

/// Adds how many needs were looked at.
fn add_looked(text: &mut String, needs: usize) -> Result<(), AllocError>
    ensures { OnOk result (string_bytes text.new ≡ string_bytes text.old ++ looked_text needs) }
{
    let looked = if needs == 1 {
        " need was looked at."
    } else {
        " needs were looked at."
    };
    write!(text, "{needs}")?;
    text.push_str(looked)
}

/// Adds that so many members can be merged in any order.
fn add_several(text: &mut String, count: usize) -> Result<(), AllocError>
    ensures { OnOk result (string_bytes text.new ≡ string_bytes text.old ++ several_text count) }
{
    text.push_str("These ")?;
    write!(text, "{count}")?;
    text.push_str(" designs can be merged in any order, all or some of them; ")?;
    Ok(())
}

/// Adds that so many members can be merged.
fn add_mergeable(text: &mut String, count: usize) -> Result<(), AllocError>
    ensures { OnOk result (string_bytes text.new ≡ string_bytes text.old ++ mergeable_text count) }
{
    if count == 1 {
        return text.push_str("This design can be merged; ");
    }
    add_several(text, count)
}

/// Adds that so many members can be merged, and how many needs were looked at.
fn add_cleared(text: &mut String, count: usize, needs: usize) -> Result<(), AllocError>
    ensures { OnOk result (string_bytes text.new ≡ string_bytes text.old ++ cleared_sentence count needs) }
{
    if count == 0 {
        return text.push_str("No design is named.");
    }
    add_mergeable(text, count)?;
    add_looked(text, needs)
}

/// Adds that the merge of one member is refused.
fn add_alone(
    text: &mut String,
    members: &MemberChanges<'_>,
    order: &[usize],
) -> Result<(), AllocError>
    ensures { OnOk result (string_bytes text.new ≡ string_bytes text.old ++ alone_text (set_of members.now).members order.now) }
{
    text.push_str("Already ")?;
    add_order_text(text, members, order)?;
    text.push_str(" alone, merged now, is refused. ")?;
    Ok(())
}

/// Adds that one of the merges in an order is refused.
fn add_in_order(
    text: &mut String,
    members: &MemberChanges<'_>,
    order: &[usize],
) -> Result<(), AllocError>
    ensures { OnOk result (string_bytes text.new ≡ string_bytes text.old ++ in_order_text (set_of members.now).members order.now) }
{
    text.push_str("Merged in the order ")?;
    add_order_text(text, members, order)?;
    text.push_str(", one merge is refused. ")?;
    Ok(())
}

/// Adds the order in which a merge is refused.
fn add_order(
    text: &mut String,
    members: &MemberChanges<'_>,
    order: &[usize],
) -> Result<(), AllocError>
    ensures { OnOk result (string_bytes text.new ≡ string_bytes text.old ++ order_sentence (set_of members.now).members order.now) }
{
    if order.len() == 1 {
        add_alone(text, members, order)
    } else {
        add_in_order(text, members, order)
    }
}

/// Returns a rule as a sentence, behind its number.
fn rule_line(alloc: Global, schema: &Schema, number: u16, rule: &Rule) -> Result<String, AllocError>
    ensures { IfOk result (λ text. string_bytes text ≡ rule_line schema.now number rule.now) }
{
    let sentence = rule_sentence(alloc, schema, rule)?;
    let mut text = String::from_str(alloc, "Rule ")?;
    write!(text, "{number}")?;
    text.push_str(": ")?;
    text.push_str(sentence.as_str())?;
    Ok(text)
}

/// Returns the rule of a need, and behind it that the need is an old error, if it is one.
fn need_sentence(setting: Setting<'_>, need: &Need) -> Result<String, AllocError>
    ensures { IfOk result (λ text. string_bytes text ≡ need_sentence setting.entry.office.now (set_of setting.entry.members.now)
        setting.entry.members.now.changes.items need.now (rule_in setting.entry.office.now need.now)) }
{
    let Some(rule) = rule_of(setting.office, need) else {
        return Ok(String::new(setting.alloc));
    };
    let old = setting.old_words(need)?;
    let mut text = rule_line(setting.alloc, setting.office.schema(), need.rule, rule)?;
    add_behind(&mut text, setting.alloc, old.as_str())?;
    Ok(text)
}

/// Returns which row is changed twice, on one line.
fn reason_line(setting: Setting<'_>, cause: &Verdict) -> Result<String, AllocError>
    ensures { IfOk result (λ text. string_bytes text
        ≡ one_line (reason_text setting.entry.office.now (set_of setting.entry.members.now) cause.now)) }
{
    let reason = setting.reason(cause)?;
    one_line(setting.alloc, reason.as_str())
}

/// Returns why a merge is refused.
fn cause_sentence(setting: Setting<'_>, cause: &Verdict) -> Result<String, AllocError>
    ensures { IfOk result (λ text. string_bytes text ≡ cause_sentence setting.entry.office.now (set_of setting.entry.members.now)
        setting.entry.members.now.changes.items cause.now) }
{
    match cause {
        Verdict::Uncovered(need) => need_sentence(setting, need),
        Verdict::Conflict { .. } | Verdict::SharedCell { .. } => reason_line(setting, cause),
        _ => Ok(String::new(setting.alloc)),
    }
}

/// Returns a blocked plan: the order in which a merge is refused, and why.
fn blocked_sentence(
    setting: Setting<'_>,
    order: &[usize],
    cause: &Verdict,
) -> Result<String, AllocError>
    ensures { IfOk result (λ text. string_bytes text ≡ order_sentence (set_of setting.entry.members.now).members order.now
        ++ cause_sentence setting.entry.office.now (set_of setting.entry.members.now) setting.entry.members.now.changes.items cause.now) }
{
    let why = cause_sentence(setting, cause)?;
    let mut text = String::new(setting.alloc);
    add_order(&mut text, setting.members, order)?;
    text.push_str(why.as_str())?;
    Ok(text)
}

/// Returns a cleared plan of so many needs.
fn cleared_sentence(setting: Setting<'_>, needs: usize) -> Result<String, AllocError>
    ensures { IfOk result (λ text. string_bytes text ≡ cleared_sentence (length (set_of setting.entry.members.now).members) needs) }
{
    let mut text = String::new(setting.alloc);
    add_cleared(&mut text, setting.members.names.len(), needs)?;
    Ok(text)
}

/// Returns a plan of which a name is unfit, on one line.
fn unfit_sentence(setting: Setting<'_>, plan: &Plan) -> Result<String, AllocError>
    ensures { IfOk result (λ text. string_bytes text ≡ one_line (answer_text (set_of setting.entry.members.now) plan.now)) }
{
    let words = answer_words(setting.alloc, setting.members, plan)?;
    one_line(setting.alloc, words.as_str())
}

/// Returns a plan in a sentence or two, on one line.
pub(crate) fn plan_sentence(setting: Setting<'_>, plan: &Plan) -> Result<String, AllocError>
    ensures { IfOk result (λ text. string_bytes text ≡ plan_sentence setting.entry.office.now (set_of setting.entry.members.now)
        setting.entry.members.now.changes.items plan.now) }
{
    match plan {
        Plan::Cleared(certificate) => {
            cleared_sentence(setting, certificate.entries.as_slice().len())
        }
        Plan::Blocked { order, cause } => blocked_sentence(setting, order.as_slice(), cause),
        Plan::Unfit(_) => unfit_sentence(setting, plan),
        Plan::OutOfMemory => String::from_str(setting.alloc, "No memory was found."),
    }
}
