//! Remedies that are tried, each by itself, on the opened office.

ghost use Rattle.std.specs.Prelude.{◌≡◌, ◌∷◌, [], map, IfOk, OnOk};
ghost use Rattle.clr_steps.specs.declared.commands.Command.TheVariants as command;
ghost use Rattle.clr_merge_clashes.specs.Laws.{merge_set_of_part};
ghost use Rattle.clr_merge_sets.specs.MemberChanges.{AreMembers, set_of};
ghost use Rattle.clr_merge_sets.specs.MergeSetNames.{merge_set};
ghost use Rattle.clr_work_orders.specs.declared.trials.TheConstants.{BEFORE_TRIAL as SAVEPOINT};
ghost use Rattle.clr_work_orders.specs.Actions.{action_text};
ghost use Rattle.clr_work_orders.specs.Making.{AddsTrial, IsActionTried, IsBack, IsDone, IsEditJudged, IsEditTried};
ghost use Rattle.clr_work_orders.specs.Trials.{AreTrials, AreTrialsOf};

use crate::actions::{Action, action_words, copy_action};
use crate::among::{order_of, positions_behind, positions_without};
use crate::answers::{Answer, answer_at, answer_in_order};
use crate::remedies::plan_remedies;
use crate::split_trials::try_split;
use clr_change::{Edit, Edits};
use clr_engine::Office;
use clr_member_changes::MemberChanges;
use clr_plan::Plan;
use clr_rows::Words;
use clr_steps::{Command, Reply};
use clr_tips::{copy_edit, copy_edits};
use std::alloc::{AllocError, Global};

/// The savepoint to which a trial goes back. Where a workspace has one of this name, no edit is tried in it.
pub(crate) const BEFORE_TRIAL: &str = "before_trial";

/// A remedy that was tried, in words, and what the planner answers of it.
#[derive(Debug, Drop)]
pub struct Trial {
    pub words: Words,
    pub action: Action,
    pub answer: Answer,
}

/// Performs a command, and answers whether it was done; where it wasn't, nothing changes.
fn is_done(office: &mut Office, command: &Command) -> Result<bool, AllocError>
    ensures { IfOk result (λ done. IsDone office.old command.now done office.new) }
{
    match office.perform(command) {
        Reply::Done => Ok(true),
        Reply::OutOfMemory => Err(AllocError),
        _ => Ok(false),
    }
}

/// Sets a savepoint in a workspace, or answers that none can be set.
pub(crate) fn set_savepoint(
    alloc: Global,
    office: &mut Office,
    ws: &str,
) -> Result<bool, AllocError>
    ensures { IfOk result (λ done. IsDone office.old (command.Mark ws.now SAVEPOINT.now) done office.new) }
{
    let command = Command::Mark {
        ws: Words::from_str(alloc, ws)?,
        name: Words::from_str(alloc, BEFORE_TRIAL)?,
    };
    is_done(office, &command)
}

/// Makes edits in a workspace, or answers that they can't be made.
pub(crate) fn make_edits(
    alloc: Global,
    office: &mut Office,
    ws: &str,
    edits: &Edits,
) -> Result<bool, AllocError>
    ensures { IfOk result (λ done. IsDone office.old (command.Apply ws.now edits.now) done office.new) }
{
    let command = Command::Apply {
        ws: Words::from_str(alloc, ws)?,
        edits: copy_edits(alloc, edits)?,
    };
    is_done(office, &command)
}

/// Sets a workspace back to the savepoint.
fn roll_back(alloc: Global, office: &mut Office, ws: &str) -> Result<bool, AllocError>
    ensures { IfOk result (λ done. IsDone office.old (command.RollTo ws.now SAVEPOINT.now) done office.new) }
{
    let command = Command::RollTo {
        ws: Words::from_str(alloc, ws)?,
        name: Words::from_str(alloc, BEFORE_TRIAL)?,
    };
    is_done(office, &command)
}

/// Takes the savepoint away.
fn drop_savepoint(alloc: Global, office: &mut Office, ws: &str) -> Result<bool, AllocError>
    ensures { IfOk result (λ done. IsDone office.old (command.Unmark ws.now SAVEPOINT.now) done office.new) }
{
    let command = Command::Unmark {
        ws: Words::from_str(alloc, ws)?,
        name: Words::from_str(alloc, BEFORE_TRIAL)?,
    };
    is_done(office, &command)
}

/// Sets a workspace back to the savepoint, which goes. Fails where one of these isn't done, which is for
/// want of memory: the savepoint stands, and no child was made after it.
pub(crate) fn go_back(alloc: Global, office: &mut Office, ws: &str) -> Result<(), AllocError>
    ensures { OnOk result (IsBack office.old ws.now SAVEPOINT.now office.new) }
{
    if !roll_back(alloc, office, ws)? {
        return Err(AllocError);
    }
    if !drop_savepoint(alloc, office, ws)? {
        return Err(AllocError);
    }
    Ok(())
}

/// Makes edits, and answers what is told then of the members in an order; or none where they can't be made.
fn judge_edits(
    alloc: Global,
    office: &mut Office,
    root: &str,
    names: &[&str],
    order: &[usize],
    ws: &str,
    edits: &Edits,
) -> Result<Option<Answer>, AllocError>
    ensures { IfOk result (λ told. IsEditJudged office.old ws.now edits.now
        (merge_set_of_part (merge_set root.now (map (λ name. name.now) names.now)) order.now) told office.new) }
{
    if !make_edits(alloc, office, ws, edits)? {
        return Ok(None);
    }
    let answer = answer_at(alloc, office, root, names, order)?;
    Ok(Some(answer))
}

/// Tries edits of one of the members behind a savepoint: what is told with them of the members in an order, or none
/// where they can't be made. The office is as before, unless memory runs out.
pub(crate) fn try_edits(
    alloc: Global,
    office: &mut Office,
    root: &str,
    names: &[&str],
    order: &[usize],
    ws: &str,
    edits: &Edits,
) -> Result<Option<Answer>, AllocError>
    ensures told { IfOk result (IsEditTried office.old ws.now edits.now (merge_set_of_part (merge_set root.now (map (λ name. name.now) names.now)) order.now)) }
    ensures back { IfOk result (λ told. office.new ≡ office.old) }
{
    let _sound = office.len();
    if !set_savepoint(alloc, office, ws)? {
        return Ok(None);
    }
    let told = judge_edits(alloc, office, root, names, order, ws, edits)?;
    go_back(alloc, office, ws)?;
    Ok(told)
}

/// Returns a list of one edit alone.
fn one_edit(alloc: Global, edit: &Edit) -> Result<Edits, AllocError>
    ensures { IfOk result (λ edits. edits ≡ edit.now ∷ []) }
{
    let mut list = Vec::new(alloc);
    list.push(copy_edit(edit)?)?;
    Ok(Edits::new(list))
}

/// Tries an edit of one of the members, as `try_edits` does.
fn try_edit(
    alloc: Global,
    office: &mut Office,
    root: &str,
    names: &[&str],
    order: &[usize],
    ws: &str,
    edit: &Edit,
) -> Result<Option<Answer>, AllocError>
    ensures told { IfOk result (IsEditTried office.old ws.now (edit.now ∷ [])
        (merge_set_of_part (merge_set root.now (map (λ name. name.now) names.now)) order.now)) }
    ensures back { IfOk result (λ told. office.new ≡ office.old) }
{
    let edits = one_edit(alloc, edit)?;
    let told = try_edits(alloc, office, root, names, order, ws, &edits)?;
    Ok(told)
}

/// Tries an action: what is told with it of the members in an order, or none where it can't be tried. The office is
/// as before, unless memory runs out.
fn try_action(
    alloc: Global,
    office: &mut Office,
    root: &str,
    names: &[&str],
    order: &[usize],
    action: &Action,
) -> Result<Option<Answer>, AllocError>
    ensures told { IfOk result (IsActionTried office.old (merge_set root.now (map (λ name. name.now) names.now)) order.now action.now) }
    ensures back { IfOk result (λ told. office.new ≡ office.old) }
{
    match action {
        Action::GoFirst(member) => {
            let turns = positions_behind(alloc, *member, order)?;
            let answer = answer_in_order(alloc, office, root, names, turns.as_slice())?;
            Ok(Some(answer))
        }
        Action::LeaveOut(member) => {
            let rest = positions_without(alloc, order, *member)?;
            let answer = answer_at(alloc, office, root, names, rest.as_slice())?;
            Ok(Some(answer))
        }
        Action::Make(member, edit) => match names.get(*member) {
            Some(ws) => try_edit(alloc, office, root, names, order, ws, edit),
            None => Ok(None),
        },
        Action::Split(split) => try_split(alloc, office, root, names, order, split),
    }
}

/// Returns the trial of an action among the members in an order, with this answer.
fn trial_of(
    alloc: Global,
    office: &Office,
    names: &[&str],
    order: &[usize],
    action: &Action,
    answer: Answer,
) -> Result<Trial, AllocError>
    ensures words { IfOk result (λ trial. trial.words ≡ action_text office.now.schema (map (λ name. name.now) names.now) order.now action.now) }
    ensures action { IfOk result (λ trial. trial.action ≡ action.now) }
    ensures answer { IfOk result (λ trial. trial.answer ≡ answer) }
{
    Ok(Trial {
        words: action_words(alloc, office.schema(), names, order, action)?,
        action: copy_action(alloc, action)?,
        answer,
    })
}

/// Tries an action among the members in an order, and adds what is told of it, if it can be tried. The office is as before, unless memory runs out.
fn add_trial(
    alloc: Global,
    office: &mut Office,
    root: &str,
    names: &[&str],
    order: &[usize],
    action: &Action,
    trials: &mut Vec<Trial>,
) -> Result<(), AllocError>
    ensures added { OnOk result (AddsTrial office.old (merge_set root.now (map (λ name. name.now) names.now)) order.now
        action.now trials.old.items trials.new.items) }
    ensures back { OnOk result (office.new ≡ office.old) }
{
    match try_action(alloc, office, root, names, order, action)? {
        Some(answer) => Ok(trials.push(trial_of(alloc, office, names, order, action, answer)?)?),
        None => Ok(()),
    }
}

/// Tries actions among the members in an order, one after another. The office is as before, but where it fails, which is for want of
/// memory.
fn try_all(
    alloc: Global,
    office: &mut Office,
    root: &str,
    names: &[&str],
    order: &[usize],
    actions: &[Action],
) -> Result<Vec<Trial>, AllocError>
    ensures tried { IfOk result (λ trials. AreTrials office.old (merge_set root.now (map (λ name. name.now) names.now)) order.now
        actions.now trials.items) }
    ensures back { IfOk result (λ trials. office.new ≡ office.old) }
{
    let mut trials = Vec::new(alloc);
    for action in actions {
        add_trial(alloc, office, root, names, order, action, &mut trials)?;
    }
    Ok(trials)
}

/// Tries what may clear members that this plan says are blocked, each remedy by itself, and returns what `plan` answers of each;
/// nothing is tried of any other plan. A remedy is that a member which helps goes first, that a member is left out, that a row is brought
/// or given up, or that lines are split. It is tried among the members in the order of the plan alone, and with the one that goes first.
/// One that can't be tried isn't told, nor is an edit in a workspace that has a savepoint `before_trial` or as many savepoints as there
/// may be. The office is left as it was, unless memory runs out.
pub fn try_remedies(
    alloc: Global,
    office: &mut Office,
    members: &MemberChanges<'_>,
    plan: &Plan,
) -> Result<Vec<Trial>, AllocError>
    requires { AreMembers office.old (set_of members.now) members.now }
    ensures tried { IfOk result (λ trials. AreTrialsOf office.old (set_of members.now) plan.now trials.items) }
    ensures back { IfOk result (λ trials. office.new ≡ office.old) }
{
    let (root, names) = (members.root, members.names);
    let actions = plan_remedies(alloc, office, members, plan)?;
    let order = order_of(plan);
    try_all(alloc, office, root, names, order, actions.as_slice())
}
