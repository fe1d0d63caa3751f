//! The twelve commands, each on the workspace at a position.

ghost use Rattle.std.specs.Prelude.{◌≡◌, ◌<◌, [], ◌∷◌, None, true, false, length, Some};
ghost use Rattle.std.specs.Option.{option_copied, option_map};
ghost use Rattle.clr_rows.specs.Contents.{set_cell};
ghost use Rattle.clr_change.specs.Edits.{after_edits, first_bad_edit};
ghost use Rattle.clr_workspaces.specs.Workspaces.{workspace_at, find};
ghost use Rattle.clr_workspaces.specs.Operations.{after_roll_to};
ghost use Rattle.clr_workspaces.specs.Operations.{after_roll_all, after_rebase, set_kept, keep_row};
ghost use Rattle.clr_workspaces.specs.Soundness.{IsSound};
ghost use Rattle.clr_workspaces.specs.declared.rebases.Rebase.TheVariants as rebase;
ghost use Rattle.clr_steps.specs.Laws.{IsPerformed};
ghost use Rattle.clr_steps.specs.Offices.{office_of};
ghost use Rattle.clr_steps.specs.Positions.{at_savepoint, edit_at, effect_at, merge_at, refusal_at};
ghost use Rattle.clr_steps.specs.Refusals.{bad_edit, broken_where, first_of, is_in_conflict_with, name_in};
ghost use Rattle.clr_steps.specs.Steps.{is_lost, TakesNoMemory};
ghost use Rattle.clr_steps.specs.declared.commands.Command.TheVariants as command;
ghost use Rattle.clr_steps.specs.declared.commands.Reply.TheVariants.{Done, OutOfMemory};
ghost use Rattle.clr_engine.specs.Fitting.{IsAdmitted, IsFitting};
ghost use Rattle.clr_grid.specs.Finders.{AreFinders};
ghost use Rattle.clr_judges.specs.KeptContents.{kept_contents};
ghost use Rattle.clr_engine.specs.Performed.{IsPerformedAt, name_of};
ghost use Rattle.clr_judges.specs.Fitting.{IsServed};

use crate::plain_commands::{create, finish, mark, release, remove, unmark, write_above};
use clr_change::{Edit, EditFault, are_same, first_conflict, stage};
use clr_grid::Finders;
use clr_judges::Judge;
use clr_rows::{CellId, Row, Schema};
use clr_steps::{Command, Keep, Reply};
use clr_tree::{Rebase, Tree};

// Each function here that is handed a tree to change performs a command on the workspace at a
// position, whole or not at all.

fn apply(
    schema: &Schema,
    judge: &Judge,
    tree: &mut Tree,
    finders: &mut Finders,
    at: usize,
    edits: &[Edit],
) -> Reply
    requires within { at < length tree.old.list }
    requires fit { IsFitting (office_of schema.now judge.now tree.old.list) }
    requires served { IsServed judge.now tree.old.list finders.old }
    ensures performed { let w = workspace_at tree.old.list at in IsPerformed
        (first_of (option_map bad_edit (first_bad_edit schema.now w.current 1 edits.now)
        ∷ broken_where w.kept judge.now w.current (after_edits w.current edits.now)
        ∷ []))
        tree.old.list (edit_at tree.old.list edits.now at) result tree.new.list }
    ensures finders { AreFinders judge.now (kept_contents tree.new.list) finders.new }
{
    let changed = match stage(judge.allocator(), schema, &tree.view(at), edits) {
        Ok(changed) => changed,
        Err((_, EditFault::OutOfMemory)) => return Reply::OutOfMemory,
        Err((number, fault)) => return Reply::BadEdit(number, fault),
    };
    match judge.prepare(tree, finders, at, &changed) {
        Ok(None) => {
            let done = tree.write_all(at, &changed);
            finish(finders, at, done)
        }
        Ok(Some(need)) => Reply::RuleBroken(need),
        Err(_) => Reply::OutOfMemory,
    }
}

#[tactic(auto, unfolding(clr_steps::specs::Positions::refusals_at, clr_steps::specs::Effects::rolled_content))]
fn roll_to(
    judge: &Judge,
    tree: &mut Tree,
    finders: &mut Finders,
    at: usize,
    savepoint: &str,
) -> Reply
    requires child { 0 < at }
    requires within { at < length tree.old.list }
    requires served { IsServed judge.now tree.old.list finders.old }
    ensures performed { IsPerformedAt judge.now (command.RollTo (name_of tree.old.list at) savepoint.now) at tree.old.list
        (at_savepoint tree.old.list at savepoint.now (after_roll_to tree.old.list at)) result tree.new.list }
    ensures finders { AreFinders judge.now (kept_contents tree.new.list) finders.new }
{
    let Some(mark) = tree.find_mark(at, savepoint) else {
        return Reply::NoSavepoint;
    };
    if tree.held(at, mark) {
        return Reply::SavepointHeld;
    }
    match judge.prepare_savepoint(tree, finders, at, mark) {
        Ok(None) => {
            let done = tree.roll_to(at, mark);
            finish(finders, at, done)
        }
        Ok(Some(need)) => Reply::RuleBroken(need),
        Err(_) => Reply::OutOfMemory,
    }
}

#[tactic(auto, unfolding(clr_steps::specs::Positions::refusals_at))]
fn roll_all(judge: &Judge, tree: &mut Tree, finders: &mut Finders, at: usize) -> Reply
    requires child { 0 < at }
    requires within { at < length tree.old.list }
    requires served { IsServed judge.now tree.old.list finders.old }
    ensures performed { IsPerformedAt judge.now (command.RollAll (name_of tree.old.list at)) at tree.old.list
        (after_roll_all tree.old.list at) result tree.new.list }
    ensures finders { AreFinders judge.now (kept_contents tree.new.list) finders.new }
{
    if tree.children(at) > 0 {
        return Reply::NotLeaf;
    }
    match judge.prepare_base(tree, finders, at) {
        Ok(None) => {
            tree.roll_all(at);
            finish(finders, at, Ok(()))
        }
        Ok(Some(need)) => Reply::RuleBroken(need),
        Err(_) => Reply::OutOfMemory,
    }
}

#[tactic(auto, unfolding(clr_steps::specs::Positions::refusals_at))]
fn refresh(judge: &Judge, tree: &mut Tree, finders: &mut Finders, at: usize) -> Reply
    requires child { 0 < at }
    requires within { at < length tree.old.list }
    requires served { IsServed judge.now tree.old.list finders.old }
    ensures performed { IsPerformedAt judge.now (command.Refresh (name_of tree.old.list at)) at tree.old.list
        (after_rebase tree.old.list at rebase.Refresh) result tree.new.list }
    ensures finders { AreFinders judge.now (kept_contents tree.new.list) finders.new }
{
    let above = tree.parent(at).unwrap();
    let Ok(changed) = tree.changes(at) else {
        return Reply::OutOfMemory;
    };
    if let Some((cell, count)) = first_conflict(&changed, &tree.view(above)) {
        return Reply::Conflict(cell, count);
    }
    match judge.prepare_refresh(tree, finders, at, above, &changed) {
        Ok(None) => {
            let done = tree.refresh_changes(at, &changed);
            finish(finders, at, done)
        }
        Ok(Some(need)) => Reply::RuleBroken(need),
        Err(_) => Reply::OutOfMemory,
    }
}

#[tactic(auto, unfolding(clr_steps::specs::Positions::refusals_at))]
fn merge(judge: &Judge, tree: &mut Tree, finders: &mut Finders, at: usize, remove: bool) -> Reply
    requires child { 0 < at }
    requires within { at < length tree.old.list }
    requires served { IsServed judge.now tree.old.list finders.old }
    ensures performed { IsPerformedAt judge.now (command.Merge (name_of tree.old.list at) remove) at tree.old.list
        (merge_at tree.old.list remove at) result tree.new.list }
    ensures finders { AreFinders judge.now (kept_contents tree.new.list) finders.new }
{
    if remove && tree.children(at) > 0 {
        return Reply::NotLeaf;
    }
    let above = tree.parent(at).unwrap();
    let Ok(changed) = tree.changes(at) else {
        return Reply::OutOfMemory;
    };
    if let Some((cell, count)) = first_conflict(&changed, &tree.view(above)) {
        return Reply::Conflict(cell, count);
    }
    match judge.prepare(tree, finders, above, &changed) {
        Ok(None) => write_above(tree, finders, at, above, &changed, remove),
        Ok(Some(need)) => Reply::RuleBroken(need),
        Err(_) => Reply::OutOfMemory,
    }
}

/// Returns whether a workspace changed a cell where its parent has another row than the one that it took
/// over.
fn is_in_conflict(tree: &Tree, at: usize, above: usize, cell: CellId) -> bool
    requires child { 0 < at }
    requires within { at < length tree.now.list }
    requires above { above < length tree.now.list }
    ensures { result ≡ is_in_conflict_with (workspace_at tree.now.list above).current (workspace_at tree.now.list at) cell }
{
    let base = tree.base(at, cell);
    !are_same(base, tree.read(at, cell)) && !are_same(tree.read(above, cell), base)
}

/// Returns the row that a workspace has at a cell once it is resolved.
#[tactic(auto, using(clr_judges::proofs::Contents::set_same))]
fn row_to_keep(tree: &Tree, at: usize, above: usize, cell: CellId, keep: Keep) -> Option<&Row>
    requires child { 0 < at }
    requires within { at < length tree.now.list }
    requires above { above < length tree.now.list }
    ensures { let w = workspace_at tree.now.list at in
        set_cell w.current cell (option_copied result) ≡ (keep_row cell keep (workspace_at tree.now.list above).current w).current }
{
    match keep {
        Keep::Parent => tree.read(above, cell),
        Keep::Child => tree.read(at, cell),
        Keep::Base => tree.base(at, cell),
    }
}

#[tactic(auto, unfolding(clr_steps::specs::Positions::refusals_at))]
fn resolve(
    judge: &Judge,
    tree: &mut Tree,
    finders: &mut Finders,
    at: usize,
    cell: CellId,
    keep: Keep,
) -> Reply
    requires child { 0 < at }
    requires within { at < length tree.old.list }
    requires served { IsServed judge.now tree.old.list finders.old }
    ensures performed { IsPerformedAt judge.now (command.Resolve (name_of tree.old.list at) cell keep) at tree.old.list
        (after_rebase tree.old.list at (rebase.OneRow cell keep)) result tree.new.list }
    ensures finders { AreFinders judge.now (kept_contents tree.new.list) finders.new }
{
    let above = tree.parent(at).unwrap();
    if !is_in_conflict(tree, at, above, cell) {
        return Reply::NotInConflict;
    }
    match judge.prepare_row(
        tree,
        finders,
        at,
        cell,
        row_to_keep(tree, at, above, cell, keep),
    ) {
        Ok(None) => {
            let done = tree.rebase(at, Rebase::OneRow(cell, keep));
            finish(finders, at, done)
        }
        Ok(Some(need)) => Reply::RuleBroken(need),
        Err(_) => Reply::OutOfMemory,
    }
}

#[tactic(auto, unfolding(clr_steps::specs::Positions::refusals_at))]
fn hold(judge: &Judge, tree: &mut Tree, finders: &mut Finders, at: usize) -> Reply
    requires child { 0 < at }
    requires within { at < length tree.old.list }
    requires served { IsServed judge.now tree.old.list finders.old }
    ensures performed { let list = tree.old.list in
        IsPerformedAt judge.now (command.Hold (name_of list at)) at list (set_kept list at true) result tree.new.list }
    ensures finders { AreFinders judge.now (kept_contents tree.new.list) finders.new }
{
    let above = tree.parent(at).unwrap();
    match judge.prepare_hold(tree, finders, at, above) {
        Ok(None) => {
            tree.hold(at);
            Reply::Done
        }
        Ok(Some(need)) => Reply::RuleBroken(need),
        Err(_) => Reply::OutOfMemory,
    }
}

/// Returns the name of the workspace that a command is on; for Create it is the parent's.
fn name_in(command: &Command) -> &str
    ensures { result.now ≡ name_in command.now }
{
    match command {
        Command::Create { parent, .. } => parent.as_str(),
        Command::Remove { ws } => ws.as_str(),
        Command::Apply { ws, .. } => ws.as_str(),
        Command::Mark { ws, .. } => ws.as_str(),
        Command::Unmark { ws, .. } => ws.as_str(),
        Command::RollTo { ws, .. } => ws.as_str(),
        Command::RollAll { ws } => ws.as_str(),
        Command::Refresh { ws } => ws.as_str(),
        Command::Merge { ws, .. } => ws.as_str(),
        Command::Resolve { ws, .. } => ws.as_str(),
        Command::Hold { ws } => ws.as_str(),
        Command::Release { ws } => ws.as_str(),
    }
}

/// Performs a command on LIVE, which takes only Create and Apply.
#[tactic(auto, unfolding(clr_steps::specs::Positions::refusal_at, clr_steps::specs::Positions::effect_at))]
fn perform_on_live(
    schema: &Schema,
    judge: &Judge,
    tree: &mut Tree,
    finders: &mut Finders,
    command: &Command,
) -> Reply
    requires fit { IsFitting (office_of schema.now judge.now tree.old.list) }
    requires served { IsServed judge.now tree.old.list finders.old }
    requires found { find tree.old.list (name_in command.now) ≡ Some 0 }
    requires filled { 0 < length tree.old.list }
    ensures performed { IsPerformed (refusal_at schema.now judge.now tree.old.list command.now)
        tree.old.list (effect_at tree.old.list command.now) result tree.new.list }
    ensures finders { AreFinders judge.now (kept_contents tree.new.list) finders.new }
    ensures no_memory { TakesNoMemory command.now → is_lost result ≡ false }
{
    match command {
        Command::Create { name, .. } => create(tree, finders, name.as_str(), 0),
        Command::Apply { edits, .. } => apply(schema, judge, tree, finders, 0, edits.as_slice()),
        _ => Reply::LiveIsFixed,
    }
}

/// Performs a command.
#[tactic(auto, unfolding(clr_steps::specs::Positions::refusal_at, clr_steps::specs::Positions::effect_at))]
pub(crate) fn perform(
    schema: &Schema,
    judge: &Judge,
    tree: &mut Tree,
    finders: &mut Finders,
    command: &Command,
) -> Reply
    requires admitted { IsAdmitted (office_of schema.now judge.now tree.old.list) }
    requires are { AreFinders judge.now (kept_contents tree.old.list) finders.old }
    ensures performed { IsPerformed (refusal_at schema.now judge.now tree.old.list command.now)
        tree.old.list (effect_at tree.old.list command.now) result tree.new.list }
    ensures finders { AreFinders judge.now (kept_contents tree.new.list) finders.new }
    ensures no_memory { TakesNoMemory command.now → is_lost result ≡ false }
    ensures sound { IsSound tree.old.list }
{
    let Some(at) = tree.find(name_in(command)) else {
        return Reply::NoWorkspace;
    };
    if at == 0 {
        return perform_on_live(schema, judge, tree, finders, command);
    }
    match command {
        Command::Create { name, .. } => create(tree, finders, name.as_str(), at),
        Command::Apply { edits, .. } => apply(schema, judge, tree, finders, at, edits.as_slice()),
        Command::Remove { .. } => remove(tree, finders, at),
        Command::Mark { name, .. } => mark(tree, at, name.as_str()),
        Command::Unmark { name, .. } => unmark(tree, at, name.as_str()),
        Command::RollTo { name, .. } => roll_to(judge, tree, finders, at, name.as_str()),
        Command::RollAll { .. } => roll_all(judge, tree, finders, at),
        Command::Refresh { .. } => refresh(judge, tree, finders, at),
        Command::Merge { remove, .. } => merge(judge, tree, finders, at, *remove),
        Command::Resolve { cell, keep, .. } => resolve(judge, tree, finders, at, *cell, *keep),
        Command::Hold { .. } => hold(judge, tree, finders, at),
        Command::Release { .. } => release(tree, finders, at),
    }
}
