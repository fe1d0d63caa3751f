//! The commands that no rule refuses, and the last step of others, each on the workspace at a position.

ghost use Rattle.std.specs.Prelude.{◌≡◌, ◌<◌, List, [], ◌∷◌, None, ◌||◌, true, false, length, nat_le, is_some, not, Some, OnOk, OnErr};
ghost use Rattle.clr_rows.specs.Contents.{taken_over};
ghost use Rattle.clr_rows.specs.Names.{is_good_name};
ghost use Rattle.clr_rules.specs.declared.rules.Rule.{Rule as OneRule};
ghost use Rattle.clr_workspaces.specs.Workspaces.{workspace_at, find, parent_of, children_of, depth_of};
ghost use Rattle.clr_workspaces.specs.Operations.{after_create, after_remove, after_mark, after_unmark};
ghost use Rattle.clr_workspaces.specs.Operations.{own_changes, set_kept};
ghost use Rattle.clr_workspaces.specs.declared.limits.TheConstants.{MOST_WORKSPACES as MOST, MOST_LEVELS as LEVELS};
ghost use Rattle.clr_steps.specs.Laws.{IsPerformed};
ghost use Rattle.clr_steps.specs.Positions.{at_savepoint, merge_at};
ghost use Rattle.clr_steps.specs.Refusals.{first_of, when};
ghost use Rattle.clr_steps.specs.Steps.{is_lost};
ghost use Rattle.clr_steps.specs.declared.commands.Command.TheVariants as command;
ghost use Rattle.clr_steps.specs.declared.commands.Reply.TheVariants.{Done, OutOfMemory, BadName, NameTaken, TooMany};
ghost use Rattle.clr_grid.specs.Finders.{AreFinders, HasForgotten, HasSettled, IsChangedAt};
ghost use Rattle.clr_judges.specs.KeptContents.{IsPrepared, StayFinders, kept_contents};
ghost use Rattle.clr_engine.specs.Performed.{IsPerformedAt, name_of};

use clr_change::ChangeSet;
use clr_grid::Finders;
use clr_rows::good_name;
use clr_steps::Reply;
use clr_tree::{MOST_LEVELS, MOST_SAVEPOINTS, MOST_WORKSPACES, Tree};
use std::alloc::AllocError;

// Each function here that is handed a tree to change performs a command on the workspace at a
// position, whole or not at all.

/// Returns the reply to a command whose last call may find no memory.
fn end_command(done: Result<(), AllocError>) -> Reply
    ensures ok { OnOk done (result ≡ Done) }
    ensures err { OnErr done (result ≡ OutOfMemory) }
{
    match done {
        Ok(()) => Reply::Done,
        Err(_) => Reply::OutOfMemory,
    }
}

/// Ends a command whose last call changed the content of a workspace or found no memory: the finder
/// of the workspace takes over what it noted, or drops it. Returns the reply.
pub(crate) fn finish(finders: &mut Finders, at: usize, done: Result<(), AllocError>) -> Reply
    requires { at < length finders.old }
    ensures ok { OnOk done (result ≡ Done) }
    ensures err { OnErr done (result ≡ OutOfMemory) }
    ensures settled { OnOk done (IsChangedAt HasSettled at finders.old finders.new) }
    ensures forgotten { OnErr done (IsChangedAt HasForgotten at finders.old finders.new) }
{
    match done {
        Ok(()) => {
            finders.settle(at);
            Reply::Done
        }
        Err(_) => {
            finders.forget(at);
            Reply::OutOfMemory
        }
    }
}

/// Makes a leaf under the workspace at a position, or refuses to.
pub(crate) fn create(tree: &mut Tree, finders: &mut Finders, name: &str, parent: usize) -> Reply
    requires { parent < length tree.old.list }
    ensures performed { IsPerformed
        (first_of (
        when (not (is_good_name name.now)) BadName
        ∷ when (is_some (find tree.old.list name.now)) NameTaken
        ∷ when (nat_le MOST (length tree.old.list) || nat_le LEVELS (depth_of tree.old.list parent)) TooMany
        ∷ []
        ))
        tree.old.list (after_create tree.old.list name.now parent) result tree.new.list }
    ensures finders { StayFinders tree.old.list finders.old tree.new.list finders.new }
{
    if !good_name(name) {
        return Reply::BadName;
    }
    if tree.find(name).is_some() {
        return Reply::NameTaken;
    }
    if tree.len() >= MOST_WORKSPACES || tree.depth(parent) >= MOST_LEVELS {
        return Reply::TooMany;
    }
    if finders.push(None).is_err() {
        return Reply::OutOfMemory;
    }
    match tree.create(name, parent) {
        Ok(()) => Reply::Done,
        Err(_) => {
            finders.drop_last();
            Reply::OutOfMemory
        }
    }
}

/// Takes the leaf at a position away, and its finder.
fn take_away(tree: &mut Tree, finders: &mut Finders, at: usize)
    requires child { 0 < at }
    requires within { at < length tree.old.list }
    requires leaf { children_of tree.old.list (workspace_at tree.old.list at).name ≡ 0 }
    requires along { length finders.old ≡ length tree.old.list }
    ensures removed { tree.new.list ≡ after_remove tree.old.list at }
    ensures finders { StayFinders tree.old.list finders.old tree.new.list finders.new }
{
    let _sound = tree.len();
    tree.remove(at);
    finders.remove(at);
}

/// Removes the workspace at a position, or refuses to.
#[tactic(auto, unfolding(clr_steps::specs::Positions::refusals_at))]
pub(crate) fn remove(tree: &mut Tree, finders: &mut Finders, at: usize) -> Reply
    requires child { 0 < at }
    requires within { at < length tree.old.list }
    requires along { length finders.old ≡ length tree.old.list }
    ensures performed { IsPerformedAt [] (command.Remove (name_of tree.old.list at)) at tree.old.list
        (after_remove tree.old.list at) result tree.new.list }
    ensures no_memory { is_lost result ≡ false }
    ensures finders { StayFinders tree.old.list finders.old tree.new.list finders.new }
{
    if tree.children(at) > 0 {
        return Reply::NotLeaf;
    }
    take_away(tree, finders, at);
    Reply::Done
}

/// Makes a savepoint of the workspace at a position, or refuses to.
#[tactic(auto, unfolding(clr_steps::specs::Positions::refusals_at))]
pub(crate) fn mark(tree: &mut Tree, at: usize, savepoint: &str) -> Reply
    requires child { 0 < at }
    requires within { at < length tree.old.list }
    ensures { IsPerformedAt [] (command.Mark (name_of tree.old.list at) savepoint.now) at tree.old.list
        (after_mark tree.old.list at savepoint.now) result tree.new.list }
{
    if !good_name(savepoint) {
        return Reply::BadName;
    }
    if tree.find_mark(at, savepoint).is_some() {
        return Reply::NameTaken;
    }
    if tree.saved(at) >= MOST_SAVEPOINTS {
        return Reply::TooMany;
    }
    end_command(tree.mark(at, savepoint))
}

/// Removes a savepoint of the workspace at a position, or refuses to.
#[tactic(auto, unfolding(clr_steps::specs::Positions::refusals_at))]
pub(crate) fn unmark(tree: &mut Tree, at: usize, savepoint: &str) -> Reply
    requires child { 0 < at }
    requires within { at < length tree.old.list }
    ensures performed { IsPerformedAt [] (command.Unmark (name_of tree.old.list at) savepoint.now) at tree.old.list
        (at_savepoint tree.old.list at savepoint.now (after_unmark tree.old.list at)) result tree.new.list }
    ensures no_memory { is_lost result ≡ false }
{
    let Some(mark) = tree.find_mark(at, savepoint) else {
        return Reply::NoSavepoint;
    };
    tree.unmark(at, mark);
    Reply::Done
}

/// Writes the changes of a workspace, which the finder of its parent has noted, to its parent, and
/// takes the workspace away where `remove` says so.
pub(crate) fn write_above(
    tree: &mut Tree,
    finders: &mut Finders,
    at: usize,
    above: usize,
    changed: &ChangeSet,
    remove: bool,
) -> Reply
    requires child { 0 < at }
    requires within { at < length tree.old.list }
    requires parent { parent_of tree.old.list at ≡ Some above }
    requires earlier { above < at }
    requires changed { changed.now ≡ own_changes (workspace_at tree.old.list at) }
    requires leaf { remove ≡ true → children_of tree.old.list (workspace_at tree.old.list at).name ≡ 0 }
    requires along { length finders.old ≡ length tree.old.list }
    ensures performed { IsPerformed None tree.old.list (merge_at tree.old.list remove at) result tree.new.list }
    ensures finders { (book : List OneRule)
        → IsPrepared book tree.old.list above (taken_over (workspace_at tree.old.list above).current (own_changes (workspace_at tree.old.list at))) finders.old
        → AreFinders book (kept_contents tree.new.list) finders.new }
{
    match tree.merge_changes(at, changed) {
        Ok(()) => {
            finders.settle(above);
            if remove {
                take_away(tree, finders, at);
            }
            Reply::Done
        }
        Err(_) => {
            finders.forget(above);
            Reply::OutOfMemory
        }
    }
}

/// Says that from now on no rule need hold in the workspace at a position, and drops its finder.
#[tactic(auto, using(crate::proofs::Served::after_releasing), unfolding(clr_steps::specs::Positions::refusals_at))]
pub(crate) fn release(tree: &mut Tree, finders: &mut Finders, at: usize) -> Reply
    requires child { 0 < at }
    requires within { at < length tree.old.list }
    requires along { length finders.old ≡ length tree.old.list }
    ensures performed { IsPerformedAt [] (command.Release (name_of tree.old.list at)) at tree.old.list (set_kept tree.old.list at false) result tree.new.list }
    ensures no_memory { is_lost result ≡ false }
    ensures finders { StayFinders tree.old.list finders.old tree.new.list finders.new }
{
    tree.release(at);
    finders.put(at, None);
    Reply::Done
}
