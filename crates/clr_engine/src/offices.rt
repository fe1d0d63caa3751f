//! Offices, and what is read of them.

ghost use Rattle.std.specs.Prelude.{◌≡◌, ◌+◌, ◌∷◌, false, true, length, is_some, option_map, IfOk, IfSome, OnErr, OnOk};
ghost use Rattle.std.specs.Option.{option_copied};
ghost use Rattle.clr_rows.specs.Contents.{row_at};
ghost use Rattle.clr_workspaces.specs.Workspaces.{live_workspace};
ghost use Rattle.clr_workspace_parts.specs.Parts.{workspace_of};
ghost use Rattle.clr_workspaces.specs.Soundness.{IsSound};
ghost use Rattle.clr_steps.specs.Offices.{content_of, is_kept, office_of, stands};
ghost use Rattle.clr_steps.specs.Readings.{changes_in, conflicts_in, if_stands, name_at, parent_in, stored_in};
ghost use Rattle.clr_steps.specs.Laws.{BreaksNothingNew};
ghost use Rattle.clr_steps.specs.Steps.{is_lost, lost_in, run, IsAnswer, TakesNoMemory};
ghost use Rattle.clr_engine.specs.Fitting.{IsAdmitted};
ghost use Rattle.clr_engine.specs.Drafts.{delta_in, part_at};
ghost use Rattle.clr_grid.specs.Finders.{AreFinders, IsFinderAt};
ghost use Rattle.clr_engine.specs.BrokenNow.{AreBrokenNow};
ghost use Rattle.clr_engine.specs.KeptContents.{IsPositionOf, current_at, kept_content_at};
ghost use Rattle.clr_judges.specs.KeptContents.{kept_contents};
ghost use Rattle.clr_steps.specs.Invariants.{HoldsWhereKept};
ghost use Rattle.clr_engine.specs.Trees.{IsSwept};

use crate::commands::perform;
use crate::conflicts::conflicting_cells;
use clr_change::ChangeSet;
use clr_grid::{Finders, SpotIndex};
use clr_judges::Judge;
use clr_rows::{CellId, Row, Schema, Sheet};
use clr_rules::{Broken, RuleBook};
use clr_steps::{Command, Reply};
use clr_tree::{DeltaView, Part, Tree, View};
use std::alloc::AllocError;
use std::marker::Model;

/// A database: its schema, its rules, LIVE's content and the workspaces under LIVE. The rules and
/// each row of each content fit the schema. No command brings a new error into LIVE or a workspace
/// that is kept: what one of them breaks after a command, LIVE or a kept workspace broke before it,
/// with the same rows. LIVE itself breaks no more than it did. So where every rule held in all of
/// them, every rule goes on holding.
pub struct Office {
    schema: Schema,
    judge: Judge,
    tree: Tree,
    finders: Finders,
    // whether every rule is known to hold in LIVE and in each workspace that is kept
    held: bool,
}

// (so that who lets an office go calls this, and needn't prove anew how each of its parts is dropped)
impl Drop for Office {
    fn drop(self) {
        let Office {
            schema: _schema,
            judge: _judge,
            tree: _tree,
            finders: _finders,
            held: _held,
        } = self;
    }
}

impl Model for Office {
    ghost use Rattle.clr_steps.specs.Offices.{Office as Whole, office_code, office_of};
    ghost use Rattle.clr_engine.specs.Fitting.{IsAdmitted};
    ghost use Rattle.clr_grid.specs.Finders.{AreFinders};
    ghost use Rattle.clr_judges.specs.KeptContents.{kept_contents};
    ghost use Rattle.clr_engine.specs.Trees.{IsSwept};
    ghost use Rattle.clr_steps.specs.Invariants.{HoldsWhereKept};
    ghost use Rattle.std.specs.Prelude.{◌≡◌, true};

    ghost Value = { Whole };

    ghost coded = { office_code };

    ghost view = { λ o. office_of o.schema o.judge o.tree.list };

    ghost invariant = { λ o. IsAdmitted (office_of o.schema o.judge o.tree.list) × AreFinders o.judge (kept_contents o.tree.list) o.finders × IsSwept o.tree
        × (o.held ≡ true → HoldsWhereKept (office_of o.schema o.judge o.tree.list)) };
}

impl Office {
    pub(crate) fn of_parts(
        schema: Schema,
        judge: Judge,
        tree: Tree,
        finders: Finders,
        held: bool,
    ) -> Office
        requires admitted { IsAdmitted (office_of schema judge tree.list) }
        requires are { AreFinders judge (kept_contents tree.list) finders }
        requires swept { IsSwept tree }
        requires held { held ≡ true → HoldsWhereKept (office_of schema judge tree.list) }
        ensures { result ≡ office_of schema judge tree.list }
    {
        Office {
            schema,
            judge,
            tree,
            finders,
            held,
        }
    }

    /// Returns the schema of every row and rule.
    /// For example, where the tables are `node` and `main`, in this order, `table` of the schema returns 0 for `node`
    /// and 1 for `main`. No command changes that.
    pub fn schema(&self) -> &Schema
        ensures value { result.now ≡ self.now.schema }
        ensures admitted { IsAdmitted self.now }
    {
        &self.schema
    }

    /// Returns the rules. What LIVE and the kept workspaces break by them, one of these broke before.
    /// For example, where the only rule is that mains cross only at nodes, the book has `len` 1, and its rule 0 is
    /// this `Crossing`. No command changes that.
    pub fn book(&self) -> &RuleBook
        ensures value { result.now ≡ self.now.book }
        ensures admitted { IsAdmitted self.now }
    {
        self.judge.book()
    }

    /// Returns LIVE's content.
    /// For example, where LIVE has node 9, and a new workspace `W1` under LIVE deletes it, LIVE still has node 9.
    /// After a merge of `W1` that is answered `Done`, LIVE doesn't have it.
    pub fn live(&self) -> &Sheet
        ensures value { result.now ≡ self.now.live }
        ensures admitted { IsAdmitted self.now }
    {
        self.tree.live()
    }

    /// Returns how many workspaces there are, LIVE included.
    /// For example, an office without workspaces under LIVE has 1 workspace, LIVE. It has 2 after a `Create` that is
    /// answered `Done`.
    pub fn len(&self) -> usize
        ensures count { result ≡ length self.now.workspaces + 1 }
        ensures sound { IsSound (live_workspace self.now.live ∷ self.now.workspaces) }
    {
        self.tree.len()
    }

    /// Returns the name of the workspace at a position in order of creation, LIVE having position
    /// 0, or none past the end.
    /// For example, where `W1` and then `W2` are created, and no others, it returns `LIVE` for 0, `W1` for 1, `W2`
    /// for 2 and none for 3.
    pub fn name_at(&self, position: usize) -> Option<&str>
        ensures { option_map (λ name. name.now) result ≡ name_at self.now position }
    {
        if position < self.tree.len() {
            Some(self.tree.name_at(position))
        } else {
            None
        }
    }

    /// Returns the name of a workspace's parent, or none for LIVE and for an unknown name.
    /// For example, where `W1` is under LIVE and `W2` is under `W1`, it returns `LIVE` for `W1`, `W1` for `W2` and
    /// none for `LIVE`.
    pub fn parent_of(&self, ws: &str) -> Option<&str>
        ensures { option_map (λ name. name.now) result ≡ parent_in self.now ws.now }
    {
        match self.tree.find(ws) {
            Some(at) => match self.tree.parent(at) {
                Some(above) => Some(self.tree.name_at(above)),
                None => None,
            },
            None => None,
        }
    }

    /// Returns the position of LIVE or a workspace, or none for an unknown name.
    pub fn find(&self, ws: &str) -> Option<usize>
        ensures stands { is_some result ≡ stands self.now ws.now }
        ensures found { IfSome result (IsPositionOf self.now ws.now) }
    {
        self.tree.find(ws)
    }

    /// Returns the current content at a position, seen by cell, or none past the end.
    pub fn view(&self, position: usize) -> Option<View<'_>>
        ensures { result ≡ current_at self.now position }
    {
        if position < self.tree.len() {
            Some(self.tree.view(position))
        } else {
            None
        }
    }

    /// Returns the finder of the rows of LIVE, which has position 0, or of the workspace at a
    /// position, if it is kept. The finder has settled exactly these rows, and nothing is pending
    /// in it.
    /// For example, a new workspace at position 1 has no finder. It has one after a `Hold` that is answered `Done`,
    /// and none again after a `Release`. LIVE always has one.
    pub fn finder(&self, position: usize) -> Option<&SpotIndex>
        ensures { IsFinderAt self.now.book (kept_content_at self.now position) (option_copied result) }
    {
        let _sound = self.tree.len();
        self.finders.get(position)
    }

    /// Returns whether LIVE or a workspace is kept, so that no command brings a new error into it; or
    /// none for an unknown name.
    pub fn kept(&self, ws: &str) -> Option<bool>
        ensures value { result ≡ if_stands self.now ws.now (is_kept self.now ws.now) }
        ensures admitted { IsAdmitted self.now }
    {
        match self.tree.find(ws) {
            Some(at) => Some(self.tree.kept(at)),
            None => None,
        }
    }

    /// Returns the row at a cell in the current content of LIVE or a workspace, or none. It is
    /// none, too, for an unknown name.
    /// For example, where main 1 has the code `A` in LIVE, and `W1` under LIVE gives it the code `W`, it returns the
    /// row with `W` for `W1`, the row with `A` for `LIVE`, and none for an unknown `W9`.
    pub fn read(&self, ws: &str, cell: CellId) -> Option<&Row>
        ensures { option_copied result ≡ row_at (content_of self.now ws.now) cell }
    {
        match self.tree.find(ws) {
            Some(at) => self.tree.read(at, cell),
            None => None,
        }
    }

    /// Returns how many differences are stored of a workspace, or none for an unknown name: one for
    /// each cell where its base differs from its parent's current content, and one for each cell
    /// that it changed. LIVE has 0.
    /// For example, a new workspace has 1 difference after it inserts a main. One that changes nothing has 1 after its parent
    /// inserts a main, and 0 after a refresh.
    pub fn stored(&self, ws: &str) -> Option<usize>
        ensures { result ≡ if_stands self.now ws.now (stored_in self.now ws.now) }
    {
        match self.tree.find(ws) {
            Some(0) => Some(0),
            Some(at) => Some(self.tree.stored(at)),
            None => None,
        }
    }

    /// Returns a copy of the current content of LIVE or a workspace, or none for an unknown name.
    /// For example, where LIVE has mains 1 and 2 alone, and a new workspace `W1` under LIVE deletes main 1, it
    /// returns a sheet of main 2 for `W1`, a sheet of mains 1 and 2 for `LIVE`, and none for an unknown `W9`.
    pub fn rows(&self, ws: &str) -> Result<Option<Sheet>, AllocError>
        ensures { IfOk result (λ rows. rows ≡ if_stands self.now ws.now (content_of self.now ws.now)) }
    {
        match self.tree.find(ws) {
            Some(at) => Ok(Some(self.tree.rows(at)?)),
            None => Ok(None),
        }
    }

    /// Returns what a workspace changed, or none for an unknown name: the cells where its base and
    /// its current content differ. LIVE changed nothing.
    /// For example, where a new workspace `W1` under LIVE deletes node 9 and inserts main 20, its changed cells are
    /// node 9 and main 20. It returns a set without changes for `LIVE`, and none for an unknown `W9`.
    pub fn changes(&self, ws: &str) -> Result<Option<ChangeSet>, AllocError>
        ensures { IfOk result (λ set. set ≡ if_stands self.now ws.now (changes_in self.now ws.now)) }
    {
        match self.tree.find(ws) {
            Some(0) => Ok(Some(ChangeSet::new(self.judge.allocator()))),
            Some(at) => Ok(Some(self.tree.changes(at)?)),
            None => Ok(None),
        }
    }

    /// Returns the cells that a workspace changed and where its parent has another row than the
    /// base, in the order of cells, or none for an unknown name. LIVE has no such cells.
    /// For example, where a workspace updates main 1, and its parent updates main 1 afterwards, main 1 is in conflict.
    pub fn conflicts(&self, ws: &str) -> Result<Option<Vec<CellId>>, AllocError>
        ensures { IfOk result (λ cells. option_map (λ list. list.items) cells ≡ if_stands self.now ws.now (conflicts_in self.now ws.now)) }
    {
        let Some(at) = self.tree.find(ws) else {
            return Ok(None);
        };
        let Some(above) = self.tree.parent(at) else {
            return Ok(Some(Vec::new(self.judge.allocator())));
        };
        let changed = self.tree.changes(at)?;
        let cells = conflicting_cells(self.judge.allocator(), &changed, &self.tree.view(above))?;
        Ok(Some(cells))
    }

    /// Returns the workspace at a position in order of creation, with whole contents, or none for
    /// LIVE, which has position 0, and past the end.
    /// For example, where `W1` under LIVE is the only workspace beside LIVE, it returns the part with the name `W1`
    /// and the parent `LIVE` for position 1, and none for positions 0 and 2.
    pub fn part(&self, position: usize) -> Result<Option<Part>, AllocError>
        ensures { IfOk result (λ part. option_map workspace_of part ≡ part_at self.now position) }
    {
        if position == 0 || position >= self.tree.len() {
            return Ok(None);
        }
        Ok(Some(self.tree.part(position)?))
    }

    /// Returns what is stored of the workspace at a position in order of creation, or none for
    /// LIVE, which has position 0, and past the end. It is exactly what the workspace differs in:
    /// its base from its parent's current content, and its current content and savepoints from its
    /// base. Nothing is copied.
    pub fn delta(&self, position: usize) -> Option<DeltaView<'_>>
        ensures { result ≡ option_map (delta_in self.now) (part_at self.now position) }
    {
        if position >= self.tree.len() || position == 0 {
            return None;
        }
        Some(self.tree.delta(position))
    }

    /// Returns the needs that are broken in LIVE or in a workspace that is kept, ascending, each once. It
    /// is empty at once where the office was admitted without a known need: no command breaks one then.
    /// For example, where mains 1 and 2 broke rule 0 in LIVE when the office was admitted, with this need as known, the
    /// list has this need, and is empty once a node is set where they cross.
    pub fn broken_needs(&self) -> Result<Vec<Broken>, AllocError>
        ensures { IfOk result (λ list. AreBrokenNow self.now list.items) }
    {
        if self.held {
            return Ok(Vec::new(self.judge.allocator()));
        }
        self.judge.broken_needs(&self.tree)
    }

    /// Performs one command, whole or not at all. The reply is the first refusal that applies, or
    /// `Done`; a refused command changes nothing. `OutOfMemory` may come in place of any other
    /// reply, but never to `Remove`, `Unmark` and `Release`, and changes nothing either. That the
    /// content would break a need that isn't broken already, with the same rows, where the rules are
    /// to hold in it, is the last refusal. Already means in the content before the command. For a
    /// refresh or a hold it means in the parent, if that is kept; for a hold elsewhere nothing counts
    /// as broken already. So where every rule holds, it goes on holding.
    /// For example, where two mains may cross only at a node, and a workspace has deleted the node at which they do, its
    /// merge into LIVE is answered `RuleBroken` with the need of both mains.
    pub fn perform(&mut self, command: &Command) -> Reply
        ensures answer { IsAnswer self.old command.now result self.new }
        ensures nothing_new { BreaksNothingNew self.old self.new }
        ensures no_memory { TakesNoMemory command.now → is_lost result ≡ false }
    {
        let reply = perform(
            &self.schema,
            &self.judge,
            &mut self.tree,
            &mut self.finders,
            command,
        );
        self.tree.sweep();
        reply
    }

    /// Performs commands one after another, also after one that is refused, and returns their
    /// replies. If no memory is found for the replies, it fails and performs none.
    /// For example, creating `W1`, `W1` again and `W2` under LIVE is answered `Done`, `NameTaken` and `Done`.
    pub fn perform_all(&mut self, commands: &[Command]) -> Result<Vec<Reply>, AllocError>
        ensures run { IfOk result (λ replies. run self.old commands.now (lost_in replies.items)
            ≡ record { replies = replies.items; office = self.new }) }
        ensures nothing_new { OnOk result (BreaksNothingNew self.old self.new) }
        ensures err { OnErr result (self.new ≡ self.old) }
    {
        let mut replies = Vec::with_capacity(self.judge.allocator(), commands.len())?;
        for command in commands {
            let reply = self.perform(command);
            replies.push(reply).unwrap();
        }
        Ok(replies)
    }
}
