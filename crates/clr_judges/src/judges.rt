//! Judging, by the rules, what commands would leave.

ghost use Rattle.std.specs.Prelude.{◌≡◌, ◌<◌, true, not, length, None, Some, IfOk, OnOk, OnErr, MatchOption};
ghost use Rattle.std.specs.Option.{option_copied, option_map};
ghost use Rattle.std.specs.Result.{result_err};
ghost use Rattle.clr_rows.specs.Contents.{Content, changes, conflicts, least_and_count, no_rows, set_cell, taken_over};
ghost use Rattle.clr_workspaces.specs.Marks.{is_saved, mark_at, saved_content};
ghost use Rattle.clr_workspaces.specs.Workspaces.{workspace_at, parent_of as position_of_parent};
ghost use Rattle.clr_workspaces.specs.Operations.{own_changes, set_kept};
ghost use Rattle.clr_steps.specs.Refusals.{broken_where, first_newly_broken};
ghost use Rattle.clr_steps.specs.declared.commands.Reply.TheVariants.{RuleBroken};
ghost use Rattle.clr_grid.specs.Finders.{AreFinders, IsFinderOf};
ghost use Rattle.clr_judges.specs.KeptContents.{IsPrepared, kept_contents};
ghost use Rattle.clr_judges.specs.Fitting.{DoChangeRows, FitBoth, IsServed, LeadOn, kept_or};

use clr_change::ChangeSet;
use clr_foot::Scene;
use clr_grid::{Finders, SpotIndex, finder_of};
use clr_rows::{CellId, Row};
use clr_rules::{Broken, RuleBook};
use clr_tree::Tree;
use std::alloc::{AllocError, Global};
use std::marker::Model;

/// The rules of an office, by which it is judged what a workspace would have.
#[derive(Drop)]
pub struct Judge {
    alloc: Global,
    book: RuleBook,
}

impl Model for Judge {
    ghost use Rattle.std.specs.Prelude.{List};
    ghost use Rattle.clr_rules.specs.declared.rules.Rule.{Rule as OneRule};

    ghost Value = { List OneRule };

    ghost view = { λ judge. judge.book };
}

// Each function here that returns a need fails only if memory runs out.
impl Judge {
    /// Returns a judge for these rules.
    pub fn new(alloc: Global, book: RuleBook) -> Judge
        ensures { result ≡ book }
    {
        Judge { alloc, book }
    }

    /// Returns the allocator from which the office allocates.
    pub fn allocator(&self) -> Global {
        self.alloc
    }

    /// Returns the rules.
    pub fn book(&self) -> &RuleBook
        ensures { result.now ≡ self.now }
    {
        &self.book
    }

    /// Returns the least need that a workspace breaks once changes are made in it, and that it doesn't
    /// break now. It is found among the needs that the changes touch, by the workspace's finder.
    fn first_broken_after(
        &self,
        tree: &Tree,
        finder: &SpotIndex,
        at: usize,
        changed: &ChangeSet,
    ) -> Result<Option<Broken>, AllocError>
        requires within { at < length tree.now.list }
        requires changes { DoChangeRows (workspace_at tree.now.list at).current changed.now }
        requires finder { IsFinderOf self.now (workspace_at tree.now.list at).current finder.now }
        requires fit { FitBoth self.now (workspace_at tree.now.list at).current (taken_over (workspace_at tree.now.list at).current changed.now) }
        ensures { IfOk result (λ need. need ≡ first_newly_broken self.now (workspace_at tree.now.list at).current
            (taken_over (workspace_at tree.now.list at).current changed.now)) }
    {
        let root = tree.view(at);
        let mut sets = Vec::new(self.alloc);
        sets.push(changed)?;
        // One change set shares no cell with another, so memory is all that a scene can lack.
        match Scene::new(self.alloc, &self.book, &root, finder, sets) {
            Ok(scene) => scene.first_broken(),
            Err(_) => Err(AllocError),
        }
    }

    /// Returns the finder of what a workspace has, or the least need that it breaks and its parent, whose
    /// finder is given, doesn't.
    fn finder_or_need_beside(
        &self,
        tree: &Tree,
        beside: &SpotIndex,
        at: usize,
        above: usize,
    ) -> Result<Result<SpotIndex, Broken>, AllocError>
        requires within { at < length tree.now.list }
        requires above { above < length tree.now.list }
        requires finder { IsFinderOf self.now (workspace_at tree.now.list above).current beside.now }
        requires fit { FitBoth self.now (workspace_at tree.now.list above).current (workspace_at tree.now.list at).current }
        ensures need { IfOk result (λ found. result_err found
            ≡ first_newly_broken self.now (workspace_at tree.now.list above).current (workspace_at tree.now.list at).current) }
        ensures finder { IfOk result (λ found. IfOk found (IsFinderOf self.now (workspace_at tree.now.list at).current)) }
    {
        let rows = tree.rows(at)?;
        let below = tree.rows(above)?;
        let changed = ChangeSet::between(self.alloc, &below, &rows)?;
        match self.first_broken_after(tree, beside, above, &changed)? {
            Some(need) => Ok(Err(need)),
            None => Ok(Ok(finder_of(self.alloc, &self.book, &rows)?)),
        }
    }

    /// Returns the least need that a workspace, where the rules are to hold in it, breaks once changes are made
    /// in it, and that it doesn't break now.
    fn judge(
        &self,
        tree: &Tree,
        finders: &Finders,
        at: usize,
        changed: &ChangeSet,
    ) -> Result<Option<Broken>, AllocError>
        requires within { at < length tree.now.list }
        requires are { AreFinders self.now (kept_contents tree.now.list) finders.now }
        requires fit { FitBoth self.now (workspace_at tree.now.list at).current (taken_over (workspace_at tree.now.list at).current changed.now) }
        requires changes { DoChangeRows (workspace_at tree.now.list at).current changed.now }
        ensures { IfOk result (λ need. let w = workspace_at tree.now.list at in
            option_map RuleBroken need ≡ broken_where w.kept self.now w.current (taken_over w.current changed.now)) }
    {
        match finders.get(at) {
            None => Ok(None),
            Some(finder) => self.first_broken_after(tree, finder, at, changed),
        }
    }

    /// Notes changes of a workspace in its finder, if it has one.
    fn note_changes(
        &self,
        tree: &Tree,
        finders: &mut Finders,
        at: usize,
        changed: &ChangeSet,
    ) -> Result<(), AllocError>
        requires within { at < length tree.now.list }
        requires are { AreFinders self.now (kept_contents tree.now.list) finders.old }
        requires fit { FitBoth self.now (workspace_at tree.now.list at).current (taken_over (workspace_at tree.now.list at).current changed.now) }
        ensures ok { OnOk result (IsPrepared self.now tree.now.list at (taken_over (workspace_at tree.now.list at).current changed.now) finders.new) }
        ensures err { OnErr result (finders.new ≡ finders.old) }
    {
        finders.note(&self.book, at, changed)
    }

    /// Prepares changes of a workspace: where the rules are to hold in it they are judged, and its
    /// finder notes them unless they break a need anew, which is answered.
    pub fn prepare(
        &self,
        tree: &Tree,
        finders: &mut Finders,
        at: usize,
        changed: &ChangeSet,
    ) -> Result<Option<Broken>, AllocError>
        requires within { at < length tree.now.list }
        requires served { IsServed self.now tree.now.list finders.old }
        requires fit { FitBoth self.now (workspace_at tree.now.list at).current (taken_over (workspace_at tree.now.list at).current changed.now) }
        requires changes { DoChangeRows (workspace_at tree.now.list at).current changed.now }
        ensures judged { IfOk result (λ need. let w = workspace_at tree.now.list at in
            option_map RuleBroken need ≡ broken_where w.kept self.now w.current (taken_over w.current changed.now)) }
        ensures prepared { IfOk result (λ need. MatchOption need
            (IsPrepared self.now tree.now.list at (taken_over (workspace_at tree.now.list at).current changed.now) finders.new)
            (λ _. finders.new ≡ finders.old)) }
        ensures err { OnErr result (finders.new ≡ finders.old) }
    {
        match self.judge(tree, finders, at, changed)? {
            Some(need) => Ok(Some(need)),
            None => {
                self.note_changes(tree, finders, at, changed)?;
                Ok(None)
            }
        }
    }

    /// Prepares another content of a workspace, to which changes lead.
    fn prepare_content(
        &self,
        tree: &Tree,
        finders: &mut Finders,
        at: usize,
        changed: &ChangeSet,
    ) -> Result<Option<Broken>, AllocError>
        requires within { at < length tree.now.list }
        requires served { IsServed self.now tree.now.list finders.old }
        requires lead { LeadOn self.now (workspace_at tree.now.list at).current changed.now }
        ensures judged { let w = workspace_at tree.now.list at in (next : Content) → changed.now ≡ changes w.current next
            → IfOk result (λ need. option_map RuleBroken need ≡ broken_where w.kept self.now w.current next) }
        ensures prepared { (next : Content) → changed.now ≡ changes (workspace_at tree.now.list at).current next
            → IfOk result (λ need. MatchOption need (IsPrepared self.now tree.now.list at next finders.new) (λ _. finders.new ≡ finders.old)) }
        ensures err { OnErr result (finders.new ≡ finders.old) }
    {
        self.prepare(tree, finders, at, changed)
    }

    /// Prepares the content of a savepoint of a workspace.
    pub fn prepare_savepoint(
        &self,
        tree: &Tree,
        finders: &mut Finders,
        at: usize,
        mark: usize,
    ) -> Result<Option<Broken>, AllocError>
        requires child { 0 < at }
        requires within { at < length tree.now.list }
        requires saved { is_saved (mark_at (workspace_at tree.now.list at).marks mark) ≡ true }
        requires served { IsServed self.now tree.now.list finders.old }
        ensures judged { IfOk result (λ need. let w = workspace_at tree.now.list at in
            option_map RuleBroken need ≡ broken_where w.kept self.now w.current (saved_content (mark_at w.marks mark))) }
        ensures prepared { IfOk result (λ need. MatchOption need
            (IsPrepared self.now tree.now.list at (saved_content (mark_at (workspace_at tree.now.list at).marks mark)) finders.new)
            (λ _. finders.new ≡ finders.old)) }
        ensures err { OnErr result (finders.new ≡ finders.old) }
    {
        if !tree.kept(at) {
            return Ok(None);
        }
        let changed = tree.changes_to_savepoint(at, mark)?;
        self.prepare_content(tree, finders, at, &changed)
    }

    /// Prepares the base of a workspace.
    pub fn prepare_base(
        &self,
        tree: &Tree,
        finders: &mut Finders,
        at: usize,
    ) -> Result<Option<Broken>, AllocError>
        requires child { 0 < at }
        requires within { at < length tree.now.list }
        requires served { IsServed self.now tree.now.list finders.old }
        ensures judged { IfOk result (λ need. let w = workspace_at tree.now.list at in
            option_map RuleBroken need ≡ broken_where w.kept self.now w.current w.base) }
        ensures prepared { IfOk result (λ need. MatchOption need
            (IsPrepared self.now tree.now.list at (workspace_at tree.now.list at).base finders.new) (λ _. finders.new ≡ finders.old)) }
        ensures err { OnErr result (finders.new ≡ finders.old) }
    {
        if !tree.kept(at) {
            return Ok(None);
        }
        let changed = tree.changes_to_base(at)?;
        self.prepare_content(tree, finders, at, &changed)
    }

    /// Returns the least need that a kept workspace, once refreshed, breaks, and that the parent, if it is
    /// kept, or else the workspace doesn't break now.
    fn refresh_need(
        &self,
        tree: &Tree,
        finders: &Finders,
        at: usize,
        above: usize,
        own: &ChangeSet,
        changed: &ChangeSet,
    ) -> Result<Option<Broken>, AllocError>
        requires within { at < length tree.now.list }
        requires above { above < length tree.now.list }
        requires kept { (workspace_at tree.now.list at).kept ≡ true }
        requires are { AreFinders self.now (kept_contents tree.now.list) finders.now }
        requires own { DoChangeRows (workspace_at tree.now.list above).current own.now }
        requires own_fit { FitBoth self.now (workspace_at tree.now.list above).current (taken_over (workspace_at tree.now.list above).current own.now) }
        requires changed { changed.now ≡ changes (workspace_at tree.now.list at).current (taken_over (workspace_at tree.now.list above).current own.now) }
        requires fit { FitBoth self.now (workspace_at tree.now.list at).current (taken_over (workspace_at tree.now.list above).current own.now) }
        ensures { IfOk result (λ need. let w = workspace_at tree.now.list at in let p = workspace_at tree.now.list above in
            option_map RuleBroken need ≡ broken_where w.kept self.now (kept_or p w.current) (taken_over p.current own.now)) }
    {
        match finders.get(above) {
            Some(beside) => self.first_broken_after(tree, beside, above, own),
            None => self.judge(tree, finders, at, changed),
        }
    }

    /// Prepares the parent's content with the own changes of a workspace over it. Where the parent is kept,
    /// what it breaks itself isn't broken anew.
    pub fn prepare_refresh(
        &self,
        tree: &Tree,
        finders: &mut Finders,
        at: usize,
        above: usize,
        own: &ChangeSet,
    ) -> Result<Option<Broken>, AllocError>
        requires child { 0 < at }
        requires within { at < length tree.now.list }
        requires above { position_of_parent tree.now.list at ≡ Some above }
        requires there { above < length tree.now.list }
        requires own { own.now ≡ own_changes (workspace_at tree.now.list at) }
        requires free { least_and_count (conflicts (workspace_at tree.now.list above).current own.now) ≡ None }
        requires served { IsServed self.now tree.now.list finders.old }
        ensures judged { IfOk result (λ need. let w = workspace_at tree.now.list at in let p = workspace_at tree.now.list above in
            option_map RuleBroken need ≡ broken_where w.kept self.now (kept_or p w.current) (taken_over p.current own.now)) }
        ensures prepared { IfOk result (λ need. MatchOption need
            (IsPrepared self.now tree.now.list at (taken_over (workspace_at tree.now.list above).current own.now) finders.new)
            (λ _. finders.new ≡ finders.old)) }
        ensures err { OnErr result (finders.new ≡ finders.old) }
    {
        if !tree.kept(at) {
            return Ok(None);
        }
        let changed = tree.changes_to_refreshed(at, above, own)?;
        match self.refresh_need(tree, finders, at, above, own, &changed)? {
            Some(need) => Ok(Some(need)),
            None => {
                self.note_changes(tree, finders, at, &changed)?;
                Ok(None)
            }
        }
    }

    /// Prepares the content of a workspace with another row at one cell.
    pub fn prepare_row(
        &self,
        tree: &Tree,
        finders: &mut Finders,
        at: usize,
        cell: CellId,
        row: Option<&Row>,
    ) -> Result<Option<Broken>, AllocError>
        requires within { at < length tree.now.list }
        requires served { IsServed self.now tree.now.list finders.old }
        requires fit { FitBoth self.now (workspace_at tree.now.list at).current (set_cell (workspace_at tree.now.list at).current cell (option_copied row)) }
        ensures judged { IfOk result (λ need. let w = workspace_at tree.now.list at in
            option_map RuleBroken need ≡ broken_where w.kept self.now w.current (set_cell w.current cell (option_copied row.entry))) }
        ensures prepared { IfOk result (λ need. MatchOption need
            (IsPrepared self.now tree.now.list at (set_cell (workspace_at tree.now.list at).current cell (option_copied row.entry)) finders.new)
            (λ _. finders.new ≡ finders.old)) }
        ensures err { OnErr result (finders.new ≡ finders.old) }
    {
        if !tree.kept(at) {
            return Ok(None);
        }
        let mut changed = ChangeSet::new(self.alloc);
        changed.set(cell, tree.read(at, cell), row)?;
        self.prepare_content(tree, finders, at, &changed)
    }

    /// Returns the finder of a workspace, or the least need that it breaks and its parent, if that is kept,
    /// doesn't.
    fn finder_or_need_to_hold(
        &self,
        tree: &Tree,
        finders: &Finders,
        at: usize,
        above: usize,
    ) -> Result<Result<SpotIndex, Broken>, AllocError>
        requires within { at < length tree.now.list }
        requires above { above < length tree.now.list }
        requires served { IsServed self.now tree.now.list finders.now }
        ensures need { IfOk result (λ found. result_err found
            ≡ first_newly_broken self.now (kept_or (workspace_at tree.now.list above) no_rows) (workspace_at tree.now.list at).current) }
        ensures finder { IfOk result (λ found. IfOk found (IsFinderOf self.now (workspace_at tree.now.list at).current)) }
    {
        match finders.get(above) {
            Some(beside) => self.finder_or_need_beside(tree, beside, at, above),
            None => self.finder_or_need_now(tree, at, &[]),
        }
    }

    /// Prepares a workspace in which the rules are to hold from now on: where they weren't to hold in it before, it is
    /// judged and gets a finder, or the least need that it breaks is answered.
    pub fn prepare_hold(
        &self,
        tree: &Tree,
        finders: &mut Finders,
        at: usize,
        above: usize,
    ) -> Result<Option<Broken>, AllocError>
        requires child { 0 < at }
        requires within { at < length tree.now.list }
        requires above { position_of_parent tree.now.list at ≡ Some above }
        requires there { above < length tree.now.list }
        requires served { IsServed self.now tree.now.list finders.old }
        ensures judged { IfOk result (λ need. let w = workspace_at tree.now.list at in
            option_map RuleBroken need ≡ broken_where (not w.kept) self.now (kept_or (workspace_at tree.now.list above) no_rows) w.current) }
        ensures prepared { IfOk result (λ need. MatchOption need
            (AreFinders self.now (kept_contents (set_kept tree.now.list at true)) finders.new) (λ _. finders.new ≡ finders.old)) }
        ensures err { OnErr result (finders.new ≡ finders.old) }
    {
        if tree.kept(at) {
            return Ok(None);
        }
        let found = self.finder_or_need_to_hold(tree, finders, at, above)?;
        match found {
            Ok(finder) => {
                finders.put(at, Some(finder));
                Ok(None)
            }
            Err(need) => Ok(Some(need)),
        }
    }
}
