//! What the kept workspaces of a tree break, and the finders of their contents.

ghost use Rattle.std.specs.Prelude.{◌≡◌, ◌+◌, ◌<◌, length, IfOk, OnOk};
ghost use Rattle.std.specs.Result.{result_err};
ghost use Rattle.clr_audit.specs.Unknown.{first_unknown};
ghost use Rattle.clr_rules.specs.Books.{FitsContent};
ghost use Rattle.clr_rules.specs.Needs.{broken_needs};
ghost use Rattle.clr_workspaces.specs.Workspaces.{workspace_at};
ghost use Rattle.clr_workspaces.specs.Soundness.{IsSound};
ghost use Rattle.clr_grid.specs.Finders.{AreFinders, IsFinderAt, IsFinderOf};
ghost use Rattle.clr_judges.specs.BrokenNeeds.{AreBrokenBelow};
ghost use Rattle.clr_judges.specs.Fitting.{FitSome};
ghost use Rattle.clr_judges.specs.KeptContents.{kept_content, kept_contents};
ghost use Rattle.clr_judges.specs.Unheld.{unknown_at, unknown_from};

use crate::judges::Judge;
use clr_audit::{audit, first_unknown, is_seen_to_hold};
use clr_grid::{Finders, SpotIndex, finder_of};
use clr_rows::Sheet;
use clr_rules::Broken;
use clr_spots::put_in_order;
use clr_tree::Tree;
use std::alloc::AllocError;

// Each function here fails only if memory runs out. Known needs may be in any order, be there twice, or not be broken.
impl Judge {
    /// Returns the least need that a content breaks and that isn't known.
    fn first_unknown_in(&self, rows: &Sheet, known: &[Broken]) -> Result<Option<Broken>, AllocError>
        requires { FitsContent self.now rows.now }
        ensures { IfOk result (λ need. need ≡ first_unknown self.now known.now rows.now) }
    {
        first_unknown(self.allocator(), self.book(), rows, known)
    }

    /// Returns the finder of a content, or the least need that it breaks and that isn't known. A quick audit over the
    /// finder comes first, and a whole one only where that doesn't see that every rule holds.
    fn finder_or_need(
        &self,
        rows: &Sheet,
        known: &[Broken],
    ) -> Result<Result<SpotIndex, Broken>, AllocError>
        requires { FitsContent self.now rows.now }
        ensures need { IfOk result (λ found. result_err found ≡ first_unknown self.now known.now rows.now) }
        ensures finder { IfOk result (λ found. IfOk found (IsFinderOf self.now rows.now)) }
    {
        let book = self.book();
        let finder = finder_of(self.allocator(), book, rows)?;
        if is_seen_to_hold(book, rows, &finder)? {
            return Ok(Ok(finder));
        }
        match self.first_unknown_in(rows, known)? {
            Some(need) => Ok(Err(need)),
            None => Ok(Ok(finder)),
        }
    }

    /// Returns the finder of what a workspace has, or the least need that it breaks and that isn't known. LIVE isn't
    /// copied for it; what another workspace has is copied once.
    pub(crate) fn finder_or_need_now(
        &self,
        tree: &Tree,
        at: usize,
        known: &[Broken],
    ) -> Result<Result<SpotIndex, Broken>, AllocError>
        requires within { at < length tree.now.list }
        requires fit { FitsContent self.now (workspace_at tree.now.list at).current }
        ensures need { IfOk result (λ found. result_err found ≡ first_unknown self.now known.now (workspace_at tree.now.list at).current) }
        ensures finder { IfOk result (λ found. IfOk found (IsFinderOf self.now (workspace_at tree.now.list at).current)) }
    {
        if at == 0 {
            return self.finder_or_need(tree.live(), known);
        }
        let rows = tree.rows(at)?;
        self.finder_or_need(&rows, known)
    }

    /// Returns the finder of a workspace, if it is kept, or the least need that it then breaks and that isn't known.
    fn finder_at(
        &self,
        tree: &Tree,
        at: usize,
        known: &[Broken],
    ) -> Result<Result<Option<SpotIndex>, Broken>, AllocError>
        requires within { at < length tree.now.list }
        requires fit { FitsContent self.now (workspace_at tree.now.list at).current }
        ensures need { IfOk result (λ found. result_err found ≡ unknown_at self.now known.now (workspace_at tree.now.list at)) }
        ensures finder { IfOk result (λ found. IfOk found (IsFinderAt self.now (kept_content (workspace_at tree.now.list at)))) }
    {
        if !tree.kept(at) {
            return Ok(Ok(None));
        }
        match self.finder_or_need_now(tree, at, known)? {
            Ok(finder) => Ok(Ok(Some(finder))),
            Err(need) => Ok(Err(need)),
        }
    }

    /// Returns the finders of the workspaces of a tree. Where a kept workspace breaks a need that isn't known, it
    /// returns the position of the first such, LIVE having position 0, and the least such need.
    pub fn finders(
        &self,
        tree: &Tree,
        known: &[Broken],
    ) -> Result<Result<Finders, (usize, Broken)>, AllocError>
        requires { FitSome self.now tree.now.list }
        ensures first { IfOk result (λ found. result_err found ≡ unknown_from self.now known.now 0 tree.now.list) }
        ensures finders { IfOk result (λ found. IfOk found (AreFinders self.now (kept_contents tree.now.list))) }
        ensures sound { IsSound tree.now.list }
    {
        let mut finders = Finders::new(self.allocator());
        for at in 0..tree.len() {
            match self.finder_at(tree, at, known)? {
                Ok(finder) => finders.push(finder)?,
                Err(need) => return Ok(Err((at, need))),
            }
        }
        Ok(Ok(finders))
    }

    /// Returns the least need that a workspace breaks, where it is kept, and that isn't known. LIVE isn't copied for
    /// it; what another workspace has is copied once.
    fn unknown_at(
        &self,
        tree: &Tree,
        at: usize,
        known: &[Broken],
    ) -> Result<Option<Broken>, AllocError>
        requires within { at < length tree.now.list }
        requires fit { FitsContent self.now (workspace_at tree.now.list at).current }
        ensures { IfOk result (λ need. need ≡ unknown_at self.now known.now (workspace_at tree.now.list at)) }
    {
        if !tree.kept(at) {
            return Ok(None);
        }
        if at == 0 {
            return self.first_unknown_in(tree.live(), known);
        }
        let rows = tree.rows(at)?;
        self.first_unknown_in(&rows, known)
    }

    /// Returns the position of the first workspace of a tree that is kept and breaks a need which isn't known, LIVE
    /// having position 0, and the least such need. No finder is made.
    pub fn unheld(
        &self,
        tree: &Tree,
        known: &[Broken],
    ) -> Result<Option<(usize, Broken)>, AllocError>
        requires { FitSome self.now tree.now.list }
        ensures first { IfOk result (λ found. found ≡ unknown_from self.now known.now 0 tree.now.list) }
        ensures sound { IsSound tree.now.list }
    {
        for at in 0..tree.len() {
            if let Some(need) = self.unknown_at(tree, at, known)? {
                return Ok(Some((at, need)));
            }
        }
        Ok(None)
    }

    /// Returns the needs that a workspace breaks, ascending, each once. LIVE isn't copied for it; what another workspace
    /// has is copied once.
    fn broken_at(&self, tree: &Tree, at: usize) -> Result<Vec<Broken>, AllocError>
        requires within { at < length tree.now.list }
        requires fit { FitsContent self.now (workspace_at tree.now.list at).current }
        ensures { IfOk result (λ needs. needs.items ≡ broken_needs self.now (workspace_at tree.now.list at).current) }
    {
        if at == 0 {
            return audit(self.allocator(), self.book(), tree.live());
        }
        let rows = tree.rows(at)?;
        audit(self.allocator(), self.book(), &rows)
    }

    /// Adds the needs that a workspace breaks, where it is kept, to those of the workspaces before it.
    fn add_broken_at(
        &self,
        tree: &Tree,
        at: usize,
        list: &mut Vec<Broken>,
    ) -> Result<(), AllocError>
        requires within { at < length tree.now.list }
        requires fit { FitsContent self.now (workspace_at tree.now.list at).current }
        requires before { AreBrokenBelow self.now tree.now.list at list.old.items }
        ensures { OnOk result (AreBrokenBelow self.now tree.now.list (at + 1) list.new.items) }
    {
        if !tree.kept(at) {
            return Ok(());
        }
        let needs = self.broken_at(tree, at)?;
        list.extend_from_slice(needs.as_slice())?;
        put_in_order(list);
        Ok(())
    }

    /// Returns the needs that the kept workspaces of a tree break, LIVE among them, ascending, each once.
    pub fn broken_needs(&self, tree: &Tree) -> Result<Vec<Broken>, AllocError>
        requires { FitSome self.now tree.now.list }
        ensures broken { IfOk result (λ list. AreBrokenBelow self.now tree.now.list (length tree.now.list) list.items) }
        ensures sound { IsSound tree.now.list }
    {
        let mut list = Vec::new(self.allocator());
        for at in 0..tree.len() {
            self.add_broken_at(tree, at, &mut list)?;
        }
        Ok(list)
    }
}
