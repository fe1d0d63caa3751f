//! Current contents, bases and savepoints of workspaces, and contents with changes over them, seen by cell.

ghost use Rattle.std.specs.Prelude.{◌≡◌, ◌<◌, length, true};
ghost use Rattle.clr_deltas.specs.Deltas.{wholes};
ghost use Rattle.clr_rows.specs.Contents.{taken_over};
ghost use Rattle.clr_workspaces.specs.Marks.{is_saved, mark_at, saved_content};
ghost use Rattle.clr_workspaces.specs.Workspaces.{workspace_at};
ghost use Rattle.clr_workspaces.specs.Roots.{IsRooted};

use crate::reads::{base_row_of, row_of, saved_row_of};
use clr_change::ChangeSet;
use clr_deltas::WorkspaceMap;
use clr_rows::{CellId, Row, RowView, Sheet};
use std::marker::Model;

/// The current content of a workspace, seen by cell.
#[derive(Drop)]
pub struct View<'a> {
    live: &'a Sheet,
    map: &'a WorkspaceMap,
    at: usize,
}

impl<'a> Model for View<'a> {
    ghost use Rattle.std.specs.Prelude.{◌<◌, length};
    ghost use Rattle.clr_rows.specs.Contents.{Content, coded_content};
    ghost use Rattle.clr_deltas.specs.Deltas.{wholes};
    ghost use Rattle.clr_workspaces.specs.Workspaces.{workspace_at};
    ghost use Rattle.clr_workspaces.specs.Roots.{IsRooted};

    ghost Value = { Content };

    ghost coded = { coded_content };

    ghost view = { λ v. (workspace_at (wholes v.live.now v.map.now) v.at).current };

    ghost invariant = { λ v. (v.at < length v.map.now) × IsRooted (wholes v.live.now v.map.now) };
}

impl<'a> View<'a> {
    /// Returns a view of the workspace at a position.
    pub fn new(live: &'a Sheet, map: &'a WorkspaceMap, at: usize) -> View<'a>
        requires within { at < length map.now }
        requires rooted { IsRooted (wholes live.now map.now) }
        ensures { result ≡ (workspace_at (wholes live.now map.now) at).current }
    {
        View { live, map, at }
    }
}

impl<'a> RowView for View<'a> {
    ghost content = { λ view. view };

    fn row(&self, cell: CellId) -> Option<&Row> {
        row_of(self.live, self.map, self.at, cell)
    }
}

/// The base of a workspace other than LIVE, seen by cell.
#[derive(Drop)]
pub struct BaseView<'a> {
    live: &'a Sheet,
    map: &'a WorkspaceMap,
    at: usize,
}

impl<'a> Model for BaseView<'a> {
    ghost use Rattle.std.specs.Prelude.{◌<◌, length};
    ghost use Rattle.clr_rows.specs.Contents.{Content, coded_content};
    ghost use Rattle.clr_deltas.specs.Deltas.{wholes};
    ghost use Rattle.clr_workspaces.specs.Workspaces.{workspace_at};
    ghost use Rattle.clr_workspaces.specs.Roots.{IsRooted};

    ghost Value = { Content };

    ghost coded = { coded_content };

    ghost view = { λ v. (workspace_at (wholes v.live.now v.map.now) v.at).base };

    ghost invariant = { λ v. (0 < v.at) × (v.at < length v.map.now) × IsRooted (wholes v.live.now v.map.now) };
}

impl<'a> BaseView<'a> {
    /// Returns a view of the workspace at a position.
    pub fn new(live: &'a Sheet, map: &'a WorkspaceMap, at: usize) -> BaseView<'a>
        requires child { 0 < at }
        requires within { at < length map.now }
        requires rooted { IsRooted (wholes live.now map.now) }
        ensures { result ≡ (workspace_at (wholes live.now map.now) at).base }
    {
        BaseView { live, map, at }
    }
}

impl<'a> RowView for BaseView<'a> {
    ghost content = { λ view. view };

    fn row(&self, cell: CellId) -> Option<&Row> {
        base_row_of(self.live, self.map, self.at, cell)
    }
}

/// The content of a savepoint of a workspace other than LIVE, seen by cell.
#[derive(Drop)]
pub struct SavedView<'a> {
    live: &'a Sheet,
    map: &'a WorkspaceMap,
    at: usize,
    mark: usize,
}

impl<'a> Model for SavedView<'a> {
    ghost use Rattle.std.specs.Prelude.{◌≡◌, ◌<◌, length, true};
    ghost use Rattle.clr_rows.specs.Contents.{Content, coded_content};
    ghost use Rattle.clr_deltas.specs.Deltas.{wholes};
    ghost use Rattle.clr_workspaces.specs.Marks.{is_saved, mark_at, saved_content};
    ghost use Rattle.clr_workspaces.specs.Workspaces.{workspace_at};
    ghost use Rattle.clr_workspaces.specs.Roots.{IsRooted};

    ghost Value = { Content };

    ghost coded = { coded_content };

    ghost view = { λ v. saved_content (mark_at (workspace_at (wholes v.live.now v.map.now) v.at).marks v.mark) };

    ghost invariant = { λ v. (0 < v.at) × (v.at < length v.map.now) × IsRooted (wholes v.live.now v.map.now)
        × (is_saved (mark_at (workspace_at (wholes v.live.now v.map.now) v.at).marks v.mark) ≡ true) };
}

impl<'a> SavedView<'a> {
    /// Returns a view of the savepoint at a position among the marks of a workspace.
    pub fn new(live: &'a Sheet, map: &'a WorkspaceMap, at: usize, mark: usize) -> SavedView<'a>
        requires child { 0 < at }
        requires within { at < length map.now }
        requires rooted { IsRooted (wholes live.now map.now) }
        requires saved { is_saved (mark_at (workspace_at (wholes live.now map.now) at).marks mark) ≡ true }
        ensures { result ≡ saved_content (mark_at (workspace_at (wholes live.now map.now) at).marks mark) }
    {
        SavedView {
            live,
            map,
            at,
            mark,
        }
    }
}

impl<'a> RowView for SavedView<'a> {
    ghost content = { λ view. view };

    fn row(&self, cell: CellId) -> Option<&Row> {
        saved_row_of(self.live, self.map, self.at, self.mark, cell)
    }
}

/// The current content of a workspace with changes over it, seen by cell.
#[derive(Drop)]
pub struct ChangedView<'a> {
    below: &'a View<'a>,
    changed: &'a ChangeSet,
}

impl<'a> Model for ChangedView<'a> {
    ghost use Rattle.clr_rows.specs.Contents.{Content, coded_content, taken_over};

    ghost Value = { Content };

    ghost coded = { coded_content };

    ghost view = { λ v. taken_over v.below.now v.changed.now };
}

impl<'a> ChangedView<'a> {
    /// Returns a view of a content with changes over it.
    pub fn new(below: &'a View<'a>, changed: &'a ChangeSet) -> ChangedView<'a>
        ensures { result ≡ taken_over below.now changed.now }
    {
        ChangedView { below, changed }
    }
}

impl<'a> RowView for ChangedView<'a> {
    ghost content = { λ view. view };

    fn row(&self, cell: CellId) -> Option<&Row> {
        match self.changed.get(cell) {
            Some(change) => change.after.as_ref(),
            None => self.below.row(cell),
        }
    }
}
