//! The sweep of neutral differences: those that have the row of what they lie over.

ghost use Rattle.std.specs.Prelude.{◌≡◌, ◌<◌, ◌||◌, length, nat_eq};
ghost use Rattle.std.specs.Str.{bytes_eq};
ghost use Rattle.clr_deltas.specs.Deltas.{delta_at, delta_changed, wholes};
ghost use Rattle.clr_workspaces.specs.Workspaces.{workspace_at};
ghost use Rattle.clr_deltas.specs.Differences.{without_neutral, swept_at};
ghost use Rattle.clr_workspaces.specs.Roots.{IsRooted};
ghost use Rattle.clr_contents.specs.Lean.{content_of_parent, swept_marks, swept_marks_at, IsLean, IsLeanBeside, IsLeanBut, IsLeanOver};

use crate::reads::parent_of;
use crate::views::{BaseView, View};
use clr_deltas::{Differences, WorkspaceMap, sweep_each, sweep_each_at};
use clr_rows::{CellId, Sheet};

// No function here changes a content or takes memory.

/// Takes away the neutral differences of a base. The base is taken out for that time, which changes
/// neither the parent nor what is above it.
fn sweep_base(live: &Sheet, map: &mut WorkspaceMap, at: usize)
    requires child { 0 < at }
    requires within { at < length map.old }
    requires rooted { IsRooted (wholes live.now map.old) }
    ensures { map.new ≡ delta_changed map.old at (λ l. record l { base = without_neutral (content_of_parent (wholes live.now map.old) at) l.base }) }
{
    let above = parent_of(live, map, at);
    let none = Differences::new(map.allocator());
    let mut base = map.replace_base(at, none);
    base.sweep(&View::new(live, map, above));
    let _none = map.replace_base(at, base);
}

/// Takes away the neutral differences of a current content. The current content is taken out for that
/// time, which doesn't change the base.
fn sweep_current(live: &Sheet, map: &mut WorkspaceMap, at: usize)
    requires child { 0 < at }
    requires within { at < length map.old }
    requires rooted { IsRooted (wholes live.now map.old) }
    ensures { map.new ≡ delta_changed map.old at (λ l. record l { current = without_neutral (workspace_at (wholes live.now map.old) at).base l.current }) }
{
    let none = Differences::new(map.allocator());
    let mut current = map.replace_current(at, none);
    current.sweep(&BaseView::new(live, map, at));
    let _none = map.replace_current(at, current);
}

/// Takes away the neutral differences of savepoints. The marks are taken out for that time, which
/// doesn't change the base.
fn sweep_saved(live: &Sheet, map: &mut WorkspaceMap, at: usize)
    requires child { 0 < at }
    requires within { at < length map.old }
    requires rooted { IsRooted (wholes live.now map.old) }
    ensures { map.new ≡ delta_changed map.old at (λ l. record l { marks = swept_marks (workspace_at (wholes live.now map.old) at).base l.marks }) }
{
    let none = Vec::new(map.allocator());
    let mut marks = map.replace_marks(at, none);
    sweep_each(&mut marks, &BaseView::new(live, map, at));
    let _none = map.replace_marks(at, marks);
}

/// Takes away the neutral differences of a workspace.
fn sweep_one(live: &Sheet, map: &mut WorkspaceMap, at: usize)
    requires child { 0 < at }
    requires within { at < length map.old }
    requires rooted { IsRooted (wholes live.now map.old) }
    ensures seen { wholes live.now map.new ≡ wholes live.now map.old }
    ensures lean { IsLeanOver (wholes live.now map.old) at (delta_at map.new at) }
    ensures others { map.new ≡ delta_changed map.old at (λ _. delta_at map.new at) }
{
    sweep_base(live, map, at);
    sweep_current(live, map, at);
    sweep_saved(live, map, at);
}

/// Takes away every neutral difference: one that has the row of what it lies over.
pub fn sweep(live: &Sheet, map: &mut WorkspaceMap)
    requires { IsRooted (wholes live.now map.old) }
    ensures seen { wholes live.now map.new ≡ wholes live.now map.old }
    ensures lean { IsLean live.now map.new }
{
    for at in 1..map.len() {
        sweep_one(live, map, at);
    }
}

/// Takes away the neutral differences of a base at some cells, as `sweep_base` does.
fn sweep_base_at(live: &Sheet, map: &mut WorkspaceMap, at: usize, cells: &[CellId])
    requires child { 0 < at }
    requires within { at < length map.old }
    requires rooted { IsRooted (wholes live.now map.old) }
    ensures { map.new ≡ delta_changed map.old at (λ l. record l { base = swept_at (content_of_parent (wholes live.now map.old) at) cells.now l.base }) }
{
    let above = parent_of(live, map, at);
    let none = Differences::new(map.allocator());
    let mut base = map.replace_base(at, none);
    base.sweep_at(&View::new(live, map, above), cells);
    let _none = map.replace_base(at, base);
}

/// Takes away the neutral differences of a current content at some cells, as `sweep_current` does.
fn sweep_current_at(live: &Sheet, map: &mut WorkspaceMap, at: usize, cells: &[CellId])
    requires child { 0 < at }
    requires within { at < length map.old }
    requires rooted { IsRooted (wholes live.now map.old) }
    ensures { map.new ≡ delta_changed map.old at (λ l. record l { current = swept_at (workspace_at (wholes live.now map.old) at).base cells.now l.current }) }
{
    let none = Differences::new(map.allocator());
    let mut current = map.replace_current(at, none);
    current.sweep_at(&BaseView::new(live, map, at), cells);
    let _none = map.replace_current(at, current);
}

/// Takes away the neutral differences of savepoints at some cells, as `sweep_saved` does.
fn sweep_saved_at(live: &Sheet, map: &mut WorkspaceMap, at: usize, cells: &[CellId])
    requires child { 0 < at }
    requires within { at < length map.old }
    requires rooted { IsRooted (wholes live.now map.old) }
    ensures { map.new ≡ delta_changed map.old at (λ l. record l { marks = swept_marks_at (workspace_at (wholes live.now map.old) at).base cells.now l.marks }) }
{
    let none = Vec::new(map.allocator());
    let mut marks = map.replace_marks(at, none);
    sweep_each_at(&mut marks, &BaseView::new(live, map, at), cells);
    let _none = map.replace_marks(at, marks);
}

/// Takes away the neutral differences of a workspace at some cells.
fn sweep_one_at(live: &Sheet, map: &mut WorkspaceMap, at: usize, cells: &[CellId])
    requires child { 0 < at }
    requires within { at < length map.old }
    requires rooted { IsRooted (wholes live.now map.old) }
    ensures seen { wholes live.now map.new ≡ wholes live.now map.old }
    ensures here { delta_at map.new at ≡ (let ws = wholes live.now map.old in let l = delta_at map.old at in record l {
      base = swept_at (content_of_parent ws at) cells.now l.base;
      current = swept_at (workspace_at ws at).base cells.now l.current;
      marks = swept_marks_at (workspace_at ws at).base cells.now l.marks;
    }) }
    ensures others { map.new ≡ delta_changed map.old at (λ _. delta_at map.new at) }
{
    sweep_base_at(live, map, at, cells);
    sweep_current_at(live, map, at, cells);
    sweep_saved_at(live, map, at, cells);
}

/// Returns whether a workspace is the one at a position or a child of it.
fn is_near(map: &WorkspaceMap, one: usize, at: usize) -> bool
    requires one { one < length map.now }
    requires within { at < length map.now }
    ensures { result ≡ nat_eq one at || bytes_eq (delta_at map.now at).name (delta_at map.now one).parent }
{
    one == at || map.name_at(at) == map.parent_name(one)
}

/// Takes away the neutral differences of a workspace at some cells, if it is the one at a position or a
/// child of it.
fn sweep_near(live: &Sheet, map: &mut WorkspaceMap, one: usize, at: usize, cells: &[CellId])
    requires child { 0 < one }
    requires one { one < length map.old }
    requires within { at < length map.old }
    requires rooted { IsRooted (wholes live.now map.old) }
    ensures seen { wholes live.now map.new ≡ wholes live.now map.old }
    ensures lean { IsLeanBeside (wholes live.now map.old) at cells.now one (delta_at map.old one)
        → IsLeanOver (wholes live.now map.old) one (delta_at map.new one) }
    ensures others { map.new ≡ delta_changed map.old one (λ _. delta_at map.new one) }
{
    if !is_near(map, one, at) {
        return;
    }
    sweep_one_at(live, map, one, cells);
}

/// Takes away every neutral difference, where each one stands at some cells in the workspace at a
/// position or in a child of it. It looks at no other difference.
pub fn sweep_at(live: &Sheet, map: &mut WorkspaceMap, at: usize, cells: &[CellId])
    requires within { at < length map.old }
    requires rooted { IsRooted (wholes live.now map.old) }
    ensures seen { wholes live.now map.new ≡ wholes live.now map.old }
    ensures lean { IsLeanBut at cells.now live.now map.old → IsLean live.now map.new }
{
    for one in 1..map.len() {
        sweep_near(live, map, one, at, cells);
    }
}
