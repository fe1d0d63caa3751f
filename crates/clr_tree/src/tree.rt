//! The tree of all workspaces.

ghost use Rattle.std.specs.Prelude.{ℕ, ◌≡◌, ◌<◌, ◌↔◌, [], ◌∷◌, None, Some, false, true, length, map, OnOk, OnErr, IfOk, IfErr, IfSome, IsSome};
ghost use Rattle.std.specs.Option.{option_copied};
ghost use Rattle.clr_rows.specs.Contents.{row_at, changes, taken_over};
ghost use Rattle.clr_rows.specs.Names.{is_good_name};
ghost use Rattle.clr_deltas.specs.Deltas.{delta_at, whole_mark, wholes};
ghost use Rattle.clr_workspaces.specs.Marks.{find_mark, is_held, is_saved, mark_at, saved_content, saved_count};
ghost use Rattle.clr_workspaces.specs.Workspaces.{workspace_at, find, parent_of as position_of_parent, children_of, depth_of, live_workspace};
ghost use Rattle.clr_workspaces.specs.Operations.{after_create, after_remove, after_write, after_mark, after_unmark};
ghost use Rattle.clr_workspaces.specs.Operations.{after_roll_to, after_roll_all, after_rebase, own_changes, set_kept};
ghost use Rattle.clr_workspace_parts.specs.Parts.{workspace_of, list_of, spaces_of, first_fault, workspaces_fault, IsFirstPartFault};
ghost use Rattle.clr_workspaces.specs.Soundness.{IsSound};
ghost use Rattle.clr_workspaces.specs.declared.rebases.Rebase.TheVariants as rebase;
ghost use Rattle.clr_tree.specs.Trees.{tree_of, stored_count_at, saved_at, needed, needed_delta, needed_of_marks};

use clr_change::ChangeSet;
use clr_contents::{
    View, base_row_of, base_rows, changes_of, changes_to_base, changes_to_refreshed,
    changes_to_saved, depth_at, row_of, saved_rows, sweep, whole_rows,
};
use clr_deltas::{
    DeltaView, StoredMark, StoredPart, WorkspaceMap, count_saved, find_saved, has_child_after,
    live_alone,
};
use clr_operations::{
    create, mark, merge_changes, rebase, refresh_changes, remove, roll_all, roll_to, write_rows,
};
use clr_rows::{CellId, Row, Sheet};
use clr_workspace_parts::{
    Part, PartFault, judge_marks, live_part, part_at, push_deltas, push_parts,
};
use clr_workspaces::{MOST_LEVELS, MOST_SAVEPOINTS, MOST_WORKSPACES, Rebase};
use std::alloc::{AllocError, Global};
use std::marker::Model;

/// The workspaces in order of creation, LIVE first, each with whole contents. A workspace is named
/// by its position, which is below `len`. LIVE is stored whole. Of every other workspace the base
/// is stored by its differences from the parent's current content, and the current content and the
/// savepoints by their differences from the base. Neutral differences, which have the row of what they
/// lie over, come only from the parts that a tree is made of; after a sweep there are none.
#[derive(Drop)]
pub struct Tree {
    live: Sheet,
    map: WorkspaceMap,
    swept: bool,
}

impl Model for Tree {
    ghost use Rattle.clr_tree.specs.Trees.{Tree as Whole, coded_tree, tree_of};
    ghost use Rattle.clr_workspaces.specs.Soundness.{IsSound};
    ghost use Rattle.clr_deltas.specs.Deltas.{wholes};
    ghost use Rattle.clr_contents.specs.Lean.{IsLean};
    ghost use Rattle.std.specs.Prelude.{◌≡◌, true};

    ghost Value = { Whole };

    ghost coded = { coded_tree };

    ghost view = { λ t. tree_of t.live t.map };

    ghost invariant = { λ t. IsSound (wholes t.live t.map) × (t.swept ≡ true → IsLean t.live t.map) };
}

impl Tree {
    /// Returns a tree of LIVE with this content and of what is stored of all workspaces. It counts
    /// as never swept.
    fn of_map(live: Sheet, map: WorkspaceMap) -> Tree
        requires { IsSound (wholes live map) }
        ensures { result ≡ tree_of live map }
    {
        Tree {
            live,
            map,
            swept: false,
        }
    }

    /// Returns a tree of LIVE alone, with this content.
    pub fn new(alloc: Global, live: Sheet) -> Result<Tree, AllocError>
        ensures { IfOk result (λ tree. tree.list ≡ live_workspace live ∷ []) }
    {
        let map = live_alone(alloc)?;
        Ok(Tree::of_map(live, map))
    }

    /// Returns a tree of LIVE with this content and of these parts. Fails with the position of the
    /// first part with a fault and which fault: `BadName`, `NameTaken`, `NoParent` or `TooMany`
    /// part by part, and only then `BadMarks` part by part. Fails with `OutOfMemory` at 0 if memory
    /// runs out.
    /// For example, where the first part is `B` under `A` and the second is `A` under LIVE, it fails with 0 and
    /// `NoParent`, since a parent comes before its children.
    pub fn build(alloc: Global, live: Sheet, parts: Vec<Part>) -> Result<Tree, (usize, PartFault)>
        ensures made { IfOk result (λ tree. tree.list ≡ list_of live parts.items) }
        ensures passed { OnOk result (first_fault live parts.items ≡ None) }
        ensures refused { IfErr result (IsFirstPartFault (first_fault live parts.items)) }
    {
        let map = push_parts(alloc, &live, parts.as_slice())?;
        judge_marks(&live, &map)?;
        Ok(Tree::of_map(live, map))
    }

    /// Returns a tree of LIVE with this content and of these parts by their differences, each base
    /// over the current content of its parent. No content is made whole, and neutral differences stay
    /// until a sweep. Fails with the position of the first part with a fault and which fault:
    /// `BadName`, `NameTaken`, `NoParent` or `TooMany` part by part, and only then `BadMarks` part
    /// by part. Fails with `OutOfMemory` at 0 if memory runs out.
    pub fn of_deltas(
        alloc: Global,
        live: Sheet,
        parts: Vec<StoredPart>,
    ) -> Result<Tree, (usize, PartFault)>
        ensures made { IfOk result (λ tree. tree.list ≡ live_workspace live ∷ spaces_of live parts.items) }
        ensures passed { OnOk result (workspaces_fault live (spaces_of live parts.items) ≡ None) }
        ensures refused { IfErr result (IsFirstPartFault (workspaces_fault live (spaces_of live parts.items))) }
    {
        let map = push_deltas(alloc, &live, parts)?;
        judge_marks(&live, &map)?;
        Ok(Tree::of_map(live, map))
    }

    /// Returns LIVE's current content.
    pub fn live(&self) -> &Sheet
        ensures { result.now ≡ (workspace_at self.now.list 0).current }
    {
        &self.live
    }

    /// Returns how many workspaces there are, with LIVE.
    /// For example, a new tree has 1 workspace, LIVE. It has 2 after `create` makes `A` under LIVE, and 1 again after
    /// `A` is removed.
    #[tactic(auto, using(crate::proofs::ModelLemmas::tree_long))]
    pub fn len(&self) -> usize
        ensures count { result ≡ length self.now.list }
        ensures sound { IsSound self.now.list }
    {
        self.map.len()
    }

    /// Returns the position of the workspace of this name, or none.
    /// For example, where the workspaces are LIVE, `A` under LIVE and `B` under `A`, in this order, it returns 0 for
    /// `LIVE`, 1 for `A`, 2 for `B` and none for `b`.
    pub fn find(&self, name: &str) -> Option<usize>
        ensures found { result ≡ find self.now.list name.now }
        ensures within { IfSome result (λ at. at < length self.now.list) }
        ensures sound { IsSound self.now.list }
    {
        self.map.find(name)
    }

    /// Returns the name of the workspace at a position.
    /// For example, where the workspaces are LIVE, `A`, `B` and `C`, in this order, position 2 has the name `B`. Once
    /// `B` is removed, position 2 has the name `C`.
    pub fn name_at(&self, at: usize) -> &str
        requires { at < length self.now.list }
        ensures { result.now ≡ (workspace_at self.now.list at).name }
    {
        self.map.name_at(at)
    }

    /// Returns the position of the parent of the workspace at a position, or none for LIVE. A
    /// parent comes before its children.
    /// For example, where the workspaces are LIVE, `A` under LIVE and `B` under `A`, in this order, it returns 1 for
    /// position 2, 0 for position 1 and none for position 0.
    pub fn parent(&self, at: usize) -> Option<usize>
        requires { at < length self.now.list }
        ensures found { result ≡ position_of_parent self.now.list at }
        ensures earlier { IfSome result (λ above. above < at) }
        ensures child { IsSome result ↔ (0 < at) }
    {
        self.map.find(self.map.parent_name(at))
    }

    /// Returns how many children the workspace at a position has.
    /// For example, where the workspaces are LIVE, `A` under LIVE and `B` under `A`, in this order, LIVE and `A` have
    /// 1 child each, and `B` has 0.
    pub fn children(&self, at: usize) -> usize
        requires { at < length self.now.list }
        ensures { result ≡ children_of self.now.list (workspace_at self.now.list at).name }
    {
        self.map.children(self.map.name_at(at))
    }

    /// Returns how many workspaces are above the one at a position.
    /// For example, where the workspaces are LIVE, `A` under LIVE, `B` under `A`, and `C` under LIVE, in this order,
    /// the answers are 0, 1, 2 and 1.
    pub fn depth(&self, at: usize) -> usize
        requires { at < length self.now.list }
        ensures { result ≡ depth_of self.now.list at }
    {
        depth_at(&self.live, &self.map, at)
    }

    /// Returns whether every rule is to hold in the workspace at a position.
    pub fn kept(&self, at: usize) -> bool
        requires { at < length self.now.list }
        ensures { result ≡ (workspace_at self.now.list at).kept }
    {
        at == 0 || self.map.is_kept(at)
    }

    /// Returns what is stored of the marks of the workspace at a position. LIVE has none.
    fn stored_marks(&self, at: usize) -> &[StoredMark]
        requires { at < length self.now.list }
        ensures { let w = workspace_at self.now.list at in w.marks ≡ map (whole_mark w.base) result.now }
    {
        let map = &self.map;
        if at == 0 {
            return &[];
        }
        map.marks(at)
    }

    /// Returns how many savepoints the workspace at a position has. LIVE has none.
    /// For example, where a new workspace sets the savepoint `s1`, gets a child and sets the savepoint `s2`, it has 2
    /// savepoints, since the mark of the child isn't one.
    pub fn saved(&self, at: usize) -> usize
        requires within { at < length self.now.list }
        ensures { result ≡ saved_count (workspace_at self.now.list at).marks }
    {
        count_saved(self.stored_marks(at))
    }

    /// Returns the position of a savepoint among the marks of the workspace at a position, or none.
    /// LIVE has no savepoints.
    /// For example, where the marks are that of a child and then the savepoint `s`, `s` has position 1.
    pub fn find_mark(&self, at: usize, name: &str) -> Option<usize>
        requires within { at < length self.now.list }
        ensures { result ≡ find_mark (workspace_at self.now.list at).marks name.now }
    {
        find_saved(self.stored_marks(at), name)
    }

    /// Returns whether the mark of a child stands after a position among the marks of the workspace
    /// at a position. It is false for LIVE, and past the last mark.
    /// For example, where the only child of a workspace was made after its savepoint `s`, the answer for `s` is true.
    /// Once the child is removed, it is false.
    pub fn held(&self, at: usize, mark: usize) -> bool
        requires within { at < length self.now.list }
        ensures { result ≡ is_held (workspace_at self.now.list at).marks mark }
    {
        let marks = self.stored_marks(at);
        if mark >= marks.len() {
            return false;
        }
        has_child_after(marks, mark)
    }

    /// Returns the row at a cell in the current content of the workspace at a position, or none.
    /// For example, where main 1 has the code `A` in LIVE, and a workspace under LIVE gives it the code `W`, it
    /// returns the row with `W` for the workspace, and the row with `A` for LIVE.
    pub fn read(&self, at: usize, cell: CellId) -> Option<&Row>
        requires { at < length self.now.list }
        ensures { option_copied result ≡ row_at (workspace_at self.now.list at).current cell }
    {
        row_of(&self.live, &self.map, at, cell)
    }

    /// Returns the row at a cell in the base of the workspace at a position, or none. LIVE has no
    /// base, and so no row there.
    /// For example, where a workspace is made under LIVE while main 1 has the code `A` there, and LIVE gives it the
    /// code `L` later, it returns the row with `A` for the workspace. Once the workspace is refreshed, it returns the
    /// row with `L`.
    pub fn base(&self, at: usize, cell: CellId) -> Option<&Row>
        requires within { at < length self.now.list }
        ensures { option_copied result ≡ row_at (workspace_at self.now.list at).base cell }
    {
        let map = &self.map;
        if at == 0 {
            return None;
        }
        base_row_of(&self.live, map, at, cell)
    }

    /// Returns how many differences are stored of the base and of the current content of the workspace
    /// at a position, which isn't LIVE. Those that have the row of what they lie over count too, until
    /// `sweep` takes them away.
    pub fn stored(&self, at: usize) -> usize
        requires child { 0 < at }
        requires within { at < length self.now.list }
        ensures { result ≡ stored_count_at self.now.stored at }
    {
        self.map.count_differences(at)
    }

    /// Returns what is stored of the workspace at a position, which isn't LIVE, not copied.
    pub fn delta(&self, at: usize) -> DeltaView<'_>
        requires child { 0 < at }
        requires within { at < length self.now.list }
        ensures { result ≡ delta_at self.now.deltas at }
    {
        self.map.delta(at)
    }

    /// Returns the current content of the workspace at a position, seen by cell.
    /// For example, where LIVE has main 1, and a workspace under LIVE deletes it, `row` of the workspace's view
    /// returns none for main 1, and `row` of LIVE's view still returns the row.
    pub fn view(&self, at: usize) -> View<'_>
        requires { at < length self.now.list }
        ensures { result ≡ (workspace_at self.now.list at).current }
    {
        View::new(&self.live, &self.map, at)
    }

    /// Returns the current content of the workspace at a position, whole.
    /// For example, where LIVE has mains 1 and 2 alone, and a new workspace under LIVE deletes main 1 and inserts
    /// main 20, the rows of the workspace are mains 2 and 20, and those of LIVE are mains 1 and 2.
    pub fn rows(&self, at: usize) -> Result<Sheet, AllocError>
        requires { at < length self.now.list }
        ensures { IfOk result (λ sheet. sheet ≡ (workspace_at self.now.list at).current) }
    {
        whole_rows(&self.live, &self.map, at)
    }

    /// Returns the workspace at a position with whole contents. LIVE has no parent, no base and no
    /// marks.
    /// For example, where a new workspace `B` under `A` inserts main 20 and then sets the savepoint `s`, its part has
    /// the name `B`, the parent `A` and one mark, `s`. The current content and the content of `s` have main 20, and
    /// the base hasn't.
    pub fn part(&self, at: usize) -> Result<Part, AllocError>
        requires within { at < length self.now.list }
        ensures { IfOk result (λ part. workspace_of part ≡ workspace_at self.now.list at) }
    {
        if at == 0 {
            return live_part(self.map.allocator(), &self.live);
        }
        part_at(&self.live, &self.map, at)
    }

    /// Returns the base of the workspace at a position, whole. For LIVE it has no rows.
    pub fn base_rows(&self, at: usize) -> Result<Sheet, AllocError>
        requires within { at < length self.now.list }
        ensures { IfOk result (λ sheet. sheet ≡ (workspace_at self.now.list at).base) }
    {
        if at == 0 {
            return Ok(Sheet::new(self.map.allocator()));
        }
        base_rows(&self.live, &self.map, at)
    }

    /// Returns the content of a savepoint of the workspace at a position, whole.
    pub fn saved_rows(&self, at: usize, mark: usize) -> Result<Sheet, AllocError>
        requires within { at < length self.now.list }
        requires saved { is_saved (mark_at (workspace_at self.now.list at).marks mark) ≡ true }
        ensures { IfOk result (λ sheet. sheet ≡ saved_content (mark_at (workspace_at self.now.list at).marks mark)) }
    {
        saved_rows(&self.live, &self.map, at, mark)
    }

    /// Returns what the workspace at a position, which isn't LIVE, changed.
    /// For example, where a new workspace under LIVE gives main 1 the code `W` in place of `A`, that is its only
    /// change. What LIVE changes later isn't among its changes.
    pub fn changes(&self, at: usize) -> Result<ChangeSet, AllocError>
        requires child { 0 < at }
        requires within { at < length self.now.list }
        ensures { IfOk result (λ set. set ≡ changes (workspace_at self.now.list at).base (workspace_at self.now.list at).current) }
    {
        changes_of(&self.live, &self.map, at)
    }

    /// Returns what changes from the current content of the workspace at a position, which isn't LIVE, to that
    /// of one of its savepoints.
    pub fn changes_to_savepoint(&self, at: usize, mark: usize) -> Result<ChangeSet, AllocError>
        requires child { 0 < at }
        requires within { at < length self.now.list }
        requires saved { is_saved (mark_at (workspace_at self.now.list at).marks mark) ≡ true }
        ensures { IfOk result (λ set. let w = workspace_at self.now.list at in set ≡ changes w.current (saved_content (mark_at w.marks mark))) }
    {
        changes_to_saved(&self.live, &self.map, at, mark)
    }

    /// Returns what changes from the current content of the workspace at a position, which isn't LIVE, to its
    /// base.
    pub fn changes_to_base(&self, at: usize) -> Result<ChangeSet, AllocError>
        requires child { 0 < at }
        requires within { at < length self.now.list }
        ensures { IfOk result (λ set. let w = workspace_at self.now.list at in set ≡ changes w.current w.base) }
    {
        changes_to_base(&self.live, &self.map, at)
    }

    /// Returns what changes from the current content of the workspace at a position, which isn't LIVE, to that of
    /// its parent with the workspace's own changes, which are given, over it.
    pub fn changes_to_refreshed(
        &self,
        at: usize,
        above: usize,
        own: &ChangeSet,
    ) -> Result<ChangeSet, AllocError>
        requires child { 0 < at }
        requires within { at < length self.now.list }
        requires above { position_of_parent self.now.list at ≡ Some above }
        requires own { own.now ≡ own_changes (workspace_at self.now.list at) }
        ensures { IfOk result (λ set. let list = self.now.list in
            set ≡ changes (workspace_at list at).current (taken_over (workspace_at list above).current own.now)) }
    {
        changes_to_refreshed(&self.live, &self.map, at, above, own)
    }

    /// Makes a workspace of a new name under the one at a position. Its base and its current
    /// content are that one's current content. Where the parent isn't LIVE, a mark of the new workspace
    /// goes to the end of its marks. If memory runs out, nothing changes.
    /// For example, where LIVE gets a main later, a workspace made under LIVE doesn't see it until it is refreshed.
    pub fn create(&mut self, name: &str, parent: usize) -> Result<(), AllocError>
        requires within { parent < length self.old.list }
        requires good { is_good_name name.now ≡ true }
        requires absent { find self.old.list name.now ≡ None }
        requires room { length self.old.list < MOST_WORKSPACES }
        requires shallow { depth_of self.old.list parent < MOST_LEVELS }
        ensures ok { OnOk result (self.new.list ≡ after_create self.old.list name.now parent) }
        ensures err { OnErr result (self.new.list ≡ self.old.list) }
    {
        create(&self.live, &mut self.map, name, parent)
    }

    /// Takes the leaf at a position, which isn't LIVE, and its mark away.
    /// For example, where the workspaces are LIVE, `A` under LIVE, `B` under `A`, and `C` under LIVE, in this order,
    /// a remove of `B`, at position 2, leaves `C` at position 2, and takes the mark of `B` from the marks of `A`.
    pub fn remove(&mut self, at: usize)
        requires child { 0 < at }
        requires within { at < length self.old.list }
        requires leaf { children_of self.old.list (workspace_at self.old.list at).name ≡ 0 }
        ensures { self.new.list ≡ after_remove self.old.list at }
    {
        remove(&self.live, &mut self.map, at);
    }

    /// Takes changes over into the current content of the workspace at a position. If memory runs
    /// out, nothing changes.
    /// For example, where main 20 stands nowhere, and the changes insert it, the workspace sees main 20 afterwards.
    /// Its base doesn't have it, and no other workspace sees it.
    pub fn write_all(&mut self, at: usize, changed: &ChangeSet) -> Result<(), AllocError>
        requires { at < length self.old.list }
        ensures ok { OnOk result (self.new.list ≡ after_write self.old.list at changed.now) }
        ensures err { OnErr result (self.new.list ≡ self.old.list) }
    {
        let rows = changed.rows_after()?;
        write_rows(&mut self.live, &mut self.map, at, rows)
    }

    /// Puts a savepoint of a new name, with the current content, at the end of the marks of the
    /// workspace at a position, which isn't LIVE. If memory runs out, nothing changes.
    /// For example, where a workspace sets the savepoint `s` while main 1 has the code `A`, and then gives main 1 the
    /// code `B`, the content of `s` has main 1 with the code `A`.
    pub fn mark(&mut self, at: usize, name: &str) -> Result<(), AllocError>
        requires child { 0 < at }
        requires within { at < length self.old.list }
        requires good { is_good_name name.now ≡ true }
        requires absent { find_mark (workspace_at self.old.list at).marks name.now ≡ None }
        requires room { saved_count (workspace_at self.old.list at).marks < MOST_SAVEPOINTS }
        ensures ok { OnOk result (self.new.list ≡ after_mark self.old.list at name.now) }
        ensures err { OnErr result (self.new.list ≡ self.old.list) }
    {
        mark(&self.live, &mut self.map, at, name)
    }

    /// Takes away the savepoint at a position of the marks of a workspace, which isn't LIVE.
    /// For example, where the marks are the savepoints `s1`, `s2` and `s3`, and `s2`, at position 1, is taken away,
    /// `s1` has position 0 and `s3` has position 1. The current content stays as it is.
    pub fn unmark(&mut self, at: usize, mark: usize)
        requires child { 0 < at }
        requires within { at < length self.old.list }
        requires saved { is_saved (mark_at (workspace_at self.old.list at).marks mark) ≡ true }
        ensures { self.new.list ≡ after_unmark self.old.list at mark }
    {
        self.map.drop_mark(at, mark);
    }

    /// Makes the content of a savepoint of a workspace, which isn't LIVE, its current content. The
    /// later savepoints go. If memory runs out, nothing changes.
    /// For example, where the savepoints `s1`, `s2` and `s3` were set in this order, a roll to `s2` takes `s3` away, and
    /// `s1` and `s2` stay.
    pub fn roll_to(&mut self, at: usize, mark: usize) -> Result<(), AllocError>
        requires child { 0 < at }
        requires within { at < length self.old.list }
        requires saved { is_saved (mark_at (workspace_at self.old.list at).marks mark) ≡ true }
        requires free { is_held (workspace_at self.old.list at).marks mark ≡ false }
        ensures ok { OnOk result (self.new.list ≡ after_roll_to self.old.list at mark) }
        ensures err { OnErr result (self.new.list ≡ self.old.list) }
    {
        roll_to(&self.live, &mut self.map, at, mark)
    }

    /// Makes the base of a leaf, which isn't LIVE, its current content. Its savepoints go.
    /// For example, where all that a leaf changed is that it inserted main 20, and it set the savepoint `s`, it has
    /// neither main 20 nor `s` nor any change afterwards.
    pub fn roll_all(&mut self, at: usize)
        requires child { 0 < at }
        requires within { at < length self.old.list }
        requires leaf { children_of self.old.list (workspace_at self.old.list at).name ≡ 0 }
        ensures { self.new.list ≡ after_roll_all self.old.list at }
    {
        roll_all(&self.live, &mut self.map, at);
    }

    /// Merges the workspace at a position, which isn't LIVE, into its parent. Its savepoints go. The
    /// changes given are those that `changes` gives of it. If memory runs out, nothing changes.
    /// For example, where all that a workspace changed is that it inserted main 20, its parent has main 20 afterwards,
    /// and the workspace has no changes.
    pub fn merge_changes(&mut self, at: usize, changed: &ChangeSet) -> Result<(), AllocError>
        requires child { 0 < at }
        requires within { at < length self.old.list }
        requires changed { changed.now ≡ own_changes (workspace_at self.old.list at) }
        ensures ok { OnOk result (self.new.list ≡ after_rebase self.old.list at rebase.Merge) }
        ensures err { OnErr result (self.new.list ≡ self.old.list) }
    {
        merge_changes(&mut self.live, &mut self.map, at, changed)
    }

    /// Refreshes the workspace at a position, which isn't LIVE, from its parent. Its savepoints go, and
    /// where the parent isn't LIVE, its mark goes to the end of the parent's marks. The changes given
    /// are those that `changes` gives of it. If memory runs out, nothing changes.
    /// For example, where all that a workspace changed is that it inserted main 21, and its parent has inserted main 20
    /// since, the workspace sees both afterwards, and main 21 is still its only change.
    pub fn refresh_changes(&mut self, at: usize, changed: &ChangeSet) -> Result<(), AllocError>
        requires child { 0 < at }
        requires within { at < length self.old.list }
        requires changed { changed.now ≡ own_changes (workspace_at self.old.list at) }
        ensures ok { OnOk result (self.new.list ≡ after_rebase self.old.list at rebase.Refresh) }
        ensures err { OnErr result (self.new.list ≡ self.old.list) }
    {
        refresh_changes(&self.live, &mut self.map, at, changed)
    }

    /// Moves the base of the workspace at a position, which isn't LIVE: it is refreshed or merged, as by `refresh_changes` and `merge_changes`, or takes the
    /// parent's row over at one cell. If memory runs out, nothing changes.
    /// For example, where main 1 has the code `A` in the base, `W` in the workspace and `L` in its parent, `OneRow` with
    /// main 1 leaves the code `W` in the workspace for `Keep::Child`, `L` for `Keep::Parent` and `A` for `Keep::Base`.
    /// The base then has the code `L`.
    pub fn rebase(&mut self, at: usize, how: Rebase) -> Result<(), AllocError>
        requires child { 0 < at }
        requires within { at < length self.old.list }
        ensures ok { OnOk result (self.new.list ≡ after_rebase self.old.list at how) }
        ensures err { OnErr result (self.new.list ≡ self.old.list) }
    {
        rebase(&mut self.live, &mut self.map, at, how)
    }

    /// Says that from now on every rule is to hold in the workspace at a position, which isn't
    /// LIVE.
    pub fn hold(&mut self, at: usize)
        requires child { 0 < at }
        requires within { at < length self.old.list }
        ensures { self.new.list ≡ set_kept self.old.list at true }
    {
        self.map.set_kept(at, true);
    }

    /// Says that from now on no rule need hold in the workspace at a position, which isn't LIVE.
    pub fn release(&mut self, at: usize)
        requires child { 0 < at }
        requires within { at < length self.old.list }
        ensures { self.new.list ≡ set_kept self.old.list at false }
    {
        self.map.set_kept(at, false);
    }

    /// Takes away every neutral difference, without memory. No content changes. Afterwards a base has a
    /// difference at exactly the cells where it isn't as the parent's current content, and a current
    /// content and a savepoint at exactly the cells where they aren't as the base.
    pub fn sweep(&mut self)
        ensures contents { self.new.list ≡ self.old.list }
        ensures deltas { (at : ℕ) → 0 < at → at < length self.new.list → delta_at self.new.deltas at ≡ needed_delta self.new.list at }
        ensures counts { (at : ℕ) → 0 < at → at < length self.new.list → stored_count_at self.new.stored at ≡ needed self.new.list at }
        ensures saved { (at : ℕ) → 0 < at → at < length self.new.list → saved_at self.new.saved at ≡ needed_of_marks self.new.list at }
    {
        if self.swept {
            return;
        }
        sweep(&self.live, &mut self.map);
        self.swept = true;
    }
}
