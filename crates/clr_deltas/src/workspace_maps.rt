//! The map of all workspaces, as they are stored.

ghost use Rattle.std.specs.Prelude.{◌≡◌, ◌<◌, ◌++◌, [], ◌∷◌, suc, None, map, take, filter, remove, length, count_by, string_bytes, OnOk, OnErr, IfSome};
ghost use Rattle.std.specs.FinMap as finite;
ghost use Rattle.std.specs.Option.{option_copied};
ghost use Rattle.std.specs.Str.{bytes_eq};
ghost use Rattle.indexmap.specs.IndexMap.{values};
ghost use Rattle.clr_rows.specs.Contents.{Content, row_at};
ghost use Rattle.clr_deltas.specs.Differences.{no_differences, put_each, cells_in, HasDifference, HasDifferences};
ghost use Rattle.clr_deltas.specs.Deltas.{delta_at, delta_changed, find_delta, stored_in, whole_mark, is_stored_child};
ghost use Rattle.clr_deltas.specs.Deltas.{stored_without_mark_of, EachMarkStores, StayOwnBeside, rows_taken_over, restarted_with};
ghost use Rattle.clr_deltas.specs.NamedDeltas.{delta_of};
ghost use Rattle.clr_deltas.specs.declared.stored_marks.StoredMark.TheVariants.{Child};

use crate::delta_views::DeltaView;
use crate::differences::Differences;
use crate::stored_marks::{
    StoredMark, cut_after, drop_mark, drop_mark_of, drop_saved, move_last, push_mark, store_in_each,
};
use clr_rows::{CellId, Row, Words};
use indexmap::IndexMap;
use std::alloc::{AllocError, Global};
use std::marker::Model;
use std::mem;

/// What is stored of a workspace under its name: its base by differences from its parent's content,
/// and its current content and its savepoints by differences from its base.
#[derive(Drop)]
pub struct Delta {
    pub parent: Words,
    pub base: Differences,
    pub current: Differences,
    pub marks: Vec<StoredMark>,
    pub kept: bool,
}

fn count_children(map: &IndexMap<String, Delta>, name: &str) -> usize
    ensures { result ≡ count_by (λ l. bytes_eq name.now l.parent) (values map.now) }
{
    map.values()
        .filter(|delta| name == delta.parent.as_str())
        .count()
}

/// The deltas of workspaces by name, in order of creation.
#[derive(Drop)]
pub struct WorkspaceMap {
    map: IndexMap<String, Delta>,
}

impl Model for WorkspaceMap {
    ghost use Rattle.std.specs.Prelude.{List};
    ghost use Rattle.std.specs.Coded.{coded_list};
    ghost use Rattle.clr_deltas.specs.Deltas.{Delta as WholeDelta, coded_delta};

    ghost Value = { List WholeDelta };

    ghost coded = { coded_list coded_delta };

    ghost use Rattle.clr_deltas.specs.NamedDeltas.{deltas_of};

    ghost view = { λ w. deltas_of w.map.entries };
}

impl WorkspaceMap {
    /// Returns a map of no workspaces.
    pub fn new(alloc: Global) -> WorkspaceMap
        ensures { result ≡ [] }
    {
        WorkspaceMap {
            map: IndexMap::new(alloc),
        }
    }

    /// Returns the allocator that the map was made with.
    pub fn allocator(&self) -> Global {
        *self.map.allocator()
    }

    /// Returns how many workspaces there are.
    pub fn len(&self) -> usize
        ensures { result ≡ length self.now }
    {
        self.map.len()
    }

    /// Returns the position of a name, or none.
    pub fn find(&self, name: &str) -> Option<usize>
        ensures found { result ≡ find_delta self.now name.now }
        ensures within { IfSome result (λ at. at < length self.now) }
    {
        self.map.get_index_of(name)
    }

    /// Returns the name of the workspace at a position.
    pub fn name_at(&self, at: usize) -> &str
        requires { at < length self.now }
        ensures { result.now ≡ (delta_at self.now at).name }
    {
        let (name, _) = self.map.get_index(at).unwrap();
        name.as_str()
    }

    /// Returns the name of the parent of the workspace at a position.
    pub fn parent_name(&self, at: usize) -> &str
        requires { at < length self.now }
        ensures { result.now ≡ (delta_at self.now at).parent }
    {
        let delta = &self.map[at];
        delta.parent.as_str()
    }

    /// Returns whether every rule is to hold in the workspace at a position.
    pub fn is_kept(&self, at: usize) -> bool
        requires { at < length self.now }
        ensures { result ≡ (delta_at self.now at).kept }
    {
        let delta = &self.map[at];
        delta.kept
    }

    /// Returns the differences of the base of the workspace at a position.
    pub fn base(&self, at: usize) -> &Differences
        requires { at < length self.now }
        ensures { result.now ≡ (delta_at self.now at).base }
    {
        let delta = &self.map[at];
        &delta.base
    }

    /// Returns the differences of the current content of the workspace at a position.
    pub fn current(&self, at: usize) -> &Differences
        requires { at < length self.now }
        ensures { result.now ≡ (delta_at self.now at).current }
    {
        let delta = &self.map[at];
        &delta.current
    }

    /// Returns the marks of the workspace at a position.
    pub fn marks(&self, at: usize) -> &[StoredMark]
        requires { at < length self.now }
        ensures { result.now ≡ (delta_at self.now at).marks }
    {
        let delta = &self.map[at];
        delta.marks.as_slice()
    }

    /// Returns what is stored of the workspace at a position, not copied.
    pub fn delta(&self, at: usize) -> DeltaView<'_>
        requires { at < length self.now }
        ensures { result ≡ delta_at self.now at }
    {
        let (name, delta) = self.map.get_index(at).unwrap();
        DeltaView::new(name.as_str(), delta)
    }

    /// Returns how many workspaces have this name as that of their parent.
    pub fn children(&self, name: &str) -> usize
        ensures { result ≡ count_by (λ l. bytes_eq name.now l.parent) self.now }
    {
        count_children(&self.map, name)
    }

    /// Puts a delta of a new name at the end. If memory runs out, nothing changes.
    pub fn push(&mut self, name: String, delta: Delta) -> Result<(), AllocError>
        requires { find_delta self.old (string_bytes name) ≡ None }
        ensures ok { OnOk result (self.new ≡ self.old ++ delta_of (name, delta) ∷ []) }
        ensures err { OnErr result (self.new ≡ self.old) }
    {
        self.map.insert(name, delta)?;
        Ok(())
    }

    /// Takes the workspace at a position away, and returns its name.
    pub fn remove(&mut self, at: usize) -> String
        requires { at < length self.old }
        ensures name { string_bytes result ≡ (delta_at self.old at).name }
        ensures gone { self.new ≡ remove self.old at }
    {
        let (name, _) = self.map.shift_remove_index(at).unwrap();
        name
    }

    /// Puts a difference into a base. If memory runs out, nothing changes.
    pub fn put_base(&mut self, at: usize, cell: CellId, row: Option<Row>) -> Result<(), AllocError>
        requires { at < length self.old }
        ensures ok { OnOk result (self.new ≡ delta_changed self.old at (λ l. record l { base = finite.insert l.base cell row })) }
        ensures err { OnErr result (self.new ≡ self.old) }
    {
        let (_, delta) = self.map.pair_mut(at);
        delta.base.put(cell, row)
    }

    /// Puts a difference into a current content. If memory runs out, nothing changes.
    pub fn put_current(
        &mut self,
        at: usize,
        cell: CellId,
        row: Option<Row>,
    ) -> Result<(), AllocError>
        requires { at < length self.old }
        ensures ok { OnOk result (self.new ≡ delta_changed self.old at (λ l. record l { current = finite.insert l.current cell row })) }
        ensures err { OnErr result (self.new ≡ self.old) }
    {
        let (_, delta) = self.map.pair_mut(at);
        delta.current.put(cell, row)
    }

    /// Stores a difference at a cell in each savepoint of the workspace at a position that has none
    /// there, with the row of the base. No savepoint's content changes, also where memory runs out.
    pub fn store_saved_rows(
        &mut self,
        at: usize,
        cell: CellId,
        row: Option<&Row>,
    ) -> Result<(), AllocError>
        requires { at < length self.old }
        ensures others { self.new ≡ delta_changed self.old at (λ l. record l { marks = (delta_at self.new at).marks }) }
        ensures seen { (base : Content) → row_at base cell ≡ option_copied row.entry
            → map (whole_mark base) (delta_at self.new at).marks ≡ map (whole_mark base) (delta_at self.old at).marks }
        ensures is_stored { OnOk result (EachMarkStores (delta_at self.new at).marks cell) }
        ensures elsewhere { StayOwnBeside (cell ∷ []) (delta_at self.old at).marks (delta_at self.new at).marks }
    {
        let (_, delta) = self.map.pair_mut(at);
        store_in_each(&mut delta.marks, cell, row)
    }

    /// Sets differences that a current content has.
    pub fn set_current(&mut self, at: usize, rows: Vec<(CellId, Option<Row>)>)
        requires there { at < length self.old }
        requires is_stored { HasDifferences (delta_at self.old at).current (cells_in rows.items) }
        ensures { self.new ≡ delta_changed self.old at (λ l. record l { current = put_each l.current rows.items }) }
    {
        let (_, delta) = self.map.pair_mut(at);
        delta.current.set_each(rows);
    }

    /// Sets differences that a base has. The current content becomes the base, and the savepoints go.
    pub fn take_over(&mut self, at: usize, rows: Vec<(CellId, Option<Row>)>)
        requires there { at < length self.old }
        requires is_stored { HasDifferences (delta_at self.old at).base (cells_in rows.items) }
        ensures { self.new ≡ delta_changed self.old at (rows_taken_over rows.items) }
    {
        let alloc = self.allocator();
        let (_, delta) = self.map.pair_mut(at);
        delta.base.set_each(rows);
        delta.current = Differences::new(alloc);
        drop_saved(&mut delta.marks);
    }

    /// Makes the parent's content the base, and gives the current content these differences from
    /// it. The savepoints go.
    pub fn restart(&mut self, at: usize, current: Differences)
        requires { at < length self.old }
        ensures { self.new ≡ delta_changed self.old at (restarted_with current) }
    {
        let alloc = self.allocator();
        let (_, delta) = self.map.pair_mut(at);
        delta.base = Differences::new(alloc);
        delta.current = current;
        drop_saved(&mut delta.marks);
    }

    /// Makes the base the current content. The savepoints go.
    pub fn roll_all(&mut self, at: usize)
        requires { at < length self.old }
        ensures { self.new ≡ delta_changed self.old at (λ l. record l { current = no_differences; marks = filter is_stored_child l.marks }) }
    {
        let alloc = self.allocator();
        let (_, delta) = self.map.pair_mut(at);
        delta.current = Differences::new(alloc);
        drop_saved(&mut delta.marks);
    }

    /// Gives the current content other differences from the base. The marks after a position go.
    pub fn roll_to(&mut self, at: usize, current: Differences, mark: usize)
        requires there { at < length self.old }
        requires marked { mark < length (delta_at self.old at).marks }
        ensures { self.new ≡ delta_changed self.old at (λ l. record l { current = current; marks = take (suc mark) l.marks }) }
    {
        let (_, delta) = self.map.pair_mut(at);
        delta.current = current;
        cut_after(&mut delta.marks, mark);
    }

    /// Takes the difference at a cell out of a base.
    pub fn take_base(&mut self, at: usize, cell: CellId)
        requires { at < length self.old }
        ensures { self.new ≡ delta_changed self.old at (λ l. record l { base = finite.remove l.base cell }) }
    {
        let (_, delta) = self.map.pair_mut(at);
        delta.base.take(cell);
    }

    /// Takes the difference at a cell out of a base, and sets the one that the current content has.
    pub fn move_row(&mut self, at: usize, cell: CellId, row: Option<Row>)
        requires there { at < length self.old }
        requires is_stored { HasDifference (delta_at self.old at).current cell }
        ensures { self.new ≡ delta_changed self.old at (λ l. record l { base = finite.remove l.base cell; current = finite.insert l.current cell row }) }
    {
        let (_, delta) = self.map.pair_mut(at);
        delta.base.take(cell);
        delta.current.set(cell, row);
    }

    /// Returns how many differences the base and the current content of the workspace at a position
    /// have.
    pub fn count_differences(&self, at: usize) -> usize
        requires { at < length self.now }
        ensures { result ≡ stored_in (delta_at self.now at) }
    {
        let delta = &self.map[at];
        delta.base.len() + delta.current.len()
    }

    /// Replaces the differences of a base, and returns the old ones.
    pub fn replace_base(&mut self, at: usize, base: Differences) -> Differences
        requires { at < length self.old }
        ensures before { result ≡ (delta_at self.old at).base }
        ensures new { self.new ≡ delta_changed self.old at (λ l. record l { base = base }) }
    {
        let (_, delta) = self.map.pair_mut(at);
        mem::replace(&mut delta.base, base)
    }

    /// Replaces the differences of a current content, and returns the old ones.
    pub fn replace_current(&mut self, at: usize, current: Differences) -> Differences
        requires { at < length self.old }
        ensures before { result ≡ (delta_at self.old at).current }
        ensures new { self.new ≡ delta_changed self.old at (λ l. record l { current = current }) }
    {
        let (_, delta) = self.map.pair_mut(at);
        mem::replace(&mut delta.current, current)
    }

    /// Replaces the marks of a workspace, and returns the old ones.
    pub fn replace_marks(&mut self, at: usize, marks: Vec<StoredMark>) -> Vec<StoredMark>
        requires { at < length self.old }
        ensures before { result.items ≡ (delta_at self.old at).marks }
        ensures new { self.new ≡ delta_changed self.old at (λ l. record l { marks = marks.items }) }
    {
        let (_, delta) = self.map.pair_mut(at);
        mem::replace(&mut delta.marks, marks)
    }

    /// Puts a mark at the end. If memory runs out, nothing changes.
    pub fn push_mark(&mut self, at: usize, mark: StoredMark) -> Result<(), AllocError>
        requires { at < length self.old }
        ensures ok { OnOk result (self.new ≡ delta_changed self.old at (λ l. record l { marks = l.marks ++ mark ∷ [] })) }
        ensures err { OnErr result (self.new ≡ self.old) }
    {
        let (_, delta) = self.map.pair_mut(at);
        push_mark(&mut delta.marks, mark)
    }

    /// Moves the mark of a child to the end. If memory runs out, nothing changes.
    pub fn move_mark_last(&mut self, at: usize, child: Words) -> Result<(), AllocError>
        requires { at < length self.old }
        ensures ok { OnOk result (self.new ≡ delta_changed self.old at (λ l. record l { marks = stored_without_mark_of child l.marks ++ Child child ∷ [] })) }
        ensures err { OnErr result (self.new ≡ self.old) }
    {
        let (_, delta) = self.map.pair_mut(at);
        move_last(&mut delta.marks, child)
    }

    /// Takes the mark of a child away.
    pub fn drop_mark_of(&mut self, at: usize, child: &str)
        requires { at < length self.old }
        ensures { self.new ≡ delta_changed self.old at (λ l. record l { marks = stored_without_mark_of child.now l.marks }) }
    {
        let (_, delta) = self.map.pair_mut(at);
        drop_mark_of(&mut delta.marks, child);
    }

    /// Takes the mark at a position away.
    pub fn drop_mark(&mut self, at: usize, mark: usize)
        requires there { at < length self.old }
        requires marked { mark < length (delta_at self.old at).marks }
        ensures { self.new ≡ delta_changed self.old at (λ l. record l { marks = remove l.marks mark }) }
    {
        let (_, delta) = self.map.pair_mut(at);
        drop_mark(&mut delta.marks, mark);
    }

    /// Sets whether every rule is to hold in the workspace at a position.
    pub fn set_kept(&mut self, at: usize, kept: bool)
        requires { at < length self.old }
        ensures { self.new ≡ delta_changed self.old at (λ l. record l { kept = kept }) }
    {
        let (_, delta) = self.map.pair_mut(at);
        delta.kept = kept;
    }
}
