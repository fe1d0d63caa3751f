//! Trees whose workspaces are whole copies, beside which trees are tested.

use crate::plain_spaces::{
    Content, KEYS, Mark, Space, content_text, count_differences, place_of, put_over,
};
use clr_tree_test_kit::TreeOperation;
use std::alloc::{AllocError, Global};

/// The most levels under LIVE.
const LEVELS: usize = 8;

/// Workspaces in order of creation, LIVE first, each with whole copies of its contents.
#[derive(Drop)]
pub(crate) struct PlainTree {
    alloc: Global,
    spaces: Vec<Space>,
}

impl PlainTree {
    /// Returns LIVE alone, with this content.
    pub(crate) fn new(alloc: Global, live: Content) -> Result<PlainTree, AllocError> {
        let mut tree = PlainTree {
            alloc,
            spaces: Vec::new(alloc),
        };
        tree.push("LIVE", "", live)?;
        Ok(tree)
    }

    fn push(
        &mut self,
        name: &'static str,
        parent: &'static str,
        content: Content,
    ) -> Result<(), AllocError> {
        self.spaces.push(Space {
            name,
            parent,
            base: content,
            current: content,
            marks: Vec::new(self.alloc),
            kept: false,
        })?;
        Ok(())
    }

    fn find(&self, name: &str) -> Option<usize> {
        self.spaces.iter().position(|space| space.name == name)
    }

    fn find_parent(&self, at: usize) -> Option<usize> {
        let space = self.spaces.get(at)?;
        self.find(space.parent)
    }

    fn has_child(&self, name: &str) -> bool {
        self.spaces.iter().any(|space| space.parent == name)
    }

    /// Returns how many levels a position is under LIVE.
    fn depth(&self, at: usize) -> usize {
        let mut at = at;
        for depth in 0..LEVELS {
            match self.find_parent(at) {
                Some(above) => at = above,
                None => return depth,
            }
        }
        LEVELS
    }

    fn current(&self, at: usize) -> Content {
        match self.spaces.get(at) {
            Some(space) => space.current,
            None => [0; KEYS],
        }
    }

    fn create(&mut self, name: &'static str, parent: &'static str) -> Result<(), AllocError> {
        let Some(above) = self.find(parent) else {
            return Ok(());
        };
        if self.find(name).is_some() || self.depth(above) >= LEVELS {
            return Ok(());
        }
        self.push(name, parent, self.current(above))?;
        self.push_mark(above, name)
    }

    /// Puts the mark of a child at the end, unless the parent is LIVE.
    fn push_mark(&mut self, above: usize, child: &'static str) -> Result<(), AllocError> {
        if above > 0 {
            if let Some(parent) = self.spaces.get_mut(above) {
                parent.marks.push(Mark::Child(child))?;
            }
        }
        Ok(())
    }

    /// Does something to the workspace of a name, if it can be done.
    pub(crate) fn act(
        &mut self,
        name: &'static str,
        operation: TreeOperation<'static>,
    ) -> Result<(), AllocError> {
        if let TreeOperation::Create(parent) = operation {
            return self.create(name, parent);
        }
        let Some(at) = self.find(name) else {
            return Ok(());
        };
        match operation {
            TreeOperation::Put(key, number) => self.put(at, key, number),
            TreeOperation::Delete(key) => self.put(at, key, 0),
            TreeOperation::Remove | TreeOperation::RollAll if self.has_child(name) => {}
            _ => self.act_under_parent(name, at, operation)?,
        }
        Ok(())
    }

    fn put(&mut self, at: usize, key: i64, number: i64) {
        if let Some(space) = self.spaces.get_mut(at) {
            if let Some(place) = space.current.get_mut(place_of(key)) {
                *place = number;
            }
        }
    }

    /// Removes a workspace, and its mark.
    fn remove(&mut self, above: usize, name: &str) {
        self.spaces.retain(|space| space.name != name);
        self.drop_mark(above, name);
    }

    fn drop_mark(&mut self, above: usize, child: &str) {
        if let Some(parent) = self.spaces.get_mut(above) {
            parent.drop_mark_of(child);
        }
    }

    /// Has the parent take over what changed between two contents.
    fn take_over(&mut self, above: usize, base: &Content, current: &Content) {
        if let Some(parent) = self.spaces.get_mut(above) {
            parent.current = put_over(parent.current, base, current);
        }
    }

    fn merge(&mut self, above: usize, at: usize) {
        let (base, current) = match self.spaces.get_mut(at) {
            Some(space) => space.take_over(),
            None => return,
        };
        self.take_over(above, &base, &current);
    }

    fn act_under_parent(
        &mut self,
        name: &'static str,
        at: usize,
        operation: TreeOperation<'static>,
    ) -> Result<(), AllocError> {
        let Some(above) = self.find_parent(at) else {
            return Ok(());
        };
        match operation {
            TreeOperation::Remove => self.remove(above, name),
            TreeOperation::Merge | TreeOperation::MergeChanges => self.merge(above, at),
            TreeOperation::Refresh | TreeOperation::RefreshChanges => {
                self.drop_mark(above, name);
                self.push_mark(above, name)?;
                self.act_over(above, at, operation)?;
            }
            _ => self.act_over(above, at, operation)?,
        }
        Ok(())
    }

    /// Does something to a workspace alone, under its parent.
    fn act_over(
        &mut self,
        above: usize,
        at: usize,
        operation: TreeOperation<'static>,
    ) -> Result<(), AllocError> {
        let content = self.current(above);
        match self.spaces.get_mut(at) {
            Some(space) => space.act(operation, &content),
            None => Ok(()),
        }
    }

    /// Returns at how many keys the base isn't as the parent, and the current content isn't as the base.
    fn count_needed(&self, at: usize) -> usize {
        let Some(above) = self.find_parent(at) else {
            return 0;
        };
        let content = self.current(above);
        match self.spaces.get(at) {
            Some(space) => {
                let behind = count_differences(&content, &space.base);
                behind.saturating_add(count_differences(&space.base, &space.current))
            }
            None => 0,
        }
    }

    /// Returns a line for each workspace.
    pub(crate) fn text(&self) -> Result<String, AllocError> {
        let alloc = self.alloc;
        let live = content_text(alloc, &self.current(0))?;
        let mut text = format!(in alloc; "LIVE now{live}\n")?;
        for space in self.spaces.iter().skip(1) {
            text.push_str(space.text(alloc)?.as_str())?;
        }
        Ok(text)
    }

    /// Returns how many differences each workspace under LIVE needs.
    pub(crate) fn counts_text(&self) -> Result<String, AllocError> {
        let mut text = String::from_str(self.alloc, "stored")?;
        for at in 1..self.spaces.len() {
            text.push_str(format!(in self.alloc; " {}", self.count_needed(at))?.as_str())?;
        }
        Ok(text)
    }
}
