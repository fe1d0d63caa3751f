//! Workspaces with whole contents, in which each operation is as it is defined.

use clr_tree::Keep;
use clr_tree_test_kit::TreeOperation;
use std::alloc::{AllocError, Global};

/// Keys are below this number.
pub(crate) const KEYS: usize = 8;

/// At each key the number of its row, or 0 where there is none.
pub(crate) type Content = [i64; KEYS];

/// Returns where a key stands in a content.
pub(crate) fn place_of(key: i64) -> usize {
    usize::try_from(key).unwrap_or(KEYS)
}

/// Returns how many keys two contents differ at.
pub(crate) fn count_differences(one: &Content, other: &Content) -> usize {
    one.iter()
        .zip(other.iter())
        .filter(|(number, beside)| number != beside)
        .count()
}

/// Returns a content with what changed between two others put over it.
pub(crate) fn put_over(content: Content, before: &Content, after: &Content) -> Content {
    let mut over = content;
    for key in 0..KEYS {
        if before[key] != after[key] {
            over[key] = after[key];
        }
    }
    over
}

/// Returns each key of a content with its number, after a space.
pub(crate) fn content_text(alloc: Global, content: &Content) -> Result<String, AllocError> {
    let mut text = String::new(alloc);
    for (key, number) in content.iter().enumerate() {
        if *number != 0 {
            text.push_str(format!(in alloc; " {key}={number}")?.as_str())?;
        }
    }
    Ok(text)
}

#[derive(Clone, Copy)]
pub(crate) enum Mark {
    Saved(&'static str, Content),
    Child(&'static str),
}

impl Mark {
    fn is_savepoint(&self, name: &str) -> bool {
        match self {
            Mark::Saved(saved, _) => *saved == name,
            Mark::Child(_) => false,
        }
    }

    fn is_child(&self) -> bool {
        matches!(self, Mark::Child(_))
    }

    fn is_of(&self, name: &str) -> bool {
        match self {
            Mark::Saved(..) => false,
            Mark::Child(child) => *child == name,
        }
    }

    fn text(&self, alloc: Global) -> Result<String, AllocError> {
        match self {
            Mark::Saved(name, content) => {
                let rows = content_text(alloc, content)?;
                format!(in alloc; " saved {name}{rows}")
            }
            Mark::Child(child) => format!(in alloc; " child {child}"),
        }
    }
}

/// A workspace with whole contents. LIVE has no parent, base or marks.
#[derive(Drop)]
pub(crate) struct Space {
    pub(crate) name: &'static str,
    pub(crate) parent: &'static str,
    pub(crate) base: Content,
    pub(crate) current: Content,
    pub(crate) marks: Vec<Mark>,
    pub(crate) kept: bool,
}

impl Space {
    fn find_savepoint(&self, name: &str) -> Option<usize> {
        self.marks.iter().position(|mark| mark.is_savepoint(name))
    }

    /// Puts a savepoint at the end, unless there is one of the name.
    fn save(&mut self, name: &'static str) -> Result<(), AllocError> {
        if self.find_savepoint(name).is_none() {
            self.marks.push(Mark::Saved(name, self.current))?;
        }
        Ok(())
    }

    fn drop_savepoint(&mut self, name: &str) {
        self.marks.retain(|mark| !mark.is_savepoint(name));
    }

    fn drop_savepoints(&mut self) {
        self.marks.retain(|mark| mark.is_child());
    }

    pub(crate) fn drop_mark_of(&mut self, child: &str) {
        self.marks.retain(|mark| !mark.is_of(child));
    }

    /// Goes back to a savepoint, unless the mark of a child stands after it.
    fn roll_to(&mut self, name: &str) {
        let Some(at) = self.find_savepoint(name) else {
            return;
        };
        if self.marks.iter().skip(at).any(|mark| mark.is_child()) {
            return;
        }
        if let Some(Mark::Saved(_, content)) = self.marks.get(at) {
            self.current = *content;
        }
        self.marks.truncate(at.saturating_add(1));
    }

    fn roll_all(&mut self) {
        self.current = self.base;
        self.drop_savepoints();
    }

    /// Makes the base the parent's content, with the own changes over it.
    fn refresh(&mut self, above: &Content) {
        self.current = put_over(*above, &self.base, &self.current);
        self.base = *above;
        self.drop_savepoints();
    }

    /// Returns the base takes the own changes over; the base and the current content are answered as they
    /// were.
    pub(crate) fn take_over(&mut self) -> (Content, Content) {
        let (base, current) = (self.base, self.current);
        self.base = put_over(base, &base, &current);
        self.drop_savepoints();
        (base, current)
    }

    /// Has the base take over the parent's row at a key.
    fn resolve(&mut self, key: usize, keep: Keep, above: &Content) {
        let (Some(base), Some(current), Some(row)) = (
            self.base.get_mut(key),
            self.current.get_mut(key),
            above.get(key),
        ) else {
            return;
        };
        match keep {
            Keep::Parent => *current = *row,
            Keep::Child => {}
            Keep::Base => *current = *base,
        }
        *base = *row;
    }

    /// Does what concerns this workspace alone, under a parent with this content.
    pub(crate) fn act(
        &mut self,
        operation: TreeOperation<'static>,
        above: &Content,
    ) -> Result<(), AllocError> {
        match operation {
            TreeOperation::Mark(name) => self.save(name)?,
            TreeOperation::Unmark(name) => self.drop_savepoint(name),
            TreeOperation::RollTo(name) => self.roll_to(name),
            TreeOperation::RollAll => self.roll_all(),
            TreeOperation::Refresh | TreeOperation::RefreshChanges => self.refresh(above),
            TreeOperation::Resolve(key, keep) => self.resolve(place_of(key), keep, above),
            TreeOperation::Hold => self.kept = true,
            TreeOperation::Release => self.kept = false,
            _ => {}
        }
        Ok(())
    }

    pub(crate) fn text(&self, alloc: Global) -> Result<String, AllocError> {
        let base = content_text(alloc, &self.base)?;
        let current = content_text(alloc, &self.current)?;
        let mut marks = String::new(alloc);
        for mark in &self.marks {
            marks.push_str(mark.text(alloc)?.as_str())?;
        }
        let kept = if self.kept { " kept" } else { "" };
        let (name, parent) = (self.name, self.parent);
        format!(in alloc; "{name} under {parent} base{base} now{current}{marks}{kept}\n")
    }
}
