//! The designs that a plan is about, and what each changes.

ghost use Rattle.std.specs.Prelude.{◌≡◌, ◌++◌, length, map, IfOk, OnOk};
ghost use Rattle.std.specs.Option.{option_copied};
ghost use Rattle.std.specs.Prelude.{slice_get};
ghost use Rattle.clr_drawing.specs.Palette.{colours_of};
ghost use Rattle.clr_member_changes.specs.Names.{member_name};
ghost use Rattle.clr_map_scenes.specs.Designs.{change_of, changer_of, counts_at, follower, index_of_design, is_among, leaders_of, order_of};
ghost use Rattle.clr_map_scenes.specs.Designs.{rank_of, sets_of};

use clr_change::ChangeSet;
use clr_drawing::{DesignColours, design_colours};
use clr_member_changes::{Counts, MemberChanges, count_rows};
use clr_rows::{CellId, Change};
use std::alloc::{AllocError, Global};

/// The designs by position, with what each changes, and the order in which they are told: those that a cause names first.
#[derive(Drop)]
pub struct Designs<'a> {
    pub members: &'a MemberChanges<'a>,
    order: Vec<usize>,
    leading: usize,
}

/// Returns whether a position is among others.
fn is_among(positions: &[usize], at: usize) -> bool
    ensures { result ≡ is_among positions.now at }
{
    positions.contains(&at)
}

/// Returns which of some positions one is, if it is one of them.
#[tactic(auto, unfolding(crate::specs::Designs::index_of_design))]
fn index_of_design(order: &[usize], at: usize) -> Option<usize>
    ensures { result ≡ index_of_design order.now at }
{
    order.iter().position(|other| *other == at)
}

/// Returns which of some positions one is, or the position itself where it is none of them.
fn rank_of(order: &[usize], at: usize) -> usize
    ensures { result ≡ rank_of order.now at }
{
    index_of_design(order, at).unwrap_or(at)
}

/// Adds a position that doesn't lead.
fn add_follower(order: &mut Vec<usize>, leaders: &[usize], at: usize) -> Result<(), AllocError>
    ensures { OnOk result (order.new.items ≡ order.old.items ++ follower leaders.now at) }
{
    if !is_among(leaders, at) {
        order.push(at)?;
    }
    Ok(())
}

/// Returns the positions of designs, those that lead first.
fn order_of(alloc: Global, count: usize, leaders: &[usize]) -> Result<Vec<usize>, AllocError>
    ensures { IfOk result (λ order. order.items ≡ order_of count leaders.now) }
{
    let mut order = Vec::from_slice(alloc, leaders)?;
    for at in 0..count {
        add_follower(&mut order, leaders, at)?;
    }
    Ok(order)
}

impl<'a> Designs<'a> {
    /// Returns designs with what each changes; the leaders are the positions of those that a cause names.
    pub fn new(
        alloc: Global,
        members: &'a MemberChanges<'a>,
        leaders: &[usize],
    ) -> Result<Designs<'a>, AllocError>
        ensures members { IfOk result (λ designs. designs.members.now ≡ members.entry.now) }
        ensures order { IfOk result (λ designs. designs.order.items ≡ order_of (length members.entry.now.names.now) leaders.now) }
        ensures leaders { IfOk result (λ designs. leaders_of designs ≡ leaders.now) }
    {
        Ok(Designs {
            members,
            order: order_of(alloc, members.names.len(), leaders)?,
            leading: leaders.len(),
        })
    }

    /// Returns how many designs there are.
    pub fn len(&self) -> usize
        ensures { result ≡ length self.now.members.now.names.now }
    {
        self.members.names.len()
    }

    /// Returns the name of the design at a position, or an empty one past the end.
    pub fn name(&self, at: usize) -> &str
        ensures { result.now ≡ member_name (map (λ name. name.now) self.now.members.now.names.now) at }
    {
        self.members.name(at)
    }

    /// Returns what the design at a position changes, or none past the end.
    pub fn changes(&self, at: usize) -> Option<&ChangeSet>
        ensures { option_copied result ≡ slice_get (sets_of self.now) at }
    {
        self.members.changes.get(at)
    }

    /// Returns the positions of the designs in the order in which they are told.
    pub fn order(&self) -> &[usize]
        ensures { result.now ≡ self.now.order.items }
    {
        self.order.as_slice()
    }

    /// Returns the positions of the designs that a cause names.
    pub fn leaders(&self) -> &[usize]
        ensures { result.now ≡ leaders_of self.now }
    {
        let end = self.leading.min(self.order.len());
        &self.order[..end]
    }

    /// Returns whether a cause names the design at a position.
    pub fn leads(&self, at: usize) -> bool
        ensures { result ≡ is_among (leaders_of self.now) at }
    {
        self.leaders().contains(&at)
    }

    /// Returns the colours of the design at a position: those that are told first take the first colours.
    pub fn colours(&self, at: usize) -> DesignColours
        ensures { result ≡ colours_of (rank_of self.now.order.items at) }
    {
        design_colours(rank_of(self.order.as_slice(), at))
    }

    /// Returns what the design at a position changes at a cell, or none where it changes nothing there.
    pub fn change(&self, at: usize, cell: CellId) -> Option<&Change>
        ensures { option_copied result ≡ change_of (sets_of self.now) at cell }
    {
        self.members.changes.get(at)?.get(cell)
    }

    /// Returns the first design that changes a cell, or none.
    pub fn changer(&self, cell: CellId) -> Option<usize>
        ensures { result ≡ changer_of (sets_of self.now) cell }
    {
        self.members.changer_of(cell)
    }

    /// Returns how many rows the design at a position adds, changes and removes.
    pub fn counts(&self, at: usize) -> Counts
        ensures { result ≡ counts_at (sets_of self.now) at }
    {
        match self.members.changes.get(at) {
            Some(set) => count_rows(set),
            None => Counts {
                added: 0,
                changed: 0,
                removed: 0,
            },
        }
    }
}
