//! The needs of two new versions. Parts of new rows are filed by their spots, one after another, and
//! each is held against those that were filed before it and share a spot with it. Where a need of
//! two of them breaks and only the least such need is sought, those behind it are left out.

ghost use Rattle.std.specs.Prelude.{◌≡◌, ◌<◌, ◌+◌, ◌-◌, ◌&&◌, ◌==◌, length, slice_get, IfSome, MatchOption, None, Some, OnOk};
ghost use Rattle.clr_row_versions.specs.Candidates.{IsNeedAmong, IsNeedOfPair};
ghost use Rattle.clr_row_versions.specs.Gains.{Gains, OfSome, Reaches};
ghost use Rattle.clr_new_pairs.specs.NewPairs.{AreFiledBefore, IsNeedAtPosition, IsNeedOfFiledPart, IsNeedOfParts, IsNeedOfTwo};
ghost use Rattle.clr_new_pairs.specs.NewPairs.{HasBreakAt, IsNeedWithBefore, IsNeedWithPart, Passes, UpTo, is_past, with_part};
ghost use Rattle.clr_row_versions.specs.RootVersions.{setting_in};
ghost use Rattle.clr_needs.specs.Needs.{is_fresh};
ghost use Rattle.clr_row_versions.specs.Versions.{AreAt, FitsSetting, IsAt, row_of};

use crate::unserved::is_unserved_by_number;
use clr_needs::Need;
use clr_row_versions::{RootVersions, Version, are_opposed, may_be_paired};
use clr_rows::{CellId, RowView};
use clr_rules::Ask;
use clr_spots::{FiledPart, SpotMap, subject_spots};
use std::alloc::{AllocError, Global};
use std::cmp::Ordering;

/// Returns the version at a position, if there is one.
fn version_at<'a>(versions: &[Version<'a>], position: usize) -> Option<Version<'a>>
    ensures { MatchOption result (slice_get versions.now position ≡ None) (λ v. slice_get versions.now position ≡ Some v) }
{
    versions.get(position).copied()
}

/// Returns the last of some needs, if there is one.
fn last_need(needs: &[Need]) -> Option<Need>
    ensures { IfSome result (λ n. slice_get needs.now (length needs.now - 1) ≡ Some n) }
{
    needs.last().copied()
}

/// Returns whether a need is that of two new versions under a rule.
fn is_of_two_new(rule: u16, need: &Need) -> bool
    ensures { result ≡ (is_fresh need.now.second && (need.now.first.fresh && (need.now.rule == rule))) }
{
    match need.second {
        None => false,
        Some(second) => second.fresh && (need.first.fresh && need.rule == rule),
    }
}

/// Returns whether two cells stand behind the last cell that counts, if there is a last one.
fn are_past(last: Option<CellId>, one: CellId, other: CellId) -> bool
    ensures { result ≡ (is_past last one && is_past last other) }
{
    match last {
        None => false,
        Some(last) => one.cmp(&last).is_gt() && other.cmp(&last).is_gt(),
    }
}

/// A root's rows and what members change there, to look for needs of two new rows.
#[derive(Drop)]
pub struct NewPairs<'s, 'a, V> {
    pub alloc: Global,
    pub versions: RootVersions<'s, 'a, V>,
}

impl<V: RowView> NewPairs<'_, '_, V> {
    /// Adds the need of a part of a version and a part of another one, in the order of their cells.
    fn add_of_parts(
        &self,
        rule: u16,
        one: Version,
        part: u16,
        other: Version,
        other_part: u16,
        needs: &mut Vec<Need>,
    ) -> Result<(), AllocError>
        requires number { rule < length self.now.versions.book.now }
        requires fit { FitsSetting (setting_in V.content self.now.versions) }
        requires one { IsAt (setting_in V.content self.now.versions) one }
        requires other { IsAt (setting_in V.content self.now.versions) other }
        ensures { OnOk result (Gains (IsNeedOfPair self.now.versions.book.now rule None one.entry other.entry)
            (IsNeedOfParts self.now.versions.book.now rule one.entry part other.entry other_part) needs.old.items needs.new.items) }
    {
        if are_opposed(one.life, other.life) {
            return Ok(());
        }
        match one.id.cell.cmp(&other.id.cell) {
            Ordering::Less => {
                let ask = Ask {
                    rule,
                    first_part: part,
                    second_part: other_part,
                };
                self.versions.add_of_ask(ask, None, one, other, needs)?
            }
            Ordering::Equal => {}
            Ordering::Greater => {
                let ask = Ask {
                    rule,
                    first_part: other_part,
                    second_part: part,
                };
                self.versions.add_of_ask(ask, None, other, one, needs)?
            }
        }
        Ok(())
    }

    /// Adds the need of a part of a version and a filed part, unless its first subject is past the last
    /// cell that counts.
    fn add_of_filed_part(
        &self,
        rule: u16,
        fresh: &[Version],
        one: Version,
        part: u16,
        last: Option<CellId>,
        filed_part: FiledPart,
        needs: &mut Vec<Need>,
    ) -> Result<(), AllocError>
        requires number { rule < length self.now.versions.book.now }
        requires fit { FitsSetting (setting_in V.content self.now.versions) }
        requires fresh { AreAt (setting_in V.content self.now.versions) fresh.now }
        requires one { IsAt (setting_in V.content self.now.versions) one }
        ensures { OnOk result (Gains (IsNeedAmong self.now.versions.book.now rule None one.entry fresh.now)
            (UpTo last (IsNeedOfFiledPart self.now.versions.book.now rule fresh.now one.entry part filed_part)) needs.old.items needs.new.items) }
    {
        match version_at(fresh, filed_part.position) {
            None => Ok(()),
            Some(other) => {
                if are_past(last, one.id.cell, other.id.cell) {
                    return Ok(());
                }
                self.add_of_parts(rule, one, part, other, filed_part.part, needs)?;
                Ok(())
            }
        }
    }

    /// Adds the needs of a part of a version and some filed parts.
    fn add_of_filed_parts(
        &self,
        rule: u16,
        fresh: &[Version],
        one: Version,
        part: u16,
        last: Option<CellId>,
        filed_parts: &[FiledPart],
        needs: &mut Vec<Need>,
    ) -> Result<(), AllocError>
        requires number { rule < length self.now.versions.book.now }
        requires fit { FitsSetting (setting_in V.content self.now.versions) }
        requires fresh { AreAt (setting_in V.content self.now.versions) fresh.now }
        requires one { IsAt (setting_in V.content self.now.versions) one }
        ensures { OnOk result (Gains (IsNeedAmong self.now.versions.book.now rule None one.entry fresh.now)
            (OfSome (λ e. UpTo last (IsNeedOfFiledPart self.now.versions.book.now rule fresh.now one.entry part e)) filed_parts.now)
            needs.old.items needs.new.items) }
    {
        for filed in filed_parts {
            self.add_of_filed_part(rule, fresh, one, part, last, *filed, needs)?;
        }
        Ok(())
    }

    /// Adds the needs of a part of the version at a position and of versions before it, and files the
    /// part.
    fn add_of_part_at(
        &self,
        rule: u16,
        fresh: &[Version],
        position: usize,
        one: Version,
        part: u16,
        last: Option<CellId>,
        filed: &mut SpotMap,
        needs: &mut Vec<Need>,
    ) -> Result<(), AllocError>
        requires number { rule < length self.now.versions.book.now }
        requires fit { FitsSetting (setting_in V.content self.now.versions) }
        requires fresh { AreAt (setting_in V.content self.now.versions) fresh.now }
        requires one { IsAt (setting_in V.content self.now.versions) one }
        requires before { AreFiledBefore self.now.versions.book.now rule fresh.now position filed.old }
        ensures filed { OnOk result (filed.new ≡ with_part self.now.versions.book.now rule filed.old position part (row_of one.entry)) }
        ensures needs { OnOk result (Gains (IsNeedAmong self.now.versions.book.now rule None one.entry fresh.now)
            (UpTo last (IsNeedWithPart self.now.versions.book.now rule fresh.now position one.entry part)) needs.old.items needs.new.items) }
    {
        let spots = subject_spots(self.alloc, self.versions.book, rule, part, one.as_held())?;
        let mut beside = Vec::new(self.alloc);
        filed.add_near(&spots, &mut beside)?;
        self.add_of_filed_parts(rule, fresh, one, part, last, beside.as_slice(), needs)?;
        filed.file(self.alloc, FiledPart { position, part }, spots)?;
        Ok(())
    }

    /// Adds the needs of the version at a position and of versions before it, and files its parts.
    #[tactic(auto, using(crate::proofs::NewPairLaws::all_parts))]
    fn add_of_new(
        &self,
        rule: u16,
        fresh: &[Version],
        position: usize,
        one: Version,
        last: Option<CellId>,
        filed: &mut SpotMap,
        needs: &mut Vec<Need>,
    ) -> Result<(), AllocError>
        requires number { rule < length self.now.versions.book.now }
        requires fit { FitsSetting (setting_in V.content self.now.versions) }
        requires fresh { AreAt (setting_in V.content self.now.versions) fresh.now }
        requires one { IsAt (setting_in V.content self.now.versions) one }
        requires at { slice_get fresh.now position ≡ Some one }
        requires before { AreFiledBefore self.now.versions.book.now rule fresh.now position filed.old }
        ensures filed { OnOk result (AreFiledBefore self.now.versions.book.now rule fresh.now (position + 1) filed.new) }
        ensures needs { OnOk result (Gains (IsNeedAmong self.now.versions.book.now rule None one.entry fresh.now)
            (UpTo last (IsNeedWithBefore self.now.versions.book.now rule fresh.now position one.entry)) needs.old.items needs.new.items) }
    {
        if !may_be_paired(self.versions.book, rule, one) {
            return Ok(());
        }
        for part in 0..self.versions.book.part_count(rule, one.as_held()) {
            self.add_of_part_at(rule, fresh, position, one, part + 1, last, filed, needs)?;
        }
        Ok(())
    }

    /// Adds the needs of the version at a position, if there is one, and of versions before it, and
    /// files its parts.
    fn add_of_new_at(
        &self,
        rule: u16,
        fresh: &[Version],
        position: usize,
        last: Option<CellId>,
        filed: &mut SpotMap,
        needs: &mut Vec<Need>,
    ) -> Result<(), AllocError>
        requires number { rule < length self.now.versions.book.now }
        requires fit { FitsSetting (setting_in V.content self.now.versions) }
        requires fresh { AreAt (setting_in V.content self.now.versions) fresh.now }
        requires before { AreFiledBefore self.now.versions.book.now rule fresh.now position filed.old }
        ensures filed { OnOk result (AreFiledBefore self.now.versions.book.now rule fresh.now (position + 1) filed.new) }
        ensures needs { OnOk result (Gains (IsNeedOfTwo self.now.versions.book.now rule fresh.now)
            (UpTo last (IsNeedAtPosition self.now.versions.book.now rule fresh.now position)) needs.old.items needs.new.items) }
    {
        match version_at(fresh, position) {
            None => Ok(()),
            Some(one) => {
                self.add_of_new(rule, fresh, position, one, last, filed, needs)?;
                Ok(())
            }
        }
    }

    /// Returns the cell of the first subject of the last of some needs, where needs behind it may be left
    /// out: it is of this rule, under which no row serves, and of two new versions.
    fn last_that_counts(&self, rule: u16, leaves_out: bool, needs: &[Need]) -> Option<CellId>
        requires number { rule < length self.now.versions.book.now }
        ensures { IfSome result (HasBreakAt self.now.versions.book.now leaves_out rule needs.now) }
    {
        if !leaves_out {
            return None;
        }
        if !is_unserved_by_number(self.versions.book, rule) {
            return None;
        }
        let need = last_need(needs)?;
        if is_of_two_new(rule, &need) {
            return Some(need.first.cell);
        }
        None
    }

    /// Adds the needs of two of some versions. If it is leaves_out, it may leave needs out that stand
    /// behind one of two new versions in the list, under a rule by which no row serves. It fails for
    /// want of memory alone.
    pub fn add_of_new_pairs(
        &self,
        rule: u16,
        leaves_out: bool,
        fresh: &[Version],
        needs: &mut Vec<Need>,
    ) -> Result<(), AllocError>
        requires number { rule < length self.now.versions.book.now }
        requires fit { FitsSetting (setting_in V.content self.now.versions) }
        requires fresh { AreAt (setting_in V.content self.now.versions) fresh.now }
        ensures { OnOk result (Reaches (Passes self.now.versions.book.now leaves_out) (IsNeedOfTwo self.now.versions.book.now rule fresh.now)
            (IsNeedOfTwo self.now.versions.book.now rule fresh.now) needs.old.items needs.new.items) }
    {
        let mut filed = SpotMap::new(self.alloc);
        for position in 0..fresh.len() {
            let last = self.last_that_counts(rule, leaves_out, needs.as_slice());
            self.add_of_new_at(rule, fresh, position, last, &mut filed, needs)?;
        }
        Ok(())
    }
}
