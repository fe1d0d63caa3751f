//! Versions that are held against one another: each need that a rule asks of them is added to a
//! list.

ghost use Rattle.std.specs.Prelude.{◌≡◌, ◌<◌, length, None, Some, OnErr, OnOk};
ghost use Rattle.clr_row_versions.specs.Candidates.{IsNeedAmong, IsNeedOf, IsNeedOfAsk, IsNeedOfPair, IsNeedOfPart, IsServerAmong, serves_if_any};
ghost use Rattle.clr_row_versions.specs.Gains.{Gains, GainsSome};
ghost use Rattle.clr_row_versions.specs.RootVersions.{setting_in};
ghost use Rattle.clr_row_versions.specs.Versions.{AreAt, FitsSetting, IsAt, IsAtIfAny};

use crate::asks::is_asked_of_two;
use crate::lives::are_opposed;
use crate::root_versions::RootVersions;
use crate::versions::{Version, held_if_any};
use clr_needs::{Need, VersionId};
use clr_rows::RowView;
use clr_rules::Ask;
use std::alloc::AllocError;
use std::cmp::Ordering;

impl<V: RowView> RootVersions<'_, '_, V> {
    /// Tests whether the server, if one is given, serves what is asked of the subjects.
    pub fn serves_if_any(
        &self,
        ask: Ask,
        first: Version,
        second: Option<Version>,
        server: Option<Version>,
    ) -> bool
        requires number { ask.rule < length self.now.book.now }
        requires fit { FitsSetting (setting_in V.content self.now) }
        requires first { IsAt (setting_in V.content self.now) first }
        requires second { IsAtIfAny (setting_in V.content self.now) second }
        requires server { IsAtIfAny (setting_in V.content self.now) server }
        ensures { result ≡ serves_if_any self.now.book.now ask first.entry second.entry server.entry }
    {
        match server {
            None => true,
            Some(server) => {
                self.book.serves(ask, first.as_held(), held_if_any(second), server.as_held())
            }
        }
    }

    /// Adds the need of a version alone, where the rule asks it and the server, if one is given,
    /// serves it. If memory runs out, nothing changes.
    pub fn add_alone(
        &self,
        rule: u16,
        server: Option<Version>,
        first: Version,
        needs: &mut Vec<Need>,
    ) -> Result<(), AllocError>
        requires number { rule < length self.now.book.now }
        requires fit { FitsSetting (setting_in V.content self.now) }
        requires server { IsAtIfAny (setting_in V.content self.now) server }
        requires first { IsAt (setting_in V.content self.now) first }
        ensures ok { OnOk result (Gains (IsNeedOf self.now.book.now rule server.entry first.entry None)
            (IsNeedOf self.now.book.now rule server.entry first.entry None)
            needs.old.items needs.new.items) }
        ensures err { OnErr result (needs.new.items ≡ needs.old.items) }
    {
        let ask = Ask::plain(rule);
        if self.serves_if_any(ask, first, None, server)
            && self.book.calls_one(rule, first.as_held())
        {
            needs.push(Need::new(ask, first.id, None))?;
        }
        Ok(())
    }

    /// Adds the need of two versions in these parts, where the rule asks it and the server, if one is given, serves it. If
    /// memory runs out, nothing changes.
    pub fn add_of_ask(
        &self,
        ask: Ask,
        server: Option<Version>,
        first: Version,
        second: Version,
        needs: &mut Vec<Need>,
    ) -> Result<(), AllocError>
        requires number { ask.rule < length self.now.book.now }
        requires fit { FitsSetting (setting_in V.content self.now) }
        requires server { IsAtIfAny (setting_in V.content self.now) server }
        requires first { IsAt (setting_in V.content self.now) first }
        requires second { IsAt (setting_in V.content self.now) second }
        ensures ok { OnOk result (Gains (IsNeedOf self.now.book.now ask.rule server.entry first.entry (Some second.entry))
            (IsNeedOfAsk self.now.book.now ask server.entry first.entry second.entry) needs.old.items needs.new.items) }
        ensures err { OnErr result (needs.new.items ≡ needs.old.items) }
    {
        if self.serves_if_any(ask, first, Some(second), server)
            && self.book.calls_two(ask, first.as_held(), second.as_held())
        {
            needs.push(Need::new(ask, first.id, Some(second.id)))?;
        }
        Ok(())
    }

    /// Adds the needs of a part of a version with each part of another one.
    fn add_of_part(
        &self,
        rule: u16,
        part: u16,
        server: Option<Version>,
        first: Version,
        second: Version,
        needs: &mut Vec<Need>,
    ) -> Result<(), AllocError>
        requires number { rule < length self.now.book.now }
        requires fit { FitsSetting (setting_in V.content self.now) }
        requires server { IsAtIfAny (setting_in V.content self.now) server }
        requires first { IsAt (setting_in V.content self.now) first }
        requires second { IsAt (setting_in V.content self.now) second }
        ensures ok { OnOk result (Gains (IsNeedOf self.now.book.now rule server.entry first.entry (Some second.entry))
            (IsNeedOfPart self.now.book.now rule server.entry first.entry second.entry part) needs.old.items needs.new.items) }
        ensures err { OnErr result (GainsSome (IsNeedOf self.now.book.now rule server.entry first.entry (Some second.entry))
            needs.old.items needs.new.items) }
    {
        for other in 0..self.book.part_count(rule, second.as_held()) {
            let ask = Ask {
                rule,
                first_part: part,
                second_part: other + 1,
            };
            self.add_of_ask(ask, server, first, second, needs)?;
        }
        Ok(())
    }

    /// Adds the needs of two versions in this order.
    fn add_of_two(
        &self,
        rule: u16,
        server: Option<Version>,
        first: Version,
        second: Version,
        needs: &mut Vec<Need>,
    ) -> Result<(), AllocError>
        requires number { rule < length self.now.book.now }
        requires fit { FitsSetting (setting_in V.content self.now) }
        requires server { IsAtIfAny (setting_in V.content self.now) server }
        requires first { IsAt (setting_in V.content self.now) first }
        requires second { IsAt (setting_in V.content self.now) second }
        ensures ok { OnOk result (Gains (IsNeedOf self.now.book.now rule server.entry first.entry (Some second.entry))
            (IsNeedOf self.now.book.now rule server.entry first.entry (Some second.entry)) needs.old.items needs.new.items) }
        ensures err { OnErr result (GainsSome (IsNeedOf self.now.book.now rule server.entry first.entry (Some second.entry))
            needs.old.items needs.new.items) }
    {
        for part in 0..self.book.part_count(rule, first.as_held()) {
            self.add_of_part(rule, part + 1, server, first, second, needs)?;
        }
        Ok(())
    }

    /// Adds the needs of two versions in the order of their cells, if they ever stand together.
    fn add_pair(
        &self,
        rule: u16,
        server: Option<Version>,
        one: Version,
        other: Version,
        needs: &mut Vec<Need>,
    ) -> Result<(), AllocError>
        requires number { rule < length self.now.book.now }
        requires fit { FitsSetting (setting_in V.content self.now) }
        requires server { IsAtIfAny (setting_in V.content self.now) server }
        requires one { IsAt (setting_in V.content self.now) one }
        requires other { IsAt (setting_in V.content self.now) other }
        ensures ok { OnOk result (Gains (IsNeedOfPair self.now.book.now rule server.entry one.entry other.entry)
            (IsNeedOfPair self.now.book.now rule server.entry one.entry other.entry) needs.old.items needs.new.items) }
        ensures err { OnErr result (GainsSome (IsNeedOfPair self.now.book.now rule server.entry one.entry other.entry)
            needs.old.items needs.new.items) }
    {
        if are_opposed(one.life, other.life) {
            return Ok(());
        }
        match one.id.cell.cmp(&other.id.cell) {
            Ordering::Less => self.add_of_two(rule, server, one, other, needs)?,
            Ordering::Equal => {}
            Ordering::Greater => self.add_of_two(rule, server, other, one, needs)?,
        }
        Ok(())
    }

    /// Adds the needs of a version with each of some others, where the rule is asked of two. If
    /// memory runs out, the list keeps what stood in it, and besides that it has only some of these
    /// needs.
    pub fn add_pairs(
        &self,
        rule: u16,
        server: Option<Version>,
        one: Version,
        others: &[Version],
        needs: &mut Vec<Need>,
    ) -> Result<(), AllocError>
        requires number { rule < length self.now.book.now }
        requires fit { FitsSetting (setting_in V.content self.now) }
        requires server { IsAtIfAny (setting_in V.content self.now) server }
        requires one { IsAt (setting_in V.content self.now) one }
        requires others { AreAt (setting_in V.content self.now) others.now }
        ensures ok { OnOk result (Gains (IsNeedAmong self.now.book.now rule server.entry one.entry others.now)
            (IsNeedAmong self.now.book.now rule server.entry one.entry others.now) needs.old.items needs.new.items) }
        ensures err { OnErr result (GainsSome (IsNeedAmong self.now.book.now rule server.entry one.entry others.now)
            needs.old.items needs.new.items) }
    {
        if !is_asked_of_two(self.book, rule) {
            return Ok(());
        }
        for other in others {
            self.add_pair(rule, server, one, *other, needs)?;
        }
        Ok(())
    }

    /// Adds the names of those of some versions that serve. If memory runs out, the list keeps what
    /// stood in it, and besides that it has only some of these names.
    pub fn add_servers(
        &self,
        ask: Ask,
        first: Version,
        second: Option<Version>,
        others: &[Version],
        names: &mut Vec<VersionId>,
    ) -> Result<(), AllocError>
        requires number { ask.rule < length self.now.book.now }
        requires fit { FitsSetting (setting_in V.content self.now) }
        requires first { IsAt (setting_in V.content self.now) first }
        requires second { IsAtIfAny (setting_in V.content self.now) second }
        requires others { AreAt (setting_in V.content self.now) others.now }
        ensures ok { OnOk result (Gains (IsServerAmong self.now.book.now ask first.entry second.entry others.now)
            (IsServerAmong self.now.book.now ask first.entry second.entry others.now) names.old.items names.new.items) }
        ensures err { OnErr result (GainsSome (IsServerAmong self.now.book.now ask first.entry second.entry others.now)
            names.old.items names.new.items) }
    {
        for other in others {
            if self.serves_if_any(ask, first, second, Some(*other)) {
                names.push(other.id)?;
            }
        }
        Ok(())
    }
}
