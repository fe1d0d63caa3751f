//! The broken needs of one rule among rows that are filed under it. Subjects are paired with those
//! alone that share a spot with them, and a server is looked for among such servers alone: no other
//! row can stand in a need with them.

ghost use Rattle.std.specs.Prelude.{◌≡◌, ◌↔◌, ◌<◌, ◌++◌, ◌∷◌, true, length, slice_get, Contains, IfOk, IfSome, MatchOption, OnErr, OnOk, None, Some};
ghost use Rattle.std.specs.Prelude.{option_map, option_to_list};
ghost use Rattle.std.specs.List.{flat_map};
ghost use Rattle.clr_rows.specs.Held.{held_of};
ghost use Rattle.clr_rules.specs.Books.{FitTogether};
ghost use Rattle.clr_rules.specs.Calls.{plain_ask};
ghost use Rattle.clr_rules.specs.Roles.{roles_under};
ghost use Rattle.clr_rules.specs.declared.needs.Broken.{Broken as OneBroken};
ghost use Rattle.clr_rows.specs.Beginnings.{IsBegun};
ghost use Rattle.clr_audit.specs.Searches.{
  AreInCellOrder,
  AreRowsFiled,
  GainsAll,
  GainsBrokenAlone,
  IsAlone,
  IsLeastFrom,
  IsLeastListed,
  IsOfPart,
  IsOfRow,
  IsOfRule,
};
ghost use Rattle.clr_audit.specs.Searches.{IsPaired};
ghost use Rattle.clr_audit.specs.Searches.{is_up_to, may_serve_at, need_if_broken, need_beside, rows_of, serves_among, serves_at, server_if, servers_at_spots};
ghost use Rattle.clr_audit.specs.Searches.{servers_near, servers_of_part};

use crate::part_servers::may_serve_part;
use crate::role_index::RoleIndex;
use clr_rows::{CellId, Held};
use clr_rules::{Ask, Broken, Roles, RuleBook};
use clr_spots::{FiledPart, Spot, Spots, put_in_order, subject_spots};
use std::alloc::{AllocError, Global};

/// Returns whether a broken need comes at or before all those of a rule whose first subject is at a
/// cell.
fn is_up_to(rule: u16, cell: CellId, need: &Broken) -> bool
    ensures { result ≡ is_up_to rule cell need.now }
{
    need.rule.cmp(&rule).then(need.first.cmp(&cell)).is_le()
}

/// Puts a list in order, and answers its least need, where no need of a later row can come before
/// it.
fn least_up_to(rule: u16, cell: CellId, list: &mut Vec<Broken>) -> Option<Broken>
    ensures same { (b : OneBroken) → Contains list.new.items b ↔ Contains list.old.items b }
    ensures least { IfSome result (IsLeastListed list.old.items) }
    ensures early { IfSome result (λ need. is_up_to rule cell need ≡ true) }
{
    put_in_order(list);
    match list.as_slice().first() {
        Some(need) if is_up_to(rule, cell, need) => Some(*need),
        _ => None,
    }
}

fn row_by_position<'a, 'b>(rows: &'a [Held<'b>], position: usize) -> Option<&'a Held<'b>>
    ensures { option_map (λ h. h.now) result ≡ slice_get rows.now position }
{
    rows.get(position)
}

/// A rule of a book, and rows in the order of their cells, filed under it.
#[derive(Clone, Copy)]
pub(crate) struct Search<'a> {
    pub book: &'a RuleBook,
    pub rule: u16,
    pub rows: &'a [Held<'a>],
    pub index: &'a RoleIndex,
}

impl<'a> Search<'a> {
    fn row_at(&self, position: usize) -> Option<Held<'a>>
        ensures { option_map held_of result ≡ slice_get (rows_of self.now) position }
    {
        row_by_position(self.rows, position).copied()
    }

    /// Returns whether the row of a filed part serves these subjects.
    #[tactic(auto, using(crate::proofs::FitLaws::fit_served, crate::proofs::NeedLaws::at_among))]
    fn serves_at(&self, ask: Ask, first: Held, second: Option<Held>, filed_part: FiledPart) -> bool
        requires number { ask.rule < length self.now.book.now }
        requires fit { FitTogether self.now.book.now (held_of first ∷ (option_to_list (option_map held_of second) ++ rows_of self.now)) }
        ensures { result ≡ serves_at self.now.book.now ask (rows_of self.now) (held_of first.entry) (option_map held_of second.entry) filed_part }
    {
        match self.row_at(filed_part.position) {
            Some(server) => self.book.serves(ask, first, second, server),
            None => false,
        }
    }

    fn serves_among(
        &self,
        ask: Ask,
        first: Held,
        second: Option<Held>,
        filed_parts: &[FiledPart],
    ) -> bool
        requires number { ask.rule < length self.now.book.now }
        requires fit { FitTogether self.now.book.now (held_of first ∷ (option_to_list (option_map held_of second) ++ rows_of self.now)) }
        ensures { result ≡ serves_among self.now ask (held_of first.entry) (option_map held_of second.entry) filed_parts.now }
    {
        for filed in filed_parts {
            if self.serves_at(ask, first, second, *filed) {
                return true;
            }
        }
        false
    }

    fn serves_at_spots(&self, ask: Ask, first: Held, second: Option<Held>, spots: &[Spot]) -> bool
        requires number { ask.rule < length self.now.book.now }
        requires fit { FitTogether self.now.book.now (held_of first ∷ (option_to_list (option_map held_of second) ++ rows_of self.now)) }
        ensures { result ≡ serves_among self.now ask (held_of first.entry) (option_map held_of second.entry) (servers_at_spots self.now spots.now) }
    {
        for spot in spots {
            if self.serves_among(ask, first, second, self.index.servers.parts_at(spot)) {
                return true;
            }
        }
        false
    }

    /// Returns whether a server serves these subjects, the first one being a row of these spots.
    fn is_served(&self, ask: Ask, first: Held, second: Option<Held>, spots: &Spots) -> bool
        requires number { ask.rule < length self.now.book.now }
        requires fit { FitTogether self.now.book.now (held_of first ∷ (option_to_list (option_map held_of second) ++ rows_of self.now)) }
        ensures { result ≡ serves_among self.now ask (held_of first.entry) (option_map held_of second.entry) (servers_near self.now spots.now) }
    {
        if spots.wide {
            return self.serves_among(ask, first, second, self.index.servers.all());
        }
        self.serves_among(ask, first, second, self.index.servers.wide())
            || self.serves_at_spots(ask, first, second, spots.list.as_slice())
    }

    /// Adds the need of a row alone, where it calls and no server of these spots serves it.
    #[tactic(auto, using(crate::proofs::FitLaws::fit_first))]
    fn add_one_if_broken(
        &self,
        first: Held,
        spots: &Spots,
        list: &mut Vec<Broken>,
    ) -> Result<(), AllocError>
        requires number { self.now.rule < length self.now.book.now }
        requires fit { FitTogether self.now.book.now (held_of first ∷ rows_of self.now) }
        ensures ok { OnOk result (list.new.items ≡ list.old.items
            ++ need_if_broken self.now (servers_near self.now spots.now) (plain_ask self.now.rule) (held_of first.entry) None) }
        ensures err { OnErr result (list.new.items ≡ list.old.items) }
    {
        let ask = Ask::plain(self.rule);
        if self.book.calls_one(self.rule, first) && !self.is_served(ask, first, None, spots) {
            list.push(Broken::new(ask, first.cell, None))?;
        }
        Ok(())
    }

    /// Adds the need of two rows, where they call and none of these servers serves them.
    #[tactic(auto, using(crate::proofs::FitLaws::fit_both))]
    fn add_two_if_broken(
        &self,
        ask: Ask,
        first: Held,
        second: Held,
        servers: &[FiledPart],
        list: &mut Vec<Broken>,
    ) -> Result<(), AllocError>
        requires number { ask.rule < length self.now.book.now }
        requires fit { FitTogether self.now.book.now (held_of first ∷ held_of second ∷ rows_of self.now) }
        ensures ok { OnOk result (list.new.items ≡ list.old.items
            ++ need_if_broken self.now servers.now ask (held_of first.entry) (Some (held_of second.entry))) }
        ensures err { OnErr result (list.new.items ≡ list.old.items) }
    {
        if self.book.calls_two(ask, first, second)
            && !self.serves_among(ask, first, Some(second), servers)
        {
            list.push(Broken::new(ask, first.cell, Some(second.cell)))?;
        }
        Ok(())
    }

    /// Adds the need of a part of a row with a filed part, if the row of that part comes after it.
    fn add_beside(
        &self,
        first: Held,
        part: u16,
        servers: &[FiledPart],
        filed_part: FiledPart,
        list: &mut Vec<Broken>,
    ) -> Result<(), AllocError>
        requires number { self.now.rule < length self.now.book.now }
        requires fit { FitTogether self.now.book.now (held_of first ∷ rows_of self.now) }
        ensures ok { OnOk result (list.new.items ≡ list.old.items ++ need_beside self.now servers.now (held_of first.entry) part filed_part) }
        ensures err { OnErr result (list.new.items ≡ list.old.items) }
    {
        let ask = Ask {
            rule: self.rule,
            first_part: part,
            second_part: filed_part.part,
        };
        match self.row_at(filed_part.position) {
            Some(second) if first.cell.cmp(&second.cell).is_lt() => {
                self.add_two_if_broken(ask, first, second, servers, list)
            }
            _ => Ok(()),
        }
    }

    fn add_beside_all(
        &self,
        first: Held,
        part: u16,
        servers: &[FiledPart],
        filed_parts: &[FiledPart],
        list: &mut Vec<Broken>,
    ) -> Result<(), AllocError>
        requires number { self.now.rule < length self.now.book.now }
        requires fit { FitTogether self.now.book.now (held_of first ∷ rows_of self.now) }
        ensures ok { OnOk result (list.new.items ≡ list.old.items ++ flat_map (need_beside self.now servers.now (held_of first.entry) part) filed_parts.now) }
        ensures err { OnErr result (IsBegun list.old.items
            (flat_map (need_beside self.now servers.now (held_of first.entry) part) filed_parts.now) list.new.items) }
    {
        for filed in filed_parts {
            self.add_beside(first, part, servers, *filed, list)?;
        }
        Ok(())
    }

    /// Adds the broken need of a row alone.
    #[tactic(auto, using(crate::proofs::FitLaws::fit_first, crate::proofs::FitLaws::fit_again, clr_rules::proofs::Elements::among))]
    fn add_alone(
        &self,
        alloc: Global,
        first: Held,
        list: &mut Vec<Broken>,
    ) -> Result<(), AllocError>
        requires number { self.now.rule < length self.now.book.now }
        requires fit { FitTogether self.now.book.now (rows_of self.now) }
        requires filed { AreRowsFiled self.now }
        requires one { Contains (rows_of self.now) (held_of first) }
        ensures ok { OnOk result (GainsAll self.now (IsAlone self.now.rule (held_of first.entry)) list.old.items list.new.items) }
        ensures err { OnErr result (list.new.items ≡ list.old.items) }
    {
        let spots = subject_spots(alloc, self.book, self.rule, 1, first)?;
        self.add_one_if_broken(first, &spots, list)?;
        Ok(())
    }

    /// Returns whether the row of a filed part may serve a part of a row.
    fn may_serve_at(&self, part: u16, first: Held, filed_part: FiledPart) -> bool
        requires number { self.now.rule < length self.now.book.now }
        requires fit { FitTogether self.now.book.now (held_of first ∷ rows_of self.now) }
        ensures { result ≡ may_serve_at self.now part (held_of first.entry) filed_part }
    {
        match self.row_at(filed_part.position) {
            Some(server) => may_serve_part(self.book.rule(self.rule), part, first, server),
            None => false,
        }
    }

    /// Adds a filed part, if its row may serve a part of a row.
    fn add_server_if(
        &self,
        part: u16,
        first: Held,
        filed_part: FiledPart,
        list: &mut Vec<FiledPart>,
    ) -> Result<(), AllocError>
        requires number { self.now.rule < length self.now.book.now }
        requires fit { FitTogether self.now.book.now (held_of first ∷ rows_of self.now) }
        ensures { OnOk result (list.new.items ≡ list.old.items ++ server_if self.now part (held_of first.entry) filed_part) }
    {
        if self.may_serve_at(part, first, filed_part) {
            list.push(filed_part)?;
        }
        Ok(())
    }

    fn add_servers(
        &self,
        part: u16,
        first: Held,
        filed_parts: &[FiledPart],
        list: &mut Vec<FiledPart>,
    ) -> Result<(), AllocError>
        requires number { self.now.rule < length self.now.book.now }
        requires fit { FitTogether self.now.book.now (held_of first ∷ rows_of self.now) }
        ensures { OnOk result (list.new.items ≡ list.old.items ++ flat_map (server_if self.now part (held_of first.entry)) filed_parts.now) }
    {
        for filed in filed_parts {
            self.add_server_if(part, first, *filed, list)?;
        }
        Ok(())
    }

    /// Returns the servers that may serve a part of a row of these spots.
    fn servers_of_part(
        &self,
        alloc: Global,
        part: u16,
        first: Held,
        spots: &Spots,
    ) -> Result<Vec<FiledPart>, AllocError>
        requires number { self.now.rule < length self.now.book.now }
        requires fit { FitTogether self.now.book.now (held_of first ∷ rows_of self.now) }
        ensures { IfOk result (λ servers. servers.items ≡ servers_of_part self.now part (held_of first.entry) spots.now) }
    {
        let mut near = Vec::new(alloc);
        self.index.servers.add_near(spots, &mut near)?;
        let mut servers = Vec::new(alloc);
        self.add_servers(part, first, near.as_slice(), &mut servers)?;
        Ok(servers)
    }

    /// Adds the broken needs of this part of a row and another row.
    #[tactic(auto, using(crate::proofs::FitLaws::fit_first, crate::proofs::FitLaws::fit_again, clr_rules::proofs::Elements::among))]
    fn add_of_part(
        &self,
        alloc: Global,
        first: Held,
        roles: Roles,
        part: u16,
        list: &mut Vec<Broken>,
    ) -> Result<(), AllocError>
        requires number { self.now.rule < length self.now.book.now }
        requires fit { FitTogether self.now.book.now (rows_of self.now) }
        requires filed { AreRowsFiled self.now }
        requires one { Contains (rows_of self.now) (held_of first) }
        requires roles { roles ≡ roles_under self.now.book.now self.now.rule (held_of first) }
        ensures ok { OnOk result (GainsAll self.now (IsOfPart self.now.rule (held_of first.entry) part) list.old.items list.new.items) }
        ensures err { OnErr result (GainsBrokenAlone self.now list.old.items list.new.items) }
    {
        let spots = subject_spots(alloc, self.book, self.rule, part, first)?;
        let mut beside = Vec::new(alloc);
        self.index.add_partners(roles, &spots, &mut beside)?;
        put_in_order(&mut beside);
        let servers = self.servers_of_part(alloc, part, first, &spots)?;
        self.add_beside_all(first, part, servers.as_slice(), beside.as_slice(), list)?;
        Ok(())
    }

    /// Adds the broken needs of a row and another row, part by part.
    #[tactic(auto, using(crate::proofs::FitLaws::fit_first, crate::proofs::FitLaws::fit_again, clr_rules::proofs::Elements::among))]
    fn add_pairs(
        &self,
        alloc: Global,
        first: Held,
        roles: Roles,
        list: &mut Vec<Broken>,
    ) -> Result<(), AllocError>
        requires number { self.now.rule < length self.now.book.now }
        requires fit { FitTogether self.now.book.now (rows_of self.now) }
        requires filed { AreRowsFiled self.now }
        requires one { Contains (rows_of self.now) (held_of first) }
        requires roles { roles ≡ roles_under self.now.book.now self.now.rule (held_of first) }
        ensures ok { OnOk result (GainsAll self.now (IsPaired self.now.rule (held_of first.entry)) list.old.items list.new.items) }
        ensures err { OnErr result (GainsBrokenAlone self.now list.old.items list.new.items) }
    {
        for part in 0..self.book.part_count(self.rule, first) {
            self.add_of_part(alloc, first, roles, part + 1, list)?;
        }
        Ok(())
    }

    /// Adds the broken needs whose first subject is this row.
    fn add_of_row(
        &self,
        alloc: Global,
        first: Held,
        list: &mut Vec<Broken>,
    ) -> Result<(), AllocError>
        requires number { self.now.rule < length self.now.book.now }
        requires fit { FitTogether self.now.book.now (rows_of self.now) }
        requires filed { AreRowsFiled self.now }
        requires one { Contains (rows_of self.now) (held_of first) }
        ensures ok { OnOk result (GainsAll self.now (IsOfRow self.now.rule (held_of first.entry)) list.old.items list.new.items) }
        ensures err { OnErr result (GainsBrokenAlone self.now list.old.items list.new.items) }
    {
        let roles = self.book.roles_of(self.rule, first);
        if roles.alone {
            self.add_alone(alloc, first, list)?;
        }
        if roles.first || roles.second {
            self.add_pairs(alloc, first, roles, list)?;
        }
        Ok(())
    }

    /// Adds the broken needs of the rule. If memory runs out, the list keeps what stood in it, and
    /// besides that it has only broken needs.
    pub(crate) fn add_all(&self, alloc: Global, list: &mut Vec<Broken>) -> Result<(), AllocError>
        requires number { self.now.rule < length self.now.book.now }
        requires fit { FitTogether self.now.book.now (rows_of self.now) }
        requires filed { AreRowsFiled self.now }
        ensures ok { OnOk result (GainsAll self.now (IsOfRule self.now.rule) list.old.items list.new.items) }
        ensures err { OnErr result (GainsBrokenAlone self.now list.old.items list.new.items) }
    {
        for first in self.rows {
            self.add_of_row(alloc, *first, list)?;
        }
        Ok(())
    }

    /// Adds the broken needs of the rule, row by row, and answers the least of the list as soon as
    /// no later row or rule can have a lesser one. None is answered where all of them were added.
    pub(crate) fn add_until_least(
        &self,
        alloc: Global,
        list: &mut Vec<Broken>,
    ) -> Result<Option<Broken>, AllocError>
        requires number { self.now.rule < length self.now.book.now }
        requires fit { FitTogether self.now.book.now (rows_of self.now) }
        requires filed { AreRowsFiled self.now }
        requires in_order { AreInCellOrder (rows_of self.now) }
        ensures { IfOk result (λ found. MatchOption found
            (GainsAll self.now (IsOfRule self.now.rule) list.old.items list.new.items) (IsLeastFrom self.now list.old.items)) }
    {
        for first in self.rows {
            self.add_of_row(alloc, *first, list)?;
            if let Some(need) = least_up_to(self.rule, first.cell, list) {
                return Ok(Some(need));
            }
        }
        Ok(None)
    }
}
