//! The rows of a content under one rule, filed by their spots, each role apart.

ghost use Rattle.std.specs.Prelude.{◌≡◌, ◌<◌, ◌++◌, ◌∷◌, [], length, map, IfOk, OnErr, OnOk};
ghost use Rattle.clr_rows.specs.Held.{held_of};
ghost use Rattle.clr_rules.specs.Books.{FitTogether};
ghost use Rattle.clr_rules.specs.Roles.{roles_under};
ghost use Rattle.clr_rows.specs.Beginnings.{IsBegun};
ghost use Rattle.clr_audit.specs.RoleFiling.{no_rows_filed, with_subject, with_pairs, with_server, filed_rows, partners};

use clr_rows::Held;
use clr_rules::{Roles, RuleBook};
use clr_spots::{FiledPart, SpotMap, Spots, server_spots, subject_spots};
use std::alloc::{AllocError, Global};

/// Subjects that may be the first of two alone, the second alone, or both, and servers.
#[derive(Drop)]
pub(crate) struct RoleIndex {
    pub firsts: SpotMap,
    pub seconds: SpotMap,
    pub boths: SpotMap,
    pub servers: SpotMap,
}

impl RoleIndex {
    fn new(alloc: Global) -> RoleIndex
        ensures { result ≡ no_rows_filed }
    {
        RoleIndex {
            firsts: SpotMap::new(alloc),
            seconds: SpotMap::new(alloc),
            boths: SpotMap::new(alloc),
            servers: SpotMap::new(alloc),
        }
    }

    fn file_subject(
        &mut self,
        alloc: Global,
        roles: Roles,
        filed_part: FiledPart,
        spots: Spots,
    ) -> Result<(), AllocError>
        ensures { OnOk result (self.new ≡ with_subject self.old roles filed_part spots.list spots.wide) }
    {
        match (roles.first, roles.second) {
            (true, true) => self.boths.file(alloc, filed_part, spots),
            (true, false) => self.firsts.file(alloc, filed_part, spots),
            (false, true) => self.seconds.file(alloc, filed_part, spots),
            (false, false) => Ok(()),
        }
    }

    /// Files each part of a row of these roles that may be one of two subjects.
    fn file_parts(
        &mut self,
        alloc: Global,
        book: &RuleBook,
        rule: u16,
        roles: Roles,
        position: usize,
        held: Held,
    ) -> Result<(), AllocError>
        requires number { rule < length book.now }
        requires fit { FitTogether book.now (held_of held ∷ []) }
        requires roles { roles ≡ roles_under book.now rule (held_of held) }
        ensures { OnOk result (self.new ≡ with_pairs book.now rule self.old position (held_of held.entry)) }
    {
        if !(roles.first || roles.second) {
            return Ok(());
        }
        for part in 0..book.part_count(rule, held) {
            let filed_part = FiledPart {
                position,
                part: part + 1,
            };
            let spots = subject_spots(alloc, book, rule, filed_part.part, held)?;
            self.file_subject(alloc, roles, filed_part, spots)?;
        }
        Ok(())
    }

    /// Files a row of these roles that may be a server.
    fn file_server(
        &mut self,
        alloc: Global,
        book: &RuleBook,
        rule: u16,
        roles: Roles,
        position: usize,
        held: Held,
    ) -> Result<(), AllocError>
        requires number { rule < length book.now }
        requires fit { FitTogether book.now (held_of held ∷ []) }
        requires roles { roles ≡ roles_under book.now rule (held_of held) }
        ensures { OnOk result (self.new ≡ with_server book.now rule self.old position (held_of held.entry)) }
    {
        if roles.server {
            let spots = server_spots(alloc, book, rule, held)?;
            self.servers
                .file(alloc, FiledPart { position, part: 1 }, spots)?;
        }
        Ok(())
    }

    /// Returns the rows filed under a rule, by their positions.
    pub(crate) fn of_rows(
        alloc: Global,
        book: &RuleBook,
        rule: u16,
        rows: &[Held],
    ) -> Result<RoleIndex, AllocError>
        requires number { rule < length book.now }
        requires fit { FitTogether book.now (map held_of rows.now) }
        ensures { IfOk result (λ index. index ≡ filed_rows book.now rule no_rows_filed 0 (map held_of rows.now)) }
    {
        let mut index = RoleIndex::new(alloc);
        for position in 0..rows.len() {
            let held = rows[position];
            let roles = book.roles_of(rule, held);
            index.file_server(alloc, book, rule, roles, position, held)?;
            index.file_parts(alloc, book, rule, roles, position, held)?;
        }
        Ok(index)
    }

    /// Adds the filed parts of subjects that may stand beside a row of these roles and spots. If
    /// memory runs out, the list keeps what stood in it, with the first of these parts behind it.
    pub(crate) fn add_partners(
        &self,
        roles: Roles,
        spots: &Spots,
        list: &mut Vec<FiledPart>,
    ) -> Result<(), AllocError>
        ensures ok { OnOk result (list.new.items ≡ list.old.items ++ partners self.now roles spots.now.list spots.now.wide) }
        ensures err { OnErr result (IsBegun list.old.items (partners self.now roles spots.now.list spots.now.wide) list.new.items) }
    {
        self.boths.add_near(spots, list)?;
        if roles.second {
            self.firsts.add_near(spots, list)?;
        }
        if roles.first {
            self.seconds.add_near(spots, list)?;
        }
        Ok(())
    }
}
