//! The changes of members that bring or take away a row which serves a need.

ghost use Rattle.std.specs.Prelude.{◌≡◌, ◌++◌, All, true, IfSome, OnOk, IfOk, Some, option_map, option_to_list};
ghost use Rattle.std.specs.List.{list_all};
ghost use Rattle.std.specs.Option.{option_copied};
ghost use Rattle.clr_rows.specs.Held.{held_of};
ghost use Rattle.clr_rules.specs.Books.{FitsCell};
ghost use Rattle.clr_steps.specs.Quiet.{MergeSet};
ghost use Rattle.clr_serving_rows.specs.Servers.{changes_by, changes_of_member, fits, held_in, is_served, server_changes, serves_need, subjects_in};
ghost use Rattle.clr_serving_rows.specs.Servers.{subjects_of};
ghost use Rattle.clr_merge_sets.specs.MemberChanges.{AreMembers};

use clr_change::ChangeSet;
use clr_engine::Office;
use clr_member_changes::MemberChanges;
use clr_merge_sets::row_of_version;
use clr_needs::{Need, VersionId};
use clr_rows::{CellId, Held, Row};
use std::alloc::{AllocError, Global};

/// A change of a row that serves a need.
#[derive(Clone, Copy, Debug)]
pub struct ServerChange {
    /// The position of the member that makes it.
    pub member: usize,
    pub cell: CellId,
    /// Whether the row that serves is taken away; else it is brought.
    pub leaves: bool,
}

/// A need with the rows of its subjects.
#[derive(Clone, Copy)]
struct Asked<'a> {
    need: &'a Need,
    first: Held<'a>,
    second: Option<Held<'a>>,
}

/// Returns whether a row fits the schema of an office.
fn fits(office: &Office, held: Held<'_>) -> bool
    ensures value { result ≡ fits office.now.schema (held_of held.entry) }
    ensures cell { result ≡ true → FitsCell office.now.schema (held_of held.entry) }
{
    office.schema().fits(held.cell, held.row).is_ok()
}

/// Returns whether a row fits the schema of an office, where there is one.
fn fits_if_any(office: &Office, held: Option<Held<'_>>) -> bool
    ensures value { result ≡ list_all (fits office.now.schema) (option_to_list (option_map held_of held.entry)) }
    ensures cells { result ≡ true → All (FitsCell office.now.schema) (option_to_list (option_map held_of held.entry)) }
{
    match held {
        Some(held) => fits(office, held),
        None => true,
    }
}

impl Asked<'_> {
    /// Returns whether a row serves the need. Rows that don't fit the schema serve nothing.
    #[tactic(auto, unfolding(crate::specs::Servers::serves_need))]
    fn is_served(&self, office: &Office, server: Held<'_>) -> bool
        ensures { result ≡ serves_need office.now self.now.need.now (subjects_of self.now) (held_of server.entry) }
    {
        let book = office.book();
        if self.need.rule as usize >= book.len() || !fits(office, self.first) {
            return false;
        }
        if !fits(office, server) || !fits_if_any(office, self.second) {
            return false;
        }
        book.serves(self.need.ask(), self.first, self.second, server)
    }

    /// Returns whether a row serves the need, where there is one.
    fn is_served_by(&self, office: &Office, cell: CellId, row: Option<&Row>) -> bool
        ensures { result ≡ is_served office.now self.now.need.now (subjects_of self.now) cell (option_copied row.entry) }
    {
        match row {
            Some(row) => self.is_served(office, Held { cell, row }),
            None => false,
        }
    }

    /// Adds the changes of a member that bring a row which serves the need, or take one away.
    fn add_changes(
        &self,
        found: &mut Vec<ServerChange>,
        office: &Office,
        member: usize,
        set: &ChangeSet,
    ) -> Result<(), AllocError>
        ensures { OnOk result (found.new.items ≡ found.old.items
            ++ changes_of_member office.now self.now.need.now (subjects_of self.now) (member, set.now)) }
    {
        for (cell, change) in set.iter() {
            let leaves = self.is_served_by(office, *cell, change.before.as_ref());
            if leaves != self.is_served_by(office, *cell, change.after.as_ref()) {
                found.push(ServerChange {
                    member,
                    cell: *cell,
                    leaves,
                })?;
            }
        }
        Ok(())
    }

    /// Finds the changes of members that bring a row which serves the need, or take one away.
    fn changes(
        &self,
        alloc: Global,
        office: &Office,
        sets: &[ChangeSet],
    ) -> Result<Vec<ServerChange>, AllocError>
        ensures { IfOk result (λ found. found.items ≡ changes_by office.now self.now.need.now sets.now (Some (subjects_of self.now))) }
    {
        let mut found = Vec::new(alloc);
        for member in 0..sets.len() {
            self.add_changes(&mut found, office, member, &sets[member])?;
        }
        Ok(found)
    }
}

/// Finds the row of a version at its cell, if it stands.
fn held_by<'a>(
    office: &'a Office,
    members: &'a MemberChanges<'_>,
    version: VersionId,
) -> Option<Held<'a>>
    ensures { (s : MergeSet) → AreMembers office.entry.now s members.entry.now → option_map held_of result ≡ held_in office.entry.now s version }
{
    let row = row_of_version(office, members, version)?;
    Some(Held {
        cell: version.cell,
        row,
    })
}

/// Finds the rows of a need's subjects, if all of them stand.
fn asked_by<'a>(
    office: &'a Office,
    members: &'a MemberChanges<'_>,
    need: &'a Need,
) -> Option<Asked<'a>>
    ensures need { IfSome result (λ asked. asked.need.now ≡ need.entry.now) }
    ensures subjects { (s : MergeSet) → AreMembers office.entry.now s members.entry.now
        → option_map subjects_of result ≡ subjects_in office.entry.now s need.entry.now }
{
    let first = held_by(office, members, need.first)?;
    let second = match need.second {
        Some(version) => Some(held_by(office, members, version)?),
        None => None,
    };
    Some(Asked {
        need,
        first,
        second,
    })
}

/// Finds the changes of members that bring a row which serves a need, or take one away, in the order of
/// the members and of the cells; none where a row of the need's subjects doesn't stand.
pub fn server_changes(
    alloc: Global,
    office: &Office,
    members: &MemberChanges<'_>,
    need: &Need,
) -> Result<Vec<ServerChange>, AllocError>
    ensures { IfOk result (λ found. (s : MergeSet) → AreMembers office.now s members.now → found.items ≡ server_changes office.now s need.now) }
{
    match asked_by(office, members, need) {
        Some(asked) => asked.changes(alloc, office, members.changes.as_slice()),
        None => Ok(Vec::new(alloc)),
    }
}
