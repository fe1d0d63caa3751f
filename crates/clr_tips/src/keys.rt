//! The keys of rows that tips bring.

ghost use Rattle.std.specs.Prelude.{◌≡◌, ◌<◌, ℕ, IfOk, map};
ghost use Rattle.std.specs.FinMap as finite;
ghost use Rattle.std.specs.List.{position};
ghost use Rattle.std.specs.Str.{bytes_eq};
ghost use Rattle.clr_tips.specs.Keys.{all_names, greater_key, greatest_in, greatest_key, greatest_of, key_among, later_among, later_key, own_key};
ghost use Rattle.clr_tips.specs.Keys.{later_tip_key, standing_key, tip_key, within_keys};
ghost use Rattle.clr_member_changes.specs.Names.{member_name};
ghost use Rattle.clr_merge_sets.specs.MemberChanges.{set_of};

use clr_change::ChangeSet;
use clr_engine::Office;
use clr_member_changes::MemberChanges;
use clr_merge_sets::read_member_changes;
use clr_rows::{CellId, GREATEST_KEY, Sheet};
use std::alloc::{AllocError, Global};

/// What the keys of a table's tips are made of: the names of LIVE and of all workspaces in order of creation, and the greatest key of the table.
#[derive(Drop)]
struct Keys<'a> {
    names: Vec<&'a str>,
    greatest: u64,
}

/// Returns the greater of a key and that of a cell, where it is of this table.
fn greater_key(key: u64, cell: CellId, table: u16) -> u64
    ensures { result ≡ greater_key table key cell }
{
    if cell.table == table {
        key.max(cell.key.unsigned_abs())
    } else {
        key
    }
}

/// Returns the greatest of a key and the keys of a table in a content.
fn greatest_standing(key: u64, rows: &Sheet, table: u16) -> u64
    ensures { result ≡ greatest_of table key (finite.entries rows.now) }
{
    let mut greatest = key;
    for (cell, _) in rows.iter() {
        greatest = greater_key(greatest, *cell, table);
    }
    greatest
}

/// Returns the greatest of a key and the keys of a table among the cells of a change set.
fn greatest_changed(key: u64, set: &ChangeSet, table: u16) -> u64
    ensures { result ≡ greatest_of table key (finite.entries set.now) }
{
    let mut greatest = key;
    for (cell, _) in set.iter() {
        greatest = greater_key(greatest, *cell, table);
    }
    greatest
}

/// Returns the greatest of a key and the keys of a table among the cells of change sets.
fn greatest_in(key: u64, sets: &[ChangeSet], table: u16) -> u64
    ensures { result ≡ greatest_in table key sets.now }
{
    let mut greatest = key;
    for set in sets {
        greatest = greatest_changed(greatest, set, table);
    }
    greatest
}

/// Returns the names of LIVE and of all workspaces, in order of creation.
fn all_names<'a>(alloc: Global, office: &'a Office) -> Result<Vec<&'a str>, AllocError>
    ensures { IfOk result (λ names. map (λ name. name.now) names.items ≡ all_names office.entry.now) }
{
    let mut names = Vec::new(alloc);
    for at in 0..office.len() {
        match office.name_at(at) {
            Some(name) => names.push(name)?,
            None => {}
        }
    }
    Ok(names)
}

/// Returns the greatest key of a table in a content, if there is one; else 0.
fn standing_key(rows: &Option<Sheet>, table: u16) -> u64
    ensures { result ≡ standing_key table rows.now }
{
    match rows {
        Some(rows) => greatest_standing(0, rows, table),
        None => 0,
    }
}

/// Returns the greatest key of a table in a root and among the changes of all workspaces.
fn greatest_key(
    alloc: Global,
    office: &Office,
    root: &str,
    names: &[&str],
    table: u16,
) -> Result<u64, AllocError>
    ensures { map (λ name. name.now) names.now ≡ all_names office.now → IfOk result (λ key. key ≡ greatest_key office.now root.now table) }
{
    let rows = office.rows(root)?;
    let standing = standing_key(&rows, table);
    let all = read_member_changes(alloc, office, root, names)?;
    Ok(greatest_in(standing, all.changes.as_slice(), table))
}

/// Returns the position of a name among names.
fn position_of(names: &[&str], name: &str) -> Option<usize>
    ensures { result ≡ position (λ other. bytes_eq other name.now) (map (λ other. other.now) names.now) }
{
    for at in 0..names.len() {
        if names[at] == name {
            return Some(at);
        }
    }
    None
}

/// Returns the key of the one at a position among this many that is above a key.
fn own_key(count: usize, at: usize, key: u64) -> Option<i64>
    requires { 0 < count }
    ensures { result ≡ within_keys (own_key count at key) }
{
    let whole = key - key % count as u64;
    let own = u128::from(whole) + count as u128 + at as u128;
    if own <= GREATEST_KEY as u128 {
        Some(own as i64)
    } else {
        None
    }
}

/// Returns the next key behind one of a workspace that is its own too, among this many.
fn later_key(count: usize, key: i64) -> Option<i64>
    ensures { result ≡ later_key count key }
{
    let later = u128::from(key.unsigned_abs()) + count as u128;
    if later <= GREATEST_KEY as u128 {
        Some(later as i64)
    } else {
        None
    }
}

impl<'a> Keys<'a> {
    /// Reads what the keys of a table's tips are made of.
    fn read(
        alloc: Global,
        office: &'a Office,
        root: &str,
        table: u16,
    ) -> Result<Keys<'a>, AllocError>
        ensures names { IfOk result (λ keys. map (λ name. name.now) keys.names.items ≡ all_names office.entry.now) }
        ensures greatest { IfOk result (λ keys. keys.greatest ≡ greatest_key office.entry.now root.now table) }
    {
        let names = all_names(alloc, office)?;
        let greatest = greatest_key(alloc, office, root, names.as_slice(), table)?;
        Ok(Keys { names, greatest })
    }

    /// Returns the key for a tip to a workspace, or none where no such workspace stands or there is no room.
    fn of(&self, name: &str) -> Option<i64>
        ensures { result ≡ key_among (map (λ other. other.now) self.now.names.items) self.now.greatest name.now }
    {
        match position_of(self.names.as_slice(), name) {
            Some(at) => own_key(self.names.len(), at, self.greatest),
            None => None,
        }
    }
    /// Returns a second key for a tip to a workspace, or none where no such workspace stands or there is no room.
    fn later_of(&self, name: &str) -> Option<i64>
        ensures { result ≡ later_among (map (λ other. other.now) self.now.names.items) self.now.greatest name.now }
    {
        match self.of(name) {
            Some(key) => later_key(self.names.len(), key),
            None => None,
        }
    }
}

/// Returns the key in a table for a tip to a member, or none where no workspace has its name or there is no room.
pub fn tip_key(
    alloc: Global,
    office: &Office,
    members: &MemberChanges<'_>,
    member: usize,
    table: u16,
) -> Result<Option<i64>, AllocError>
    ensures { IfOk result (λ key. key ≡ tip_key office.now (set_of members.now).root table (member_name (set_of members.now).members member)) }
{
    let keys = Keys::read(alloc, office, members.root, table)?;
    Ok(keys.of(members.name(member)))
}

/// Returns a second key in a table for a tip to a member, or none where no workspace has its name or there is no room.
pub(crate) fn later_tip_key(
    alloc: Global,
    office: &Office,
    members: &MemberChanges<'_>,
    member: usize,
    table: u16,
) -> Result<Option<i64>, AllocError>
    ensures { IfOk result (λ key. key ≡ later_tip_key office.now (set_of members.now).root table (member_name (set_of members.now).members member)) }
{
    let keys = Keys::read(alloc, office, members.root, table)?;
    Ok(keys.later_of(members.name(member)))
}
