//! The smallest sets of members that can't be merged together.

ghost use Rattle.std.specs.Prelude.{◌≡◌, ◌++◌, ◌∷◌, [], false, map, string_bytes, IfOk, OnOk};
ghost use Rattle.clr_html.specs.Words.{words_of_row};
ghost use Rattle.clr_merge_sets.specs.MemberChanges.{AreMembers, set_of};
ghost use Rattle.clr_phrases.specs.Lists.{names_text as listed_names};
ghost use Rattle.clr_plan_page.specs.Clashes.{TellsClashes, clash_row, clashes_shown, is_lost, set_heads, set_row, sets_shown};
ghost use Rattle.clr_page_parts.specs.Shown.{Adds, heads_of, rows_of, shown};

use clr_clearance::Verdict;
use clr_html::{Table, TableRow};
use clr_member_changes::MemberChanges;
use clr_merge_clashes::{MergeClash, MergeClashes, merge_clashes_of};
use clr_merge_sets::names_at;
use clr_page_parts::{Builder, row_of, table_of};
use clr_phrases::add_names;
use clr_plan_sentences::Setting;
use std::alloc::{AllocError, Global};

/// Returns names with commas between them.
fn join_names(alloc: Global, names: &[&str]) -> Result<String, AllocError>
    ensures { IfOk result (λ text. string_bytes text ≡ listed_names (map (λ name. name.now) names.now)) }
{
    let mut text = String::new(alloc);
    add_names(&mut text, names)?;
    Ok(text)
}

/// Returns the row of members with these names: who they are, and why they can't be merged together. No member's changes are looked at for that.
fn set_row(setting: Setting<'_>, names: &[&str], cause: &Verdict) -> Result<TableRow, AllocError>
    ensures { IfOk result (λ row. words_of_row row
        ≡ set_row setting.entry.office.now setting.entry.members.now.root.now (map (λ name. name.now) names.now) cause.now) }
{
    let alloc = setting.alloc;
    let members = MemberChanges {
        root: setting.members.root,
        names,
        changes: Vec::new(alloc),
    };
    let among = Setting {
        alloc,
        office: setting.office,
        members: &members,
    };
    let reason = among.reason(cause)?;
    let list = join_names(alloc, names)?;
    row_of(alloc, &[list.as_str(), reason.as_str()])
}

/// Returns the row of a set: its members, and why they can't be merged together.
fn clash_row(setting: Setting<'_>, clash: &MergeClash) -> Result<TableRow, AllocError>
    ensures { IfOk result (λ row. words_of_row row ≡ clash_row setting.entry.office.now (set_of setting.entry.members.now) clash.now) }
{
    let names = names_at(
        setting.alloc,
        setting.members.names,
        clash.members.as_slice(),
    )?;
    set_row(setting, names.as_slice(), &clash.cause)
}

/// Adds the rows of sets.
fn add_rows(
    setting: Setting<'_>,
    clashes: &[MergeClash],
    rows: &mut Vec<TableRow>,
) -> Result<(), AllocError>
    ensures { OnOk result (map words_of_row rows.new.items ≡ map words_of_row rows.old.items
        ++ map (clash_row setting.entry.office.now (set_of setting.entry.members.now)) clashes.now) }
{
    for clash in clashes {
        rows.push(clash_row(setting, clash)?)?;
    }
    Ok(())
}

/// Returns the table of sets.
fn sets_table(setting: Setting<'_>, clashes: &[MergeClash]) -> Result<Table, AllocError>
    ensures heads { IfOk result (λ table. heads_of table ≡ set_heads) }
    ensures rows { IfOk result (λ table. rows_of table ≡ map (clash_row setting.entry.office.now (set_of setting.entry.members.now)) clashes.now) }
{
    let mut table = table_of(setting.alloc, &["Designs", "Why not together"])?;
    add_rows(setting, clashes, &mut table.rows)?;
    Ok(table)
}

/// Adds sets, or the sentence that there is none.
fn add_sets(
    section: &mut Builder,
    setting: Setting<'_>,
    clashes: &[MergeClash],
) -> Result<(), AllocError>
    ensures { OnOk result (map shown section.new.blocks.items ≡ map shown section.old.blocks.items
        ++ sets_shown setting.entry.office.now (set_of setting.entry.members.now) clashes.now ∷ []) }
{
    if clashes.is_empty() {
        return section.add_paragraph("No set of these designs clashes.");
    }
    let table = sets_table(setting, clashes)?;
    section.add_table(table)
}

/// Adds the sets that were found, below a heading.
fn add_found(
    section: &mut Builder,
    setting: Setting<'_>,
    found: &MergeClashes,
) -> Result<(), AllocError>
    ensures { OnOk result (map shown section.new.blocks.items ≡ map shown section.old.blocks.items
        ++ clashes_shown setting.entry.office.now (set_of setting.entry.members.now) found.now) }
{
    section.add_heading("The clashes")?;
    add_sets(section, setting, found.clashes.as_slice())
}

/// Fails where there was no memory for the sets.
fn unless_lost(fault: &Verdict) -> Result<(), AllocError>
    ensures { OnOk result (is_lost fault.now ≡ false) }
{
    match fault {
        Verdict::OutOfMemory => Err(AllocError),
        _ => Ok(()),
    }
}

/// Adds the smallest sets of members that can't be merged together; nothing where a name is unfit. Where there was no
/// memory for the sets, this call fails too.
pub(crate) fn add_clashes(section: &mut Builder, setting: Setting<'_>) -> Result<(), AllocError>
    requires { AreMembers setting.office.now (set_of setting.members.now) setting.members.now }
    ensures { OnOk result (Adds (TellsClashes setting.entry.office.now (set_of setting.entry.members.now))
        (map shown section.old.blocks.items) (map shown section.new.blocks.items)) }
{
    match merge_clashes_of(
        setting.alloc,
        setting.office,
        setting.members.root,
        setting.members.names,
        setting.members.changes.as_slice(),
    ) {
        Ok(found) => add_found(section, setting, &found),
        Err(fault) => unless_lost(&fault),
    }
}
