//! The workspaces of an office text, by their differences.

ghost use Rattle.std.specs.Prelude.{◌≡◌, [], map};
ghost use Rattle.clr_deltas.specs.NamedDeltas.{stored_delta};
ghost use Rattle.clr_readings.specs.Readings.{Gives};
ghost use Rattle.clr_rule_text.specs.Fields.{text_lacks_memory};
ghost use Rattle.clr_rule_text.specs.Seen.{items_seen};
ghost use Rattle.clr_office_reading.specs.Workspaces.{HasNames, contents_of, head_of, kept_of, delta_of, deltas_after, deltas_of, under_one_of};

use crate::earlier_names::{note_name, stands};
use crate::formats::Format;
use crate::named_marks::marks;
use crate::patches::differences_in;
use clr_deltas::{Delta, Differences, StoredMark, StoredPart};
use clr_rows::{Schema, Words};
use clr_rule_text::TextFault;
use clr_rule_text::fields::{optional_flag, optional_list, words_in};
use clr_rule_text::json_values::JsonValue;
use std::alloc::Global;
use std::collections::BTreeSet;

/// The name of a workspace, that of its parent, and its flag.
#[derive(Debug, Drop)]
pub struct Head {
    pub name: Words,
    pub parent: Words,
    pub kept: bool,
}

fn read_kept<J: JsonValue>(json: &J, format: Format) -> Result<bool, TextFault>
    ensures { Gives text_lacks_memory (λ b. b) result (kept_of format (J.stands_for json.now)) }
{
    match format {
        Format::First | Format::Second => Ok(false),
        Format::Third | Format::Fourth => optional_flag(json, "kept"),
    }
}

/// Returns what is written first of a workspace. Fails with `BadField` where a key is missing, or a value is none
/// of those that may stand there.
#[tactic(auto, unfolding(crate::specs::Workspaces::head_of))]
pub fn read_head<J: JsonValue>(alloc: Global, json: &J, format: Format) -> Result<Head, TextFault>
    ensures { Gives text_lacks_memory (λ h. h) result (head_of format (J.stands_for json.now)) }
{
    let name = words_in(alloc, json, "name")?;
    let parent = words_in(alloc, json, "parent")?;
    let kept = read_kept(json, format)?;
    Ok(Head { name, parent, kept })
}

fn head_under(
    earlier: &[StoredPart],
    names: &BTreeSet<String>,
    head: Head,
) -> Result<Head, TextFault>
    requires { HasNames names.now (map stored_delta earlier.now) }
    ensures { Gives text_lacks_memory (λ h. h) result (under_one_of (map stored_delta earlier.now) head) }
{
    let _earlier = earlier;
    if stands(names, head.parent.as_str()) {
        Ok(head)
    } else {
        Err(TextFault::BadPart)
    }
}

/// Returns what a workspace has beside its head: its base, its rows and its marks.
#[tactic(auto, unfolding(crate::specs::Workspaces::contents_of))]
fn contents<J: JsonValue>(
    alloc: Global,
    json: &J,
    schema: &Schema,
) -> Result<(Differences, Differences, Vec<StoredMark>), TextFault>
    ensures { Gives text_lacks_memory (λ c. (c.0, c.1, c.2.items)) result (contents_of schema.now (J.stands_for json.now)) }
{
    let base = differences_in(alloc, json, "base", schema)?;
    let current = differences_in(alloc, json, "rows", schema)?;
    let marks = marks(alloc, json, schema)?;
    Ok((base, current, marks))
}

/// Returns a workspace, behind earlier ones of these names. Fails as `stored_parts` does at one workspace.
#[tactic(auto, unfolding(crate::specs::Workspaces::delta_of))]
pub fn workspace<J: JsonValue>(
    alloc: Global,
    json: &J,
    format: Format,
    schema: &Schema,
    earlier: &[StoredPart],
    names: &BTreeSet<String>,
) -> Result<StoredPart, TextFault>
    requires { HasNames names.now (map stored_delta earlier.now) }
    ensures { Gives text_lacks_memory stored_delta result (delta_of format schema.now (map stored_delta earlier.now) (J.stands_for json.now)) }
{
    let head = head_under(earlier, names, read_head(alloc, json, format)?)?;
    let contents = contents(alloc, json, schema)?;
    let delta = Delta {
        parent: head.parent,
        base: contents.0,
        current: contents.1,
        marks: contents.2,
        kept: head.kept,
    };
    Ok(StoredPart {
        name: head.name,
        delta,
    })
}

fn each_workspace<J: JsonValue>(
    alloc: Global,
    items: &[J],
    format: Format,
    schema: &Schema,
) -> Result<Vec<StoredPart>, TextFault>
    ensures { Gives text_lacks_memory (λ v. map stored_delta v.items) result (deltas_after format schema.now [] (items_seen J.stands_for items.now)) }
{
    let mut parts = Vec::new(alloc);
    let mut names = BTreeSet::new(alloc);
    for item in items {
        let one = workspace(alloc, item, format, schema, parts.as_slice(), &names)?;
        note_name(&mut names, &one.name)?;
        parts.push(one)?;
    }
    Ok(parts)
}

/// Returns the workspaces of an office text, in order of creation; a missing list is empty. Of each
/// one first the name, the parent and the flag are read, then its base, its rows and its marks.
/// Each of these fails with `BadField` where a key is missing, or a value is none of those that may
/// stand there, and then with `BadPart` where the parent is neither LIVE nor an earlier workspace,
/// with `BadRow` where the table of a cell isn't known, or the row doesn't fit it, and with
/// `RepeatedCell` where a cell stood earlier in its list.
#[tactic(auto, unfolding(crate::specs::Workspaces::deltas_of))]
pub fn stored_parts<J: JsonValue>(
    alloc: Global,
    json: &J,
    format: Format,
    schema: &Schema,
) -> Result<Vec<StoredPart>, TextFault>
    ensures { Gives text_lacks_memory (λ v. map stored_delta v.items) result (deltas_of format schema.now (J.stands_for json.now)) }
{
    each_workspace(alloc, optional_list(json, "workspaces")?, format, schema)
}
